//! Rules: what follows from an item.
ghost use Rattle.std.specs.Prelude.{◌≡◌, ℕ, List, ◌+◌, ◌<◌, take, length, OnOk, Result};
ghost use Rattle.cv_fix.specs.Answer.{IsAnswer};

use crate::twin::Twin;
use cv_base::Memory;
use std::alloc::Global;
use std::hash::Hash;

/// Why rules gave no items.
#[derive(Debug, Drop, PartialEq, Eq)]
pub enum RuleStop<S> {
    /// The item is refused.
    Stop(S),
    /// Memory was wanted and not found.
    Memory,
}

/// What follows from an item and the items before it. Rules may keep an index of the items.
pub trait Rules {
    /// What is listed.
    type Item: Eq + Hash + Twin + Drop;

    /// Why an item is refused.
    type Stop: Drop;

    /// For which items the rules are ready.
    ghost ready: { Self → List Self.Item → Type 0 };

    /// What follows from the last of these items and those before it, or the refusal.
    ghost follows: { Self → List Self.Item → Result (List Self.Item) Self.Stop };

    /// How many items there may be.
    ghost most: { Self → ℕ };

    /// How many items there may be.
    fn limit(&self) -> u64
        ensures { result ≡ most self.now };

    /// Makes the rules ready for the item at place `at` too. After `Memory` they are given up.
    fn note(&mut self, alloc: Global, so_far: &[Self::Item], at: usize) -> Result<(), Memory>
        requires at { at < length so_far.now }
        requires ready { ready self.old (take at so_far.now) }
        ensures ready { OnOk result (ready self.new (take (at + 1) so_far.now)) }
        ensures follows { OnOk result
            ((xs : List Self.Item) → follows self.new xs ≡ follows self.old xs) }
        ensures most { OnOk result (most self.new ≡ most self.old) };

    /// What follows from the item at place `at` and those before it. `Stop` where it is refused.
    fn successors(
        &self,
        alloc: Global,
        so_far: &[Self::Item],
        at: usize,
    ) -> Result<Vec<Self::Item>, RuleStop<Self::Stop>>
        requires at { at < length so_far.now }
        requires ready { ready self.now (take (at + 1) so_far.now) }
        ensures { IsAnswer result (follows self.now (take (at + 1) so_far.now)) };
}
