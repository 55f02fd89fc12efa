//! The closure of a list under rules.
ghost use Rattle.std.specs.Prelude.{◌≡◌, ◌≢◌, ℕ, ◌+◌, ◌<◌, ◌≤◌, List, [], length, take, All, AllPairs, Contains, IfOk, OnOk, MatchResult, Ok, Err};
ghost use Rattle.indexmap.specs.IndexSet.{insert_all};
ghost use Rattle.cv_fix.specs.Closure.{distinct, IsClosed, IsClosure, HaveCauses, Refuses, Exceeds};
ghost use Rattle.cv_fix.specs.Faults.{IfStop, IfOver, IsFault};
ghost use Rattle.cv_fix.specs.Known.{filled};

use crate::known::{AddFault, Known};
use crate::rules::{RuleStop, Rules};
use crate::steps::Steps;
use std::alloc::Global;
use std::sync::ledger::Ledger;

/// Why there is no closed list.
#[derive(Debug, Drop, PartialEq, Eq)]
pub enum CloseFault<S> {
    /// The rules refused an item so.
    Stop(S),
    /// There are more items than there may be.
    Over {
        /// The place of the item that gave the first item beyond the limit.
        at: u64,
    },
    /// Memory was wanted and not found.
    Memory,
}

/// A closed list.
#[derive(Debug, Drop)]
pub struct Closed<T> {
    /// The items in the order in which they were found, each once.
    pub items: Vec<T>,
    /// For each item the place of the first item that gave it, and nothing for a start.
    pub causes: Vec<Option<u64>>,
}

/// The different starts in order, and then for each item in order what follows from it and is new.
///
/// It takes one step for each item that it asks. `Stop` comes exactly where the first item that the
/// rules refuse is refused so. `Over` comes exactly where there would be more items than the rules'
/// limit, with the place of the item that gave the first of those beyond it. Both yield to `Memory`.
/// After a fault the rules are given up.
pub fn close<R: Rules, L: Ledger>(
    alloc: Global,
    rules: &mut R,
    starts: Vec<R::Item>,
    steps: &mut Steps<L>,
) -> Result<Closed<R::Item>, CloseFault<R::Stop>>
    requires ready { R.ready rules.old [] }
    requires room { length (distinct R.Item.eq starts.items) ≤ R.most rules.old }

    // The list: its order, and what follows from that.
    ensures closure { IfOk result
        (λ closed. IsClosure (R.follows rules.old) R.Item.eq starts.items closed.items.items) }
    ensures room { IfOk result (λ closed. length closed.items.items ≤ R.most rules.old) }
    ensures once { IfOk result (λ closed. AllPairs (λ x y. x ≢ y) closed.items.items) }
    ensures starts { IfOk result (λ closed. All (Contains closed.items.items) starts.items) }
    ensures closed { IfOk result (λ closed. IsClosed (R.follows rules.old) closed.items.items) }
    ensures causes { IfOk result (λ closed.
        HaveCauses (R.follows rules.old) starts.items closed.items.items closed.causes.items) }
    ensures steps { IfOk result (λ closed. steps.new ≡ steps.old + length closed.items.items) }

    // Each refusal comes only where the search ends so, with one step for each item that was asked.
    ensures stop { IfStop result (λ stop. (n : ℕ)
        × Refuses (R.follows rules.old) R.Item.eq starts.items (R.most rules.old) n stop
        × (steps.new ≡ steps.old + n + 1)) }
    ensures over { IfOver result (λ n.
        Exceeds (R.follows rules.old) R.Item.eq starts.items (R.most rules.old) n
        × (steps.new ≡ steps.old + n + 1)) }

    // Where the search ends in one of the three ways, no other answer comes but want of memory.
    ensures closes { (items : List R.Item)
        → IsClosure (R.follows rules.old) R.Item.eq starts.items items
        → length items ≤ R.most rules.old
        → MatchResult result
        (λ closed. closed.items.items ≡ items)
        (λ fault. fault ≡ CloseFault.Memory) }
    ensures stops { (n : ℕ) (stop : R.Stop)
        → Refuses (R.follows rules.old) R.Item.eq starts.items (R.most rules.old) n stop
        → IsFault result (CloseFault.Stop stop) }
    ensures exceeds { (n : ℕ)
        → Exceeds (R.follows rules.old) R.Item.eq starts.items (R.most rules.old) n
        → IsFault result (CloseFault.Over n) }
{
    let limit = rules.limit();
    let mut known = Known::new(alloc);
    let Ok(()) = known.add_all(starts, None, limit) else {
        return Err(CloseFault::Memory);
    };
    let mut at = 0;
    'each: while at < known.items.len() {
        ask(alloc, rules, &mut known, at, steps)?;
        at += 1;
    }
    match known.into_closed(alloc) {
        Ok(closed) => Ok(closed),
        Err(_) => Err(CloseFault::Memory),
    }
}

/// Adds what follows from the item at place `at` and is new.
fn ask<R: Rules, L: Ledger>(
    alloc: Global,
    rules: &mut R,
    known: &mut Known<R::Item>,
    at: usize,
    steps: &mut Steps<L>,
) -> Result<(), CloseFault<R::Stop>>
    requires at { at < length known.old.items.keys }
    requires ready { R.ready rules.old (take at known.old.items.keys) }
    requires room { length known.old.items.keys ≤ R.most rules.old }
    requires as_many { length known.old.causes.items ≡ length known.old.items.keys }

    // The rules are ready for one item more, and else as they were.
    ensures ready { OnOk result (R.ready rules.new (take (at + 1) known.old.items.keys)) }
    ensures follows { OnOk result
        ((xs : List R.Item) → R.follows rules.new xs ≡ R.follows rules.old xs) }
    ensures most { OnOk result (R.most rules.new ≡ R.most rules.old) }

    // What follows is added, with this item as its cause.
    ensures added { OnOk result ((xs : List R.Item)
        × (R.follows rules.old (take (at + 1) known.old.items.keys) ≡ Ok xs)
        × (known.new.items.keys ≡ insert_all R.Item.eq known.old.items.keys xs)) }
    ensures causes { OnOk result (known.new.causes.items
        ≡ filled (Some at) (length known.new.items.keys) known.old.causes.items) }
    ensures room { OnOk result (length known.new.items.keys ≤ R.most rules.old) }
    ensures steps { OnOk result (steps.new ≡ steps.old + 1) }

    ensures stop { IfStop result (λ stop.
        (R.follows rules.old (take (at + 1) known.old.items.keys) ≡ Err stop)
        × (steps.new ≡ steps.old + 1)) }
    ensures over { IfOver result (λ n. (n ≡ at) × (steps.new ≡ steps.old + 1)
        × ((xs : List R.Item)
        × (R.follows rules.old (take (at + 1) known.old.items.keys) ≡ Ok xs)
        × (R.most rules.old < length (insert_all R.Item.eq known.old.items.keys xs)))) }
{
    if rules.note(alloc, known.items.as_slice(), at).is_err() {
        return Err(CloseFault::Memory);
    }
    steps.tick();
    let limit = rules.limit();
    match rules.successors(alloc, known.items.as_slice(), at) {
        Ok(found) => match known.add_all(found, Some(at as u64), limit) {
            Ok(()) => Ok(()),
            Err(AddFault::Full) => Err(CloseFault::Over { at: at as u64 }),
            Err(AddFault::Memory) => Err(CloseFault::Memory),
        },
        Err(RuleStop::Stop(stop)) => Err(CloseFault::Stop(stop)),
        Err(RuleStop::Memory) => Err(CloseFault::Memory),
    }
}
