//! A counter of steps.
ghost use Rattle.std.specs.Prelude.{◌≡◌, ◌+◌};

use crate::tally::Tally;
use std::marker::{Model, PhantomData};
use std::sync::ledger::Ledger;

/// A counter without bytes, over any ledger. Contracts see it as a number, and only `tick` raises it.
#[derive(Drop)]
pub struct Steps<L: Ledger> {
    taken: Tally,
    of: PhantomData<L>,
}

impl<L: Ledger> Model for Steps<L> {
    ghost use Rattle.std.specs.Prelude.{ℕ};

    ghost Value = { ℕ };

    ghost view = { λ s. s.taken.number };
}

impl<L: Ledger> Steps<L> {
    /// A counter at 0.
    pub fn new() -> Steps<L>
        ensures { result ≡ 0 }
    {
        Steps {
            taken: Tally::new(),
            of: PhantomData,
        }
    }

    /// Raises the counter by one.
    pub fn tick(&mut self)
        ensures { self.new ≡ self.old + 1 }
    {
        self.taken = Tally::next(&self.taken);
    }
}
