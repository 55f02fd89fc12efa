//! A number that only contracts read.
ghost use Rattle.std.specs.Prelude.{◌≡◌, ℕ, ◌+◌};
ghost use Rattle.std.specs.Borrow.{ftrue};

use std::marker::Model;

/// A number without bytes: making one and adding to it cost nothing when the program runs.
#[derive(Drop)]
pub(crate) struct Tally {
    pub(crate) ghost number: { ℕ },
}

impl Model for Tally {
    // It owns nothing. A ghost field may hold a number, and not only a fact, where this is said.
    ghost also_owns = { λ _. ftrue };
}

impl Tally {
    /// The number 0.
    pub(crate) fn new() -> Tally
        ensures { result.number ≡ 0 }
    {
        Tally {}
    }

    /// The next number.
    pub(crate) fn next(_before: &Tally) -> Tally
        ensures { result.number ≡ _before.now.number + 1 }
    {
        Tally {}
    }
}
