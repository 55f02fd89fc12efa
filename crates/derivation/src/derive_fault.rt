//! Why a derivation has no end.
use cv_base::Memory;
use method_abstraction::Question;

/// Why a specification does not close.
#[derive(Clone, Copy, Debug, PartialEq, Eq)]
pub enum Reason {
    /// A 65th family is met.
    Families,
    /// A term of 7 fields arises.
    Path,
    /// The chosen cubes do not cover the tree.
    Cover,
}

/// Why there is no abstraction.
#[derive(Clone, Copy, Debug, PartialEq, Eq)]
pub enum DeriveFault {
    /// The specification does not close: this question is the first that stops it.
    Open { reason: Reason, question: Question },
    /// This question has more than 65,536 configurations.
    Cases { question: Question },
    /// Memory was wanted and not found.
    Memory,
}

impl From<Memory> for DeriveFault {
    ghost use Rattle.std.specs.Prelude.{◌≡◌};
    ghost use Rattle.derivation.specs.declared.derive_fault.DeriveFault.TheVariants as DeriveFault;

    ghost from_gives = { λ _ fault. fault ≡ DeriveFault.Memory };

    fn from(_: Memory) -> DeriveFault {
        DeriveFault::Memory
    }
}
