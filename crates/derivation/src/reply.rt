//! What a question comes to.
use access_paths::{Instance, SplitFault};
use alias_cases::CasesFault;
use cube_cover::CoverFault;
use cv_base::{List, Memory};

/// A chosen cube: the empty one, which is true always, or its family with the variables that stand for the family's own.
#[derive(Debug, Drop)]
pub enum Predicate {
    Always,
    Of(Instance),
}

/// What a question comes to.
#[derive(Debug, Drop)]
pub struct Reply {
    /// How many terms its term list has.
    pub term_count: usize,
    /// How many configurations of these there are.
    pub case_count: usize,
    /// The chosen cubes, in order.
    pub disjuncts: List<Predicate>,
}

/// Why a question has no reply.
#[derive(Clone, Copy, Debug, PartialEq, Eq)]
pub enum AskFault {
    /// A term of 7 fields arises.
    Path,
    /// There are more than 65,536 configurations.
    Cases,
    /// The chosen cubes do not cover the tree.
    Cover,
    /// Memory was wanted and not found.
    Memory,
}

impl From<Memory> for AskFault {
    ghost use Rattle.std.specs.Prelude.{◌≡◌};
    ghost use Rattle.derivation.specs.declared.reply.AskFault.TheVariants as AskFault;

    ghost from_gives = { λ _ fault. fault ≡ AskFault.Memory };

    fn from(_: Memory) -> AskFault {
        AskFault::Memory
    }
}

impl From<SplitFault> for AskFault {
    ghost use Rattle.std.specs.Prelude.{◌≡◌};
    ghost use Rattle.derivation.specs.Faults.{of_split};

    ghost from_gives = { λ split fault. fault ≡ of_split split };

    fn from(split: SplitFault) -> AskFault {
        match split {
            SplitFault::Path => AskFault::Path,
            SplitFault::Memory => AskFault::Memory,
        }
    }
}

impl From<CasesFault> for AskFault {
    ghost use Rattle.std.specs.Prelude.{◌≡◌};
    ghost use Rattle.derivation.specs.Faults.{of_cases};

    ghost from_gives = { λ cases fault. fault ≡ of_cases cases };

    fn from(cases: CasesFault) -> AskFault {
        match cases {
            CasesFault::Cases => AskFault::Cases,
            CasesFault::Memory => AskFault::Memory,
        }
    }
}

impl From<CoverFault> for AskFault {
    ghost use Rattle.std.specs.Prelude.{◌≡◌};
    ghost use Rattle.derivation.specs.Faults.{of_cover};

    ghost from_gives = { λ cover fault. fault ≡ of_cover cover };

    fn from(cover: CoverFault) -> AskFault {
        match cover {
            CoverFault::Cover => AskFault::Cover,
            CoverFault::Memory => AskFault::Memory,
        }
    }
}
