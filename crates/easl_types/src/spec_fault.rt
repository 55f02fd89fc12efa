//! Why a specification is not taken.
ghost use Rattle.std.specs.Prelude.{◌≡◌};
ghost use Rattle.easl_types.specs.Answers as told;

use crate::no_memory::NoMemory;
use easl_model::{Fault, Place, Rule};
use std::alloc::AllocError;
use thiserror::Error;

/// Why a specification is not taken: the first rule that it breaks, or that no memory was found.
#[derive(Clone, Copy, Debug, Drop, PartialEq, Eq, Error)]
pub enum SpecFault {
    /// At this place a class, field, method, parameter or local of the name, or a constructor, is there already.
    #[error("named a second time at {}:{}", .0.line, .0.col)]
    Duplicate(Place),
    /// At this place stands a name for nothing, or a constructor that is not named as its class.
    #[error("no such name at {}:{}", .0.line, .0.col)]
    Unknown(Place),
    /// What stands at this place is not of the type that is wanted, or a method lacks its `return`.
    #[error("not of the type that is wanted at {}:{}", .0.line, .0.col)]
    Mismatch(Place),
    /// At this place a field is read, or `this` given away, before it is assigned, or a constructor leaves one unassigned.
    #[error("not assigned at {}:{}", .0.line, .0.col)]
    Unready(Place),
    /// The `new` at this place stands in a constructor that it calls, directly or through others.
    #[error("constructors call each other at {}:{}", .0.line, .0.col)]
    ConstructorCycle(Place),
    /// The method or constructor that is named at this place executes more than 1,024 statements in place.
    #[error("more than 1,024 statements at {}:{}", .0.line, .0.col)]
    TooLong(Place),
    /// No memory was found.
    #[error("out of memory")]
    Memory,
}

impl From<AllocError> for SpecFault {
    ghost use Rattle.easl_types.specs.declared.spec_fault.SpecFault.{SpecFault};

    ghost from_gives = { λ _ fault. fault ≡ SpecFault.Memory };

    fn from(_error: AllocError) -> SpecFault {
        SpecFault::Memory
    }
}

impl From<NoMemory> for SpecFault {
    ghost use Rattle.easl_types.specs.declared.spec_fault.SpecFault.{SpecFault};

    ghost from_gives = { λ _ fault. fault ≡ SpecFault.Memory };

    fn from(_error: NoMemory) -> SpecFault {
        SpecFault::Memory
    }
}

/// The answer that tells the fault.
pub(crate) fn told(fault: Fault) -> SpecFault
    ensures { result ≡ told.told_as fault.rule fault.place }
{
    let place = fault.place;
    match fault.rule {
        Rule::Duplicate => SpecFault::Duplicate(place),
        Rule::Unknown => SpecFault::Unknown(place),
        Rule::Mismatch => SpecFault::Mismatch(place),
        Rule::Unready => SpecFault::Unready(place),
        Rule::ConstructorCycle => SpecFault::ConstructorCycle(place),
        Rule::TooLong => SpecFault::TooLong(place),
    }
}
