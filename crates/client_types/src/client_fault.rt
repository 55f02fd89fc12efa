//! Why a client is not taken.
ghost use Rattle.std.specs.Prelude.{◌≡◌};
ghost use Rattle.client_types.specs.Answers.{told_as};
ghost use Rattle.client_values.specs.ToldFaults.{rule_told};

use client_values::{Fault, Rule};
use cv_base::Memory;
use easl_model::Place;
use std::alloc::AllocError;
use thiserror::Error;

/// Why a client is not taken: the first rule that it breaks, or that no memory was found.
#[derive(Clone, Copy, Debug, Drop, PartialEq, Eq, Error)]
pub enum ClientFault {
    /// At this place a static, procedure, parameter or local of the name is there already.
    #[error("named a second time at {}:{}", .0.line, .0.col)]
    Duplicate(Place),
    /// At this place stands a name for nothing.
    #[error("no such name at {}:{}", .0.line, .0.col)]
    Unknown(Place),
    /// What stands at this place is not of the type that is wanted, or `main` has a parameter or a result.
    #[error("not of the type that is wanted at {}:{}", .0.line, .0.col)]
    Mismatch(Place),
    /// At this place a variable is read where it is not surely assigned.
    #[error("not assigned at {}:{}", .0.line, .0.col)]
    Unset(Place),
    /// A result is not returned by the `return` at this place, or before the closing brace there.
    #[error("no result is returned at {}:{}", .0.line, .0.col)]
    NoReturn(Place),
    /// There is no `main` up to this place, the end of the text.
    #[error("no main up to {}:{}", .0.line, .0.col)]
    NoMain(Place),
    /// The statement at this place stands behind one that does not go on.
    #[error("never reached at {}:{}", .0.line, .0.col)]
    Unreachable(Place),
    /// The `break` or `continue` at this place stands in no `while`.
    #[error("in no loop at {}:{}", .0.line, .0.col)]
    OutsideLoop(Place),
    /// No memory was found.
    #[error("out of memory")]
    Memory,
}

impl From<AllocError> for ClientFault {
    ghost use Rattle.client_types.specs.declared.client_fault.ClientFault.{ClientFault};

    ghost from_gives = { λ _ fault. fault ≡ ClientFault.Memory };

    fn from(_error: AllocError) -> ClientFault {
        ClientFault::Memory
    }
}

impl From<Memory> for ClientFault {
    ghost use Rattle.client_types.specs.declared.client_fault.ClientFault.{ClientFault};

    ghost from_gives = { λ _ fault. fault ≡ ClientFault.Memory };

    fn from(_error: Memory) -> ClientFault {
        ClientFault::Memory
    }
}

/// The answer that tells the fault.
pub(crate) fn told(fault: Fault) -> ClientFault
    ensures { result ≡ told_as (rule_told fault.rule) fault.place }
{
    let place = fault.place;
    match fault.rule {
        Rule::Duplicate => ClientFault::Duplicate(place),
        Rule::Unknown => ClientFault::Unknown(place),
        Rule::Mismatch => ClientFault::Mismatch(place),
        Rule::Unset => ClientFault::Unset(place),
        Rule::NoReturn => ClientFault::NoReturn(place),
        Rule::NoMain => ClientFault::NoMain(place),
        Rule::Unreachable => ClientFault::Unreachable(place),
        Rule::OutsideLoop => ClientFault::OutsideLoop(place),
    }
}
