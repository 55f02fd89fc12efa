//! Specifications as tests want them: read and checked.
ghost use Rattle.std.specs.Prelude.{◌≤◌, length};

use cv_lex::TextFault;
use easl_model::CheckedSpec;
use easl_parser::read_spec;
use easl_types::{SpecFault, check_spec};
use std::alloc::Global;

/// Why a text is no specification: it is not read, or it breaks a rule.
#[derive(Clone, Copy, Debug, Drop, PartialEq, Eq)]
pub(crate) enum Refused {
    Text(TextFault),
    Rule(SpecFault),
}

/// The checked form of the specification that the text spells.
#[tactic(auto, using(crate::proofs::Readable::readable))]
pub(crate) fn checked(alloc: Global, text: &[u8]) -> Result<CheckedSpec, Refused>
    requires { length text.now ≤ 65536 }
{
    match read_spec(alloc, text) {
        Ok(spec) => match check_spec(alloc, spec) {
            Ok(checked) => Ok(checked),
            Err(fault) => Err(Refused::Rule(fault)),
        },
        Err(fault) => Err(Refused::Text(fault)),
    }
}

/// The same, where a first want of memory is not told.
pub(crate) fn checked_again(alloc: Global, text: &[u8]) -> Result<CheckedSpec, Refused>
    requires { length text.now ≤ 65536 }
{
    match checked(alloc, text) {
        Err(Refused::Text(TextFault::Memory)) => checked(alloc, text),
        Err(Refused::Rule(SpecFault::Memory)) => checked(alloc, text),
        found => found,
    }
}
