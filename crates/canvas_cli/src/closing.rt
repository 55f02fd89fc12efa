//! Derives the families, facts and updates with which specifications close.
ghost use Rattle.std.specs.Prelude.{◌≡◌, ◌≤◌, IfOk, length};
ghost use Rattle.derivation.specs.Closing.{Closes, Stops};
ghost use Rattle.canvas_cli.specs.Verdicts.{DecidesOne};
ghost use Rattle.canvas_cli.specs.Readings.{IsDerivation};
ghost use Rattle.derivation.specs.declared.derive_fault.DeriveFault as stops;

use crate::answer::{Answer, Role};
use crate::command::Single;
use crate::questions::{cases_line, open_line};
use crate::refusal::refuse;
use crate::specification::read_checked;
use cv_base::Memory;
use derivation::{DeriveFault, Reason, derive};
use easl_model::CheckedSpec;
use method_abstraction::{Abstraction, Question, print_abstraction};
use std::alloc::Global;

/// What the specification that the text is closes with, or what stops it.
#[tactic(auto, using(crate::proofs::Decided::derived, crate::proofs::Decided::not_answered))]
pub(crate) fn derive_text(alloc: Global, text: &[u8]) -> Answer
    requires { length text.now ≤ 65536 }
    ensures { DecidesOne Single.Derive text.now result }
{
    match read_checked(alloc, text) {
        Ok(spec) => derivation_of(alloc, &spec),
        Err(fault) => refuse(alloc, Role::Specification, fault),
    }
}

/// The same of a checked specification.
fn derivation_of(alloc: Global, spec: &CheckedSpec) -> Answer
    ensures { IsDerivation spec.now result }
{
    match derive(alloc, spec) {
        Ok(abstraction) => closed(alloc, spec, &abstraction),
        Err(DeriveFault::Open { reason, question }) => open(alloc, spec, reason, question),
        Err(DeriveFault::Cases { question }) => many_cases(alloc, spec, question),
        Err(DeriveFault::Memory) => Answer::Memory,
    }
}

fn closed(alloc: Global, spec: &CheckedSpec, abstraction: &Abstraction) -> Answer
    requires { Closes spec.now abstraction.now }
    ensures { IsDerivation spec.now result }
{
    match print_abstraction(alloc, spec, abstraction) {
        Ok(text) => Answer::Derived(text),
        Err(Memory) => Answer::Memory,
    }
}

fn open(alloc: Global, spec: &CheckedSpec, reason: Reason, question: Question) -> Answer
    requires { Stops spec.now (DeriveFault.Open reason question) }
    ensures { IsDerivation spec.now result }
{
    match open_line(alloc, spec, reason, question) {
        Ok(line) => Answer::Open(line),
        Err(Memory) => Answer::Memory,
    }
}

fn many_cases(alloc: Global, spec: &CheckedSpec, question: Question) -> Answer
    requires { Stops spec.now (DeriveFault.Cases question) }
    ensures { IsDerivation spec.now result }
{
    match cases_line(alloc, spec, question) {
        Ok(line) => Answer::ManyCases(line),
        Err(Memory) => Answer::Memory,
    }
}
