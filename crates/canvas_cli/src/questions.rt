//! The lines that name a question of a derivation.
ghost use Rattle.std.specs.Prelude.{◌≡◌, ◌++◌, IfOk, OnOk};
ghost use Rattle.canvas_cli.specs.Readings.{set_name};
ghost use Rattle.canvas_cli.specs.Texts.{cases_text, open_text, question_text, reason_text};
ghost use Rattle.method_abstraction.specs.Texts.{results_text};
ghost use Rattle.method_abstraction.specs.Texts as abstraction;

use crate::lines::push_method;
use cv_base::{Memory, push_bytes, push_number};
use derivation::Reason;
use easl_model::CheckedSpec;
use method_abstraction::Question;
use std::alloc::Global;

/// The line of a specification that does not close, with the first question that stops it.
pub(crate) fn open_line(
    alloc: Global,
    spec: &CheckedSpec,
    reason: Reason,
    question: Question,
) -> Result<Vec<u8>, Memory>
    ensures { IfOk result (λ v. v.items ≡ open_text spec.now reason question) }
{
    let mut out = Vec::new(alloc);
    push_bytes(&mut out, b"open ")?;
    push_bytes(&mut out, reason_name(reason))?;
    push_bytes(&mut out, b" ")?;
    push_question(&mut out, spec, question)?;
    push_bytes(&mut out, b"\n")?;
    Ok(out)
}

/// The line of a question that has too many configurations.
pub(crate) fn cases_line(
    alloc: Global,
    spec: &CheckedSpec,
    question: Question,
) -> Result<Vec<u8>, Memory>
    ensures { IfOk result (λ v. v.items ≡ cases_text spec.now question) }
{
    let mut out = Vec::new(alloc);
    push_bytes(&mut out, b"limit cases ")?;
    push_question(&mut out, spec, question)?;
    push_bytes(&mut out, b"\n")?;
    Ok(out)
}

fn reason_name(reason: Reason) -> &'static [u8]
    ensures { result.now ≡ reason_text reason }
{
    match reason {
        Reason::Families => b"O1",
        Reason::Path => b"O2",
        Reason::Cover => b"O4",
    }
}

/// Appends a question.
fn push_question(out: &mut Vec<u8>, spec: &CheckedSpec, question: Question) -> Result<(), Memory>
    ensures { OnOk result (out.new.items ≡ out.old.items ++ question_text spec.now question) }
{
    match question {
        Question::Clause { method, clause } => {
            push_method_of(out, spec, method)?;
            push_bytes(out, b" clause ")?;
            push_number(out, u64::from(clause))
        }
        Question::Update {
            method,
            results,
            family,
        } => {
            push_method_of(out, spec, method)?;
            push_bytes(out, b" ")?;
            push_bytes(out, results_name(results))?;
            push_bytes(out, b" F")?;
            push_number(out, u64::from(family) + 1)
        }
    }
}

/// Appends the name of the method of this number, where there is one.
fn push_method_of(out: &mut Vec<u8>, spec: &CheckedSpec, number: u32) -> Result<(), Memory>
    ensures { OnOk result (out.new.items ≡ out.old.items ++ abstraction.method_text spec.now number) }
{
    if number >= spec.method_count() {
        return Ok(());
    }
    let method = spec.method(number);
    push_method(out, spec.class_name(method.class), method)
}

/// A set of positions of the result, from its bits.
#[tactic(auto, using(crate::proofs::Names::set_of))]
fn results_name(results: u32) -> &'static [u8]
    ensures { result.now ≡ results_text results }
{
    results_of(
        results % 2 == 1,
        results / 2 % 2 == 1,
        results / 2 / 2 % 2 == 1,
    )
}

/// The set of those of the three positions that are in it.
fn results_of(first: bool, second: bool, third: bool) -> &'static [u8]
    ensures { result.now ≡ set_name first second third }
{
    match (first, second, third) {
        (false, false, false) => b"{}",
        (true, false, false) => b"{x1}",
        (false, true, false) => b"{x2}",
        (true, true, false) => b"{x1, x2}",
        (false, false, true) => b"{x3}",
        (true, false, true) => b"{x1, x3}",
        (false, true, true) => b"{x2, x3}",
        (true, true, true) => b"{x1, x2, x3}",
    }
}
