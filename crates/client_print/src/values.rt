//! Calls, values and tests.
ghost use Rattle.std.specs.Prelude.{◌≡◌, OnOk};
ghost use Rattle.cv_layout.specs.Page.{after};
ghost use Rattle.client_print.specs.Lines as lines;

use client_model::{Call, Component, New, Rhs, Test};
use cv_layout::Page;
use easl_model::{Key, Mark, Word};
use easl_print::listed;
use std::alloc::AllocError;

/// Arguments with commas between them, in parentheses.
#[tactic(auto, using(cv_layout::proofs::After::after_append))]
fn args(page: &mut Page, words: &[Word]) -> Result<(), AllocError>
    ensures { OnOk result (page.new ≡ after page.old (lines.args words.now)) }
{
    page.mark(Mark::Open)?;
    listed(page, words)?;
    page.mark(Mark::Close)
}

pub(crate) fn value(page: &mut Page, value: &Rhs) -> Result<(), AllocError>
    ensures { OnOk result (page.new ≡ after page.old (lines.value value.now)) }
{
    match value {
        Rhs::Copy(word) => page.word(&word.name),
        Rhs::New(new) => construction(page, new),
        Rhs::Component(source) => component(page, source),
        Rhs::Call(source) => call(page, source),
    }
}

fn construction(page: &mut Page, new: &New) -> Result<(), AllocError>
    ensures { OnOk result (page.new ≡ after page.old (lines.construction new.now)) }
{
    page.key(Key::New)?;
    page.word(&new.class.name)?;
    args(page, new.args.as_slice())
}

fn component(page: &mut Page, call: &Component) -> Result<(), AllocError>
    ensures { OnOk result (page.new ≡ after page.old (lines.component call.now)) }
{
    page.word(&call.receiver.name)?;
    page.mark(Mark::Dot)?;
    page.word(&call.method.name)?;
    args(page, call.args.as_slice())
}

fn call(page: &mut Page, call: &Call) -> Result<(), AllocError>
    ensures { OnOk result (page.new ≡ after page.old (lines.call call.now)) }
{
    page.word(&call.procedure.name)?;
    args(page, call.args.as_slice())
}

/// `"=" value ";"`
#[tactic(auto, using(cv_layout::proofs::After::after_append))]
pub(crate) fn set(page: &mut Page, source: &Rhs) -> Result<(), AllocError>
    ensures { OnOk result (page.new ≡ after page.old (lines.set source.now)) }
{
    page.mark(Mark::Assign)?;
    value(page, source)?;
    page.mark(Mark::Semicolon)
}

/// What stands behind the name of a local.
pub(crate) fn maybe_set(page: &mut Page, source: &Option<Rhs>) -> Result<(), AllocError>
    ensures { OnOk result (page.new ≡ after page.old (lines.maybe_set source.now)) }
{
    match source {
        None => page.mark(Mark::Semicolon),
        Some(source) => set(page, source),
    }
}

pub(crate) fn test(page: &mut Page, test: &Test) -> Result<(), AllocError>
    ensures { OnOk result (page.new ≡ after page.old (lines.test test.now)) }
{
    match test {
        Test::Free(_) => page.mark(Mark::Choice),
        Test::Call(call) => component(page, call),
    }
}
