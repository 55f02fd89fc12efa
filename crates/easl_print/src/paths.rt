//! Paths and values.
ghost use Rattle.std.specs.Prelude.{◌≡◌, OnOk, [], ◌∷◌};
ghost use Rattle.cv_layout.specs.{after};
ghost use Rattle.easl_print.specs.Lines as lines;

use crate::lists::{OnLine, listed};
use cv_layout::Page;
use easl_model::{Arg, Key, Mark, New, Path, Value, Word};
use std::alloc::AllocError;

#[tactic(auto, using(cv_layout::proofs::After::after_append))]
pub(crate) fn path(page: &mut Page, path: &Path) -> Result<(), AllocError>
    ensures { OnOk result (page.new ≡ after page.old (lines.path path.now)) }
{
    head(page, &path.head)?;
    fields(page, path.fields.as_slice())
}

fn head(page: &mut Page, head: &Option<Word>) -> Result<(), AllocError>
    ensures { OnOk result (page.new ≡ after page.old (lines.head head.now ∷ [])) }
{
    match head {
        None => page.key(Key::This),
        Some(word) => page.word(&word.name),
    }
}

/// The fields behind a head.
#[tactic(auto, using(std::proofs::lemmas::List::drop_more))]
fn fields(page: &mut Page, names: &[Word]) -> Result<(), AllocError>
    ensures { OnOk result (page.new ≡ after page.old (lines.fields names.now)) }
{
    'each: for word in names {
        page.mark(Mark::Dot)?;
        page.word(&word.name)?;
    }
    Ok(())
}

pub(crate) fn value(page: &mut Page, value: &Value) -> Result<(), AllocError>
    ensures { OnOk result (page.new ≡ after page.old (lines.value value.now)) }
{
    match value {
        Value::Path(source) => path(page, source),
        Value::New(new) => construction(page, new),
    }
}

#[tactic(auto, using(cv_layout::proofs::After::after_append))]
fn construction(page: &mut Page, new: &New) -> Result<(), AllocError>
    ensures { OnOk result (page.new ≡ after page.old (lines.construction new.now)) }
{
    page.key(Key::New)?;
    page.word(&new.class.name)?;
    page.mark(Mark::Open)?;
    listed(page, new.args.as_slice())?;
    page.mark(Mark::Close)
}

impl OnLine for Arg {
    ghost tokens = { lines.argument };

    fn put(&self, page: &mut Page) -> Result<(), AllocError> {
        match self {
            Arg::Path(source) => path(page, source),
            Arg::Literal(word) => page.word(&word.name),
        }
    }
}
