//! Types, parameters and words, which are printed alike in both languages.
ghost use Rattle.std.specs.Prelude.{◌≡◌, [], ◌∷◌, OnOk};
ghost use Rattle.cv_layout.specs.{after, named, put};
ghost use Rattle.easl_model.specs.Grammar as grammar;
ghost use Rattle.easl_print.specs.Lines as lines;

use crate::lists::{OnLine, listed};
use cv_layout::Page;
use easl_model::{Key, Mark, Opaque, Param, Sort, Word};
use std::alloc::AllocError;

impl OnLine for Word {
    ghost tokens = { λ w. named w ∷ [] };

    fn put(&self, page: &mut Page) -> Result<(), AllocError> {
        page.word(&self.name)
    }
}

impl OnLine for Param {
    ghost tokens = { lines.param };

    fn put(&self, page: &mut Page) -> Result<(), AllocError> {
        sort(page, &self.sort)?;
        page.word(&self.name.name)
    }
}

/// A type, or `void`.
pub fn sort(page: &mut Page, sort: &Sort) -> Result<(), AllocError>
    ensures { OnOk result (page.new ≡ put page.old (lines.sort sort.now)) }
{
    match sort {
        Sort::Void => page.key(Key::Void),
        Sort::Opaque(kind) => page.key(opaque_key(*kind)),
        Sort::Class(class) => page.word(&class.name),
    }
}

fn opaque_key(kind: Opaque) -> Key
    ensures { result ≡ grammar.opaque_key kind }
{
    match kind {
        Opaque::Object => Key::Object,
        Opaque::Int => Key::Int,
        Opaque::Boolean => Key::Boolean,
        Opaque::String => Key::String,
    }
}

/// Parameters with commas between them, in parentheses.
#[tactic(auto, using(cv_layout::proofs::After::after_append))]
pub fn params(page: &mut Page, params: &[Param]) -> Result<(), AllocError>
    ensures { OnOk result (page.new ≡ after page.old (lines.params params.now)) }
{
    page.mark(Mark::Open)?;
    listed(page, params)?;
    page.mark(Mark::Close)
}
