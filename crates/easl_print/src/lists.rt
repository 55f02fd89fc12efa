//! Lists of what is printed: with commas on a line, or on lines of their own.
ghost use Rattle.std.specs.Prelude.{◌≡◌, List, OnOk, flat_map, map};
ghost use Rattle.cv_layout.specs.{Lexeme, Line, after, after_lines, behind, separated};
ghost use Rattle.easl_model.specs.declared.token.Mark.TheVariants as sign;

use cv_layout::Page;
use easl_model::Mark;
use std::alloc::AllocError;

/// What is printed within a line.
pub trait OnLine {
    ghost tokens: { Self → List Lexeme };

    fn put(&self, page: &mut Page) -> Result<(), AllocError>
        ensures { OnOk result (page.new ≡ after page.old (tokens self.now)) };
}

/// What is printed on lines of its own.
pub(crate) trait OnLines {
    ghost lines: { Self → List Line };

    fn put_lines(&self, page: &mut Page) -> Result<(), AllocError>
        ensures { OnOk result (page.new ≡ after_lines page.old (lines self.now)) };
}

/// The items with commas between them.
#[tactic(auto, using(cv_layout::proofs::After::after_append))]
pub fn listed<T: OnLine>(page: &mut Page, items: &[T]) -> Result<(), AllocError>
    ensures { OnOk result (page.new ≡ after page.old (separated sign.Comma (map T.tokens items.now))) }
{
    match items.split_first() {
        None => Ok(()),
        Some((first, rest)) => {
            first.put(page)?;
            more(page, rest)
        }
    }
}

#[tactic(auto, using(std::proofs::lemmas::List::drop_more, cv_layout::proofs::After::after_append))]
fn more<T: OnLine>(page: &mut Page, items: &[T]) -> Result<(), AllocError>
    ensures { OnOk result (page.new ≡ after page.old (behind sign.Comma (map T.tokens items.now))) }
{
    'each: for item in items {
        page.mark(Mark::Comma)?;
        item.put(page)?;
    }
    Ok(())
}

/// The items on their lines, one after another.
#[tactic(auto, using(std::proofs::lemmas::List::drop_more, cv_layout::proofs::After::lines_append))]
pub(crate) fn each<T: OnLines>(page: &mut Page, items: &[T]) -> Result<(), AllocError>
    ensures { OnOk result (page.new ≡ after_lines page.old (flat_map T.lines items.now)) }
{
    'each: for item in items {
        item.put_lines(page)?;
    }
    Ok(())
}
