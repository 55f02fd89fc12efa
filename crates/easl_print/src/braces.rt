//! Lines with braces, which are printed alike in both languages.
ghost use Rattle.std.specs.Prelude.{◌≡◌, [], ◌∷◌, OnOk};
ghost use Rattle.cv_layout.specs.{after_lines, ended, key, line, mark, put};
ghost use Rattle.easl_model.specs.declared.token.Key.TheVariants as keyword;
ghost use Rattle.easl_model.specs.declared.token.Mark.TheVariants as sign;

use cv_layout::Page;
use easl_model::{Key, Mark};
use std::alloc::AllocError;

/// The line between two blocks.
pub fn otherwise(page: &mut Page, depth: u32) -> Result<(), AllocError>
    ensures { OnOk result (page.new ≡ after_lines page.old (line depth (mark sign.End ∷ key keyword.Else ∷ mark sign.Begin ∷ []))) }
{
    page.start(depth)?;
    page.mark(Mark::End)?;
    page.key(Key::Else)?;
    begin(page)
}

/// The end of a line that opens a brace.
pub fn begin(page: &mut Page) -> Result<(), AllocError>
    ensures { OnOk result (page.new ≡ ended (put page.old (mark sign.Begin))) }
{
    page.mark(Mark::Begin)?;
    page.end()
}

/// The line of a closing brace.
pub fn close(page: &mut Page, depth: u32) -> Result<(), AllocError>
    ensures { OnOk result (page.new ≡ after_lines page.old (line depth (mark sign.End ∷ []))) }
{
    page.start(depth)?;
    page.mark(Mark::End)?;
    page.end()
}
