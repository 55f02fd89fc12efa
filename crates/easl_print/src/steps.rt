//! The lines of steps, conditionals among them.
ghost use Rattle.std.specs.Prelude.{◌≡◌, ◌+◌, [], ◌∷◌, IfOk, OnOk};
ghost use Rattle.cv_layout.specs.{after, after_lines, ended, key, line, mark, put};
ghost use Rattle.easl_model.specs.{Assign, Declare, block_of, clause_of, written_of};
ghost use Rattle.easl_model.specs.declared.token.Key.TheVariants as keyword;
ghost use Rattle.easl_model.specs.declared.token.Mark.TheVariants as sign;
ghost use Rattle.easl_print.specs.Lines as lines;

use crate::braces::{begin, close, otherwise};
use crate::conditions::condition;
use crate::paths::{path, value};
use cv_layout::Page;
use easl_model::{Cond, Key, Mark, Path, Step, Value, Word};
use std::alloc::AllocError;

/// The steps, one after another.
#[cycle(steps)]
#[tactic(auto, using(std::proofs::lemmas::List::drop_more, cv_layout::proofs::After::lines_append))]
pub(crate) fn block(page: &mut Page, depth: u32, steps: &[Step]) -> Result<(), AllocError>
    ensures { OnOk result (page.new ≡ after_lines page.old (lines.block_lines depth (block_of steps.now))) }
{
    'each: for item in steps {
        step(page, depth, item)?;
    }
    Ok(())
}

#[cycle(steps)]
#[tactic(auto, using(crate::proofs::Blocks::conditional_lines))]
fn step(page: &mut Page, depth: u32, step: &Step) -> Result<(), AllocError>
    ensures { OnOk result (page.new ≡ after_lines page.old (lines.step_lines depth (written_of step.now))) }
{
    match step {
        Step::Declare(class, name, source) => declaration(page, depth, class, name, source),
        Step::Assign(target, source) => assignment(page, depth, target, source),
        Step::If(_, test, first, second, has_else) => {
            let deeper = within(depth)?;
            guard(page, depth, test)?;
            block(page, deeper, first.as_slice())?;
            alternative(page, depth, second.as_slice(), *has_else)
        }
    }
}

/// What stands behind the first block of a conditional.
#[cycle(steps)]
#[tactic(auto, using(cv_layout::proofs::After::lines_append))]
fn alternative(
    page: &mut Page,
    depth: u32,
    steps: &[Step],
    has_else: bool,
) -> Result<(), AllocError>
    ensures { OnOk result (page.new ≡ after_lines page.old (lines.alternative depth has_else (lines.block_lines (depth + 1) (block_of steps.now)))) }
{
    if has_else {
        let deeper = within(depth)?;
        otherwise(page, depth)?;
        block(page, deeper, steps)?;
        close(page, depth)
    } else {
        close(page, depth)
    }
}

/// How deep a line stands within a block. `AllocError` where no number is so great, long after memory has run out.
fn within(depth: u32) -> Result<u32, AllocError>
    ensures { IfOk result (λ d. d ≡ depth + 1) }
{
    match depth.checked_add(1) {
        Some(deeper) => Ok(deeper),
        None => Err(AllocError),
    }
}

#[tactic(auto, using(cv_layout::proofs::After::after_append))]
fn declaration(
    page: &mut Page,
    depth: u32,
    class: &Word,
    name: &Word,
    source: &Value,
) -> Result<(), AllocError>
    ensures { OnOk result (page.new ≡ after_lines page.old (lines.step_lines depth (Declare class.now name.now source.now))) }
{
    page.start(depth)?;
    page.word(&class.name)?;
    page.word(&name.name)?;
    set(page, source)?;
    page.end()
}

#[tactic(auto, using(cv_layout::proofs::After::after_append))]
fn assignment(page: &mut Page, depth: u32, target: &Path, source: &Value) -> Result<(), AllocError>
    ensures { OnOk result (page.new ≡ after_lines page.old (lines.step_lines depth (Assign target.now source.now))) }
{
    page.start(depth)?;
    path(page, target)?;
    set(page, source)?;
    page.end()
}

/// `"=" value ";"`
#[tactic(auto, using(cv_layout::proofs::After::after_append))]
fn set(page: &mut Page, source: &Value) -> Result<(), AllocError>
    ensures { OnOk result (page.new ≡ after page.old (lines.set source.now)) }
{
    page.mark(Mark::Assign)?;
    value(page, source)?;
    page.mark(Mark::Semicolon)
}

/// The line that opens a conditional.
#[tactic(auto, using(cv_layout::proofs::After::after_append))]
fn guard(page: &mut Page, depth: u32, test: &Cond) -> Result<(), AllocError>
    ensures { OnOk result (page.new ≡ after_lines page.old (line depth (lines.guard (clause_of test.now)))) }
{
    page.start(depth)?;
    page.key(Key::If)?;
    page.mark(Mark::Open)?;
    condition(page, test)?;
    page.mark(Mark::Close)?;
    begin(page)
}
