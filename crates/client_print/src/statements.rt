//! The lines of statements.
ghost use Rattle.std.specs.Prelude.{◌≡◌, ◌+◌, [], ◌∷◌, ◌++◌, IfOk, OnOk};
ghost use Rattle.client_model.specs.Statements.{Assign, Do, statement_of};
ghost use Rattle.cv_layout.specs.Layout.{key, line, mark};
ghost use Rattle.cv_layout.specs.Page.{after, after_lines, ended, put};
ghost use Rattle.cv_layout.specs.Words.{named};
ghost use Rattle.easl_model.specs.declared.token.Key.TheVariants as keyword;
ghost use Rattle.easl_model.specs.declared.token.Mark.TheVariants as sign;
ghost use Rattle.easl_print.specs.Lines as shared;
ghost use Rattle.client_print.specs.Lines as lines;

use crate::values::{maybe_set, set, test, value};
use client_model::{Return, Rhs, Stmt, Test};
use cv_layout::Page;
use easl_model::{Key, Mark, Sort, Word};
use easl_print::{begin, close, otherwise, sort};
use std::alloc::AllocError;

/// The statements, one after another.
#[cycle(statements)]
#[tactic(auto, using(std::proofs::lemmas::List::drop_more, cv_layout::proofs::After::lines_append))]
pub(crate) fn block(page: &mut Page, depth: u32, items: &[Stmt]) -> Result<(), AllocError>
    ensures { OnOk result (page.new ≡ after_lines page.old (lines.block_lines depth (lines.block_of items.now))) }
{
    'each: for item in items {
        statement(page, depth, item)?;
    }
    Ok(())
}

#[cycle(statements)]
#[tactic(auto, using(crate::proofs::Blocks::conditional_lines, crate::proofs::Blocks::loop_lines))]
fn statement(page: &mut Page, depth: u32, item: &Stmt) -> Result<(), AllocError>
    ensures { OnOk result (page.new ≡ after_lines page.old (lines.statement_lines depth (statement_of item.now))) }
{
    match item {
        Stmt::Declare(_, sort, name, source) => declaration(page, depth, sort, name, source),
        Stmt::Assign(name, source) => assignment(page, depth, name, source),
        Stmt::Do(action) => act(page, depth, action),
        Stmt::If(_, test, first, second, has_else) => {
            let deeper = within(depth)?;
            guard(page, depth, Key::If, test)?;
            block(page, deeper, first.as_slice())?;
            alternative(page, depth, second.as_slice(), *has_else)
        }
        Stmt::While(_, test, inner) => {
            guard(page, depth, Key::While, test)?;
            closed(page, depth, inner.as_slice())
        }
        Stmt::Break(_) => keyword_line(page, depth, Key::Break),
        Stmt::Continue(_) => keyword_line(page, depth, Key::Continue),
        Stmt::Return(item) => return_line(page, depth, item),
    }
}

/// What stands behind the first block of an `if`.
#[cycle(statements)]
#[tactic(auto, using(cv_layout::proofs::After::lines_append))]
fn alternative(
    page: &mut Page,
    depth: u32,
    items: &[Stmt],
    has_else: bool,
) -> Result<(), AllocError>
    ensures { OnOk result (page.new ≡ after_lines page.old (shared.alternative depth has_else (lines.block_lines (depth + 1) (lines.block_of items.now)))) }
{
    if has_else {
        otherwise(page, depth)?;
        closed(page, depth, items)
    } else {
        close(page, depth)
    }
}

/// A block, and the line of its closing brace.
#[cycle(statements)]
#[tactic(auto, using(cv_layout::proofs::After::lines_append))]
fn closed(page: &mut Page, depth: u32, items: &[Stmt]) -> Result<(), AllocError>
    ensures { OnOk result (page.new ≡ after_lines page.old (lines.block_lines (depth + 1) (lines.block_of items.now) ++ line depth (mark sign.End ∷ []))) }
{
    let deeper = within(depth)?;
    block(page, deeper, items)?;
    close(page, depth)
}

/// How deep a line stands within a block. `AllocError` where no number is so great, long after memory has run out.
fn within(depth: u32) -> Result<u32, AllocError>
    ensures { IfOk result (λ d. d ≡ depth + 1) }
{
    match depth.checked_add(1) {
        Some(deeper) => Ok(deeper),
        None => Err(AllocError),
    }
}

#[tactic(auto, using(cv_layout::proofs::After::after_append))]
fn declaration(
    page: &mut Page,
    depth: u32,
    typed: &Sort,
    name: &Word,
    source: &Option<Rhs>,
) -> Result<(), AllocError>
    ensures { OnOk result (page.new ≡ after_lines page.old (line depth (shared.sort typed.now ∷ named name.now ∷ lines.maybe_set source.now))) }
{
    page.start(depth)?;
    sort(page, typed)?;
    page.word(&name.name)?;
    maybe_set(page, source)?;
    page.end()
}

#[tactic(auto, using(cv_layout::proofs::After::after_append))]
fn assignment(page: &mut Page, depth: u32, name: &Word, source: &Rhs) -> Result<(), AllocError>
    ensures { OnOk result (page.new ≡ after_lines page.old (lines.statement_lines depth (Assign name.now source.now))) }
{
    page.start(depth)?;
    page.word(&name.name)?;
    set(page, source)?;
    page.end()
}

/// A call or a construction whose result is not used.
#[tactic(auto, using(cv_layout::proofs::After::after_append))]
fn act(page: &mut Page, depth: u32, action: &Rhs) -> Result<(), AllocError>
    ensures { OnOk result (page.new ≡ after_lines page.old (lines.statement_lines depth (Do action.now))) }
{
    page.start(depth)?;
    value(page, action)?;
    page.mark(Mark::Semicolon)?;
    page.end()
}

/// The line that opens a block, behind its keyword.
#[tactic(auto, using(cv_layout::proofs::After::after_append))]
fn guard(page: &mut Page, depth: u32, word: Key, asked: &Test) -> Result<(), AllocError>
    ensures { OnOk result (page.new ≡ after_lines page.old (line depth (lines.guard word asked.now))) }
{
    page.start(depth)?;
    page.key(word)?;
    page.mark(Mark::Open)?;
    test(page, asked)?;
    page.mark(Mark::Close)?;
    begin(page)
}

/// The line of a statement that is a keyword.
#[tactic(auto, using(cv_layout::proofs::After::after_append))]
fn keyword_line(page: &mut Page, depth: u32, word: Key) -> Result<(), AllocError>
    ensures { OnOk result (page.new ≡ after_lines page.old (line depth (key word ∷ mark sign.Semicolon ∷ []))) }
{
    page.start(depth)?;
    page.key(word)?;
    page.mark(Mark::Semicolon)?;
    page.end()
}

#[tactic(auto, using(cv_layout::proofs::After::after_append))]
fn return_line(page: &mut Page, depth: u32, item: &Return) -> Result<(), AllocError>
    ensures { OnOk result (page.new ≡ after_lines page.old (line depth (lines.returning item.now))) }
{
    page.start(depth)?;
    page.key(Key::Return)?;
    maybe_word(page, &item.value)?;
    page.mark(Mark::Semicolon)?;
    page.end()
}

fn maybe_word(page: &mut Page, word: &Option<Word>) -> Result<(), AllocError>
    ensures { OnOk result (page.new ≡ after page.old (lines.returned word.now)) }
{
    match word {
        None => Ok(()),
        Some(word) => page.word(&word.name),
    }
}
