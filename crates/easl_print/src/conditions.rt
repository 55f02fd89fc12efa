//! Conditions, with parentheses where a member needs them.
ghost use Rattle.std.specs.Prelude.{◌≡◌, ◌++◌, ◌∷◌, ◌||◌, OnOk, map};
ghost use Rattle.cv_layout.specs.{after, mark, parens, separated};
ghost use Rattle.easl_model.specs.{clause_of, clauses};
ghost use Rattle.easl_model.specs.declared.token.Mark.TheVariants as sign;
ghost use Rattle.easl_print.specs.Lines as lines;

use crate::paths::path;
use cv_layout::Page;
use easl_model::{Cond, Mark, Path};
use std::alloc::AllocError;

#[cycle(conditions)]
pub(crate) fn condition(page: &mut Page, cond: &Cond) -> Result<(), AllocError>
    ensures { OnOk result (page.new ≡ after page.old (lines.condition (clause_of cond.now))) }
{
    match cond {
        Cond::Same(left, right) => comparison(page, left, Mark::Same, right),
        Cond::Differ(left, right) => comparison(page, left, Mark::Differ, right),
        Cond::All(parts) => all(page, parts.as_slice()),
        Cond::Any(parts) => any(page, parts.as_slice()),
    }
}

#[tactic(auto, using(cv_layout::proofs::After::after_append))]
fn comparison(page: &mut Page, left: &Path, sign: Mark, right: &Path) -> Result<(), AllocError>
    ensures { OnOk result (page.new ≡ after page.old (lines.path left.now ++ mark sign ∷ lines.path right.now)) }
{
    path(page, left)?;
    page.mark(sign)?;
    path(page, right)
}

#[cycle(conditions)]
#[tactic(auto, using(std::proofs::lemmas::List::drop_more, cv_layout::proofs::After::after_append))]
fn all(page: &mut Page, parts: &[Cond]) -> Result<(), AllocError>
    ensures { OnOk result (page.new ≡ after page.old (separated sign.And (lines.in_all (clauses (map clause_of parts.now))))) }
{
    let mut first = true;
    'each: for part in parts {
        if !first {
            page.mark(Mark::And)?;
        }
        in_all(page, part)?;
        first = false;
    }
    Ok(())
}

/// A member of an `all`.
#[cycle(conditions)]
fn in_all(page: &mut Page, part: &Cond) -> Result<(), AllocError>
    ensures { OnOk result (page.new ≡ after page.old (lines.parens_where (lines.is_any (clause_of part.now) || lines.is_all (clause_of part.now)) (lines.condition (clause_of part.now)))) }
{
    match part {
        Cond::Same(_, _) | Cond::Differ(_, _) => condition(page, part),
        Cond::All(_) | Cond::Any(_) => in_parens(page, part),
    }
}

#[cycle(conditions)]
#[tactic(auto, using(std::proofs::lemmas::List::drop_more, cv_layout::proofs::After::after_append))]
fn any(page: &mut Page, parts: &[Cond]) -> Result<(), AllocError>
    ensures { OnOk result (page.new ≡ after page.old (separated sign.Or (lines.in_any (clauses (map clause_of parts.now))))) }
{
    let mut first = true;
    'each: for part in parts {
        if !first {
            page.mark(Mark::Or)?;
        }
        in_any(page, part)?;
        first = false;
    }
    Ok(())
}

/// A member of an `any`.
#[cycle(conditions)]
fn in_any(page: &mut Page, part: &Cond) -> Result<(), AllocError>
    ensures { OnOk result (page.new ≡ after page.old (lines.parens_where (lines.is_any (clause_of part.now)) (lines.condition (clause_of part.now)))) }
{
    match part {
        Cond::Any(_) => in_parens(page, part),
        _ => condition(page, part),
    }
}

#[cycle(conditions)]
#[tactic(auto, using(cv_layout::proofs::After::after_append))]
fn in_parens(page: &mut Page, cond: &Cond) -> Result<(), AllocError>
    ensures { OnOk result (page.new ≡ after page.old (parens (lines.condition (clause_of cond.now)))) }
{
    page.mark(Mark::Open)?;
    condition(page, cond)?;
    page.mark(Mark::Close)
}
