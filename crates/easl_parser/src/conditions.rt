//! Conditions: `any := all ("||" all)*`, `all := atom ("&&" atom)*`, `atom := path ("==" | "!=") path | "(" any ")"`.
//! `depth` is how many conditions may still stand in one another; texts with too many open brackets are
//! refused before, so it does not run out.
ghost use Rattle.std.specs.Prelude.{◌≡◌, ◌<◌, ◌≤◌, false, length, IfOk, IsSome};
ghost use Rattle.easl_model.specs.declared.token.Mark.TheVariants as mark;
ghost use Rattle.cv_read.specs.{Gives, Got, before_mark, behind_mark, items_at};
ghost use Rattle.easl_parser.specs.Reading.{sign_at, compare, comparison_at, guard_at, and_by, or_by, atom_at, all_at, any_by, any_at};
ghost use Rattle.easl_parser.specs.Reading as reading;

use crate::paths::path;
use cv_read::{ReadFault, Source, after_mark, mark};
use easl_model::{Cond, Mark, Path, Token};
use sqlite_items::Items;
use std::alloc::{AllocError, Global};

/// `all ("||" all)*`; an `any` of one member is that member.
#[cycle(conditions)]
#[tactic(auto, using(crate::proofs::Levels::any_none, crate::proofs::Levels::any_some))]
pub(crate) fn any<'a>(
    source: Source<'_>,
    depth: u32,
    tokens: &'a [Token],
) -> Result<(Cond, &'a [Token]), ReadFault>
    ensures reads { Gives result (any_at source.entry.text.now depth tokens.now) }
    ensures shorter { IfOk result (λ x. length x.1.now < length tokens.now) }
{
    if depth == 0 {
        return Err(ReadFault::Nesting(tokens.len()));
    }
    any_within(source, depth - 1, tokens)
}

#[cycle(conditions)]
#[tactic(auto, unfolding(crate::specs::Reading::any_by))]
fn any_within<'a>(
    source: Source<'_>,
    depth: u32,
    tokens: &'a [Token],
) -> Result<(Cond, &'a [Token]), ReadFault>
    ensures reads { Gives result (any_by (all_at source.entry.text.now depth) tokens.now) }
    ensures shorter { IfOk result (λ x. length x.1.now < length tokens.now) }
{
    let (first, rest) = all(source, depth, tokens)?;
    let (more, rest) = or_alls(source, depth, rest)?;
    Ok((one_or_any(source.alloc, first, more)?, rest))
}

#[cycle(conditions)]
#[tactic(auto, using(cv_read::proofs::Along::starts, cv_read::proofs::Along::ends, cv_read::proofs::Along::stops, cv_read::proofs::Along::deepens))]
fn or_alls<'a>(
    source: Source<'_>,
    depth: u32,
    tokens: &'a [Token],
) -> Result<(Items<Cond>, &'a [Token]), ReadFault>
    ensures reads { Gives result (items_at (or_by (all_at source.entry.text.now depth)) tokens.now) }
    ensures shorter { IfOk result (λ x. length x.1.now ≤ length tokens.now) }
{
    let mut found = Items::new(source.alloc);
    let mut rest = tokens;
    'each: loop {
        let (item, more) = or_all(source, depth, rest)?;
        rest = more;
        match item {
            Some(item) => found.push(item)?,
            None => return Ok((found, rest)),
        }
    }
}

#[cycle(conditions)]
fn or_all<'a>(
    source: Source<'_>,
    depth: u32,
    tokens: &'a [Token],
) -> Result<(Option<Cond>, &'a [Token]), ReadFault>
    ensures reads { Gives result (or_by (all_at source.entry.text.now depth) tokens.now) }
    ensures shorter { IfOk result (λ x. length x.1.now ≤ length tokens.now) }
    ensures takes { IfOk result (λ x. IsSome x.0 → length x.1.now < length tokens.now) }
{
    match after_mark(Mark::Or, tokens) {
        Some(after) => {
            let (item, rest) = all(source, depth, after)?;
            Ok((Some(item), rest))
        }
        None => Ok((None, tokens)),
    }
}

/// `atom ("&&" atom)*`; an `all` of one member is that member.
#[cycle(conditions)]
#[tactic(auto, unfolding(crate::specs::Reading::all_by))]
fn all<'a>(
    source: Source<'_>,
    depth: u32,
    tokens: &'a [Token],
) -> Result<(Cond, &'a [Token]), ReadFault>
    ensures reads { Gives result (all_at source.entry.text.now depth tokens.now) }
    ensures shorter { IfOk result (λ x. length x.1.now < length tokens.now) }
{
    let (first, rest) = atom(source, depth, tokens)?;
    let (more, rest) = and_atoms(source, depth, rest)?;
    Ok((one_or_all(source.alloc, first, more)?, rest))
}

#[cycle(conditions)]
#[tactic(auto, using(cv_read::proofs::Along::starts, cv_read::proofs::Along::ends, cv_read::proofs::Along::stops, cv_read::proofs::Along::deepens))]
fn and_atoms<'a>(
    source: Source<'_>,
    depth: u32,
    tokens: &'a [Token],
) -> Result<(Items<Cond>, &'a [Token]), ReadFault>
    ensures reads { Gives result (items_at (and_by (atom_at source.entry.text.now depth)) tokens.now) }
    ensures shorter { IfOk result (λ x. length x.1.now ≤ length tokens.now) }
{
    let mut found = Items::new(source.alloc);
    let mut rest = tokens;
    'each: loop {
        let (item, more) = and_atom(source, depth, rest)?;
        rest = more;
        match item {
            Some(item) => found.push(item)?,
            None => return Ok((found, rest)),
        }
    }
}

#[cycle(conditions)]
fn and_atom<'a>(
    source: Source<'_>,
    depth: u32,
    tokens: &'a [Token],
) -> Result<(Option<Cond>, &'a [Token]), ReadFault>
    ensures reads { Gives result (and_by (atom_at source.entry.text.now depth) tokens.now) }
    ensures shorter { IfOk result (λ x. length x.1.now ≤ length tokens.now) }
    ensures takes { IfOk result (λ x. IsSome x.0 → length x.1.now < length tokens.now) }
{
    match after_mark(Mark::And, tokens) {
        Some(after) => {
            let (item, rest) = atom(source, depth, after)?;
            Ok((Some(item), rest))
        }
        None => Ok((None, tokens)),
    }
}

#[cycle(conditions)]
fn atom<'a>(
    source: Source<'_>,
    depth: u32,
    tokens: &'a [Token],
) -> Result<(Cond, &'a [Token]), ReadFault>
    ensures reads { Gives result (atom_at source.entry.text.now depth tokens.now) }
    ensures shorter { IfOk result (λ x. length x.1.now < length tokens.now) }
{
    match after_mark(Mark::Open, tokens) {
        Some(after) => group(source, depth, after),
        None => comparison(source, tokens),
    }
}

/// A condition in brackets, behind the opening one.
#[cycle(conditions)]
fn group<'a>(
    source: Source<'_>,
    depth: u32,
    tokens: &'a [Token],
) -> Result<(Cond, &'a [Token]), ReadFault>
    ensures reads { Gives result (before_mark mark.Close (any_at source.entry.text.now depth) tokens.now) }
    ensures shorter { IfOk result (λ x. length x.1.now < length tokens.now) }
{
    let (found, rest) = any(source, depth, tokens)?;
    let rest = mark(Mark::Close, rest)?;
    Ok((found, rest))
}

/// `"(" comparison ")"`
#[tactic(auto, unfolding(crate::specs::Reading::guard_at))]
pub(crate) fn guard<'a>(
    source: Source<'_>,
    tokens: &'a [Token],
) -> Result<(Cond, &'a [Token]), ReadFault>
    ensures reads { Gives result (guard_at source.entry.text.now tokens.now) }
    ensures shorter { IfOk result (λ x. length x.1.now < length tokens.now) }
{
    let rest = mark(Mark::Open, tokens)?;
    let (found, rest) = comparison(source, rest)?;
    let rest = mark(Mark::Close, rest)?;
    Ok((found, rest))
}

/// `path ("==" | "!=") path`
#[tactic(auto, unfolding(crate::specs::Reading::comparison_at))]
fn comparison<'a>(source: Source<'_>, tokens: &'a [Token]) -> Result<(Cond, &'a [Token]), ReadFault>
    ensures reads { Gives result (comparison_at source.entry.text.now tokens.now) }
    ensures shorter { IfOk result (λ x. length x.1.now < length tokens.now) }
{
    let (left, rest) = path(source, tokens)?;
    let (same, rest) = sign(rest)?;
    let (right, rest) = path(source, rest)?;
    Ok((compared(same, left, right), rest))
}

/// Whether it is `==`, where it is `==` or `!=`.
fn sign(tokens: &[Token]) -> Result<(bool, &[Token]), ReadFault>
    ensures reads { Gives result (sign_at tokens.now) }
    ensures shorter { IfOk result (λ x. length x.1.now < length tokens.now) }
{
    match after_mark(Mark::Same, tokens) {
        Some(rest) => Ok((true, rest)),
        None => differs(tokens),
    }
}

fn differs(tokens: &[Token]) -> Result<(bool, &[Token]), ReadFault>
    ensures reads { Gives result (behind_mark mark.Differ (λ us. Got false us) tokens.now) }
    ensures shorter { IfOk result (λ x. length x.1.now < length tokens.now) }
{
    let rest = mark(Mark::Differ, tokens)?;
    Ok((false, rest))
}

fn compared(same: bool, left: Path, right: Path) -> Cond
    ensures { result ≡ compare same left right }
{
    if same {
        Cond::Same(left, right)
    } else {
        Cond::Differ(left, right)
    }
}

fn one_or_all(alloc: Global, first: Cond, more: Items<Cond>) -> Result<Cond, AllocError>
    ensures { IfOk result (λ x. x ≡ reading.one_or_all first more) }
{
    if more.is_empty() {
        return Ok(first);
    }
    let mut items = Items::new(alloc);
    items.push(first)?;
    items.append(more)?;
    Ok(Cond::All(items))
}

fn one_or_any(alloc: Global, first: Cond, more: Items<Cond>) -> Result<Cond, AllocError>
    ensures { IfOk result (λ x. x ≡ reading.one_or_any first more) }
{
    if more.is_empty() {
        return Ok(first);
    }
    let mut items = Items::new(alloc);
    items.push(first)?;
    items.append(more)?;
    Ok(Cond::Any(items))
}
