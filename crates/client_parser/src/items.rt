//! Statics and procedures.
ghost use Rattle.std.specs.Prelude.{◌≡◌, ◌<◌, ◌≤◌, length, IfOk, IsSome};
ghost use Rattle.cv_read.specs.Read.{Gives, begins};
ghost use Rattle.client_parser.specs.Reading.{initialised_at, static_behind, class_result_at, some_result_at, result_at, proc_at, proc_item_at, item_at, item_starts, maybe_item_at};

use crate::statements::stmts;
use crate::values::initial;
use client_model::{Proc, Rhs, Static};
use cv_read::{
    ReadFault, Source, after_placed_opaque, front, is_type_start, mark, name, params, placed_key,
    placed_mark, sort,
};
use easl_model::{Key, Kind, Mark, Place, Sort, Token};

/// What a text has beside others at its top.
#[derive(Debug, Drop)]
pub(crate) enum Item {
    Static(Static),
    Procedure(Proc),
}

pub(crate) fn maybe_item<'a>(
    source: Source<'_>,
    depth: u32,
    tokens: &'a [Token],
) -> Result<(Option<Item>, &'a [Token]), ReadFault>
    ensures reads { Gives result (maybe_item_at source.entry.text.now depth tokens.now) }
    ensures shorter { IfOk result (λ x. length x.1.now ≤ length tokens.now) }
    ensures takes { IfOk result (λ x. IsSome x.0 → length x.1.now < length tokens.now) }
{
    if begins_item(tokens) {
        let (found, rest) = some_item(source, depth, tokens)?;
        Ok((Some(found), rest))
    } else {
        Ok((None, tokens))
    }
}

fn begins_item(tokens: &[Token]) -> bool
    ensures { result ≡ begins item_starts tokens.now }
{
    match front(tokens) {
        Some((kind, _)) => {
            kind == Kind::Key(Key::Static) || kind == Kind::Key(Key::Void) || is_type_start(kind)
        }
        None => false,
    }
}

/// `static | procedure`
fn some_item<'a>(
    source: Source<'_>,
    depth: u32,
    tokens: &'a [Token],
) -> Result<(Item, &'a [Token]), ReadFault>
    ensures reads { Gives result (item_at source.entry.text.now depth tokens.now) }
    ensures shorter { IfOk result (λ x. length x.1.now < length tokens.now) }
{
    match placed_key(Key::Static, tokens) {
        Some((place, after)) => {
            let (found, rest) = behind_static(source, place, after)?;
            Ok((Item::Static(found), rest))
        }
        None => procedure_item(source, depth, tokens),
    }
}

fn procedure_item<'a>(
    source: Source<'_>,
    depth: u32,
    tokens: &'a [Token],
) -> Result<(Item, &'a [Token]), ReadFault>
    ensures reads { Gives result (proc_item_at source.entry.text.now depth tokens.now) }
    ensures shorter { IfOk result (λ x. length x.1.now < length tokens.now) }
{
    let (found, rest) = procedure(source, depth, tokens)?;
    Ok((Item::Procedure(found), rest))
}

/// `type Name "=" initial ";"`
#[tactic(auto, unfolding(crate::specs::Reading::static_behind))]
fn behind_static<'a>(
    source: Source<'_>,
    place: Place,
    tokens: &'a [Token],
) -> Result<(Static, &'a [Token]), ReadFault>
    ensures reads { Gives result (static_behind source.entry.text.now place tokens.now) }
    ensures shorter { IfOk result (λ x. length x.1.now < length tokens.now) }
{
    let (sort, rest) = sort(source, tokens)?;
    let (name, rest) = name(source, rest)?;
    let (value, rest) = initialised(source, rest)?;
    let found = Static {
        place,
        sort,
        name,
        value,
    };
    Ok((found, rest))
}

/// `"=" initial ";"`
#[tactic(auto, unfolding(crate::specs::Reading::initialised_at))]
fn initialised<'a>(source: Source<'_>, tokens: &'a [Token]) -> Result<(Rhs, &'a [Token]), ReadFault>
    ensures reads { Gives result (initialised_at source.entry.text.now tokens.now) }
    ensures shorter { IfOk result (λ x. length x.1.now < length tokens.now) }
{
    let rest = mark(Mark::Assign, tokens)?;
    let (value, rest) = initial(source, rest)?;
    let rest = mark(Mark::Semicolon, rest)?;
    Ok((value, rest))
}

/// `result Name params "{" stmt* "}"`
#[tactic(auto, unfolding(crate::specs::Reading::proc_at))]
fn procedure<'a>(
    source: Source<'_>,
    depth: u32,
    tokens: &'a [Token],
) -> Result<(Proc, &'a [Token]), ReadFault>
    ensures reads { Gives result (proc_at source.entry.text.now depth tokens.now) }
    ensures shorter { IfOk result (λ x. length x.1.now < length tokens.now) }
{
    let ((place, result), rest) = placed_result(source, tokens)?;
    let (name, rest) = name(source, rest)?;
    let (params, rest) = params(source, rest)?;
    let rest = mark(Mark::Begin, rest)?;
    let (body, rest) = stmts(source, depth, rest)?;
    let (end, rest) = placed_mark(Mark::End, rest)?;
    let found = Proc {
        place,
        result,
        name,
        params,
        body,
        end,
    };
    Ok((found, rest))
}

/// `"void" | type`, with its place.
fn placed_result<'a>(
    source: Source<'_>,
    tokens: &'a [Token],
) -> Result<((Place, Sort), &'a [Token]), ReadFault>
    ensures reads { Gives result (result_at source.entry.text.now tokens.now) }
    ensures shorter { IfOk result (λ x. length x.1.now < length tokens.now) }
{
    match placed_key(Key::Void, tokens) {
        Some((place, rest)) => Ok(((place, Sort::Void), rest)),
        None => some_result(source, tokens),
    }
}

/// `opaque | Name`, with its place.
fn some_result<'a>(
    source: Source<'_>,
    tokens: &'a [Token],
) -> Result<((Place, Sort), &'a [Token]), ReadFault>
    ensures reads { Gives result (some_result_at source.entry.text.now tokens.now) }
    ensures shorter { IfOk result (λ x. length x.1.now < length tokens.now) }
{
    match after_placed_opaque(tokens) {
        Some(((place, kind), rest)) => Ok(((place, Sort::Opaque(kind)), rest)),
        None => class_result(source, tokens),
    }
}

fn class_result<'a>(
    source: Source<'_>,
    tokens: &'a [Token],
) -> Result<((Place, Sort), &'a [Token]), ReadFault>
    ensures reads { Gives result (class_result_at source.entry.text.now tokens.now) }
    ensures shorter { IfOk result (λ x. length x.1.now < length tokens.now) }
{
    let (class, rest) = name(source, tokens)?;
    let place = class.place;
    Ok(((place, Sort::Class(class)), rest))
}
