//! Types and parameters, which are those of both languages.
ghost use Rattle.std.specs.Prelude.{◌≡◌, ◌<◌, ◌≤◌, true, false, length, IfOk, IfSome, IsSome, MatchOption};
ghost use Rattle.cv_read.specs.{Finds, Gives, begins, class_param_at, class_type_at, commas_at, is_opaque, listed_at, more_at, next_at, opaque_at, opaque_in};
ghost use Rattle.cv_read.specs.{opaque_of, opaque_param_at, param_at, param_behind, params_at, placed_opaque, type_at, type_starts};

use crate::fault::ReadFault;
use crate::taking::{Source, after_mark, front, mark, name, next};
use easl_model::{Key, Kind, Mark, Opaque, Param, Place, Sort, Token};
use sqlite_items::Items;

/// `opaque`
pub fn opaque_sort(tokens: &[Token]) -> Result<(Sort, &[Token]), ReadFault>
    ensures reads { Gives result (opaque_at tokens.now) }
    ensures shorter { IfOk result (λ x. length x.1.now < length tokens.now) }
{
    match after_opaque(tokens) {
        Some((kind, rest)) => Ok((Sort::Opaque(kind), rest)),
        None => Err(ReadFault::Syntax(tokens.len())),
    }
}

/// The opaque type that the first token names, and the tokens after it.
pub fn after_opaque(tokens: &[Token]) -> Option<(Opaque, &[Token])>
    ensures finds { Finds is_opaque opaque_of tokens.now result }
    ensures shorter { IfSome result (λ x. length x.1.now < length tokens.now) }
{
    match after_placed_opaque(tokens) {
        Some(((_, found), rest)) => Some((found, rest)),
        None => None,
    }
}

/// The same, with the token's place.
pub fn after_placed_opaque(tokens: &[Token]) -> Option<((Place, Opaque), &[Token])>
    ensures finds { Finds is_opaque placed_opaque tokens.now result }
    ensures shorter { IfSome result (λ x. length x.1.now < length tokens.now) }
{
    match next(tokens) {
        Some((token, rest)) => match opaque(token.kind) {
            Some(found) => Some(((token.place, found), rest)),
            None => None,
        },
        None => None,
    }
}

/// The opaque type that a token of this kind names.
fn opaque(kind: Kind) -> Option<Opaque>
    ensures { MatchOption result (is_opaque kind ≡ false)
        (λ x. (is_opaque kind ≡ true) × (x ≡ opaque_in kind)) }
{
    match kind {
        Kind::Key(Key::Object) => Some(Opaque::Object),
        Kind::Key(Key::Int) => Some(Opaque::Int),
        Kind::Key(Key::Boolean) => Some(Opaque::Boolean),
        Kind::Key(Key::String) => Some(Opaque::String),
        _ => None,
    }
}

/// `"(" params? ")"`
#[tactic(auto, unfolding(crate::specs::Types::params_at))]
pub fn params<'a>(
    source: Source<'_>,
    tokens: &'a [Token],
) -> Result<(Items<Param>, &'a [Token]), ReadFault>
    ensures reads { Gives result (params_at source.entry.text.now tokens.now) }
    ensures shorter { IfOk result (λ x. length x.1.now < length tokens.now) }
{
    let rest = mark(Mark::Open, tokens)?;
    let (found, rest) = maybe_params(source, rest)?;
    let rest = mark(Mark::Close, rest)?;
    Ok((found, rest))
}

fn maybe_params<'a>(
    source: Source<'_>,
    tokens: &'a [Token],
) -> Result<(Items<Param>, &'a [Token]), ReadFault>
    ensures reads { Gives result (listed_at type_starts (param_at source.entry.text.now) tokens.now) }
    ensures shorter { IfOk result (λ x. length x.1.now ≤ length tokens.now) }
{
    if begins_param(tokens) {
        some_params(source, tokens)
    } else {
        Ok((Items::new(source.alloc), tokens))
    }
}

fn begins_param(tokens: &[Token]) -> bool
    ensures { result ≡ begins type_starts tokens.now }
{
    match front(tokens) {
        Some((kind, _)) => is_type_start(kind),
        None => false,
    }
}

/// `param ("," param)*`
fn some_params<'a>(
    source: Source<'_>,
    tokens: &'a [Token],
) -> Result<(Items<Param>, &'a [Token]), ReadFault>
    ensures reads { Gives result (commas_at (param_at source.entry.text.now) tokens.now) }
    ensures shorter { IfOk result (λ x. length x.1.now < length tokens.now) }
{
    let mut found = Items::new(source.alloc);
    let (first, rest) = param(source, tokens)?;
    let (more, rest) = more_params(source, rest)?;
    found.push(first)?;
    found.append(more)?;
    Ok((found, rest))
}

/// `("," param)*`
#[tactic(auto, using(crate::proofs::Along::starts, crate::proofs::Along::ends, crate::proofs::Along::stops, crate::proofs::Along::deepens))]
fn more_params<'a>(
    source: Source<'_>,
    tokens: &'a [Token],
) -> Result<(Items<Param>, &'a [Token]), ReadFault>
    ensures reads { Gives result (more_at (param_at source.entry.text.now) tokens.now) }
    ensures shorter { IfOk result (λ x. length x.1.now ≤ length tokens.now) }
{
    let mut found = Items::new(source.alloc);
    let mut rest = tokens;
    'each: loop {
        let (item, more) = next_param(source, rest)?;
        rest = more;
        match item {
            Some(item) => found.push(item)?,
            None => return Ok((found, rest)),
        }
    }
}

fn next_param<'a>(
    source: Source<'_>,
    tokens: &'a [Token],
) -> Result<(Option<Param>, &'a [Token]), ReadFault>
    ensures reads { Gives result (next_at (param_at source.entry.text.now) tokens.now) }
    ensures shorter { IfOk result (λ x. length x.1.now ≤ length tokens.now) }
    ensures takes { IfOk result (λ x. IsSome x.0 → length x.1.now < length tokens.now) }
{
    match after_mark(Mark::Comma, tokens) {
        Some(after) => {
            let (item, rest) = param(source, after)?;
            Ok((Some(item), rest))
        }
        None => Ok((None, tokens)),
    }
}

/// `(opaque | Name) Name`
#[tactic(auto, unfolding(crate::specs::Types::param_at))]
fn param<'a>(source: Source<'_>, tokens: &'a [Token]) -> Result<(Param, &'a [Token]), ReadFault>
    ensures reads { Gives result (param_at source.entry.text.now tokens.now) }
    ensures shorter { IfOk result (λ x. length x.1.now < length tokens.now) }
{
    match after_placed_opaque(tokens) {
        Some(((place, kind), rest)) => behind_type(source, place, Sort::Opaque(kind), rest),
        None => class_param(source, tokens),
    }
}

fn class_param<'a>(
    source: Source<'_>,
    tokens: &'a [Token],
) -> Result<(Param, &'a [Token]), ReadFault>
    ensures reads { Gives result (class_param_at source.entry.text.now tokens.now) }
    ensures shorter { IfOk result (λ x. length x.1.now < length tokens.now) }
{
    let (class, rest) = name(source, tokens)?;
    let place = class.place;
    behind_type(source, place, Sort::Class(class), rest)
}

/// A parameter behind its type, which begins at the place.
fn behind_type<'a>(
    source: Source<'_>,
    place: Place,
    sort: Sort,
    tokens: &'a [Token],
) -> Result<(Param, &'a [Token]), ReadFault>
    ensures reads { Gives result (param_behind source.entry.text.now place sort tokens.now) }
    ensures shorter { IfOk result (λ x. length x.1.now < length tokens.now) }
{
    let (name, rest) = name(source, tokens)?;
    Ok((Param { place, sort, name }, rest))
}

/// `opaque | Name`
pub fn sort<'a>(source: Source<'_>, tokens: &'a [Token]) -> Result<(Sort, &'a [Token]), ReadFault>
    ensures reads { Gives result (type_at source.entry.text.now tokens.now) }
    ensures shorter { IfOk result (λ x. length x.1.now < length tokens.now) }
{
    match after_opaque(tokens) {
        Some((kind, rest)) => Ok((Sort::Opaque(kind), rest)),
        None => class_sort(source, tokens),
    }
}

fn class_sort<'a>(source: Source<'_>, tokens: &'a [Token]) -> Result<(Sort, &'a [Token]), ReadFault>
    ensures reads { Gives result (class_type_at source.entry.text.now tokens.now) }
    ensures shorter { IfOk result (λ x. length x.1.now < length tokens.now) }
{
    let (class, rest) = name(source, tokens)?;
    Ok((Sort::Class(class), rest))
}

/// Whether a type can begin with a token of this kind.
pub fn is_type_start(kind: Kind) -> bool
    ensures { result ≡ type_starts kind }
{
    kind == Kind::Name || opaque(kind).is_some()
}
