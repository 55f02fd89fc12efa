//! Paths, arguments and values.
ghost use Rattle.std.specs.Prelude.{◌≡◌, ◌<◌, ◌≤◌, Some, None, length, IfOk, IsSome};
ghost use Rattle.easl_model.specs.declared.token.Mark.TheVariants as mark;
ghost use Rattle.easl_model.specs.declared.token.Key.TheVariants as key;
ghost use Rattle.cv_read.specs.{Gives, begins, behind_mark, commas_at, is_mark, items_at, listed_at, more_at, next_at, step_at};
ghost use Rattle.easl_parser.specs.Reading.{field_at, path_of, path_at, named_path_at, path_starts, arg_starts, literal_arg_at, path_arg_at, arg_at, args_at, new_behind, path_value_at, value_at};

use cv_read::{
    ReadFault, Source, after_mark, begins_literal, front, is_literal, literal, mark, name,
    placed_key,
};
use easl_model::{Arg, Key, Kind, Mark, New, Path, Place, Token, Value, Word};
use sqlite_items::Items;

/// `("this" | Name) ("." Name)*`
#[tactic(auto, unfolding(crate::specs::Reading::path_at))]
pub(crate) fn path<'a>(
    source: Source<'_>,
    tokens: &'a [Token],
) -> Result<(Path, &'a [Token]), ReadFault>
    ensures reads { Gives result (path_at source.entry.text.now tokens.now) }
    ensures shorter { IfOk result (λ x. length x.1.now < length tokens.now) }
{
    match placed_key(Key::This, tokens) {
        Some((place, rest)) => path_of(source, None, place, rest),
        None => named_path(source, tokens),
    }
}

fn named_path<'a>(source: Source<'_>, tokens: &'a [Token]) -> Result<(Path, &'a [Token]), ReadFault>
    ensures reads { Gives result (named_path_at source.entry.text.now tokens.now) }
    ensures shorter { IfOk result (λ x. length x.1.now < length tokens.now) }
{
    let (head, rest) = name(source, tokens)?;
    let place = head.place;
    path_of(source, Some(head), place, rest)
}

/// The fields behind a head.
pub(crate) fn path_of<'a>(
    source: Source<'_>,
    head: Option<Word>,
    place: Place,
    tokens: &'a [Token],
) -> Result<(Path, &'a [Token]), ReadFault>
    ensures reads { Gives result (path_of source.entry.text.now head place tokens.now) }
    ensures shorter { IfOk result (λ x. length x.1.now ≤ length tokens.now) }
{
    let (fields, rest) = fields(source, tokens)?;
    Ok((
        Path {
            head,
            place,
            fields,
        },
        rest,
    ))
}

/// `("." Name)*`
#[tactic(auto, using(cv_read::proofs::Along::starts, cv_read::proofs::Along::ends, cv_read::proofs::Along::stops, cv_read::proofs::Along::deepens))]
fn fields<'a>(
    source: Source<'_>,
    tokens: &'a [Token],
) -> Result<(Items<Word>, &'a [Token]), ReadFault>
    ensures reads { Gives result (items_at (field_at source.entry.text.now) tokens.now) }
    ensures shorter { IfOk result (λ x. length x.1.now ≤ length tokens.now) }
{
    let mut found = Items::new(source.alloc);
    let mut rest = tokens;
    'each: loop {
        let (item, more) = maybe_field(source, rest)?;
        rest = more;
        match item {
            Some(item) => found.push(item)?,
            None => return Ok((found, rest)),
        }
    }
}

fn maybe_field<'a>(
    source: Source<'_>,
    tokens: &'a [Token],
) -> Result<(Option<Word>, &'a [Token]), ReadFault>
    ensures reads { Gives result (field_at source.entry.text.now tokens.now) }
    ensures shorter { IfOk result (λ x. length x.1.now ≤ length tokens.now) }
    ensures takes { IfOk result (λ x. IsSome x.0 → length x.1.now < length tokens.now) }
{
    match after_mark(Mark::Dot, tokens) {
        Some(after) => {
            let (item, rest) = name(source, after)?;
            Ok((Some(item), rest))
        }
        None => Ok((None, tokens)),
    }
}

/// `path | "new" Name "(" args? ")"`
#[tactic(auto, unfolding(crate::specs::Reading::value_at))]
pub(crate) fn value<'a>(
    source: Source<'_>,
    tokens: &'a [Token],
) -> Result<(Value, &'a [Token]), ReadFault>
    ensures reads { Gives result (value_at source.entry.text.now tokens.now) }
    ensures shorter { IfOk result (λ x. length x.1.now < length tokens.now) }
{
    match placed_key(Key::New, tokens) {
        Some((place, rest)) => new_value(source, place, rest),
        None => path_value(source, tokens),
    }
}

/// A construction behind its `new`.
fn new_value<'a>(
    source: Source<'_>,
    place: Place,
    tokens: &'a [Token],
) -> Result<(Value, &'a [Token]), ReadFault>
    ensures reads { Gives result (new_behind source.entry.text.now place tokens.now) }
    ensures shorter { IfOk result (λ x. length x.1.now < length tokens.now) }
{
    let (class, rest) = name(source, tokens)?;
    let (args, rest) = args(source, rest)?;
    Ok((Value::New(New { place, class, args }), rest))
}

fn path_value<'a>(
    source: Source<'_>,
    tokens: &'a [Token],
) -> Result<(Value, &'a [Token]), ReadFault>
    ensures reads { Gives result (path_value_at source.entry.text.now tokens.now) }
    ensures shorter { IfOk result (λ x. length x.1.now < length tokens.now) }
{
    let (path, rest) = path(source, tokens)?;
    Ok((Value::Path(path), rest))
}

/// `"(" args? ")"`
#[tactic(auto, unfolding(crate::specs::Reading::args_at))]
fn args<'a>(source: Source<'_>, tokens: &'a [Token]) -> Result<(Items<Arg>, &'a [Token]), ReadFault>
    ensures reads { Gives result (args_at source.entry.text.now tokens.now) }
    ensures shorter { IfOk result (λ x. length x.1.now < length tokens.now) }
{
    let rest = mark(Mark::Open, tokens)?;
    let (found, rest) = maybe_args(source, rest)?;
    let rest = mark(Mark::Close, rest)?;
    Ok((found, rest))
}

fn maybe_args<'a>(
    source: Source<'_>,
    tokens: &'a [Token],
) -> Result<(Items<Arg>, &'a [Token]), ReadFault>
    ensures reads { Gives result (listed_at arg_starts (arg_at source.entry.text.now) tokens.now) }
    ensures shorter { IfOk result (λ x. length x.1.now ≤ length tokens.now) }
{
    if begins_arg(tokens) {
        some_args(source, tokens)
    } else {
        Ok((Items::new(source.alloc), tokens))
    }
}

fn begins_arg(tokens: &[Token]) -> bool
    ensures { result ≡ begins arg_starts tokens.now }
{
    match front(tokens) {
        Some((kind, _)) => is_literal(kind) || is_path_start(kind),
        None => false,
    }
}

/// Whether a path can begin with a token of this kind.
pub(crate) fn is_path_start(kind: Kind) -> bool
    ensures { result ≡ path_starts kind }
{
    matches!(kind, Kind::Name | Kind::Key(Key::This))
}

/// `arg ("," arg)*`
fn some_args<'a>(
    source: Source<'_>,
    tokens: &'a [Token],
) -> Result<(Items<Arg>, &'a [Token]), ReadFault>
    ensures reads { Gives result (commas_at (arg_at source.entry.text.now) tokens.now) }
    ensures shorter { IfOk result (λ x. length x.1.now < length tokens.now) }
{
    let mut found = Items::new(source.alloc);
    let (first, rest) = arg(source, tokens)?;
    let (more, rest) = more_args(source, rest)?;
    found.push(first)?;
    found.append(more)?;
    Ok((found, rest))
}

/// `("," arg)*`
#[tactic(auto, using(cv_read::proofs::Along::starts, cv_read::proofs::Along::ends, cv_read::proofs::Along::stops, cv_read::proofs::Along::deepens))]
fn more_args<'a>(
    source: Source<'_>,
    tokens: &'a [Token],
) -> Result<(Items<Arg>, &'a [Token]), ReadFault>
    ensures reads { Gives result (more_at (arg_at source.entry.text.now) tokens.now) }
    ensures shorter { IfOk result (λ x. length x.1.now ≤ length tokens.now) }
{
    let mut found = Items::new(source.alloc);
    let mut rest = tokens;
    'each: loop {
        let (item, more) = next_arg(source, rest)?;
        rest = more;
        match item {
            Some(item) => found.push(item)?,
            None => return Ok((found, rest)),
        }
    }
}

fn next_arg<'a>(
    source: Source<'_>,
    tokens: &'a [Token],
) -> Result<(Option<Arg>, &'a [Token]), ReadFault>
    ensures reads { Gives result (next_at (arg_at source.entry.text.now) tokens.now) }
    ensures shorter { IfOk result (λ x. length x.1.now ≤ length tokens.now) }
    ensures takes { IfOk result (λ x. IsSome x.0 → length x.1.now < length tokens.now) }
{
    match after_mark(Mark::Comma, tokens) {
        Some(after) => {
            let (item, rest) = arg(source, after)?;
            Ok((Some(item), rest))
        }
        None => Ok((None, tokens)),
    }
}

/// `path | literal`
#[tactic(auto, unfolding(crate::specs::Reading::arg_at))]
fn arg<'a>(source: Source<'_>, tokens: &'a [Token]) -> Result<(Arg, &'a [Token]), ReadFault>
    ensures reads { Gives result (arg_at source.entry.text.now tokens.now) }
    ensures shorter { IfOk result (λ x. length x.1.now < length tokens.now) }
{
    if begins_literal(tokens) {
        literal_arg(source, tokens)
    } else {
        path_arg(source, tokens)
    }
}

fn literal_arg<'a>(source: Source<'_>, tokens: &'a [Token]) -> Result<(Arg, &'a [Token]), ReadFault>
    ensures reads { Gives result (literal_arg_at source.entry.text.now tokens.now) }
    ensures shorter { IfOk result (λ x. length x.1.now < length tokens.now) }
{
    let (word, rest) = literal(source, tokens)?;
    Ok((Arg::Literal(word), rest))
}

fn path_arg<'a>(source: Source<'_>, tokens: &'a [Token]) -> Result<(Arg, &'a [Token]), ReadFault>
    ensures reads { Gives result (path_arg_at source.entry.text.now tokens.now) }
    ensures shorter { IfOk result (λ x. length x.1.now < length tokens.now) }
{
    let (path, rest) = path(source, tokens)?;
    Ok((Arg::Path(path), rest))
}
