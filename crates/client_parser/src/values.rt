//! Arguments, calls and values.
ghost use Rattle.std.specs.Prelude.{◌≡◌, ◌<◌, ◌≤◌, length, IfOk, IsSome};
ghost use Rattle.cv_read.specs.Read.{Gives, begins, commas_at, more_at, next_at, listed_at};
ghost use Rattle.client_parser.specs.Reading.{arg_starts, arg_at, args_at, component_behind, component_at, new_behind, component_value, call_value};
ghost use Rattle.client_parser.specs.Reading.{literal_value_at, initial_behind, rhs_behind, named_by, plain_by, initial_at, rhs_at};

use client_model::{Call, Component, New, Rhs};
use cv_read::{
    ReadFault, Source, after_mark, begins_literal, begins_mark, front, is_literal, literal, mark,
    name, placed_key,
};
use easl_model::{Key, Kind, Mark, Place, Token, Word};
use sqlite_items::Items;

/// `"(" (arg ("," arg)*)? ")"`
#[tactic(auto, unfolding(crate::specs::Reading::args_at))]
fn args<'a>(
    source: Source<'_>,
    tokens: &'a [Token],
) -> Result<(Items<Word>, &'a [Token]), ReadFault>
    ensures reads { Gives result (args_at source.entry.text.now tokens.now) }
    ensures shorter { IfOk result (λ x. length x.1.now < length tokens.now) }
{
    let rest = mark(Mark::Open, tokens)?;
    let (found, rest) = maybe_args(source, rest)?;
    let rest = mark(Mark::Close, rest)?;
    Ok((found, rest))
}

fn maybe_args<'a>(
    source: Source<'_>,
    tokens: &'a [Token],
) -> Result<(Items<Word>, &'a [Token]), ReadFault>
    ensures reads { Gives result (listed_at arg_starts (arg_at source.entry.text.now) tokens.now) }
    ensures shorter { IfOk result (λ x. length x.1.now ≤ length tokens.now) }
{
    if begins_arg(tokens) {
        some_args(source, tokens)
    } else {
        Ok((Items::new(source.alloc), tokens))
    }
}

fn begins_arg(tokens: &[Token]) -> bool
    ensures { result ≡ begins arg_starts tokens.now }
{
    match front(tokens) {
        Some((kind, _)) => kind == Kind::Name || is_literal(kind),
        None => false,
    }
}

/// `arg ("," arg)*`
fn some_args<'a>(
    source: Source<'_>,
    tokens: &'a [Token],
) -> Result<(Items<Word>, &'a [Token]), ReadFault>
    ensures reads { Gives result (commas_at (arg_at source.entry.text.now) tokens.now) }
    ensures shorter { IfOk result (λ x. length x.1.now < length tokens.now) }
{
    let mut found = Items::new(source.alloc);
    let (first, rest) = arg(source, tokens)?;
    let (more, rest) = more_args(source, rest)?;
    found.push(first)?;
    found.append(more)?;
    Ok((found, rest))
}

/// `("," arg)*`
#[tactic(auto, using(cv_read::proofs::Along::starts, cv_read::proofs::Along::ends, cv_read::proofs::Along::stops, cv_read::proofs::Along::deepens))]
fn more_args<'a>(
    source: Source<'_>,
    tokens: &'a [Token],
) -> Result<(Items<Word>, &'a [Token]), ReadFault>
    ensures reads { Gives result (more_at (arg_at source.entry.text.now) tokens.now) }
    ensures shorter { IfOk result (λ x. length x.1.now ≤ length tokens.now) }
{
    let mut found = Items::new(source.alloc);
    let mut rest = tokens;
    'each: loop {
        let (item, more) = next_arg(source, rest)?;
        rest = more;
        match item {
            Some(item) => found.push(item)?,
            None => return Ok((found, rest)),
        }
    }
}

fn next_arg<'a>(
    source: Source<'_>,
    tokens: &'a [Token],
) -> Result<(Option<Word>, &'a [Token]), ReadFault>
    ensures reads { Gives result (next_at (arg_at source.entry.text.now) tokens.now) }
    ensures shorter { IfOk result (λ x. length x.1.now ≤ length tokens.now) }
    ensures takes { IfOk result (λ x. IsSome x.0 → length x.1.now < length tokens.now) }
{
    match after_mark(Mark::Comma, tokens) {
        Some(after) => {
            let (item, rest) = arg(source, after)?;
            Ok((Some(item), rest))
        }
        None => Ok((None, tokens)),
    }
}

/// `Name | literal`
pub(crate) fn arg<'a>(
    source: Source<'_>,
    tokens: &'a [Token],
) -> Result<(Word, &'a [Token]), ReadFault>
    ensures reads { Gives result (arg_at source.entry.text.now tokens.now) }
    ensures shorter { IfOk result (λ x. length x.1.now < length tokens.now) }
{
    if begins_literal(tokens) {
        literal(source, tokens)
    } else {
        name(source, tokens)
    }
}

/// `Name "." Name args`
pub(crate) fn component<'a>(
    source: Source<'_>,
    tokens: &'a [Token],
) -> Result<(Component, &'a [Token]), ReadFault>
    ensures reads { Gives result (component_at source.entry.text.now tokens.now) }
    ensures shorter { IfOk result (λ x. length x.1.now < length tokens.now) }
{
    let (receiver, rest) = name(source, tokens)?;
    behind_receiver(source, receiver, rest)
}

/// `"." Name args`
#[tactic(auto, unfolding(crate::specs::Reading::component_behind))]
fn behind_receiver<'a>(
    source: Source<'_>,
    receiver: Word,
    tokens: &'a [Token],
) -> Result<(Component, &'a [Token]), ReadFault>
    ensures reads { Gives result (component_behind source.entry.text.now receiver tokens.now) }
    ensures shorter { IfOk result (λ x. length x.1.now < length tokens.now) }
{
    let rest = mark(Mark::Dot, tokens)?;
    let (method, rest) = name(source, rest)?;
    let (args, rest) = args(source, rest)?;
    let call = Component {
        receiver,
        method,
        args,
    };
    Ok((call, rest))
}

/// A call of a component behind its receiver.
pub(crate) fn component_value<'a>(
    source: Source<'_>,
    receiver: Word,
    tokens: &'a [Token],
) -> Result<(Rhs, &'a [Token]), ReadFault>
    ensures reads { Gives result (component_value source.entry.text.now receiver tokens.now) }
    ensures shorter { IfOk result (λ x. length x.1.now < length tokens.now) }
{
    let (call, rest) = behind_receiver(source, receiver, tokens)?;
    Ok((Rhs::Component(call), rest))
}

/// A call of a procedure behind its name.
pub(crate) fn call_value<'a>(
    source: Source<'_>,
    procedure: Word,
    tokens: &'a [Token],
) -> Result<(Rhs, &'a [Token]), ReadFault>
    ensures reads { Gives result (call_value source.entry.text.now procedure tokens.now) }
    ensures shorter { IfOk result (λ x. length x.1.now < length tokens.now) }
{
    let (args, rest) = args(source, tokens)?;
    Ok((Rhs::Call(Call { procedure, args }), rest))
}

/// A construction behind its `new`.
pub(crate) fn new_value<'a>(
    source: Source<'_>,
    place: Place,
    tokens: &'a [Token],
) -> Result<(Rhs, &'a [Token]), ReadFault>
    ensures reads { Gives result (new_behind source.entry.text.now place tokens.now) }
    ensures shorter { IfOk result (λ x. length x.1.now < length tokens.now) }
{
    let (class, rest) = name(source, tokens)?;
    let (args, rest) = args(source, rest)?;
    Ok((Rhs::New(New { place, class, args }), rest))
}

fn literal_value<'a>(
    source: Source<'_>,
    tokens: &'a [Token],
) -> Result<(Rhs, &'a [Token]), ReadFault>
    ensures reads { Gives result (literal_value_at source.entry.text.now tokens.now) }
    ensures shorter { IfOk result (λ x. length x.1.now < length tokens.now) }
{
    let (word, rest) = literal(source, tokens)?;
    Ok((Rhs::Copy(word), rest))
}

/// `arg | new | component`
#[tactic(auto, unfolding(crate::specs::Reading::initial_at))]
pub(crate) fn initial<'a>(
    source: Source<'_>,
    tokens: &'a [Token],
) -> Result<(Rhs, &'a [Token]), ReadFault>
    ensures reads { Gives result (initial_at source.entry.text.now tokens.now) }
    ensures shorter { IfOk result (λ x. length x.1.now < length tokens.now) }
{
    match placed_key(Key::New, tokens) {
        Some((place, rest)) => new_value(source, place, rest),
        None => plain_initial(source, tokens),
    }
}

fn plain_initial<'a>(
    source: Source<'_>,
    tokens: &'a [Token],
) -> Result<(Rhs, &'a [Token]), ReadFault>
    ensures reads { Gives result (plain_by source.entry.text.now (initial_behind source.entry.text.now) tokens.now) }
    ensures shorter { IfOk result (λ x. length x.1.now < length tokens.now) }
{
    if begins_literal(tokens) {
        literal_value(source, tokens)
    } else {
        named_initial(source, tokens)
    }
}

fn named_initial<'a>(
    source: Source<'_>,
    tokens: &'a [Token],
) -> Result<(Rhs, &'a [Token]), ReadFault>
    ensures reads { Gives result (named_by source.entry.text.now (initial_behind source.entry.text.now) tokens.now) }
    ensures shorter { IfOk result (λ x. length x.1.now < length tokens.now) }
{
    let (first, rest) = name(source, tokens)?;
    initial_behind(source, first, rest)
}

/// A name's own value, or a call of the component that it names.
fn initial_behind<'a>(
    source: Source<'_>,
    first: Word,
    tokens: &'a [Token],
) -> Result<(Rhs, &'a [Token]), ReadFault>
    ensures reads { Gives result (initial_behind source.entry.text.now first tokens.now) }
    ensures shorter { IfOk result (λ x. length x.1.now ≤ length tokens.now) }
{
    if begins_mark(Mark::Dot, tokens) {
        component_value(source, first, tokens)
    } else {
        Ok((Rhs::Copy(first), tokens))
    }
}

/// `arg | new | component | call`
#[tactic(auto, unfolding(crate::specs::Reading::rhs_at))]
pub(crate) fn rhs<'a>(
    source: Source<'_>,
    tokens: &'a [Token],
) -> Result<(Rhs, &'a [Token]), ReadFault>
    ensures reads { Gives result (rhs_at source.entry.text.now tokens.now) }
    ensures shorter { IfOk result (λ x. length x.1.now < length tokens.now) }
{
    match placed_key(Key::New, tokens) {
        Some((place, rest)) => new_value(source, place, rest),
        None => plain_rhs(source, tokens),
    }
}

fn plain_rhs<'a>(source: Source<'_>, tokens: &'a [Token]) -> Result<(Rhs, &'a [Token]), ReadFault>
    ensures reads { Gives result (plain_by source.entry.text.now (rhs_behind source.entry.text.now) tokens.now) }
    ensures shorter { IfOk result (λ x. length x.1.now < length tokens.now) }
{
    if begins_literal(tokens) {
        literal_value(source, tokens)
    } else {
        named_rhs(source, tokens)
    }
}

fn named_rhs<'a>(source: Source<'_>, tokens: &'a [Token]) -> Result<(Rhs, &'a [Token]), ReadFault>
    ensures reads { Gives result (named_by source.entry.text.now (rhs_behind source.entry.text.now) tokens.now) }
    ensures shorter { IfOk result (λ x. length x.1.now < length tokens.now) }
{
    let (first, rest) = name(source, tokens)?;
    rhs_behind(source, first, rest)
}

/// A name's own value, a call of the component that it names, or of the procedure.
fn rhs_behind<'a>(
    source: Source<'_>,
    first: Word,
    tokens: &'a [Token],
) -> Result<(Rhs, &'a [Token]), ReadFault>
    ensures reads { Gives result (rhs_behind source.entry.text.now first tokens.now) }
    ensures shorter { IfOk result (λ x. length x.1.now ≤ length tokens.now) }
{
    if begins_mark(Mark::Open, tokens) {
        call_value(source, first, tokens)
    } else {
        initial_behind(source, first, tokens)
    }
}
