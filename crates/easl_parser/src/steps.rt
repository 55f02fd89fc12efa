//! The steps of a body, conditionals among them. `depth` is how many lists of steps may still stand in one another;
//! texts with too many open brackets are refused before, so it does not run out.
ghost use Rattle.std.specs.Prelude.{◌≡◌, ◌<◌, ◌≤◌, Some, length, IfOk, IsSome};
ghost use Rattle.cv_read.specs.{Gives, begins, items_at};
ghost use Rattle.easl_parser.specs.Reading.{set_at, assign_at, declare_at, step_behind, named_step_at, simple_at, end_if_by, if_by, step_starts, steps_at, block_at, step_read, maybe_step_at};

use crate::conditions::guard;
use crate::paths::{is_path_start, path_of, value};
use cv_read::{ReadFault, Source, after_key, begins_name, front, mark, name, placed_key};
use easl_model::{Cond, Key, Kind, Mark, Place, Step, Token, Value, Word};
use sqlite_items::Items;

/// `step*`
#[cycle(steps)]
#[tactic(auto, using(crate::proofs::Levels::steps_none, crate::proofs::Levels::steps_some))]
pub(crate) fn steps<'a>(
    source: Source<'_>,
    depth: u32,
    tokens: &'a [Token],
) -> Result<(Items<Step>, &'a [Token]), ReadFault>
    ensures reads { Gives result (steps_at source.entry.text.now depth tokens.now) }
    ensures shorter { IfOk result (λ x. length x.1.now ≤ length tokens.now) }
{
    if depth == 0 {
        return Err(ReadFault::Nesting(tokens.len()));
    }
    steps_within(source, depth - 1, tokens)
}

#[cycle(steps)]
#[tactic(auto, using(cv_read::proofs::Along::starts, cv_read::proofs::Along::ends, cv_read::proofs::Along::stops, cv_read::proofs::Along::deepens))]
fn steps_within<'a>(
    source: Source<'_>,
    depth: u32,
    tokens: &'a [Token],
) -> Result<(Items<Step>, &'a [Token]), ReadFault>
    ensures reads { Gives result (items_at (maybe_step_at source.entry.text.now depth) tokens.now) }
    ensures shorter { IfOk result (λ x. length x.1.now ≤ length tokens.now) }
{
    let mut found = Items::new(source.alloc);
    let mut rest = tokens;
    'each: loop {
        let (item, more) = maybe_step(source, depth, rest)?;
        rest = more;
        match item {
            Some(item) => found.push(item)?,
            None => return Ok((found, rest)),
        }
    }
}

#[cycle(steps)]
fn maybe_step<'a>(
    source: Source<'_>,
    depth: u32,
    tokens: &'a [Token],
) -> Result<(Option<Step>, &'a [Token]), ReadFault>
    ensures reads { Gives result (maybe_step_at source.entry.text.now depth tokens.now) }
    ensures shorter { IfOk result (λ x. length x.1.now ≤ length tokens.now) }
    ensures takes { IfOk result (λ x. IsSome x.0 → length x.1.now < length tokens.now) }
{
    if begins_step(tokens) {
        let (item, rest) = step(source, depth, tokens)?;
        Ok((Some(item), rest))
    } else {
        Ok((None, tokens))
    }
}

fn begins_step(tokens: &[Token]) -> bool
    ensures { result ≡ begins step_starts tokens.now }
{
    match front(tokens) {
        Some((kind, _)) => kind == Kind::Key(Key::If) || is_path_start(kind),
        None => false,
    }
}

#[cycle(steps)]
fn step<'a>(
    source: Source<'_>,
    depth: u32,
    tokens: &'a [Token],
) -> Result<(Step, &'a [Token]), ReadFault>
    ensures reads { Gives result (step_read source.entry.text.now depth tokens.now) }
    ensures shorter { IfOk result (λ x. length x.1.now < length tokens.now) }
{
    match placed_key(Key::If, tokens) {
        Some((place, after)) => if_step(source, depth, place, after),
        None => simple(source, tokens),
    }
}

/// A conditional behind its `if`, which stands at the place: `guard block ("else" block)?`.
#[cycle(steps)]
#[tactic(auto, unfolding(crate::specs::Reading::if_by))]
fn if_step<'a>(
    source: Source<'_>,
    depth: u32,
    place: Place,
    tokens: &'a [Token],
) -> Result<(Step, &'a [Token]), ReadFault>
    ensures reads { Gives result (if_by source.entry.text.now (block_at source.entry.text.now depth) place tokens.now) }
    ensures shorter { IfOk result (λ x. length x.1.now < length tokens.now) }
{
    let (test, rest) = guard(source, tokens)?;
    let (first, rest) = block(source, depth, rest)?;
    end_if(source, depth, place, test, first, rest)
}

/// `("else" block)?`
#[cycle(steps)]
fn end_if<'a>(
    source: Source<'_>,
    depth: u32,
    place: Place,
    test: Cond,
    first: Items<Step>,
    tokens: &'a [Token],
) -> Result<(Step, &'a [Token]), ReadFault>
    ensures reads { Gives result (end_if_by (block_at source.entry.text.now depth) place test first tokens.now) }
    ensures shorter { IfOk result (λ x. length x.1.now ≤ length tokens.now) }
{
    match after_key(Key::Else, tokens) {
        Some(after) => {
            let (second, rest) = block(source, depth, after)?;
            Ok((Step::If(place, test, first, second, true), rest))
        }
        None => Ok((
            Step::If(place, test, first, Items::new(source.alloc), false),
            tokens,
        )),
    }
}

/// `"{" step* "}"`
#[cycle(steps)]
fn block<'a>(
    source: Source<'_>,
    depth: u32,
    tokens: &'a [Token],
) -> Result<(Items<Step>, &'a [Token]), ReadFault>
    ensures reads { Gives result (block_at source.entry.text.now depth tokens.now) }
    ensures shorter { IfOk result (λ x. length x.1.now < length tokens.now) }
{
    let rest = mark(Mark::Begin, tokens)?;
    let (found, rest) = steps(source, depth, rest)?;
    let rest = mark(Mark::End, rest)?;
    Ok((found, rest))
}

/// A step that holds no others: `Name Name "=" value ";" | path "=" value ";"`.
#[tactic(auto, unfolding(crate::specs::Reading::simple_at))]
fn simple<'a>(source: Source<'_>, tokens: &'a [Token]) -> Result<(Step, &'a [Token]), ReadFault>
    ensures reads { Gives result (simple_at source.entry.text.now tokens.now) }
    ensures shorter { IfOk result (λ x. length x.1.now < length tokens.now) }
{
    match placed_key(Key::This, tokens) {
        Some((place, rest)) => assign(source, None, place, rest),
        None => named_step(source, tokens),
    }
}

fn named_step<'a>(source: Source<'_>, tokens: &'a [Token]) -> Result<(Step, &'a [Token]), ReadFault>
    ensures reads { Gives result (named_step_at source.entry.text.now tokens.now) }
    ensures shorter { IfOk result (λ x. length x.1.now < length tokens.now) }
{
    let (first, rest) = name(source, tokens)?;
    behind_name(source, first, rest)
}

/// A step behind its first name.
fn behind_name<'a>(
    source: Source<'_>,
    first: Word,
    tokens: &'a [Token],
) -> Result<(Step, &'a [Token]), ReadFault>
    ensures reads { Gives result (step_behind source.entry.text.now first tokens.now) }
    ensures shorter { IfOk result (λ x. length x.1.now < length tokens.now) }
{
    let place = first.place;
    if begins_name(tokens) {
        declare(source, first, tokens)
    } else {
        assign(source, Some(first), place, tokens)
    }
}

fn declare<'a>(
    source: Source<'_>,
    class: Word,
    tokens: &'a [Token],
) -> Result<(Step, &'a [Token]), ReadFault>
    ensures reads { Gives result (declare_at source.entry.text.now class tokens.now) }
    ensures shorter { IfOk result (λ x. length x.1.now < length tokens.now) }
{
    let (name, rest) = name(source, tokens)?;
    let (value, rest) = assigned(source, rest)?;
    Ok((Step::Declare(class, name, value), rest))
}

fn assign<'a>(
    source: Source<'_>,
    head: Option<Word>,
    place: Place,
    tokens: &'a [Token],
) -> Result<(Step, &'a [Token]), ReadFault>
    ensures reads { Gives result (assign_at source.entry.text.now head place tokens.now) }
    ensures shorter { IfOk result (λ x. length x.1.now < length tokens.now) }
{
    let (path, rest) = path_of(source, head, place, tokens)?;
    let (value, rest) = assigned(source, rest)?;
    Ok((Step::Assign(path, value), rest))
}

/// `"=" value ";"`
#[tactic(auto, unfolding(crate::specs::Reading::set_at))]
fn assigned<'a>(source: Source<'_>, tokens: &'a [Token]) -> Result<(Value, &'a [Token]), ReadFault>
    ensures reads { Gives result (set_at source.entry.text.now tokens.now) }
    ensures shorter { IfOk result (λ x. length x.1.now < length tokens.now) }
{
    let rest = mark(Mark::Assign, tokens)?;
    let (value, rest) = value(source, rest)?;
    let rest = mark(Mark::Semicolon, rest)?;
    Ok((value, rest))
}
