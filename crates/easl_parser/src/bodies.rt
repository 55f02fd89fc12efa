//! The clauses of a method, and its return.
ghost use Rattle.std.specs.Prelude.{◌≡◌, ◌<◌, ◌≤◌, length, IfOk, IsSome};
ghost use Rattle.cv_read.specs.{Gives};
ghost use Rattle.easl_parser.specs.Reading.{condition_at, clause_behind, maybe_clause_at, clauses_at, return_behind, return_at};

use crate::conditions::any;
use crate::paths::value;
use cv_read::{ReadFault, Source, mark, placed_key};
use easl_model::{Cond, Key, Mark, Place, Requires, Return, Token};
use sqlite_items::Items;

/// `clause*`
#[tactic(auto, using(cv_read::proofs::Along::starts, cv_read::proofs::Along::ends, cv_read::proofs::Along::stops, cv_read::proofs::Along::deepens))]
pub(crate) fn clauses<'a>(
    source: Source<'_>,
    depth: u32,
    tokens: &'a [Token],
) -> Result<(Items<Requires>, &'a [Token]), ReadFault>
    ensures reads { Gives result (clauses_at source.entry.text.now depth tokens.now) }
    ensures shorter { IfOk result (λ x. length x.1.now ≤ length tokens.now) }
{
    let mut found = Items::new(source.alloc);
    let mut rest = tokens;
    'each: loop {
        let (item, more) = maybe_clause(source, depth, rest)?;
        rest = more;
        match item {
            Some(item) => found.push(item)?,
            None => return Ok((found, rest)),
        }
    }
}

#[tactic(auto, unfolding(crate::specs::Reading::clause_at))]
fn maybe_clause<'a>(
    source: Source<'_>,
    depth: u32,
    tokens: &'a [Token],
) -> Result<(Option<Requires>, &'a [Token]), ReadFault>
    ensures reads { Gives result (maybe_clause_at source.entry.text.now depth tokens.now) }
    ensures shorter { IfOk result (λ x. length x.1.now ≤ length tokens.now) }
    ensures takes { IfOk result (λ x. IsSome x.0 → length x.1.now < length tokens.now) }
{
    match placed_key(Key::Requires, tokens) {
        Some((place, after)) => {
            let (item, rest) = clause(source, depth, place, after)?;
            Ok((Some(item), rest))
        }
        None => Ok((None, tokens)),
    }
}

/// A clause behind its keyword, which stands at the place.
fn clause<'a>(
    source: Source<'_>,
    depth: u32,
    place: Place,
    tokens: &'a [Token],
) -> Result<(Requires, &'a [Token]), ReadFault>
    ensures reads { Gives result (clause_behind source.entry.text.now depth place tokens.now) }
    ensures shorter { IfOk result (λ x. length x.1.now < length tokens.now) }
{
    let (condition, rest) = condition(source, depth, tokens)?;
    Ok((Requires { place, condition }, rest))
}

/// `any ";"`
fn condition<'a>(
    source: Source<'_>,
    depth: u32,
    tokens: &'a [Token],
) -> Result<(Cond, &'a [Token]), ReadFault>
    ensures reads { Gives result (condition_at source.entry.text.now depth tokens.now) }
    ensures shorter { IfOk result (λ x. length x.1.now < length tokens.now) }
{
    let (found, rest) = any(source, depth, tokens)?;
    let rest = mark(Mark::Semicolon, rest)?;
    Ok((found, rest))
}

/// `("return" value ";")?`
#[tactic(auto, unfolding(crate::specs::Reading::return_at))]
pub(crate) fn returned<'a>(
    source: Source<'_>,
    tokens: &'a [Token],
) -> Result<(Option<Return>, &'a [Token]), ReadFault>
    ensures reads { Gives result (return_at source.entry.text.now tokens.now) }
    ensures shorter { IfOk result (λ x. length x.1.now ≤ length tokens.now) }
{
    match placed_key(Key::Return, tokens) {
        Some((place, after)) => some_returned(source, place, after),
        None => Ok((None, tokens)),
    }
}

/// A return behind its keyword, which stands at the place.
fn some_returned<'a>(
    source: Source<'_>,
    place: Place,
    tokens: &'a [Token],
) -> Result<(Option<Return>, &'a [Token]), ReadFault>
    ensures reads { Gives result (return_behind source.entry.text.now place tokens.now) }
    ensures shorter { IfOk result (λ x. length x.1.now < length tokens.now) }
{
    let (value, rest) = value(source, tokens)?;
    let rest = mark(Mark::Semicolon, rest)?;
    Ok((Some(Return { place, value }), rest))
}
