//! Classes and their members. Where rules begin alike, the common part is read first.
ghost use Rattle.std.specs.Prelude.{◌≡◌, ◌≢◌, ◌<◌, ◌≤◌, length, IfErr, IfOk, IsSome};
ghost use Rattle.easl_model.specs.declared.token.Key.TheVariants as key;
ghost use Rattle.cv_read.specs.{Gives, begins, key_place_at};
ghost use Rattle.cv_read.specs.declared.fault.ReadFault.TheVariants.{Memory};
ghost use Rattle.easl_parser.specs.Reading.{constructor_at, method_at, behind_two, two_names_at, behind_one, named_member_at, behind_result, opaque_method_at, plain_method_at, member_at, member_starts, maybe_member_at, members_at, class_at};

use crate::bodies::{clauses, returned};
use crate::steps::steps;
use cv_read::{
    ReadFault, Source, after_mark, after_placed_opaque, begins_mark, begins_name, front,
    is_type_start, mark, name, params, placed_key, placed_mark,
};
use easl_model::{Class, Code, Field, Key, Kind, Mark, Member, Place, Sort, Token, Word};
use sqlite_items::Items;

/// `"class" Name "{" member* "}"`
#[tactic(auto, unfolding(crate::specs::Reading::class_at))]
pub(crate) fn class<'a>(
    source: Source<'_>,
    depth: u32,
    tokens: &'a [Token],
) -> Result<(Class, &'a [Token]), ReadFault>
    ensures reads { Gives result (class_at source.entry.text.now depth tokens.now) }
    ensures shorter { IfOk result (λ x. length x.1.now < length tokens.now) }
{
    let (place, rest) = class_key(tokens)?;
    let (name, rest) = name(source, rest)?;
    let rest = mark(Mark::Begin, rest)?;
    let (members, rest) = members(source, depth, rest)?;
    let rest = mark(Mark::End, rest)?;
    let class = Class {
        place,
        name,
        members,
    };
    Ok((class, rest))
}

/// The place of the keyword that begins a class, and the tokens after it.
fn class_key(tokens: &[Token]) -> Result<(Place, &[Token]), ReadFault>
    ensures reads { Gives result (key_place_at key.Class tokens.now) }
    ensures memory { IfErr result (λ e. e ≢ Memory) }
    ensures shorter { IfOk result (λ x. length x.1.now < length tokens.now) }
{
    match placed_key(Key::Class, tokens) {
        Some(found) => Ok(found),
        None => Err(ReadFault::Syntax(tokens.len())),
    }
}

/// `member*`
#[tactic(auto, using(cv_read::proofs::Along::starts, cv_read::proofs::Along::ends, cv_read::proofs::Along::stops, cv_read::proofs::Along::deepens))]
fn members<'a>(
    source: Source<'_>,
    depth: u32,
    tokens: &'a [Token],
) -> Result<(Items<Member>, &'a [Token]), ReadFault>
    ensures reads { Gives result (members_at source.entry.text.now depth tokens.now) }
    ensures shorter { IfOk result (λ x. length x.1.now ≤ length tokens.now) }
{
    let mut found = Items::new(source.alloc);
    let mut rest = tokens;
    'each: loop {
        let (item, more) = maybe_member(source, depth, rest)?;
        rest = more;
        match item {
            Some(item) => found.push(item)?,
            None => return Ok((found, rest)),
        }
    }
}

fn maybe_member<'a>(
    source: Source<'_>,
    depth: u32,
    tokens: &'a [Token],
) -> Result<(Option<Member>, &'a [Token]), ReadFault>
    ensures reads { Gives result (maybe_member_at source.entry.text.now depth tokens.now) }
    ensures shorter { IfOk result (λ x. length x.1.now ≤ length tokens.now) }
    ensures takes { IfOk result (λ x. IsSome x.0 → length x.1.now < length tokens.now) }
{
    if begins_member(tokens) {
        let (item, rest) = member(source, depth, tokens)?;
        Ok((Some(item), rest))
    } else {
        Ok((None, tokens))
    }
}

fn begins_member(tokens: &[Token]) -> bool
    ensures { result ≡ begins member_starts tokens.now }
{
    match front(tokens) {
        Some((kind, _)) => kind == Kind::Key(Key::Void) || is_type_start(kind),
        None => false,
    }
}

/// `field | constructor | method`
#[tactic(auto, unfolding(crate::specs::Reading::member_at))]
fn member<'a>(
    source: Source<'_>,
    depth: u32,
    tokens: &'a [Token],
) -> Result<(Member, &'a [Token]), ReadFault>
    ensures reads { Gives result (member_at source.entry.text.now depth tokens.now) }
    ensures shorter { IfOk result (λ x. length x.1.now < length tokens.now) }
{
    if begins_name(tokens) {
        named_member(source, depth, tokens)
    } else {
        plain_method(source, depth, tokens)
    }
}

/// A member that begins with a name: of a field's class, of a constructor, or of a method's result.
fn named_member<'a>(
    source: Source<'_>,
    depth: u32,
    tokens: &'a [Token],
) -> Result<(Member, &'a [Token]), ReadFault>
    ensures reads { Gives result (named_member_at source.entry.text.now depth tokens.now) }
    ensures shorter { IfOk result (λ x. length x.1.now < length tokens.now) }
{
    let (first, rest) = name(source, tokens)?;
    behind_name(source, depth, first, rest)
}

/// The member behind its first name.
fn behind_name<'a>(
    source: Source<'_>,
    depth: u32,
    first: Word,
    tokens: &'a [Token],
) -> Result<(Member, &'a [Token]), ReadFault>
    ensures reads { Gives result (behind_one source.entry.text.now depth first tokens.now) }
    ensures shorter { IfOk result (λ x. length x.1.now < length tokens.now) }
{
    if begins_mark(Mark::Open, tokens) {
        constructor(source, depth, first, tokens)
    } else {
        behind_class(source, depth, first, tokens)
    }
}

/// The member behind a class.
fn behind_class<'a>(
    source: Source<'_>,
    depth: u32,
    class: Word,
    tokens: &'a [Token],
) -> Result<(Member, &'a [Token]), ReadFault>
    ensures reads { Gives result (two_names_at source.entry.text.now depth class tokens.now) }
    ensures shorter { IfOk result (λ x. length x.1.now < length tokens.now) }
{
    let (name, rest) = name(source, tokens)?;
    behind_both(source, depth, class, name, rest)
}

/// The member behind a class and a name.
fn behind_both<'a>(
    source: Source<'_>,
    depth: u32,
    class: Word,
    name: Word,
    tokens: &'a [Token],
) -> Result<(Member, &'a [Token]), ReadFault>
    ensures reads { Gives result (behind_two source.entry.text.now depth class name tokens.now) }
    ensures shorter { IfOk result (λ x. length x.1.now < length tokens.now) }
{
    match after_mark(Mark::Semicolon, tokens) {
        Some(rest) => Ok((Member::Field(Field { class, name }), rest)),
        None => {
            let place = class.place;
            method(source, depth, place, Sort::Class(class), name, tokens)
        }
    }
}

/// A method whose result is `void` or opaque.
fn plain_method<'a>(
    source: Source<'_>,
    depth: u32,
    tokens: &'a [Token],
) -> Result<(Member, &'a [Token]), ReadFault>
    ensures reads { Gives result (plain_method_at source.entry.text.now depth tokens.now) }
    ensures shorter { IfOk result (λ x. length x.1.now < length tokens.now) }
{
    match placed_key(Key::Void, tokens) {
        Some((place, rest)) => behind_result(source, depth, place, Sort::Void, rest),
        None => opaque_method(source, depth, tokens),
    }
}

fn opaque_method<'a>(
    source: Source<'_>,
    depth: u32,
    tokens: &'a [Token],
) -> Result<(Member, &'a [Token]), ReadFault>
    ensures reads { Gives result (opaque_method_at source.entry.text.now depth tokens.now) }
    ensures shorter { IfOk result (λ x. length x.1.now < length tokens.now) }
{
    match after_placed_opaque(tokens) {
        Some(((place, kind), rest)) => {
            behind_result(source, depth, place, Sort::Opaque(kind), rest)
        }
        None => Err(ReadFault::Syntax(tokens.len())),
    }
}

/// A method behind its result, which begins at the place.
fn behind_result<'a>(
    source: Source<'_>,
    depth: u32,
    place: Place,
    sort: Sort,
    tokens: &'a [Token],
) -> Result<(Member, &'a [Token]), ReadFault>
    ensures reads { Gives result (behind_result source.entry.text.now depth place sort tokens.now) }
    ensures shorter { IfOk result (λ x. length x.1.now < length tokens.now) }
{
    let (name, rest) = name(source, tokens)?;
    method(source, depth, place, sort, name, rest)
}

/// A constructor behind its name.
#[tactic(auto, unfolding(crate::specs::Reading::constructor_at))]
fn constructor<'a>(
    source: Source<'_>,
    depth: u32,
    name: Word,
    tokens: &'a [Token],
) -> Result<(Member, &'a [Token]), ReadFault>
    ensures reads { Gives result (constructor_at source.entry.text.now depth name tokens.now) }
    ensures shorter { IfOk result (λ x. length x.1.now < length tokens.now) }
{
    let (params, rest) = params(source, tokens)?;
    let rest = mark(Mark::Begin, rest)?;
    let (body, rest) = steps(source, depth, rest)?;
    let (end, rest) = placed_mark(Mark::End, rest)?;
    let code = Code {
        place: name.place,
        result: Sort::Void,
        name,
        params,
        clauses: Items::new(source.alloc),
        body,
        value: None,
        end,
    };
    Ok((Member::Constructor(code), rest))
}

/// A method behind its name, whose result begins at the place.
#[tactic(auto, unfolding(crate::specs::Reading::method_at))]
fn method<'a>(
    source: Source<'_>,
    depth: u32,
    place: Place,
    sort: Sort,
    name: Word,
    tokens: &'a [Token],
) -> Result<(Member, &'a [Token]), ReadFault>
    ensures reads { Gives result (method_at source.entry.text.now depth place sort name tokens.now) }
    ensures shorter { IfOk result (λ x. length x.1.now < length tokens.now) }
{
    let (params, rest) = params(source, tokens)?;
    let rest = mark(Mark::Begin, rest)?;
    let (clauses, rest) = clauses(source, depth, rest)?;
    let (body, rest) = steps(source, depth, rest)?;
    let (value, rest) = returned(source, rest)?;
    let (end, rest) = placed_mark(Mark::End, rest)?;
    let code = Code {
        place,
        result: sort,
        name,
        params,
        clauses,
        body,
        value,
        end,
    };
    Ok((Member::Method(code), rest))
}
