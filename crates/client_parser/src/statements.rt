//! Statements and what they hold. `depth` is how many lists of statements may still stand in one another; texts with
//! too many open brackets are refused before, so it does not run out.
ghost use Rattle.std.specs.Prelude.{◌≡◌, ◌<◌, ◌≤◌, length, IfOk, IsSome};
ghost use Rattle.easl_model.specs.declared.tree.Sort.TheVariants as sort;
ghost use Rattle.cv_read.specs.Read.{Gives, begins, items_at};
ghost use Rattle.client_parser.specs.Reading.{set_at, declare_set_at, declare_behind, declare_at, opaque_declare_at, assign_at, done_by, action_behind};
ghost use Rattle.client_parser.specs.Reading.{new_behind, used_behind, stmt_behind, named_stmt_at, typed_stmt_at, simple_at, test_at, guard_at};
ghost use Rattle.client_parser.specs.Reading.{call_test_at, end_if_by, if_by, while_by, no_if_by, stmt_starts, stmts_at, block_at, stmt_at};
ghost use Rattle.client_parser.specs.Reading.{maybe_stmt_at, ended_by, no_while_at, no_break_at, no_continue_at, return_stmt_behind, return_behind};
ghost use Rattle.client_parser.specs.Reading.{value_return_at};

use crate::values::{arg, call_value, component, component_value, new_value, rhs};
use client_model::{Return, Rhs, Stmt, Test};
use cv_read::{
    ReadFault, Source, after_key, after_mark, after_placed_opaque, begins_mark, begins_name, front,
    is_type_start, mark, name, placed_key, placed_mark,
};
use easl_model::{Key, Kind, Mark, Place, Sort, Token, Word};
use sqlite_items::Items;

/// `stmt*`
#[cycle(statements)]
#[tactic(auto, using(crate::proofs::Levels::stmts_none, crate::proofs::Levels::stmts_some))]
pub(crate) fn stmts<'a>(
    source: Source<'_>,
    depth: u32,
    tokens: &'a [Token],
) -> Result<(Items<Stmt>, &'a [Token]), ReadFault>
    ensures reads { Gives result (stmts_at source.entry.text.now depth tokens.now) }
    ensures shorter { IfOk result (λ x. length x.1.now ≤ length tokens.now) }
{
    if depth == 0 {
        return Err(ReadFault::Nesting(tokens.len()));
    }
    stmts_within(source, depth - 1, tokens)
}

#[cycle(statements)]
#[tactic(auto, using(cv_read::proofs::Along::starts, cv_read::proofs::Along::ends, cv_read::proofs::Along::stops, cv_read::proofs::Along::deepens))]
fn stmts_within<'a>(
    source: Source<'_>,
    depth: u32,
    tokens: &'a [Token],
) -> Result<(Items<Stmt>, &'a [Token]), ReadFault>
    ensures reads { Gives result (items_at (maybe_stmt_at source.entry.text.now depth) tokens.now) }
    ensures shorter { IfOk result (λ x. length x.1.now ≤ length tokens.now) }
{
    let mut found = Items::new(source.alloc);
    let mut rest = tokens;
    'each: loop {
        let (item, more) = maybe_stmt(source, depth, rest)?;
        rest = more;
        match item {
            Some(item) => found.push(item)?,
            None => return Ok((found, rest)),
        }
    }
}

#[cycle(statements)]
fn maybe_stmt<'a>(
    source: Source<'_>,
    depth: u32,
    tokens: &'a [Token],
) -> Result<(Option<Stmt>, &'a [Token]), ReadFault>
    ensures reads { Gives result (maybe_stmt_at source.entry.text.now depth tokens.now) }
    ensures shorter { IfOk result (λ x. length x.1.now ≤ length tokens.now) }
    ensures takes { IfOk result (λ x. IsSome x.0 → length x.1.now < length tokens.now) }
{
    if begins_stmt(tokens) {
        let (item, rest) = stmt(source, depth, tokens)?;
        Ok((Some(item), rest))
    } else {
        Ok((None, tokens))
    }
}

fn begins_stmt(tokens: &[Token]) -> bool
    ensures { result ≡ begins stmt_starts tokens.now }
{
    match front(tokens) {
        Some((kind, _)) => {
            kind == Kind::Key(Key::If)
                || kind == Kind::Key(Key::While)
                || kind == Kind::Key(Key::Break)
                || kind == Kind::Key(Key::Continue)
                || kind == Kind::Key(Key::Return)
                || kind == Kind::Key(Key::New)
                || is_type_start(kind)
        }
        None => false,
    }
}

#[cycle(statements)]
fn stmt<'a>(
    source: Source<'_>,
    depth: u32,
    tokens: &'a [Token],
) -> Result<(Stmt, &'a [Token]), ReadFault>
    ensures reads { Gives result (stmt_at source.entry.text.now depth tokens.now) }
    ensures shorter { IfOk result (λ x. length x.1.now < length tokens.now) }
{
    match placed_key(Key::If, tokens) {
        Some((place, after)) => if_stmt(source, depth, place, after),
        None => no_if(source, depth, tokens),
    }
}

#[cycle(statements)]
fn no_if<'a>(
    source: Source<'_>,
    depth: u32,
    tokens: &'a [Token],
) -> Result<(Stmt, &'a [Token]), ReadFault>
    ensures reads { Gives result (no_if_by source.entry.text.now (block_at source.entry.text.now depth) tokens.now) }
    ensures shorter { IfOk result (λ x. length x.1.now < length tokens.now) }
{
    match placed_key(Key::While, tokens) {
        Some((place, after)) => while_stmt(source, depth, place, after),
        None => no_while(source, tokens),
    }
}

/// `guard block ("else" block)?`
#[cycle(statements)]
#[tactic(auto, unfolding(crate::specs::Reading::if_by))]
fn if_stmt<'a>(
    source: Source<'_>,
    depth: u32,
    place: Place,
    tokens: &'a [Token],
) -> Result<(Stmt, &'a [Token]), ReadFault>
    ensures reads { Gives result (if_by source.entry.text.now (block_at source.entry.text.now depth) place tokens.now) }
    ensures shorter { IfOk result (λ x. length x.1.now < length tokens.now) }
{
    let (test, rest) = guard(source, tokens)?;
    let (first, rest) = block(source, depth, rest)?;
    end_if(source, depth, place, test, first, rest)
}

/// `("else" block)?`
#[cycle(statements)]
fn end_if<'a>(
    source: Source<'_>,
    depth: u32,
    place: Place,
    test: Test,
    first: Items<Stmt>,
    tokens: &'a [Token],
) -> Result<(Stmt, &'a [Token]), ReadFault>
    ensures reads { Gives result (end_if_by (block_at source.entry.text.now depth) place test first tokens.now) }
    ensures shorter { IfOk result (λ x. length x.1.now ≤ length tokens.now) }
{
    match after_key(Key::Else, tokens) {
        Some(after) => {
            let (second, rest) = block(source, depth, after)?;
            Ok((Stmt::If(place, test, first, second, true), rest))
        }
        None => Ok((
            Stmt::If(place, test, first, Items::new(source.alloc), false),
            tokens,
        )),
    }
}

/// `guard block`
#[cycle(statements)]
#[tactic(auto, unfolding(crate::specs::Reading::while_by))]
fn while_stmt<'a>(
    source: Source<'_>,
    depth: u32,
    place: Place,
    tokens: &'a [Token],
) -> Result<(Stmt, &'a [Token]), ReadFault>
    ensures reads { Gives result (while_by source.entry.text.now (block_at source.entry.text.now depth) place tokens.now) }
    ensures shorter { IfOk result (λ x. length x.1.now < length tokens.now) }
{
    let (test, rest) = guard(source, tokens)?;
    let (body, rest) = block(source, depth, rest)?;
    Ok((Stmt::While(place, test, body), rest))
}

/// `"{" stmt* "}"`
#[cycle(statements)]
fn block<'a>(
    source: Source<'_>,
    depth: u32,
    tokens: &'a [Token],
) -> Result<(Items<Stmt>, &'a [Token]), ReadFault>
    ensures reads { Gives result (block_at source.entry.text.now depth tokens.now) }
    ensures shorter { IfOk result (λ x. length x.1.now < length tokens.now) }
{
    let rest = mark(Mark::Begin, tokens)?;
    let (found, rest) = stmts(source, depth, rest)?;
    let rest = mark(Mark::End, rest)?;
    Ok((found, rest))
}

/// `"(" test ")"`
#[tactic(auto, unfolding(crate::specs::Reading::guard_at))]
fn guard<'a>(source: Source<'_>, tokens: &'a [Token]) -> Result<(Test, &'a [Token]), ReadFault>
    ensures reads { Gives result (guard_at source.entry.text.now tokens.now) }
    ensures shorter { IfOk result (λ x. length x.1.now < length tokens.now) }
{
    let rest = mark(Mark::Open, tokens)?;
    let (found, rest) = test(source, rest)?;
    let rest = mark(Mark::Close, rest)?;
    Ok((found, rest))
}

/// `"?" | component`
fn test<'a>(source: Source<'_>, tokens: &'a [Token]) -> Result<(Test, &'a [Token]), ReadFault>
    ensures reads { Gives result (test_at source.entry.text.now tokens.now) }
    ensures shorter { IfOk result (λ x. length x.1.now < length tokens.now) }
{
    if begins_mark(Mark::Choice, tokens) {
        let (place, rest) = placed_mark(Mark::Choice, tokens)?;
        Ok((Test::Free(place), rest))
    } else {
        call_test(source, tokens)
    }
}

fn call_test<'a>(source: Source<'_>, tokens: &'a [Token]) -> Result<(Test, &'a [Token]), ReadFault>
    ensures reads { Gives result (call_test_at source.entry.text.now tokens.now) }
    ensures shorter { IfOk result (λ x. length x.1.now < length tokens.now) }
{
    let (call, rest) = component(source, tokens)?;
    Ok((Test::Call(call), rest))
}

/// A statement that holds no others.
#[tactic(auto, unfolding(crate::specs::Reading::no_while_at))]
fn no_while<'a>(source: Source<'_>, tokens: &'a [Token]) -> Result<(Stmt, &'a [Token]), ReadFault>
    ensures reads { Gives result (no_while_at source.entry.text.now tokens.now) }
    ensures shorter { IfOk result (λ x. length x.1.now < length tokens.now) }
{
    match placed_key(Key::Break, tokens) {
        Some((place, rest)) => ended(Stmt::Break(place), rest),
        None => no_break(source, tokens),
    }
}

fn no_break<'a>(source: Source<'_>, tokens: &'a [Token]) -> Result<(Stmt, &'a [Token]), ReadFault>
    ensures reads { Gives result (no_break_at source.entry.text.now tokens.now) }
    ensures shorter { IfOk result (λ x. length x.1.now < length tokens.now) }
{
    match placed_key(Key::Continue, tokens) {
        Some((place, rest)) => ended(Stmt::Continue(place), rest),
        None => no_continue(source, tokens),
    }
}

fn no_continue<'a>(
    source: Source<'_>,
    tokens: &'a [Token],
) -> Result<(Stmt, &'a [Token]), ReadFault>
    ensures reads { Gives result (no_continue_at source.entry.text.now tokens.now) }
    ensures shorter { IfOk result (λ x. length x.1.now < length tokens.now) }
{
    match placed_key(Key::Return, tokens) {
        Some((place, rest)) => return_stmt(source, place, rest),
        None => simple(source, tokens),
    }
}

/// A statement whose keyword was read, and its semicolon.
fn ended<'a>(found: Stmt, tokens: &'a [Token]) -> Result<(Stmt, &'a [Token]), ReadFault>
    ensures reads { Gives result (ended_by found tokens.now) }
    ensures shorter { IfOk result (λ x. length x.1.now < length tokens.now) }
{
    let rest = mark(Mark::Semicolon, tokens)?;
    Ok((found, rest))
}

/// A declaration, an assignment, a call or a construction.
#[tactic(auto, unfolding(crate::specs::Reading::simple_at))]
fn simple<'a>(source: Source<'_>, tokens: &'a [Token]) -> Result<(Stmt, &'a [Token]), ReadFault>
    ensures reads { Gives result (simple_at source.entry.text.now tokens.now) }
    ensures shorter { IfOk result (λ x. length x.1.now < length tokens.now) }
{
    match placed_key(Key::New, tokens) {
        Some((place, rest)) => new_stmt(source, place, rest),
        None => typed_stmt(source, tokens),
    }
}

/// A construction behind its `new`, and its semicolon.
fn new_stmt<'a>(
    source: Source<'_>,
    place: Place,
    tokens: &'a [Token],
) -> Result<(Stmt, &'a [Token]), ReadFault>
    ensures reads { Gives result (done_by (new_behind source.entry.text.now place) tokens.now) }
    ensures shorter { IfOk result (λ x. length x.1.now < length tokens.now) }
{
    let (action, rest) = new_value(source, place, tokens)?;
    let rest = mark(Mark::Semicolon, rest)?;
    Ok((Stmt::Do(action), rest))
}

/// A statement that begins with a name or an opaque type.
fn typed_stmt<'a>(source: Source<'_>, tokens: &'a [Token]) -> Result<(Stmt, &'a [Token]), ReadFault>
    ensures reads { Gives result (typed_stmt_at source.entry.text.now tokens.now) }
    ensures shorter { IfOk result (λ x. length x.1.now < length tokens.now) }
{
    if begins_name(tokens) {
        named_stmt(source, tokens)
    } else {
        opaque_declare(source, tokens)
    }
}

fn opaque_declare<'a>(
    source: Source<'_>,
    tokens: &'a [Token],
) -> Result<(Stmt, &'a [Token]), ReadFault>
    ensures reads { Gives result (opaque_declare_at source.entry.text.now tokens.now) }
    ensures shorter { IfOk result (λ x. length x.1.now < length tokens.now) }
{
    match after_placed_opaque(tokens) {
        Some(((place, kind), rest)) => declare(source, place, Sort::Opaque(kind), rest),
        None => Err(ReadFault::Syntax(tokens.len())),
    }
}

fn named_stmt<'a>(source: Source<'_>, tokens: &'a [Token]) -> Result<(Stmt, &'a [Token]), ReadFault>
    ensures reads { Gives result (named_stmt_at source.entry.text.now tokens.now) }
    ensures shorter { IfOk result (λ x. length x.1.now < length tokens.now) }
{
    let (first, rest) = name(source, tokens)?;
    behind_name(source, first, rest)
}

/// A statement behind its first name: of a type, of a variable, of a component or of a procedure.
fn behind_name<'a>(
    source: Source<'_>,
    first: Word,
    tokens: &'a [Token],
) -> Result<(Stmt, &'a [Token]), ReadFault>
    ensures reads { Gives result (stmt_behind source.entry.text.now first tokens.now) }
    ensures shorter { IfOk result (λ x. length x.1.now < length tokens.now) }
{
    if begins_name(tokens) {
        let place = first.place;
        declare(source, place, Sort::Class(first), tokens)
    } else {
        used(source, first, tokens)
    }
}

fn used<'a>(
    source: Source<'_>,
    first: Word,
    tokens: &'a [Token],
) -> Result<(Stmt, &'a [Token]), ReadFault>
    ensures reads { Gives result (used_behind source.entry.text.now first tokens.now) }
    ensures shorter { IfOk result (λ x. length x.1.now < length tokens.now) }
{
    if begins_mark(Mark::Assign, tokens) {
        assign(source, first, tokens)
    } else {
        act(source, first, tokens)
    }
}

fn assign<'a>(
    source: Source<'_>,
    target: Word,
    tokens: &'a [Token],
) -> Result<(Stmt, &'a [Token]), ReadFault>
    ensures reads { Gives result (assign_at source.entry.text.now target tokens.now) }
    ensures shorter { IfOk result (λ x. length x.1.now < length tokens.now) }
{
    let (value, rest) = assigned(source, tokens)?;
    Ok((Stmt::Assign(target, value), rest))
}

/// A call behind its first name, and its semicolon.
fn act<'a>(
    source: Source<'_>,
    first: Word,
    tokens: &'a [Token],
) -> Result<(Stmt, &'a [Token]), ReadFault>
    ensures reads { Gives result (done_by (action_behind source.entry.text.now first) tokens.now) }
    ensures shorter { IfOk result (λ x. length x.1.now < length tokens.now) }
{
    let (action, rest) = action_behind(source, first, tokens)?;
    let rest = mark(Mark::Semicolon, rest)?;
    Ok((Stmt::Do(action), rest))
}

fn action_behind<'a>(
    source: Source<'_>,
    first: Word,
    tokens: &'a [Token],
) -> Result<(Rhs, &'a [Token]), ReadFault>
    ensures reads { Gives result (action_behind source.entry.text.now first tokens.now) }
    ensures shorter { IfOk result (λ x. length x.1.now < length tokens.now) }
{
    if begins_mark(Mark::Dot, tokens) {
        component_value(source, first, tokens)
    } else {
        call_value(source, first, tokens)
    }
}

/// A declaration behind its type, which begins at the place.
fn declare<'a>(
    source: Source<'_>,
    place: Place,
    sort: Sort,
    tokens: &'a [Token],
) -> Result<(Stmt, &'a [Token]), ReadFault>
    ensures reads { Gives result (declare_at source.entry.text.now place sort tokens.now) }
    ensures shorter { IfOk result (λ x. length x.1.now < length tokens.now) }
{
    let (name, rest) = name(source, tokens)?;
    behind_declared(source, place, sort, name, rest)
}

/// A declaration behind its type and name.
fn behind_declared<'a>(
    source: Source<'_>,
    place: Place,
    sort: Sort,
    name: Word,
    tokens: &'a [Token],
) -> Result<(Stmt, &'a [Token]), ReadFault>
    ensures reads { Gives result (declare_behind source.entry.text.now place sort name tokens.now) }
    ensures shorter { IfOk result (λ x. length x.1.now < length tokens.now) }
{
    match after_mark(Mark::Semicolon, tokens) {
        Some(rest) => Ok((Stmt::Declare(place, sort, name, None), rest)),
        None => declare_set(source, place, sort, name, tokens),
    }
}

fn declare_set<'a>(
    source: Source<'_>,
    place: Place,
    sort: Sort,
    name: Word,
    tokens: &'a [Token],
) -> Result<(Stmt, &'a [Token]), ReadFault>
    ensures reads { Gives result (declare_set_at source.entry.text.now place sort name tokens.now) }
    ensures shorter { IfOk result (λ x. length x.1.now < length tokens.now) }
{
    let (value, rest) = assigned(source, tokens)?;
    Ok((Stmt::Declare(place, sort, name, Some(value)), rest))
}

/// `"=" rhs ";"`
#[tactic(auto, unfolding(crate::specs::Reading::set_at))]
fn assigned<'a>(source: Source<'_>, tokens: &'a [Token]) -> Result<(Rhs, &'a [Token]), ReadFault>
    ensures reads { Gives result (set_at source.entry.text.now tokens.now) }
    ensures shorter { IfOk result (λ x. length x.1.now < length tokens.now) }
{
    let rest = mark(Mark::Assign, tokens)?;
    let (value, rest) = rhs(source, rest)?;
    let rest = mark(Mark::Semicolon, rest)?;
    Ok((value, rest))
}

/// A `return` behind its keyword.
fn return_stmt<'a>(
    source: Source<'_>,
    place: Place,
    tokens: &'a [Token],
) -> Result<(Stmt, &'a [Token]), ReadFault>
    ensures reads { Gives result (return_stmt_behind source.entry.text.now place tokens.now) }
    ensures shorter { IfOk result (λ x. length x.1.now < length tokens.now) }
{
    let (found, rest) = behind_return(source, place, tokens)?;
    Ok((Stmt::Return(found), rest))
}

/// `arg? ";"`
fn behind_return<'a>(
    source: Source<'_>,
    place: Place,
    tokens: &'a [Token],
) -> Result<(Return, &'a [Token]), ReadFault>
    ensures reads { Gives result (return_behind source.entry.text.now place tokens.now) }
    ensures shorter { IfOk result (λ x. length x.1.now < length tokens.now) }
{
    match after_mark(Mark::Semicolon, tokens) {
        Some(rest) => Ok((Return { place, value: None }, rest)),
        None => value_returned(source, place, tokens),
    }
}

/// `arg ";"`
fn value_returned<'a>(
    source: Source<'_>,
    place: Place,
    tokens: &'a [Token],
) -> Result<(Return, &'a [Token]), ReadFault>
    ensures reads { Gives result (value_return_at source.entry.text.now place tokens.now) }
    ensures shorter { IfOk result (λ x. length x.1.now < length tokens.now) }
{
    let (value, rest) = arg(source, tokens)?;
    let rest = mark(Mark::Semicolon, rest)?;
    let found = Return {
        place,
        value: Some(value),
    };
    Ok((found, rest))
}
