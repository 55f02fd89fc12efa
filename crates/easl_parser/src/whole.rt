//! A whole specification: its tokens, its brackets, its syntax, its limits.
ghost use Rattle.std.specs.Prelude.{◌≡◌, ◌<◌, ◌≤◌, length, IfOk, IsSome};
ghost use Rattle.cv_read.specs.{FindsTree, Gives, GivesWhole, whole_at};
ghost use Rattle.cv_read.specs.Answers.{Answers};
ghost use Rattle.easl_model.specs.{IsSpec, OneTree};
ghost use Rattle.easl_parser.specs.Answers.{SpecAnswers, OneAnswer};
ghost use Rattle.easl_parser.specs.Reading.{maybe_class_at, classes_at, spec_at};

use crate::limits::first_excess;
use crate::members::class;
use cv_lex::{TextFault, tokens};
use cv_read::{ReadFault, Source, begins_key, nesting};
use easl_model::{Class, Key, Place, Spec, Token};
use sqlite_items::Items;
use std::alloc::Global;
use std::str;

/// How many conditions, and how many lists of steps, may stand in one another: of the 64 brackets that may stand open,
/// the class's and the method's are no condition's and no block's, and the outermost needs none of its own.
const MOST_NESTED: u32 = 63;

/// Reads the specification that the whole text spells. The faults come in this order: `NotUtf8` where the longest
/// front of the bytes that is UTF-8 ends, if they are none, `BadToken` where neither a gap nor a token begins, `Limit`
/// of nesting at the bracket that makes a 65th open one, `Syntax` where the tokens before the place begin a
/// specification and with the next one begin none, or at the end of the text, and `Limit` at the first token of what is
/// more than another limit allows, the first of them in the text. `Memory` comes where none is found.
#[tactic(auto, using(crate::proofs::Limited::within_answers, crate::proofs::Limited::beyond_answers, crate::proofs::Limited::fault_stays))]
pub fn read_spec(alloc: Global, text: &[u8]) -> Result<Spec, TextFault>
    requires { length text.now ≤ 65536 }
    ensures { SpecAnswers text.now result }
{
    let spec = match spelled(alloc, text) {
        Ok(spec) => spec,
        Err(fault) => return Err(fault),
    };
    match first_excess(&spec) {
        Some(excess) => Err(TextFault::Limit(excess.which, excess.place)),
        None => Ok(spec),
    }
}

/// The specification that the whole text spells, whether it keeps the limits or not.
#[tactic(auto, using(crate::proofs::Theorems::no_tokens, crate::proofs::Theorems::tree_answers, crate::proofs::Theorems::fault_answers))]
fn spelled(alloc: Global, text: &[u8]) -> Result<Spec, TextFault>
    requires { length text.now ≤ 65536 }
    ensures { Answers IsSpec text.now result }
{
    let tokens = tokens(alloc, text)?;
    let text = str::from_utf8(text).unwrap_or("");
    let source = Source { alloc, text };
    match spec(source, tokens.end, tokens.list.as_slice()) {
        Ok(spec) => Ok(spec),
        Err(fault) => Err(fault.of_text(&tokens)),
    }
}

/// Tokens spell at most one specification.
#[tactic(auto, using(crate::proofs::Theorems::one_tree))]
pub fn one_tree()
    ensures { OneTree }
{}

/// Reading a text has one answer, want of memory aside.
#[tactic(auto, using(crate::proofs::Limited::one_answer))]
pub fn one_answer()
    ensures { OneAnswer }
{}

/// The specification that all of these tokens spell.
#[tactic(auto, using(crate::proofs::Theorems::found, crate::proofs::Theorems::too_deep))]
fn spec(source: Source<'_>, end: Place, tokens: &[Token]) -> Result<Spec, ReadFault>
    ensures { FindsTree IsSpec source.entry.text.now end tokens.now result }
{
    nesting(tokens)?;
    whole(source, end, tokens)
}

/// `class class*`, behind which nothing is left.
fn whole(source: Source<'_>, end: Place, tokens: &[Token]) -> Result<Spec, ReadFault>
    ensures { GivesWhole result (whole_at (spec_at source.entry.text.now MOST_NESTED end) tokens.now) }
{
    let (spec, rest) = classes(source, end, tokens)?;
    if rest.is_empty() {
        Ok(spec)
    } else {
        Err(ReadFault::Syntax(rest.len()))
    }
}

/// `class class*`
#[tactic(auto, unfolding(crate::specs::Reading::spec_at))]
fn classes<'a>(
    source: Source<'_>,
    end: Place,
    tokens: &'a [Token],
) -> Result<(Spec, &'a [Token]), ReadFault>
    ensures { Gives result (spec_at source.entry.text.now MOST_NESTED end tokens.now) }
{
    let mut classes = Items::new(source.alloc);
    let (first, rest) = class(source, MOST_NESTED, tokens)?;
    let (more, rest) = more_classes(source, rest)?;
    classes.push(first)?;
    classes.append(more)?;
    Ok((Spec { classes, end }, rest))
}

/// `class*`
#[tactic(auto, using(cv_read::proofs::Along::starts, cv_read::proofs::Along::ends, cv_read::proofs::Along::stops, cv_read::proofs::Along::deepens))]
fn more_classes<'a>(
    source: Source<'_>,
    tokens: &'a [Token],
) -> Result<(Items<Class>, &'a [Token]), ReadFault>
    ensures reads { Gives result (classes_at source.entry.text.now MOST_NESTED tokens.now) }
    ensures shorter { IfOk result (λ x. length x.1.now ≤ length tokens.now) }
{
    let mut found = Items::new(source.alloc);
    let mut rest = tokens;
    'each: loop {
        let (item, more) = maybe_class(source, rest)?;
        rest = more;
        match item {
            Some(item) => found.push(item)?,
            None => return Ok((found, rest)),
        }
    }
}

fn maybe_class<'a>(
    source: Source<'_>,
    tokens: &'a [Token],
) -> Result<(Option<Class>, &'a [Token]), ReadFault>
    ensures reads { Gives result (maybe_class_at source.entry.text.now MOST_NESTED tokens.now) }
    ensures shorter { IfOk result (λ x. length x.1.now ≤ length tokens.now) }
    ensures takes { IfOk result (λ x. IsSome x.0 → length x.1.now < length tokens.now) }
{
    if begins_key(Key::Class, tokens) {
        let (item, rest) = class(source, MOST_NESTED, tokens)?;
        Ok((Some(item), rest))
    } else {
        Ok((None, tokens))
    }
}
