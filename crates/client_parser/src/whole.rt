//! A whole client: its tokens, its brackets, its syntax, its limit.
ghost use Rattle.std.specs.Prelude.{◌≡◌, ◌<◌, ◌≤◌, length, IfOk, OnOk};
ghost use Rattle.client_model.specs.Grammar.{IsClient};
ghost use Rattle.client_model.specs.Spelling.{OneClient};
ghost use Rattle.cv_read.specs.Answers.{Answers, FindsTree};
ghost use Rattle.cv_read.specs.Read.{Gives, GivesWhole, whole_at};
ghost use Rattle.client_parser.specs.Answers.{ClientAnswers, OneAnswer};
ghost use Rattle.client_parser.specs.Reading.{with_item, client_at};

use crate::items::{Item, maybe_item};
use crate::limits::first_excess;
use client_model::Client;
use cv_lex::{TextFault, tokens};
use cv_read::{ReadFault, Source, nesting};
use easl_model::{Place, Token};
use sqlite_items::Items;
use std::alloc::{AllocError, Global};
use std::str;

/// How many lists of statements may stand in one another: each stands in braces of its own, of the 64 brackets
/// that may stand open.
const MOST_BODIES: u32 = 64;

/// Reads the client that the whole text spells. The faults come in this order: `NotUtf8` where the longest front of the
/// bytes that is UTF-8 ends, if they are none, `BadToken` where neither a gap nor a token begins, `Limit` of nesting at
/// the bracket that makes a 65th open one, `Syntax` where the tokens before the place begin a client and with the next
/// one begin none, or at the end of the text, and `Limit` of parameters at the first parameter that is a 17th of its
/// procedure. `Memory` comes where none is found.
#[tactic(auto, using(crate::proofs::Limited::within_answers, crate::proofs::Limited::beyond_answers, crate::proofs::Limited::fault_stays))]
pub fn read_client(alloc: Global, text: &[u8]) -> Result<Client, TextFault>
    requires { length text.now ≤ 1048576 }
    ensures { ClientAnswers text.now result }
{
    let client = match spelled(alloc, text) {
        Ok(client) => client,
        Err(fault) => return Err(fault),
    };
    match first_excess(&client) {
        Some(excess) => Err(TextFault::Limit(excess.which, excess.place)),
        None => Ok(client),
    }
}

/// The client that the whole text spells, whether it keeps the limit or not.
#[tactic(auto, using(crate::proofs::Theorems::no_tokens, crate::proofs::Theorems::tree_answers, crate::proofs::Theorems::fault_answers))]
fn spelled(alloc: Global, text: &[u8]) -> Result<Client, TextFault>
    requires { length text.now ≤ 1048576 }
    ensures { Answers IsClient text.now result }
{
    let tokens = tokens(alloc, text)?;
    let text = str::from_utf8(text).unwrap_or("");
    let source = Source { alloc, text };
    match client(source, tokens.end, tokens.list.as_slice()) {
        Ok(client) => Ok(client),
        Err(fault) => Err(fault.of_text(&tokens)),
    }
}

/// Tokens spell at most one client.
#[tactic(auto, using(crate::proofs::Theorems::one_client))]
pub fn one_client()
    ensures { OneClient }
{}

/// Reading a text has one answer, want of memory aside.
#[tactic(auto, using(crate::proofs::Limited::one_answer))]
pub fn one_answer()
    ensures { OneAnswer }
{}

/// The client that all of these tokens spell.
#[tactic(auto, using(crate::proofs::Theorems::found, crate::proofs::Theorems::too_deep))]
fn client(source: Source<'_>, end: Place, tokens: &[Token]) -> Result<Client, ReadFault>
    ensures { FindsTree IsClient source.entry.text.now end tokens.now result }
{
    nesting(tokens)?;
    whole(source, end, tokens)
}

/// `(static | procedure)*`, behind which nothing is left.
fn whole(source: Source<'_>, end: Place, tokens: &[Token]) -> Result<Client, ReadFault>
    ensures { GivesWhole result (whole_at (client_at source.entry.text.now MOST_BODIES end) tokens.now) }
{
    let (client, rest) = items(source, end, tokens)?;
    if rest.is_empty() {
        Ok(client)
    } else {
        Err(ReadFault::Syntax(rest.len()))
    }
}

/// `(static | procedure)*`
#[tactic(auto, using(crate::proofs::Gathered::starts))]
fn items<'a>(
    source: Source<'_>,
    end: Place,
    tokens: &'a [Token],
) -> Result<(Client, &'a [Token]), ReadFault>
    ensures { Gives result (client_at source.entry.text.now MOST_BODIES end tokens.now) }
{
    let mut client = Client {
        statics: Items::new(source.alloc),
        procedures: Items::new(source.alloc),
        order: Items::new(source.alloc),
        end,
    };
    let mut rest = tokens;
    'each: loop {
        let (item, more) = maybe_item(source, MOST_BODIES, rest)?;
        rest = more;
        match item {
            Some(item) => add(&mut client, item)?,
            None => return Ok((client, rest)),
        }
    }
}

/// Puts an item behind those that stand.
fn add(client: &mut Client, item: Item) -> Result<(), AllocError>
    ensures ok { OnOk result (client.new ≡ with_item client.old item) }
{
    match item {
        Item::Static(found) => {
            client.statics.push(found)?;
            client.order.push(true)?;
        }
        Item::Procedure(found) => {
            client.procedures.push(found)?;
            client.order.push(false)?;
        }
    }
    Ok(())
}
