//! The top call.
ghost use Rattle.std.specs.Prelude.{◌≡◌, ◌≢◌, ◌≤◌, ℕ, List, length};
ghost use Rattle.cv_base.specs.Causes.{Rose};
ghost use Rattle.canvas_cli.specs.Answers.{ClientAnswers, CouldNotLoad, IsAllowed, MayAnswer, WritesAllowed};
ghost use Rattle.canvas_cli.specs.Commands.{IsCommand, One, Pair};
ghost use Rattle.canvas_cli.specs.Headline.{DerivesExactly, Headline, IsComplete, IsDerived, IsShown, LimitsExactly, NotBuiltExactly, OpensExactly, RefusedExactly, RunsExactly, ShowsExactly};

use crate::answer::{Answer, Role};
use crate::command::{Asked, Command, NoCommand, Single, read_words};
use crate::deciding::{decide, decide_one};
use crate::loading::{NoText, load};
use crate::writing::write;
use cv_base::{Shelf, Sink, Status};
use std::alloc::Global;

/// Runs the program on the words of its command line, without the program's name: loads the texts that the words
/// name from the shelf, writes the answer to the sink, and gives the status.
///
/// `Usage` comes exactly where the words are no command. `ReadFault` comes only where the count of faults of a
/// named text's name rose, the texts named before it being loaded. `Limit` comes exactly where a text is longer than its
/// limit, a question of a derivation has too many configurations, or a run would take more units than it may. `Open`
/// comes where a derivation does not close, whose first question that stops it is named. `Refused` comes exactly where
/// something is wrong with a text, whose first fault is named: the specification's comes before the client's, and
/// lengths are looked at first. `NotBuilt` comes exactly where a client is to be certified that is well-formed but not
/// straight. `WriteFault` comes only where the sink's count rose; what was taken is then a proper prefix of an allowed
/// answer's text.
pub fn canvas<S: Shelf, W: Sink>(
    alloc: Global,
    words: &[String],
    shelf: &mut S,
    out: &mut W,
) -> Status
    ensures usage { result ≡ Status.Usage → IsCommand words.now → ⊥ }
    ensures known { result ≢ Status.Usage → result ≢ Status.WriteFault → IsCommand words.now }
    ensures read { result ≡ Status.ReadFault →
        CouldNotLoad (S.held shelf.old) (λ name. Rose (S.faults shelf.old name) (S.faults shelf.new name)) words.now }
    ensures write { result ≡ Status.WriteFault → Rose (W.faults out.old) (W.faults out.new) }
    ensures whole { WritesAllowed (S.held shelf.old) (λ name. Rose (S.faults shelf.old name) (S.faults shelf.new name)) words.now
        (W.taken out.old) (W.taken out.new) (Rose (W.faults out.old) (W.faults out.new)) result }
    ensures headline { Headline (S.held shelf.old) words.now (W.taken out.old) (W.taken out.new) result }
    ensures runs { RunsExactly (S.held shelf.old) words.now (W.taken out.old) (W.taken out.new) result }
    ensures shows { ShowsExactly (S.held shelf.old) words.now (W.taken out.old) (W.taken out.new) result }
    ensures derives { DerivesExactly (S.held shelf.old) words.now (W.taken out.old) (W.taken out.new) result }
    ensures opens { OpensExactly (S.held shelf.old) words.now (W.taken out.old) (W.taken out.new) result }
    ensures refused { RefusedExactly (S.held shelf.old) words.now (W.taken out.old) (W.taken out.new) result }
    ensures limits { LimitsExactly (S.held shelf.old) words.now (W.taken out.old) (W.taken out.new) result }
    ensures not_built { NotBuiltExactly (S.held shelf.old) words.now (W.taken out.old) (W.taken out.new) result }
    ensures complete { IsComplete (S.held shelf.old) (λ name. Rose (S.faults shelf.old name) (S.faults shelf.new name))
        (Rose (W.faults out.old) (W.faults out.new)) words.now result }
    ensures shown { IsShown (S.held shelf.old) (λ name. Rose (S.faults shelf.old name) (S.faults shelf.new name))
        (Rose (W.faults out.old) (W.faults out.new)) words.now result }
    ensures derived { IsDerived (S.held shelf.old) (λ name. Rose (S.faults shelf.old name) (S.faults shelf.new name))
        (Rose (W.faults out.old) (W.faults out.new)) words.now result }
{
    let answer = answer(alloc, words, shelf);
    write(out, &answer)
}

/// The answer to the words.
fn answer<S: Shelf>(alloc: Global, words: &[String], shelf: &mut S) -> Answer
    ensures { IsAllowed (S.held shelf.old) (λ name. Rose (S.faults shelf.old name) (S.faults shelf.new name)) words.now result }
{
    match read_words(alloc, words) {
        Ok(Asked::One(asked)) => perform_one(alloc, shelf, asked.single, asked.spec),
        Ok(Asked::Pair(asked)) => perform(alloc, shelf, &asked.command, asked.spec, asked.client),
        Err(NoCommand::Usage) => Answer::Usage,
        Err(NoCommand::Memory) => Answer::Memory,
    }
}

/// Loads the specification, and answers the command on it alone.
fn perform_one<S: Shelf>(alloc: Global, shelf: &mut S, single: Single, spec: &str) -> Answer
    ensures { MayAnswer (S.held shelf.old) (λ name. Rose (S.faults shelf.old name) (S.faults shelf.new name)) (One single spec.now) result }
{
    match load(alloc, shelf, spec, Role::Specification) {
        Ok(text) => decide_one(alloc, single, text.as_slice()),
        Err(NoText::Failed) => Answer::ReadFault(Role::Specification),
        Err(NoText::TooLong) => Answer::TooLong(Role::Specification),
        Err(NoText::Memory) => Answer::Memory,
    }
}

/// Loads both texts, and answers the command.
fn perform<S: Shelf>(
    alloc: Global,
    shelf: &mut S,
    command: &Command,
    spec: &str,
    client: &str,
) -> Answer
    ensures { MayAnswer (S.held shelf.old) (λ name. Rose (S.faults shelf.old name) (S.faults shelf.new name)) (Pair command.now spec.now client.now) result }
{
    match load(alloc, shelf, spec, Role::Specification) {
        Ok(text) => perform_on(alloc, shelf, command, text.as_slice(), client),
        Err(NoText::Failed) => Answer::ReadFault(Role::Specification),
        Err(NoText::TooLong) => Answer::TooLong(Role::Specification),
        Err(NoText::Memory) => Answer::Memory,
    }
}

/// Loads the client, and answers the command with the text of a specification.
fn perform_on<S: Shelf>(
    alloc: Global,
    shelf: &mut S,
    command: &Command,
    specification: &[u8],
    client: &str,
) -> Answer
    requires { length specification.now ≤ 65536 }
    ensures answers { ClientAnswers command.now specification.now (S.held shelf.old client.now) (Rose (S.faults shelf.old client.now) (S.faults shelf.new client.now)) result }
    ensures later { (other : List ℕ) → S.faults shelf.old other ≤ S.faults shelf.new other }
{
    match load(alloc, shelf, client, Role::Client) {
        Ok(text) => decide(alloc, command, specification, text.as_slice()),
        Err(NoText::Failed) => Answer::ReadFault(Role::Client),
        Err(NoText::TooLong) => Answer::TooLong(Role::Client),
        Err(NoText::Memory) => Answer::Memory,
    }
}
