//! What is wrong with a text, and the line that says so.
ghost use Rattle.std.specs.Prelude.{◌≡◌, ◌++◌, IfOk, OnOk};
ghost use Rattle.canvas_cli.specs.Readings.{AnswersFault, unread};
ghost use Rattle.canvas_cli.specs.Texts.{client_rule_text, fault_text, limit_text, place_of, place_text, refusal_text, rule_text, spec_rule_text};

use crate::answer::{Answer, Role};
use client_values::Rule as ClientRule;
use cv_base::{Memory, push_bytes, push_number};
use cv_lex::TextFault;
use easl_model::{Place, Rule as SpecRule, Which};
use std::alloc::Global;

/// A rule of either language.
#[derive(Clone, Copy, Debug, PartialEq, Eq)]
pub enum Rule {
    /// Of specifications.
    Specification(SpecRule),
    /// Of clients.
    Client(ClientRule),
}

/// What is first wrong with a text.
#[derive(Clone, Copy, Debug, PartialEq, Eq)]
pub enum Refusal {
    /// From this place on the bytes are no characters.
    NotUtf8(Place),
    /// At this place no token begins.
    BadToken(Place),
    /// The tokens before this place begin a text of the language, and with the next one they begin none.
    Syntax(Place),
    /// What begins at this place is more than the limit allows.
    Limit(Which, Place),
    /// The rule is broken at this place.
    Broken(Rule, Place),
}

/// Why a text is not taken.
#[derive(Clone, Copy, Debug, PartialEq, Eq)]
pub enum NotTaken {
    /// Something is wrong with it.
    Refused(Refusal),
    /// Memory was wanted and not found.
    Memory,
}

/// What is wrong with a text of which its reader answers this.
pub(crate) fn unread(fault: TextFault) -> NotTaken
    ensures { result ≡ unread fault }
{
    match fault {
        TextFault::NotUtf8(place) => NotTaken::Refused(Refusal::NotUtf8(place)),
        TextFault::BadToken(place) => NotTaken::Refused(Refusal::BadToken(place)),
        TextFault::Syntax(place) => NotTaken::Refused(Refusal::Syntax(place)),
        TextFault::Limit(which, place) => NotTaken::Refused(Refusal::Limit(which, place)),
        TextFault::Memory => NotTaken::Memory,
    }
}

/// The answer where the text of this role is not taken.
#[tactic(auto, using(crate::proofs::Decided::says_memory))]
pub(crate) fn refuse(alloc: Global, role: Role, fault: NotTaken) -> Answer
    ensures { AnswersFault role fault result }
{
    match fault {
        NotTaken::Refused(refusal) => refused(alloc, role, refusal),
        NotTaken::Memory => Answer::Memory,
    }
}

/// The answer where something is wrong with the text.
#[tactic(auto, using(crate::proofs::Decided::says, crate::proofs::Decided::says_memory))]
fn refused(alloc: Global, role: Role, refusal: Refusal) -> Answer
    ensures { AnswersFault role (NotTaken.Refused refusal) result }
{
    match refusal_line(alloc, role, refusal) {
        Ok(line) => Answer::Refused(role, line),
        Err(Memory) => Answer::Memory,
    }
}

/// The line that refuses a text of this role.
pub(crate) fn refusal_line(alloc: Global, role: Role, refusal: Refusal) -> Result<Vec<u8>, Memory>
    ensures { IfOk result (λ v. v.items ≡ refusal_text role refusal) }
{
    let mut out = Vec::new(alloc);
    push_bytes(&mut out, b"refused ")?;
    push_bytes(&mut out, role.name())?;
    push_bytes(&mut out, b" ")?;
    push_bytes(&mut out, fault_name(refusal))?;
    push_bytes(&mut out, b" ")?;
    push_place(&mut out, place_of(refusal))?;
    push_bytes(&mut out, b"\n")?;
    Ok(out)
}

/// A place in a line.
pub(crate) fn push_place(out: &mut Vec<u8>, place: Place) -> Result<(), Memory>
    ensures { OnOk result (out.new.items ≡ out.old.items ++ place_text place) }
{
    push_number(out, u64::from(place.line))?;
    push_bytes(out, b":")?;
    push_number(out, u64::from(place.col))
}

fn place_of(refusal: Refusal) -> Place
    ensures { result ≡ place_of refusal }
{
    match refusal {
        Refusal::NotUtf8(place) => place,
        Refusal::BadToken(place) => place,
        Refusal::Syntax(place) => place,
        Refusal::Limit(_, place) => place,
        Refusal::Broken(_, place) => place,
    }
}

fn fault_name(refusal: Refusal) -> &'static [u8]
    ensures { result.now ≡ fault_text refusal }
{
    match refusal {
        Refusal::NotUtf8(_) => b"E1",
        Refusal::BadToken(_) => b"E2",
        Refusal::Syntax(_) => b"E3",
        Refusal::Limit(which, _) => limit_name(which),
        Refusal::Broken(rule, _) => rule_name(rule),
    }
}

fn limit_name(which: Which) -> &'static [u8]
    ensures { result.now ≡ limit_text which }
{
    match which {
        Which::Nesting => b"E4 nesting",
        Which::Classes => b"E4 classes",
        Which::Fields => b"E4 fields",
        Which::Methods => b"E4 methods",
        Which::Parameters => b"E4 parameters",
        Which::Clauses => b"E4 clauses",
        Which::Comparisons => b"E4 comparisons",
        Which::Statements => b"E4 statements",
        Which::Path => b"E4 path",
        Which::Conditionals => b"E4 conditionals",
    }
}

fn rule_name(rule: Rule) -> &'static [u8]
    ensures { result.now ≡ rule_text rule }
{
    match rule {
        Rule::Specification(rule) => spec_rule_name(rule),
        Rule::Client(rule) => client_rule_name(rule),
    }
}

fn spec_rule_name(rule: SpecRule) -> &'static [u8]
    ensures { result.now ≡ spec_rule_text rule }
{
    match rule {
        SpecRule::Duplicate => b"S1",
        SpecRule::Unknown => b"S2",
        SpecRule::Mismatch => b"S3",
        SpecRule::Unready => b"S4",
        SpecRule::ConstructorCycle => b"S5",
        SpecRule::TooLong => b"S6",
    }
}

fn client_rule_name(rule: ClientRule) -> &'static [u8]
    ensures { result.now ≡ client_rule_text rule }
{
    match rule {
        ClientRule::Duplicate => b"C1",
        ClientRule::Unknown => b"C2",
        ClientRule::Mismatch => b"C3",
        ClientRule::Unset => b"C4",
        ClientRule::NoReturn => b"C5",
        ClientRule::NoMain => b"C6",
        ClientRule::Unreachable => b"C7",
        ClientRule::OutsideLoop => b"C8",
    }
}
