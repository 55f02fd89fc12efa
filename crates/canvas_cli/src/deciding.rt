//! What the text of a specification decides alone, or with that of a client.
ghost use Rattle.std.specs.Prelude.{◌≤◌, IfOk, length};
ghost use Rattle.canvas_cli.specs.Readings.{IsJudged};
ghost use Rattle.canvas_cli.specs.Verdicts.{ClientVerdict, Decides, DecidesOne, IsAnswer};
ghost use Rattle.client_model.specs.Checked.{IsFitting, seen};

use crate::answer::{Answer, Role};
use crate::certifying::certify;
use crate::client::read_checked_client;
use crate::closing::derive_text;
use crate::command::{Command, Single};
use crate::refusal::refuse;
use crate::running::run_client;
use crate::showing::show;
use crate::specification::read_checked;
use client_model::CheckedClient;
use cv_base::Memory;
use easl_model::CheckedSpec;
use std::alloc::Global;

/// The answer to the command on a specification alone.
pub(crate) fn decide_one(alloc: Global, single: Single, text: &[u8]) -> Answer
    requires { length text.now ≤ 65536 }
    ensures { DecidesOne single text.now result }
{
    match single {
        Single::Show => show(alloc, text),
        Single::Derive => derive_text(alloc, text),
    }
}

/// The answer to the command by the two texts.
#[tactic(auto, using(crate::proofs::Decided::specified, crate::proofs::Decided::refused))]
pub(crate) fn decide(
    alloc: Global,
    command: &Command,
    specification_text: &[u8],
    client_text: &[u8],
) -> Answer
    requires specification { length specification_text.now ≤ 65536 }
    requires client { length client_text.now ≤ 1048576 }
    ensures { Decides command.now specification_text.now client_text.now result }
{
    match read_checked(alloc, specification_text) {
        Ok(spec) => decide_client(alloc, command, &spec, client_text),
        Err(fault) => refuse(alloc, Role::Specification, fault),
    }
}

/// The answer by the text of a client, the specification being read.
#[tactic(auto, using(crate::proofs::Decided::judged, crate::proofs::Decided::client_refused))]
fn decide_client(alloc: Global, command: &Command, spec: &CheckedSpec, text: &[u8]) -> Answer
    requires { length text.now ≤ 1048576 }
    ensures { ClientVerdict command.now spec.now text.now result }
{
    match read_checked_client(alloc, spec, text) {
        Ok(client) => answer_for(alloc, command, spec, &client),
        Err(fault) => refuse(alloc, Role::Client, fault),
    }
}

/// The answer for a checked client, or that there is no memory for it.
fn answer_for(
    alloc: Global,
    command: &Command,
    spec: &CheckedSpec,
    client: &CheckedClient,
) -> Answer
    requires { IsFitting spec.now client.now }
    ensures { IsJudged command.now spec.now (seen client.now) result }
{
    match judge(alloc, command, spec, client) {
        Ok(answer) => answer,
        Err(Memory) => Answer::Memory,
    }
}

/// The same, if there is memory for it.
fn judge(
    alloc: Global,
    command: &Command,
    spec: &CheckedSpec,
    client: &CheckedClient,
) -> Result<Answer, Memory>
    requires { IsFitting spec.now client.now }
    ensures { IfOk result (IsAnswer command.now spec.now (seen client.now)) }
{
    match command {
        Command::Certify => certify(alloc, spec, client),
        Command::Run(choices) => run_client(alloc, spec, client, choices.as_slice()),
    }
}
