//! Runs clients on chosen outcomes of their tests.
ghost use Rattle.std.specs.Prelude.{◌≡◌, ◌<◌, IfOk, length};
ghost use Rattle.canvas_cli.specs.Verdicts.{IsAnswer, Tells};
ghost use Rattle.client_run.specs.Answers.{HasCall, outcome_told};
ghost use Rattle.client_model.specs.Checked.{IsFitting, seen};
ghost use Rattle.client_steps.specs.Runs.{Fails};

use crate::answer::Answer;
use crate::command::Command;
use crate::lines::{clause_of, ends_line, fails_line};
use client_model::CheckedClient;
use client_run::{Outcome, RunFault, run};
use cv_base::Memory;
use easl_model::CheckedSpec;
use std::alloc::Global;

/// How the client runs on the choices.
pub(crate) fn run_client(
    alloc: Global,
    spec: &CheckedSpec,
    client: &CheckedClient,
    choices: &[bool],
) -> Result<Answer, Memory>
    requires { IsFitting spec.now client.now }
    ensures { IfOk result (IsAnswer (Command.Run choices.now) spec.now (seen client.now)) }
{
    match run(alloc, spec, client, choices) {
        Ok(outcome) => told(alloc, spec, client, outcome),
        Err(RunFault::Long) => Ok(Answer::Long),
        Err(RunFault::Memory) => Err(Memory),
    }
}

/// The answer that tells the outcome.
fn told(
    alloc: Global,
    spec: &CheckedSpec,
    client: &CheckedClient,
    outcome: Outcome,
) -> Result<Answer, Memory>
    requires fits { IsFitting spec.now client.now }
    requires within { HasCall client.now.calls outcome }
    ensures { IfOk result (λ a. Tells spec.now (seen client.now) a (outcome_told outcome)) }
{
    match outcome {
        Outcome::Ends { left } => {
            let line = ends_line(alloc, left)?;
            Ok(Answer::Ends(line))
        }
        Outcome::Short => Ok(Answer::Short),
        Outcome::Fails { call, clause, left } => fails(alloc, spec, client, call, clause, left),
    }
}

/// The answer to a run that fails at a call.
fn fails(
    alloc: Global,
    spec: &CheckedSpec,
    client: &CheckedClient,
    call: u32,
    clause: u32,
    left: u64,
) -> Result<Answer, Memory>
    requires fits { IsFitting spec.now client.now }
    requires within { call < length client.now.calls }
    ensures { IfOk result (λ a. Tells spec.now (seen client.now) a (Fails call clause left)) }
{
    let clause = clause_of(alloc, spec, client, call, clause)?;
    let line = fails_line(alloc, clause.as_slice(), left)?;
    Ok(Answer::Fails(line))
}
