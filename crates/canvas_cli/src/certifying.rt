//! Certifies straight clients.
ghost use Rattle.std.specs.Prelude.{◌≡◌, ◌<◌, ℕ, [], IfOk, length, true};
ghost use Rattle.canvas_cli.specs.Verdicts.{IsAnswer};
ghost use Rattle.client_run.specs.Straight as told;
ghost use Rattle.client_model.specs.Checked.{IsFitting, seen};
ghost use Rattle.client_steps.specs.Runs.{Fails, IsRun};

use crate::answer::Answer;
use crate::command::Command;
use crate::lines::{alarm_lines, clause_of};
use client_model::CheckedClient;
use client_run::{Failure, is_straight, run_straight};
use cv_base::Memory;
use easl_model::CheckedSpec;
use std::alloc::Global;

/// Whether the client is safe, where it is straight.
pub(crate) fn certify(
    alloc: Global,
    spec: &CheckedSpec,
    client: &CheckedClient,
) -> Result<Answer, Memory>
    requires { IsFitting spec.now client.now }
    ensures { IfOk result (IsAnswer Command.Certify spec.now (seen client.now)) }
{
    if is_straight(client) {
        verdict(alloc, spec, client)
    } else {
        Ok(Answer::NotBuilt)
    }
}

/// Whether the client is safe, or where it fails.
fn verdict(alloc: Global, spec: &CheckedSpec, client: &CheckedClient) -> Result<Answer, Memory>
    requires fits { IsFitting spec.now client.now }
    requires straight { told.is_straight (seen client.now) ≡ true }
    ensures { IfOk result (IsAnswer Command.Certify spec.now (seen client.now)) }
{
    match run_straight(alloc, spec, client) {
        Ok(None) => Ok(Answer::Certified),
        Ok(Some(failure)) => alarm(alloc, spec, client, failure),
        Err(Memory) => Err(Memory),
    }
}

/// The alarm at a call whose clause is false.
fn alarm(
    alloc: Global,
    spec: &CheckedSpec,
    client: &CheckedClient,
    failure: Failure,
) -> Result<Answer, Memory>
    requires fits { IsFitting spec.now client.now }
    requires straight { told.is_straight (seen client.now) ≡ true }
    requires within { failure.call < length client.now.calls }
    requires fails { (budget : ℕ) × IsRun spec.now (seen client.now) [] budget (Fails failure.call failure.clause 0) }
    ensures { IfOk result (IsAnswer Command.Certify spec.now (seen client.now)) }
{
    let clause = clause_of(alloc, spec, client, failure.call, failure.clause)?;
    let lines = alarm_lines(alloc, clause.as_slice())?;
    Ok(Answer::Alarm(lines))
}
