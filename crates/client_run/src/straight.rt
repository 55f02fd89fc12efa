//! Straight clients: no statement calls a procedure or tests, so that a run takes no choice.
ghost use Rattle.std.specs.Prelude.{◌≡◌, IfOk, true};
ghost use Rattle.std.specs.List.{list_any};
ghost use Rattle.client_run.specs.Straight as told;
ghost use Rattle.client_run.specs.Straight.{Finds};
ghost use Rattle.client_model.specs.Checked.{IsFitting, seen};

use crate::program::Program;
use crate::runner::{Outcome, RunFault, run_within};
use client_model::{CheckedClient, Point};
use cv_base::Memory;
use easl_model::CheckedSpec;
use std::alloc::Global;

/// The first call of a run of which a clause is false: its number, and the clause, from 1.
#[derive(Clone, Copy, Debug, PartialEq, Eq)]
pub struct Failure {
    pub call: u32,
    pub clause: u32,
}

/// Whether the client is straight: it has no static, no procedure but `main`, no procedure call and no test.
pub fn is_straight(client: &CheckedClient) -> bool
    ensures { result ≡ told.is_straight (seen client.now) }
{
    if client.static_count() != 0 || client.procedure_count() != 2 {
        return false;
    }
    !have_call_or_test(client.procedure(1).points.as_slice())
}

fn have_call_or_test(points: &[Point]) -> bool
    ensures { result ≡ list_any told.calls_or_tests points.now }
{
    'each: for point in points {
        if calls_or_tests(point) {
            return true;
        }
    }
    false
}

fn calls_or_tests(point: &Point) -> bool
    ensures { result ≡ told.calls_or_tests point.now }
{
    match point {
        Point::Call(_, _, _, _) | Point::Branch(_) => true,
        Point::Copy(_, _) | Point::Component(_, _) | Point::Nothing => false,
    }
}

/// Executes the statements of a straight client's `main` in order, up to the first call of which a clause is false. The answer is
/// that call and clause, or that no run fails.
pub fn run_straight(
    alloc: Global,
    spec: &CheckedSpec,
    client: &CheckedClient,
) -> Result<Option<Failure>, Memory>
    requires fits { IsFitting spec.now client.now }
    requires straight { told.is_straight (seen client.now) ≡ true }
    ensures { IfOk result (Finds spec.now (seen client.now)) }
{
    spec.is_kept();
    client.is_kept();
    let program = Program::of(alloc, client)?;
    // No run takes all of these units: `main` has at most 1,048,577 points, each is begun once at most, and one takes 1,025
    // units at most.
    match run_within(alloc, spec, &program, &[], u32::MAX) {
        Ok(outcome) => Ok(failure_of(outcome)),
        Err(RunFault::Memory) => Err(Memory),
        Err(RunFault::Long) => unreachable!(),
    }
}

/// The failure that a run ends in, if it does.
fn failure_of(outcome: Outcome) -> Option<Failure>
    ensures { result ≡ told.failure_of outcome }
{
    match outcome {
        Outcome::Fails { call, clause, .. } => Some(Failure { call, clause }),
        Outcome::Ends { .. } | Outcome::Short => None,
    }
}
