//! Runs of whole clients, from point to point.
ghost use Rattle.std.specs.Prelude.{◌≡◌, ◌∷◌, option_and_then, option_map, All, IfOk, Ok, Some, None};
ghost use Rattle.client_run.specs.Answers.{Answers, HasCall};
ghost use Rattle.client_run.specs.Deeds.{call_told};
ghost use Rattle.client_run.specs.Fitting.{CallFits};
ghost use Rattle.client_run.specs.Graph.{AreAgreed};
ghost use Rattle.client_run.specs.Places.{branching, entering, left, onward, place, turn_of, waiting};
ghost use Rattle.client_run.specs.Turns.{Finds, Reaches, left_of, moment_in, place_in, turn_here};
ghost use Rattle.client_model.specs.Checked.{IsFitting, seen};
ghost use Rattle.client_steps.specs.Runs.{On, begun, called_from, chosen};
ghost use Rattle.client_steps.specs.States.{call_in};

use crate::program::Program;
use crate::state::{Begun, Call, State};
use client_model::{CheckedClient, Point};
use cv_base::Memory;
use easl_model::CheckedSpec;
use std::alloc::Global;

/// How a run ends. `left` is the number of choices that are not taken.
#[derive(Clone, Copy, Debug, PartialEq, Eq)]
pub enum Outcome {
    /// Behind `main`.
    Ends { left: u64 },
    /// At a test that finds no choice left.
    Short,
    /// At the call of this number, of which this clause is false, the first of them, counted from 1.
    Fails { call: u32, clause: u32, left: u64 },
}

/// Why there is no outcome.
#[derive(Clone, Copy, Debug, PartialEq, Eq)]
pub enum RunFault {
    /// Memory was wanted and not found.
    Memory,
    /// A unit was asked for, and 10,000,000 were taken.
    Long,
}

/// The most units of a run.
const UNITS: u32 = 10_000_000;

/// A run under way, at a point of a procedure or at its exit.
#[derive(Debug, Drop)]
struct Runner<'a> {
    state: State,
    procedure: u32,
    point: u32,
    choices: &'a [bool],
    budget: u32,
}

/// Executes the client's initialisers and then its `main` on these choices, with a budget of 10,000,000 units: one for each statement
/// begun, for each later evaluation of a `while` test, and for each Easl statement executed. A test makes its call and then
/// takes the next choice. It needs no stack for calls and for the nesting of statements, and memory for no more than the heap, the
/// statics and the frames.
pub fn run(
    alloc: Global,
    spec: &CheckedSpec,
    client: &CheckedClient,
    choices: &[bool],
) -> Result<Outcome, RunFault>
    requires { IsFitting spec.now client.now }
    ensures outcome { Answers spec.now (seen client.now) choices.now 10000000 result }
    ensures call { IfOk result (HasCall client.now.calls) }
{
    spec.is_kept();
    let Ok(program) = Program::of(alloc, client) else {
        return Err(RunFault::Memory);
    };
    run_within(alloc, spec, &program, choices, UNITS)
}

/// A run with so many units.
pub(crate) fn run_within(
    alloc: Global,
    spec: &CheckedSpec,
    program: &Program,
    choices: &[bool],
    budget: u32,
) -> Result<Outcome, RunFault>
    requires calls { All (CallFits spec.now) program.now.calls }
    requires agreed { AreAgreed (seen program.now) }
    ensures { Answers spec.now (seen program.now) choices.now budget result }
{
    let Ok(state) = State::at_first(alloc, program) else {
        return Err(RunFault::Memory);
    };
    let mut runner = Runner {
        state,
        procedure: 0,
        point: 0,
        choices,
        budget,
    };
    'each: loop {
        match runner.turn(alloc, spec, program) {
            Ok(None) => {}
            Ok(Some(outcome)) => return Ok(outcome),
            Err(fault) => return Err(fault),
        }
    }
}

impl<'a> Runner<'a> {
    /// Begins the statement at the point, or leaves the procedure at its exit; None where the run goes on.
    fn turn(
        &mut self,
        alloc: Global,
        spec: &CheckedSpec,
        program: &Program,
    ) -> Result<Option<Outcome>, RunFault>
        requires { All (CallFits spec.now) program.now.calls }
        ensures { Finds (turn_of spec.now (seen program.now) (place_in self.old)) self.new result }
    {
        match program.ways(self.procedure, self.point) {
            Some(ways) => {
                let here = program.point(self.procedure, self.point);
                self.begin_at(alloc, spec, program, ways, here)
            }
            None => Ok(self.leave()),
        }
    }

    /// Begins the statement at the point, where this is done.
    fn begin_at(
        &mut self,
        alloc: Global,
        spec: &CheckedSpec,
        program: &Program,
        ways: (u32, u32),
        here: Option<&Point>,
    ) -> Result<Option<Outcome>, RunFault>
        requires { All (CallFits spec.now) program.now.calls }
        ensures { Finds (turn_here spec.now (seen program.now) (place_in self.old) ways (option_map (λ x. x.now) here.entry)
            (option_and_then call_in (option_map (λ x. x.now) here.entry))) self.new result }
    {
        match here {
            Some(Point::Call(target, callee, args, _)) => {
                let call = Call {
                    target: *target,
                    callee: *callee,
                    args: args.as_slice(),
                };
                self.call(alloc, program, call, ways.0)
            }
            Some(Point::Branch(_)) => self.begin(alloc, spec, program, ways, true),
            Some(Point::Copy(_, _)) | Some(Point::Component(_, _)) | Some(Point::Nothing) | None =>
                { self.begin(alloc, spec, program, ways, false) }
        }
    }

    /// Leaves the procedure.
    fn leave(&mut self) -> Option<Outcome>
        ensures { Reaches (left self.old.state.behind (moment_in self.old)) self.new result }
    {
        match self.state.leave() {
            Some((procedure, point)) => {
                self.procedure = procedure;
                self.point = point;
                None
            }
            None => Some(Outcome::Ends {
                left: self.choices.len() as u64,
            }),
        }
    }

    /// How many units are left where the procedure calls another; None where there is none to take. The start's call of `main`
    /// takes none.
    fn units_behind_call(&self, callee: u32) -> Option<u32>
        ensures { called_from self.now.procedure callee (moment_in self.now) ≡ left_of (moment_in self.now) result }
    {
        if self.procedure == 0 && callee != 0 {
            Some(self.budget)
        } else {
            self.budget.checked_sub(1)
        }
    }

    /// Calls another procedure, and goes on at that point.
    fn call(
        &mut self,
        alloc: Global,
        program: &Program,
        call: Call,
        next: u32,
    ) -> Result<Option<Outcome>, RunFault>
        ensures { Finds (entering (seen program.now) (call_told call.entry)
            (waiting self.old.procedure next (call_told call.entry) self.old.state.state ∷ self.old.state.behind)
            (called_from self.old.procedure call.entry.callee (moment_in self.old))) self.new result }
    {
        let Some(budget) = self.units_behind_call(call.callee) else {
            return Err(RunFault::Long);
        };
        let callee = call.callee;
        if self
            .state
            .enter(alloc, program, call, self.procedure, next)
            .is_err()
        {
            return Err(RunFault::Memory);
        }
        self.budget = budget;
        self.procedure = callee;
        self.point = 0;
        Ok(None)
    }

    /// Begins the statement at the point, which is a test or not, and calls no procedure.
    fn begin(
        &mut self,
        alloc: Global,
        spec: &CheckedSpec,
        program: &Program,
        ways: (u32, u32),
        test: bool,
    ) -> Result<Option<Outcome>, RunFault>
        requires { All (CallFits spec.now) program.now.calls }
        ensures { Finds (onward self.old.procedure self.old.state.behind ways test
            (begun spec.now (seen program.now) self.old.procedure self.old.point (moment_in self.old))) self.new result }
    {
        match self.state.begin(
            alloc,
            spec,
            program,
            self.procedure,
            self.point,
            self.budget,
        ) {
            Ok(Begun::Left(budget)) => {
                self.budget = budget;
                Ok(self.go_on(ways, test))
            }
            Ok(Begun::Broke(call, clause)) => {
                let left = self.choices.len() as u64;
                Ok(Some(Outcome::Fails { call, clause, left }))
            }
            Ok(Begun::Cut) => Err(RunFault::Long),
            Err(Memory) => Err(RunFault::Memory),
        }
    }

    /// Goes on behind the point, which is done.
    fn go_on(&mut self, ways: (u32, u32), test: bool) -> Option<Outcome>
        ensures { Reaches (onward self.old.procedure self.old.state.behind ways test (On (moment_in self.old))) self.new result }
    {
        if test {
            self.choose(ways)
        } else {
            self.point = ways.0;
            None
        }
    }

    /// Takes a choice, and goes on there.
    fn choose(&mut self, ways: (u32, u32)) -> Option<Outcome>
        ensures { Reaches (branching self.old.procedure self.old.state.behind ways
            (chosen self.old.choices.now (moment_in self.old))) self.new result }
    {
        let Some((choice, choices)) = self.choices.split_first() else {
            return Some(Outcome::Short);
        };
        self.choices = choices;
        self.point = if *choice { ways.0 } else { ways.1 };
        None
    }
}
