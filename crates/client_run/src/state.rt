//! What a run changes: the heap, the objects of the statics, and the frames.
ghost use Rattle.std.specs.Prelude.{◌≡◌, ◌∷◌, ◌<◌, ◌≤◌, [], length, map, option_map, slice_set, All, IfOk, OnOk};
ghost use Rattle.client_run.specs.Deeds.{Begins, Comes, Resumes, call_told, done_by};
ghost use Rattle.client_run.specs.Fitting.{CallFits};
ghost use Rattle.client_run.specs.Places.{waiting};
ghost use Rattle.client_model.specs.Checked.{seen};
ghost use Rattle.client_steps.specs.Deeds.{called, done, done_at, made};
ghost use Rattle.client_steps.specs.States.{at_first, entered, object_of, with_object};

use crate::frames::{Behind, Frames};
use crate::program::Program;
use client_model::{CallSite, Point};
use cv_base::Memory;
use easl_heap::Heap;
use easl_model::CheckedSpec;
use smallvec::SmallVec;
use std::alloc::{AllocError, Global};
use std::marker::Model;

/// The heap, the object of each static by number, 0 where it has none, and the frames.
#[derive(Debug, Drop)]
pub(crate) struct State {
    heap: Heap,
    statics: Vec<u32>,
    frames: Frames,
}

impl Model for State {
    ghost use Rattle.client_run.specs.Places as told;

    ghost Value = { told.Standing };

    ghost view = { λ s. record {
      state = record { heap = s.heap; statics = s.statics.items; variables = s.frames.variables; result = s.frames.result };
      behind = s.frames.behind;
    } };
}

/// The arguments of a call, which take no memory of their own: within the limits there are 16 at the most.
type Arguments = SmallVec<u32, 16>;

/// A procedure call: the name that takes the result, the procedure, and the names of its arguments.
#[derive(Clone, Copy, Debug)]
pub(crate) struct Call<'a> {
    pub(crate) target: Option<u32>,
    pub(crate) callee: u32,
    pub(crate) args: &'a [Option<u32>],
}

/// What was done at a point.
#[derive(Clone, Copy, Debug, PartialEq, Eq)]
pub(crate) enum Deed {
    /// This clause of the call is false, the first of them, from 1.
    Broke(u32, u32),
    /// So many Easl statements were executed.
    Did(u32),
}

/// What became of a statement that was begun.
#[derive(Clone, Copy, Debug, PartialEq, Eq)]
pub(crate) enum Begun {
    /// So many units are left.
    Left(u32),
    /// This clause of the call is false, the first of them, from 1.
    Broke(u32, u32),
    /// A unit was asked for and none was left.
    Cut,
}

/// The most objects before a call, so that their numbers don't run out in it.
const MOST_OBJECTS: u32 = u32::MAX - 1025;

impl State {
    /// Before the first point of the start.
    pub(crate) fn at_first(alloc: Global, program: &Program) -> Result<State, AllocError>
        ensures { IfOk result (λ s. s ≡ record { state = at_first (seen program.now); behind = [] }) }
    {
        let mut statics = Vec::new(alloc);
        statics.resize(program.static_count(), 0)?;
        let frames = Frames::first(alloc, program.variable_count(0))?;
        Ok(State {
            heap: Heap::new(alloc),
            statics,
            frames,
        })
    }

    /// The object of the name, 0 where it is opaque.
    fn object_of(&self, name: Option<u32>) -> u32
        ensures { result ≡ object_of self.now.state name }
    {
        let Some(code) = name else {
            return 0;
        };
        let number = code / 4;
        match code % 4 {
            0 => self.statics.get(number as usize).copied().unwrap_or(0),
            1 => self.frames.variable(number),
            2 => 0,
            _ => self.frames.result(),
        }
    }

    /// The name takes the object; nothing changes where it is opaque.
    fn assign(&mut self, name: Option<u32>, object: u32)
        ensures { self.new ≡ record self.old { state = with_object name object self.old.state } }
    {
        let Some(code) = name else {
            return;
        };
        let number = code / 4;
        match code % 4 {
            0 => self.set_static(number, object),
            1 => self.frames.set_variable(number, object),
            2 => {}
            _ => self.frames.set_result(object),
        }
    }

    fn set_static(&mut self, number: u32, object: u32)
        ensures { self.new ≡ record self.old { state = record self.old.state { statics = slice_set self.old.state.statics number object } } }
    {
        let number = number as usize;
        if number < self.statics.len() {
            self.statics[number] = object;
        }
    }

    /// The objects of a call's arguments.
    fn arguments(&self, alloc: Global, names: &[Option<u32>]) -> Result<Arguments, AllocError>
        ensures { IfOk result (λ found. found.items ≡ map (object_of self.now.state) names.now) }
    {
        let mut found = Arguments::new(alloc);
        'each: for name in names {
            found.push(self.object_of(*name))?;
        }
        Ok(found)
    }

    /// Makes the call of this number, unless a clause is false, and assigns its result to the name.
    fn call(
        &mut self,
        alloc: Global,
        spec: &CheckedSpec,
        program: &Program,
        target: Option<u32>,
        number: u32,
    ) -> Result<Deed, Memory>
        requires { All (CallFits spec.now) program.now.calls }
        ensures done { IfOk result (λ d. Comes self.new.state d (called spec.now (seen program.now) target number self.old.state)) }
        ensures behind { self.new.behind ≡ self.old.behind }
    {
        match program.call(number) {
            Some(site) => self.make(alloc, spec, site, target, number),
            None => Ok(Deed::Did(0)),
        }
    }

    fn make(
        &mut self,
        alloc: Global,
        spec: &CheckedSpec,
        site: &CallSite,
        target: Option<u32>,
        number: u32,
    ) -> Result<Deed, Memory>
        requires { CallFits spec.now site.now }
        ensures done { IfOk result (λ d. Comes self.new.state d (made spec.now target number site.now self.old.state)) }
        ensures behind { self.new.behind ≡ self.old.behind }
    {
        let Ok(args) = self.arguments(alloc, site.args.as_slice()) else {
            return Err(Memory);
        };
        let args = args.as_slice();
        if let Some(clause) = self.heap.requires_of(spec, site.method, args) {
            return Ok(Deed::Broke(number, clause));
        }
        if self.heap.count() > MOST_OBJECTS {
            return Err(Memory);
        }
        let done = self.heap.execute_body(spec, site.method, args)?;
        self.assign(target, done.result);
        Ok(Deed::Did(done.steps))
    }

    /// Does what is done at the point, where it is no procedure call.
    fn do_at(
        &mut self,
        alloc: Global,
        spec: &CheckedSpec,
        program: &Program,
        point: &Point,
    ) -> Result<Deed, Memory>
        requires { All (CallFits spec.now) program.now.calls }
        ensures done { IfOk result (λ d. Comes self.new.state d (done spec.now (seen program.now) point.now self.old.state)) }
        ensures behind { self.new.behind ≡ self.old.behind }
    {
        match point {
            Point::Copy(target, source) => {
                let object = self.object_of(*source);
                self.assign(*target, object);
                Ok(Deed::Did(0))
            }
            Point::Component(target, number) => self.call(alloc, spec, program, *target, *number),
            Point::Branch(Some(number)) => self.call(alloc, spec, program, None, *number),
            Point::Branch(None) | Point::Call(_, _, _, _) | Point::Nothing => Ok(Deed::Did(0)),
        }
    }

    /// Does what is done at the point, if there is one.
    fn do_if(
        &mut self,
        alloc: Global,
        spec: &CheckedSpec,
        program: &Program,
        point: Option<&Point>,
    ) -> Result<Deed, Memory>
        requires { All (CallFits spec.now) program.now.calls }
        ensures done { IfOk result (λ d. Comes self.new.state d
            (done_by spec.now (seen program.now) (option_map (λ x. x.now) point.entry) self.old.state)) }
        ensures behind { self.new.behind ≡ self.old.behind }
    {
        match point {
            Some(point) => self.do_at(alloc, spec, program, point),
            None => Ok(Deed::Did(0)),
        }
    }

    /// Begins a statement with so many units, where it is no procedure call: takes its unit, does what is done at its point, and
    /// takes the units of the Easl statements that were executed.
    pub(crate) fn begin(
        &mut self,
        alloc: Global,
        spec: &CheckedSpec,
        program: &Program,
        procedure: u32,
        number: u32,
        budget: u32,
    ) -> Result<Begun, Memory>
        requires { All (CallFits spec.now) program.now.calls }
        ensures begun { IfOk result (Begins spec.now (seen program.now) procedure number budget self.old.state self.new.state) }
        ensures behind { self.new.behind ≡ self.old.behind }
    {
        if budget == 0 {
            return Ok(Begun::Cut);
        }
        let left = budget - 1;
        let point = program.point(procedure, number);
        match self.do_if(alloc, spec, program, point)? {
            Deed::Broke(call, clause) => Ok(Begun::Broke(call, clause)),
            Deed::Did(steps) if steps <= left => Ok(Begun::Left(left - steps)),
            Deed::Did(_) => Ok(Begun::Cut),
        }
    }

    /// Enters a procedure; the one that calls it goes on at that point.
    pub(crate) fn enter(
        &mut self,
        alloc: Global,
        program: &Program,
        call: Call,
        procedure: u32,
        point: u32,
    ) -> Result<(), AllocError>
        ensures { OnOk result (self.new ≡ record {
          state = entered (seen program.now) (call_told call.entry) self.old.state;
          behind = waiting procedure point (call_told call.entry) self.old.state ∷ self.old.behind;
        }) }
    {
        let args = self.arguments(alloc, call.args)?;
        let behind = Behind {
            procedure,
            point,
            target: call.target,
        };
        self.frames.enter(args.as_slice(), program.variable_count(call.callee), behind)
    }

    /// Goes back to the procedure that waits first, if there is one, and answers it and the point behind its call.
    pub(crate) fn leave(&mut self) -> Option<(u32, u32)>
        ensures { Resumes self.old self.new self.old.behind result }
    {
        let object = self.frames.result();
        let behind = self.frames.leave()?;
        self.assign(behind.target, object);
        Some((behind.procedure, behind.point))
    }
}
