//! The frames of a run, one behind the other in one list, so that a frame takes no more than its variables.
ghost use Rattle.std.specs.Prelude.{◌≡◌, ◌∷◌, ◌++◌, ◌-◌, ◌≤◌, [], length, replicate, slice_index, slice_set, IfOk, OnOk};
ghost use Rattle.client_run.specs.Places as told;
ghost use Rattle.client_run.specs.Returns.{Returns};

use std::alloc::{AllocError, Global};
use std::marker::Model;

/// The procedure that is executed, its frame, and the procedures that wait for one that they called.
#[derive(Debug, Drop)]
pub(crate) struct Frames {
    /// The variables of all frames. Those of the procedure that is executed are the last ones, from `base` on.
    variables: Vec<u32>,
    base: usize,
    /// The object of the result, 0 where it has none.
    result: u32,
    /// The procedures that wait, the next one last.
    callers: Vec<Caller>,
}

/// A procedure that waits: the point behind its call, the name that takes the result, and its frame.
#[derive(Clone, Copy, Debug)]
struct Caller {
    procedure: u32,
    point: u32,
    target: Option<u32>,
    result: u32,
    base: usize,
}

/// Where a procedure that waited goes on, and the name that takes the result.
#[derive(Clone, Copy, Debug)]
pub(crate) struct Behind {
    pub(crate) procedure: u32,
    pub(crate) point: u32,
    pub(crate) target: Option<u32>,
}

impl Model for Frames {
    ghost use Rattle.std.specs.Prelude.{◌≤◌, drop, length, reverse, take};
    ghost use Rattle.client_run.specs.Places as told;

    ghost Value = { told.Frames };

    ghost use Rattle.client_run.specs.Code.{AreInOrder, waiting_in};

    ghost view = { λ f. record {
      variables = drop f.base f.variables.items;
      result = f.result;
      behind = waiting_in (reverse f.callers.items) (take f.base f.variables.items);
    } };

    ghost invariant = { λ f. (f.base ≤ length f.variables.items) × AreInOrder (reverse f.callers.items) f.base };
}

impl Frames {
    /// The frame of the first procedure, with so many variables, which have no objects.
    pub(crate) fn first(alloc: Global, count: usize) -> Result<Frames, AllocError>
        ensures { IfOk result (λ f. f ≡ record { variables = replicate count 0; result = 0; behind = [] }) }
    {
        let mut variables = Vec::new(alloc);
        variables.resize(count, 0)?;
        Ok(Frames {
            variables,
            base: 0,
            result: 0,
            callers: Vec::new(alloc),
        })
    }

    /// The object of the variable; 0 where there is none of this number.
    pub(crate) fn variable(&self, number: u32) -> u32
        ensures { result ≡ slice_index self.now.variables number }
    {
        let variables = &self.variables[self.base..];
        variables.get(number as usize).copied().unwrap_or(0)
    }

    /// The variable takes the object; nothing changes where there is none of this number.
    pub(crate) fn set_variable(&mut self, number: u32, object: u32)
        ensures { self.new ≡ record self.old { variables = slice_set self.old.variables number object } }
    {
        let number = number as usize;
        if number < self.variables.len() - self.base {
            self.variables[self.base + number] = object;
        }
    }

    /// The object of the result, 0 where it has none.
    pub(crate) fn result(&self) -> u32
        ensures { result ≡ self.now.result }
    {
        self.result
    }

    pub(crate) fn set_result(&mut self, object: u32)
        ensures { self.new ≡ record self.old { result = object } }
    {
        self.result = object;
    }

    /// A fresh frame for a procedure with so many variables, of which these are the first; the one that calls it goes on there.
    pub(crate) fn enter(
        &mut self,
        args: &[u32],
        count: usize,
        behind: Behind,
    ) -> Result<(), AllocError>
        ensures { OnOk result (self.new ≡ record {
          variables = args.now ++ replicate (count - length args.now) 0;
          result = 0;
          behind = record {
            procedure = behind.procedure;
            point = behind.point;
            target = behind.target;
            variables = self.old.variables;
            result = self.old.result;
          } ∷ self.old.behind;
        }) }
    {
        let base = self.variables.len();
        self.callers.push(Caller {
            procedure: behind.procedure,
            point: behind.point,
            target: behind.target,
            result: self.result,
            base: self.base,
        })?;
        self.variables.extend_from_slice(args)?;
        let more = count.saturating_sub(args.len());
        let Some(end) = self.variables.len().checked_add(more) else {
            return Err(AllocError);
        };
        self.variables.resize(end, 0)?;
        self.base = base;
        self.result = 0;
        Ok(())
    }

    /// Goes back to the frame of the procedure that waits first, if there is one.
    pub(crate) fn leave(&mut self) -> Option<Behind>
        ensures { Returns self.old.behind self.new result }
    {
        let caller = self.callers.pop()?;
        self.variables.truncate(self.base);
        self.base = caller.base;
        self.result = caller.result;
        Some(Behind {
            procedure: caller.procedure,
            point: caller.point,
            target: caller.target,
        })
    }
}
