//! The variables that are set, as a procedure is gone through point by point.
ghost use Rattle.std.specs.Prelude.{◌≡◌, ◌<◌, ◌==◌, ◌+◌, ◌++◌, ◌∷◌, ◌||◌, ◌&&◌, ℕ, [], OnErr, OnOk, filter, length, map, not};
ghost use Rattle.std.specs.List.{list_any, range_with_len};
ghost use Rattle.set_names.specs.Sets.{codes_of};
ghost use Rattle.set_names.specs.SoFar.{Sets};

use crate::set_names::SetNames;
use crate::spans::{Spans, begin_at, end_at, no_spans};
use cv_base::Memory;
use std::alloc::Global;
use std::marker::Model;

/// How many variables there are so far, and the numbers of those that were set at each point before and that are set now.
#[derive(Debug, Drop)]
pub struct SetSoFar {
    points: u32,
    variables: Vec<Spans>,
}

impl Model for SetSoFar {
    ghost use Rattle.std.specs.Prelude.{All};
    ghost use Rattle.set_names.specs.SoFar.{Sets};

    ghost Value = { Sets };

    ghost use Rattle.set_names.specs.Sets.{AreSpans};
    ghost use Rattle.set_names.specs.SoFar.{sets_behind};

    ghost view = { λ s. sets_behind s.points s.variables.items };

    ghost invariant = { λ s. All (AreSpans s.points) s.variables.items };
}

impl SetSoFar {
    /// No point stands before, and there is no variable. It takes no memory.
    pub fn new(alloc: Global) -> SetSoFar
        ensures { result ≡ record { variables = 0; before = []; now = [] } }
    {
        SetSoFar {
            points: 0,
            variables: Vec::new(alloc),
        }
    }

    /// One more variable, which is not set. `Memory` changes nothing.
    pub fn declare(&mut self) -> Result<(), Memory>
        ensures declared { OnOk result (self.new ≡ record self.old { variables = self.old.variables + 1 }) }
        ensures unchanged { OnErr result (self.new ≡ self.old) }
    {
        let spans = no_spans(*self.variables.allocator());
        if self.variables.push(spans).is_err() {
            return Err(Memory);
        }
        Ok(())
    }

    /// Whether the variable is set.
    pub fn is_set(&self, variable: u32) -> bool
        ensures { result ≡ list_any (λ k. k == variable) self.now.now }
    {
        match self.variables.get(variable as usize) {
            Some(spans) => spans.since.is_some(),
            None => false,
        }
    }

    /// From here on the variable is set.
    pub fn set(&mut self, variable: u32)
        requires { variable < self.old.variables }
        ensures set { self.new ≡ record self.old {
          now = filter (λ k. (k == variable) || list_any (λ n. n == k) self.old.now) (range_with_len 0 self.old.variables);
        } }
        ensures members { (k : ℕ) → list_any (λ n. n == k) self.new.now ≡ ((k == variable) || list_any (λ n. n == k) self.old.now) }
    {
        let spans = &mut self.variables[variable as usize];
        begin_at(spans, self.points);
    }

    /// From here on the variable is no longer set. `Memory` changes nothing.
    pub fn unset(&mut self, variable: u32) -> Result<(), Memory>
        requires { variable < self.old.variables }
        ensures unset { OnOk result (self.new ≡ record self.old {
          now = filter (λ k. not (k == variable) && list_any (λ n. n == k) self.old.now) (range_with_len 0 self.old.variables);
        }) }
        ensures members { OnOk result ((k : ℕ) → list_any (λ n. n == k) self.new.now ≡ (not (k == variable) && list_any (λ n. n == k) self.old.now)) }
        ensures unchanged { OnErr result (self.new ≡ self.old) }
    {
        let spans = &mut self.variables[variable as usize];
        end_at(spans, self.points)?;
        Ok(())
    }

    /// The next point is come to. `Memory` changes nothing; it comes where points run out.
    pub fn pass(&mut self) -> Result<(), Memory>
        ensures by_number { self.old.now ≡ filter (λ k. list_any (λ n. n == k) self.old.now) (range_with_len 0 self.old.variables) }
        ensures passed { OnOk result (self.new ≡ record self.old { before = self.old.before ++ self.old.now ∷ [] }) }
        ensures unchanged { OnErr result (self.new ≡ self.old) }
    {
        let Some(points) = self.points.checked_add(1) else {
            return Err(Memory);
        };
        self.points = points;
        Ok(())
    }

    /// The names that are set in the whole procedure, whose exit is come to. All statics are. It takes no memory.
    pub fn finish(self, statics: u32) -> SetNames
        ensures set { result ≡ map (codes_of statics) (self.before ++ self.now ∷ []) }
        ensures by_number { self.now ≡ filter (λ k. list_any (λ n. n == k) self.now) (range_with_len 0 self.variables) }
    {
        SetNames::new(statics, self.points, self.variables)
    }
}
