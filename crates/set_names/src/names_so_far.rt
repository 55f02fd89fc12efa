//! The names that are surely assigned, as a body is gone through: behind a block those that it assigned are given up, and
//! wherever the body is left it is kept which are.
ghost use Rattle.std.specs.Prelude.{◌≡◌, ◌<◌, ◌+◌, ◌-◌, ◌++◌, ◌∷◌, ◌&&◌, [], ℕ, None, true, IfOk, OnOk, length, map, take};
ghost use Rattle.set_names.specs.Names.{Names, is_assigned, is_in, is_left, numbers_left, numbers_now, with_number};
ghost use Rattle.set_names.specs.Sets.{codes_of};

use crate::exit::{bring, flags_of, unset_gone};
use crate::set_names::SetNames;
use crate::set_so_far::SetSoFar;
use sqlite_items::Items;
use std::alloc::{AllocError, Global};
use std::marker::Model;
use std::mem;

/// So many statics, and variables by number, in the order in which they came to be assigned. Contracts see also the numbers of
/// those that were assigned at each point before, and for each variable whether it was assigned wherever the body was left.
#[derive(Debug, Drop)]
pub struct NamesSoFar {
    statics: u32,
    variables: u32,
    sets: SetSoFar,
    trail: Items<u32>,
    left: Option<Items<bool>>,
    gone: Items<u32>,
}

impl Model for NamesSoFar {
    ghost use Rattle.set_names.specs.Names.{AreKept, Names};

    ghost Value = { Names };

    ghost view = { λ n. record { statics = n.statics; variables = n.variables; before = n.sets.before; trail = n.trail; left = n.left } };

    ghost invariant = { λ n. AreKept n.variables n.sets n.trail n.gone n.left };
}

impl NamesSoFar {
    /// So many statics are assigned, and there is no variable. It takes no memory.
    pub fn new(alloc: Global, statics: u32) -> NamesSoFar
        ensures { result ≡ record { statics = statics; variables = 0; before = []; trail = []; left = None } }
    {
        NamesSoFar {
            statics,
            variables: 0,
            sets: SetSoFar::new(alloc),
            trail: Items::new(alloc),
            left: None,
            gone: Items::new(alloc),
        }
    }

    /// The next static is assigned. Numbers that run out are want of memory.
    pub fn add_static(&mut self) -> Result<(), AllocError>
        ensures { OnOk result (self.new ≡ record self.old { statics = self.old.statics + 1 }) }
    {
        self.statics = self.statics.checked_add(1).ok_or(AllocError)?;
        Ok(())
    }

    /// One more variable, which is not assigned. Numbers that run out are want of memory.
    pub fn declare(&mut self) -> Result<(), AllocError>
        ensures { OnOk result (self.new ≡ record self.old { variables = self.old.variables + 1 }) }
    {
        let variables = self.variables.checked_add(1).ok_or(AllocError)?;
        if self.sets.declare().is_err() {
            return Err(AllocError);
        }
        self.variables = variables;
        Ok(())
    }

    /// Whether the name of this code is assigned.
    pub fn has(&self, code: u32) -> bool
        ensures { result ≡ is_assigned self.now code }
    {
        match code % 4 {
            0 => code / 4 < self.statics,
            1 => self.sets.is_set(code / 4),
            _ => false,
        }
    }

    /// Whether the variable is assigned.
    pub fn is_set(&self, variable: u32) -> bool
        ensures { result ≡ is_in self.now.trail variable }
    {
        self.sets.is_set(variable)
    }

    /// The variables that are assigned, as they came.
    pub fn trail(&self) -> &[u32]
        ensures trail { result.now ≡ self.now.trail }
        ensures within { (k : ℕ) → is_in self.now.trail k ≡ true → k < self.now.variables }
    {
        self.trail.as_slice()
    }

    /// The variable is assigned, if it is there.
    pub fn set(&mut self, variable: u32) -> Result<(), AllocError>
        ensures { OnOk result (self.new ≡ record self.old { trail = with_number variable self.old }) }
    {
        if variable < self.variables && !self.sets.is_set(variable) {
            self.trail.push(variable)?;
            self.sets.set(variable);
        }
        Ok(())
    }

    /// The variable that came last is no longer assigned.
    fn pop(&mut self) -> Result<(), AllocError>
        ensures { OnOk result (self.new ≡ record self.old { trail = take (length self.old.trail - 1) self.old.trail }) }
    {
        let count = self.trail.len();
        if count == 0 {
            return Ok(());
        }
        let last = self.trail.as_slice()[count - 1];
        self.gone.push(last)?;
        if self.sets.unset(last).is_err() {
            return Err(AllocError);
        }
        self.trail.pop();
        Ok(())
    }

    /// Those that came behind the first so many are no longer assigned.
    pub fn cut(&mut self, kept: usize) -> Result<(), AllocError>
        ensures { OnOk result (self.new ≡ record self.old { trail = take kept self.old.trail }) }
    {
        'each: while self.trail.len() > kept {
            self.pop()?;
        }
        Ok(())
    }

    /// The next point is come to.
    pub fn pass(&mut self) -> Result<(), AllocError>
        ensures { OnOk result (self.new ≡ record self.old { before = self.old.before ++ numbers_now self.old ∷ [] }) }
    {
        if self.sets.pass().is_err() {
            return Err(AllocError);
        }
        Ok(())
    }

    /// The body is left here.
    pub fn leave(&mut self, alloc: Global) -> Result<(), AllocError>
        ensures left { OnOk result ((k : ℕ) → is_left self.new.left k ≡ (is_left self.old.left k && is_in self.old.trail k)) }
        ensures others { OnOk result (self.new ≡ record self.old { left = self.new.left }) }
    {
        let flags = match mem::replace(&mut self.left, None) {
            Some(flags) => unset_gone(flags, self.gone.as_slice(), &self.sets),
            None => flags_of(alloc, &self.sets, self.variables)?,
        };
        self.left = Some(flags);
        self.gone = Items::new(alloc);
        Ok(())
    }

    /// The names that are set at each point and at the exit, which is come to from wherever the body was left.
    pub fn finish(self) -> Result<SetNames, AllocError>
        ensures { IfOk result (λ sets. sets ≡ map (codes_of self.statics) (self.before ++ numbers_left self ∷ [])) }
    {
        let NamesSoFar {
            statics,
            variables,
            mut sets,
            left,
            ..
        } = self;
        bring(&mut sets, &left, variables)?;
        Ok(sets.finish(statics))
    }
}
