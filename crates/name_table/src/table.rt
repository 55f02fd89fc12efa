//! Names in order, of which the first of each counts.
ghost use Rattle.std.specs.Prelude.{◌≡◌, ◌∷◌, ◌++◌, ◌-◌, ◌<◌, [], IfSome, OnErr, OnOk, length, take};
ghost use Rattle.name_table.specs.Firsts.{position_of};

use crate::firsts::{Firsts, forget, note};
use cv_base::Memory;
use easl_model::Name;
use std::alloc::Global;
use std::marker::Model;

/// Names in order, which contracts see as their list.
#[derive(Debug, Drop)]
pub struct NameTable {
    names: Vec<Name>,
    firsts: Firsts,
}

impl Model for NameTable {
    ghost use Rattle.std.specs.Prelude.{List, ℕ};

    ghost Value = { List (List ℕ) };

    ghost use Rattle.name_table.specs.Firsts.{HasFirsts};

    ghost view = { λ t. t.names.items };

    ghost invariant = { λ t. HasFirsts t.names.items t.firsts };
}

impl NameTable {
    /// No names. It takes no memory.
    pub fn new(alloc: Global) -> NameTable
        ensures { result ≡ [] }
    {
        NameTable {
            names: Vec::new(alloc),
            firsts: Firsts::new(alloc),
        }
    }

    /// How many names there are.
    pub fn len(&self) -> usize
        ensures { result ≡ length self.now }
    {
        self.names.len()
    }

    /// The position of the first name that is this one.
    pub fn first(&self, name: &Name) -> Option<u32>
        ensures position { result ≡ position_of name.now self.now }
        ensures within { IfSome result (λ k. k < length self.now) }
    {
        self.firsts.get(name.0.as_str()).copied()
    }

    /// Puts the name behind the others. `Memory` leaves them as they were; it also comes beyond 2^32 names.
    pub fn push(&mut self, name: &Name) -> Result<(), Memory>
        ensures pushed { OnOk result (self.new ≡ self.old ++ name.now ∷ []) }
        ensures unchanged { OnErr result (self.new ≡ self.old) }
    {
        let position = self.names.len();
        push_copy(&mut self.names, name)?;
        if note(*self.names.allocator(), &mut self.firsts, name, position).is_err() {
            self.names.pop();
            return Err(Memory);
        }
        Ok(())
    }

    /// Keeps so many names at most, the first ones.
    pub fn truncate(&mut self, length: usize)
        ensures { self.new ≡ take length self.old }
    {
        'each: while self.names.len() > length {
            self.drop_last();
        }
    }

    fn drop_last(&mut self)
        ensures { self.new ≡ take (length self.old - 1) self.old }
    {
        if let Some(name) = self.names.pop() {
            forget(&mut self.firsts, &name, self.names.len());
        }
    }
}

fn push_copy(names: &mut Vec<Name>, name: &Name) -> Result<(), Memory>
    ensures pushed { OnOk result (names.new.items ≡ names.old.items ++ name.now ∷ []) }
    ensures unchanged { OnErr result (names.new.items ≡ names.old.items) }
{
    let Ok(text) = String::from_str(*names.allocator(), name.0.as_str()) else {
        return Err(Memory);
    };
    names.push(Name(text)).map_err(|_| Memory)
}
