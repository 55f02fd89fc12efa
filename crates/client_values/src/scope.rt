//! Variables that are found by their names: those in scope, and the statics.
ghost use Rattle.std.specs.Prelude.{◌≡◌, ◌∷◌, ◌++◌, [], OnErr, OnOk, find, length, option_map, slice_get, take};
ghost use Rattle.std.specs.List.{list_any};
ghost use Rattle.std.specs.Option.{option_copied};
ghost use Rattle.client_model.specs.Lookups.{is_same};

use crate::kind::Kind;
use easl_model::Name;
use name_table::NameTable;
use sqlite_items::Items;
use std::alloc::{AllocError, Global};
use std::marker::Model;

/// A static, a parameter or a local: its name, its kind, and its name code.
#[derive(Debug, Drop)]
pub struct Variable {
    pub name: Name,
    pub kind: Kind,
    pub code: u32,
}

impl Model for Variable {
    ghost use Rattle.client_values.specs.ToldKinds.{kind_told};
    ghost use Rattle.client_model.specs.Settings as told;

    ghost Value = { told.Variable };

    ghost view = { λ v. record { name = v.name; kind = kind_told v.kind; code = v.code } };
}

/// Variables in order, which contracts see as their list. A name stands for the first that has it, which is found without a
/// search from the front.
#[derive(Debug, Drop)]
pub struct Scope {
    variables: Items<Variable>,
    names: NameTable,
}

impl Model for Scope {
    ghost use Rattle.std.specs.Prelude.{◌≡◌, List, map};
    ghost use Rattle.client_model.specs.Settings as told;

    ghost Value = { List told.Variable };

    ghost view = { λ s. s.variables };

    ghost invariant = { λ s. s.names ≡ map (λ v. v.name) s.variables };
}

impl Scope {
    /// No variables. It takes no memory.
    pub fn new(alloc: Global) -> Scope
        ensures { result ≡ [] }
    {
        Scope {
            variables: Items::new(alloc),
            names: NameTable::new(alloc),
        }
    }

    /// How many variables there are.
    pub fn len(&self) -> usize
        ensures { result ≡ length self.now }
    {
        self.variables.len()
    }

    /// The variables in order.
    pub fn as_slice(&self) -> &[Variable]
        ensures { result.now ≡ self.now }
    {
        self.variables.as_slice()
    }

    /// The variable of this number, where there is one.
    pub fn at(&self, number: usize) -> Option<&Variable>
        ensures { option_copied result ≡ slice_get self.now number }
    {
        self.variables.get(number)
    }

    /// The first variable of this name.
    pub fn named(&self, name: &Name) -> Option<&Variable>
        ensures { option_map (λ v. v.now) result ≡ find (λ v. is_same v.name name.now) self.now }
    {
        match self.names.first(name) {
            Some(number) => self.variables.get(number as usize),
            None => None,
        }
    }

    /// Whether a variable has this name.
    pub fn has(&self, name: &Name) -> bool
        ensures { result ≡ list_any (λ v. is_same v.name name.now) self.now }
    {
        self.names.first(name).is_some()
    }

    /// Puts the variable behind the others. An `Err` leaves them as they were.
    pub fn push(&mut self, variable: Variable) -> Result<(), AllocError>
        ensures pushed { OnOk result (self.new ≡ self.old ++ variable ∷ []) }
        ensures unchanged { OnErr result (self.new ≡ self.old) }
    {
        if self.names.push(&variable.name).is_err() {
            return Err(AllocError);
        }
        if self.variables.push(variable).is_err() {
            self.names.truncate(self.variables.len());
            return Err(AllocError);
        }
        Ok(())
    }

    /// Keeps so many variables at most, the first ones.
    pub fn truncate(&mut self, length: usize)
        ensures { self.new ≡ take length self.old }
    {
        self.names.truncate(length);
        cut(&mut self.variables, length);
    }
}

fn cut(variables: &mut Items<Variable>, kept: usize)
    ensures { variables.new ≡ take kept variables.old }
{
    'each: while variables.len() > kept {
        variables.pop();
    }
}
