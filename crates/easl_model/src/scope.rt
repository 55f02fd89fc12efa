//! What names stand for in a body, for the rules and for the checked form.
use crate::place::{Name, Place};
use sqlite_items::Items;

/// A variable in scope: its name, and its class, None where it is opaque.
#[derive(Debug, Drop)]
pub struct Variable {
    pub name: Name,
    pub class: Option<usize>,
}

/// What stands before a statement: the class of `this`, the variables in scope by slot from 1 on, and the positions of
/// the fields of `this` that a constructor has not assigned yet.
#[derive(Debug, Drop)]
pub struct Context {
    pub class: usize,
    pub variables: Items<Variable>,
    pub unset: Items<usize>,
}

/// A field: its position in its class, and its class, None where that is not there.
#[derive(Clone, Copy, Debug, PartialEq, Eq)]
pub struct FieldAt {
    pub position: usize,
    pub class: Option<usize>,
}

/// What a path leads to: an object of the class, an opaque value, or nothing, where no name stands at the place.
#[derive(Clone, Copy, Debug, PartialEq, Eq)]
pub enum Target {
    Object(usize),
    Opaque,
    Unknown(Place),
}
