//! The tree that an Easl text spells. Places stand beside names, values and paths, and are no part of its shape.
use crate::place::{Name, Place};
use sqlite_items::Items;

/// A specification, and the place of the text's end.
#[derive(Debug, Drop)]
pub struct Spec {
    pub classes: Items<Class>,
    pub end: Place,
}

/// A class, with the place of its first token.
#[derive(Debug, Drop)]
pub struct Class {
    pub place: Place,
    pub name: Word,
    pub members: Items<Member>,
}

/// A name, or a literal as it was read, with its place.
#[derive(Debug, Drop)]
pub struct Word {
    pub name: Name,
    pub place: Place,
}

#[derive(Debug, Drop)]
pub enum Member {
    Field(Field),
    Constructor(Code),
    Method(Code),
}

#[derive(Debug, Drop)]
pub struct Field {
    pub class: Word,
    pub name: Word,
}

/// A constructor or a method, with the places of its first token and of its closing brace. A constructor's result is
/// `Void`, and it has no clauses and no `return`.
#[derive(Debug, Drop)]
pub struct Code {
    pub place: Place,
    pub result: Sort,
    pub name: Word,
    pub params: Items<Param>,
    pub clauses: Items<Requires>,
    pub body: Items<Step>,
    pub value: Option<Return>,
    pub end: Place,
}

/// A clause, with the place of its `requires`.
#[derive(Debug, Drop)]
pub struct Requires {
    pub place: Place,
    pub condition: Cond,
}

/// A `return`, with its place.
#[derive(Debug, Drop)]
pub struct Return {
    pub place: Place,
    pub value: Value,
}

/// The type of a parameter or a result.
#[derive(Debug, Drop)]
pub enum Sort {
    Void,
    Opaque(Opaque),
    Class(Word),
}

/// The words for values that are not modelled.
#[derive(Clone, Copy, Debug, PartialEq, Eq)]
pub enum Opaque {
    Object,
    Int,
    Boolean,
    String,
}

/// A parameter, with the place of its first token.
#[derive(Debug, Drop)]
pub struct Param {
    pub place: Place,
    pub sort: Sort,
    pub name: Word,
}

#[derive(Debug, Drop)]
pub enum Cond {
    Same(Path, Path),
    Differ(Path, Path),
    All(Items<Cond>),
    Any(Items<Cond>),
}

/// A statement of an Easl body: a local's class, name and value; an assignment; or a conditional with the place of its
/// `if`, its comparison, its two blocks, and whether `else` is written. A missing alternative is empty.
#[derive(Debug, Drop)]
pub enum Step {
    Declare(Word, Word, Value),
    Assign(Path, Value),
    If(Place, Cond, Items<Step>, Items<Step>, bool),
}

#[derive(Debug, Drop)]
pub enum Value {
    Path(Path),
    New(New),
}

/// A construction, with the place of its `new`.
#[derive(Debug, Drop)]
pub struct New {
    pub place: Place,
    pub class: Word,
    pub args: Items<Arg>,
}

#[derive(Debug, Drop)]
pub enum Arg {
    Path(Path),
    Literal(Word),
}

/// A head, which is `this` where it is None, with its place, and the fields that follow it.
#[derive(Debug, Drop)]
pub struct Path {
    pub head: Option<Word>,
    pub place: Place,
    pub fields: Items<Word>,
}
