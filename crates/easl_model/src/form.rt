//! The checked form: the tree with numbers in place of names. Classes are numbered from 0 in text order, fields
//! by position in their class, methods over all classes in text order, in each class the constructor first.
use crate::place::Name;
use sqlite_items::Items;

/// A class: its name, its fields by position with the class of each, and the number of its constructor.
#[derive(Debug, Drop)]
pub struct ClassForm {
    pub name: Name,
    pub field_names: Items<Name>,
    pub field_classes: Items<u32>,
    pub constructor: u32,
}

/// A method or a constructor. A parameter's class is None where it is opaque, the result's where it is opaque
/// or `void`; a constructor's result is its class. `gives` says whether it gives a value: a constructor does, a
/// method unless its result is `void`. `names` has the parameters' names.
#[derive(Debug, Drop)]
pub struct Method {
    pub class: u32,
    pub name: Name,
    pub constructor: bool,
    pub params: Items<Option<u32>>,
    pub names: Items<Name>,
    pub result: Option<u32>,
    pub gives: bool,
    pub clauses: Items<Test>,
    pub body: Items<Act>,
    pub value: Option<Source>,
}

/// A condition on objects.
#[derive(Debug, Drop)]
pub enum Test {
    Same(Reach, Reach),
    Differ(Reach, Reach),
    All(Items<Test>),
    Any(Items<Test>),
}

/// What the fields lead to from a slot. Slot 0 is `this`; the parameters follow from 1 on, and then the locals
/// in order of declaration.
#[derive(Debug, Drop)]
pub struct Reach {
    pub slot: u32,
    pub fields: Items<u32>,
}

/// A statement: `Local` declares the next slot, `Change` assigns a slot, `Write` assigns a field of what the
/// `Reach` gives. `If` has the statements that are executed where its condition is true, and those that are where it
/// is false; the slots that a list declares end with it.
#[derive(Debug, Drop)]
pub enum Act {
    Local(Source),
    Change(u32, Source),
    Write(Reach, u32, Source),
    If(Test, Items<Act>, Items<Act>),
}

/// A value: what is reached, or a new object of the class, with its constructor's arguments; an opaque argument
/// is None.
#[derive(Debug, Drop)]
pub enum Source {
    Reach(Reach),
    Make(u32, Items<Option<Reach>>),
}
