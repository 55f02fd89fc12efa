//! The checked form of a client: numbers in place of names. Names in a procedure have codes: a static k has the code
//! 4k, a variable j has 4j + 1, and the result has 3; variables are the parameters and then the locals in text order.
//! None stands for an opaque variable or value. Points are numbered from 0 in text order, an `if` or `while` before
//! what it holds; the exit is the number after the last.
use easl_model::{Name, Place};
use set_names::SetNames;
use sqlite_items::Items;

/// A procedure: the classes of its parameters, its result and its variables, what is done at each point, how its
/// statements stand in one another, and which names are surely assigned at each point and at the exit.
#[derive(Debug, Drop)]
pub struct Procedure {
    pub name: Name,
    pub params: Items<Option<u32>>,
    pub result: Option<u32>,
    pub variables: Items<Option<u32>>,
    pub points: Items<Point>,
    pub shape: Items<Node>,
    pub set: SetNames,
}

/// A statement by its point: one after which the next of its block is done, an `if` with both its branches, a `while`, or
/// one that goes elsewhere.
#[derive(Debug, Drop)]
pub enum Node {
    Step(u32),
    If(u32, Items<Node>, Items<Node>),
    While(u32, Items<Node>),
    Break(u32),
    Continue(u32),
    Return(u32),
}

/// What is done at a point.
#[derive(Debug, Drop)]
pub enum Point {
    /// The second name is copied to the first.
    Copy(Option<u32>, Option<u32>),
    /// The component call or construction of this number is made, and its result assigned to the name.
    Component(Option<u32>, u32),
    /// The procedure is called with these arguments, and its result assigned to the name.
    Call(Option<u32>, u32, Items<Option<u32>>, Place),
    /// The outcome of a test, which makes the call of this number first if there is one.
    Branch(Option<u32>),
    Nothing,
}

/// A component call or a construction: where it stands, the method or constructor, and the names of its arguments,
/// before them the receiver where it is no construction.
#[derive(Debug, Drop)]
pub struct CallSite {
    pub procedure: u32,
    pub point: u32,
    pub method: u32,
    pub args: Items<Option<u32>>,
    pub place: Place,
}
