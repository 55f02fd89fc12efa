//! The tree that a client's text spells. Places stand beside names and calls, and are no part of its shape.
use easl_model::{Param, Place, Sort, Word};
use sqlite_items::Items;

/// A client, and the place of the text's end. `order` says of each static and procedure in text order whether it
/// is a static.
#[derive(Debug, Drop)]
pub struct Client {
    pub statics: Items<Static>,
    pub procedures: Items<Proc>,
    pub order: Items<bool>,
    pub end: Place,
}

/// A static with its initial value, which is no call of a procedure, and the place of its keyword.
#[derive(Debug, Drop)]
pub struct Static {
    pub place: Place,
    pub sort: Sort,
    pub name: Word,
    pub value: Rhs,
}

/// A procedure: `place` is that of its first token, and `end` is the place of its closing brace.
#[derive(Debug, Drop)]
pub struct Proc {
    pub place: Place,
    pub result: Sort,
    pub name: Word,
    pub params: Items<Param>,
    pub body: Items<Stmt>,
    pub end: Place,
}

/// A `return` with its place. The value is a name or a literal.
#[derive(Debug, Drop)]
pub struct Return {
    pub place: Place,
    pub value: Option<Word>,
}

/// A statement. Its first token is where its name, its call or its construction begins, or its own place tells it.
#[derive(Debug, Drop)]
pub enum Stmt {
    /// A local's type and name, and its value if one is written, with the place of the type.
    Declare(Place, Sort, Word, Option<Rhs>),
    Assign(Word, Rhs),
    /// A call or a construction whose result is not used.
    Do(Rhs),
    /// The place of the `if`, the test, what is done where it is true and where not, and whether `else` is written.
    /// Without it nothing is done where the test is false.
    If(Place, Test, Items<Stmt>, Items<Stmt>, bool),
    /// The place of the `while`, the test, and what is done as long as it is true.
    While(Place, Test, Items<Stmt>),
    /// The innermost `while` is left, with the place of the keyword.
    Break(Place),
    /// The innermost `while` asks again, with the place of the keyword.
    Continue(Place),
    Return(Return),
}

/// What an `if` or a `while` asks.
#[derive(Debug, Drop)]
pub enum Test {
    /// `?`, which may be true or false, with its place.
    Free(Place),
    Call(Component),
}

/// What can be assigned.
#[derive(Debug, Drop)]
pub enum Rhs {
    /// A name, or a literal as it was read.
    Copy(Word),
    New(New),
    Component(Component),
    Call(Call),
}

/// A construction, with the place of its `new`. The arguments are names and literals.
#[derive(Debug, Drop)]
pub struct New {
    pub place: Place,
    pub class: Word,
    pub args: Items<Word>,
}

/// A call of a component's method. The arguments are names and literals.
#[derive(Debug, Drop)]
pub struct Component {
    pub receiver: Word,
    pub method: Word,
    pub args: Items<Word>,
}

/// A call of a procedure. The arguments are names and literals.
#[derive(Debug, Drop)]
pub struct Call {
    pub procedure: Word,
    pub args: Items<Word>,
}
