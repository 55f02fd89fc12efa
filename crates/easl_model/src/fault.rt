//! What a specification can break: rules and limits.
use crate::place::Place;

/// A rule that a specification can break, in the order of the rules' numbers from 1.
#[derive(Clone, Copy, Debug, PartialEq, Eq)]
pub enum Rule {
    /// Something is named a second time.
    Duplicate,
    /// A name stands for nothing.
    Unknown,
    /// A type is not the one that is wanted.
    Mismatch,
    /// A field is read, or `this` given away, before it is assigned.
    Unready,
    /// A constructor calls itself, directly or through others.
    ConstructorCycle,
    /// More statements are executed in place than the limit.
    TooLong,
}

/// A rule is broken at a place.
#[derive(Clone, Copy, Debug, PartialEq, Eq)]
pub struct Fault {
    pub rule: Rule,
    pub place: Place,
}

/// What a limit counts.
#[derive(Clone, Copy, Debug, PartialEq, Eq)]
pub enum Which {
    Nesting,
    Classes,
    Fields,
    Methods,
    Parameters,
    Clauses,
    Comparisons,
    Statements,
    Path,
    Conditionals,
}

/// What begins at a place is more than a limit allows.
#[derive(Clone, Copy, Debug, PartialEq, Eq)]
pub struct Excess {
    pub which: Which,
    pub place: Place,
}
