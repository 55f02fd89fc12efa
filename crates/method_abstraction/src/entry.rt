//! Questions on the methods of a specification, and the entries that answer them.
use access_paths::{Family, Var};
use cv_base::List;

/// A question on a method. Families are numbered from 0, clauses from 1.
#[derive(Clone, Copy, Debug, PartialEq, Eq)]
pub enum Question {
    /// When the clause is false.
    Clause {
        method: u32,
        clause: u32,
    },
    /// When the family is true after the method, where its variables at the positions whose bits are set in `results`
    /// stand for the result.
    Update {
        method: u32,
        results: u32,
        family: u32,
    },
}

/// What is true before a call: anything, or the family of this number with these variables for its own.
#[derive(Debug, Drop)]
pub enum Disjunct {
    Always,
    Of(u32, List<Var>),
}

/// A clause is false exactly where one of the disjuncts is true.
#[derive(Debug, Drop)]
pub struct ClauseFacts {
    pub method: u32,
    pub clause: u32,
    pub disjuncts: List<Disjunct>,
}

/// The family is true after the method exactly where one of the disjuncts is true before.
#[derive(Debug, Drop)]
pub struct Update {
    pub method: u32,
    pub results: u32,
    pub family: u32,
    pub disjuncts: List<Disjunct>,
}

/// Families in the order in which they were met, and an entry for each question in the order of asking.
#[derive(Debug, Drop)]
pub struct Abstraction {
    pub families: List<Family>,
    pub clauses: List<ClauseFacts>,
    pub updates: List<Update>,
}
