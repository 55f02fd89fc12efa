//! Reads Easl specifications: from bytes to the tree that they spell.
#![tactic(auto)]

mod bodies;
mod conditions;
mod limits;
mod members;
mod paths;
mod steps;
mod tally;
mod whole;

pub use whole::{one_answer, one_tree, read_spec};
