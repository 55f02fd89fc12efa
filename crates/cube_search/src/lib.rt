//! The widest of the cubes over rows of bits, and the choice among them.
#![tactic(auto)]

mod choosing;
mod row;
mod searching;
mod setting;

pub use choosing::{Choice, disjuncts};
pub use row::Row;
pub use searching::{Candidate, Cube, Task};
pub use setting::row_of;
