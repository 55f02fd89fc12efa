//! The care list of a question, and the choice of its disjuncts.
#![tactic(auto)]

mod blocks;
mod clauses;
mod cover;
mod fault;
mod pairs;
mod put;
mod table;
mod truths;

pub use clauses::care;
pub use cover::disjuncts;
pub use fault::CoverFault;
