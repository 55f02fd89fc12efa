//! The trees of questions: when a cube is true after a body, and when a clause is false (weakest preconditions).
#![tactic(auto)]

mod body;
mod branch;
mod condition;
mod field;
mod grow;
mod question;
mod splits;
mod stop;

pub use splits::{split, split_clause};
