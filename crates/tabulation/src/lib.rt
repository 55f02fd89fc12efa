//! The least list of edges of a boolean client, in the order in which they are found. After Reps, Horwitz and Sagiv (POPL 1995).
#![tactic(auto)]

mod following;
mod index;
mod places;
mod returning;
mod solution;
mod solving;
mod successors;
mod table;

pub use solution::Solution;
pub use solving::solve;
