//! The points of a client's procedures and where they go on.
#![tactic(auto)]

mod tables;
mod walk;

pub use tables::Graph;
pub use walk::graph;
