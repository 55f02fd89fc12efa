//! The laws that tie runs and paths: a run of a client fails exactly where a path breaks a clause.
#![tactic(auto)]

mod laws;

pub use laws::runs_are_breaks;
