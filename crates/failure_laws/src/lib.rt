//! The laws that tie failing runs to facts of clauses that are true along paths, and to alarms.
#![tactic(auto)]

mod laws;

pub use laws::{alarms_fail, runs_are_paths};
