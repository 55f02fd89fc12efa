//! Runs of whole clients by rules over their statement trees, as definitions, all of them this project's own, and laws on them.
#![tactic(auto)]

mod laws;

pub use laws::{fails_on_taken, more_keeps, runs_once};
