//! The closure of a list under rules, proved once for everything that is iterated to the end.
//!
//! `close` begins with the starts, and asks of each item in turn what follows from it and the items
//! before it, until nothing new comes.
#![tactic(auto)]

mod closure;
mod known;
mod laws;
mod rules;
mod steps;
mod tally;
mod twin;

pub use closure::{CloseFault, Closed, close};
pub use laws::{closure_is_least, last_is_steady};
pub use rules::{RuleStop, Rules};
pub use steps::Steps;
pub use twin::Twin;
