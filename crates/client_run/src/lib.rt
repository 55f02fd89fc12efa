//! Runs of checked clients on the Easl heap, from point to point.
#![tactic(auto)]

mod frames;
mod laws;
mod program;
mod runner;
mod state;
mod straight;

pub use laws::{bodies_stay_inside, frames_keep_lengths, points_are_trees};
pub use runner::{Outcome, RunFault, run};
pub use straight::{Failure, is_straight, run_straight};
