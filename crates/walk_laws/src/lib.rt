//! The laws that tie walks, states and runs.
#![tactic(auto)]

mod laws;

pub use laws::{calls_are_exact, paths_are_exact, sound_fits, steps_are_exact, walks_are_exact};
