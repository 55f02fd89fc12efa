//! The laws that tie edges and walks. After Reps, Horwitz and Sagiv (POPL 1995).
#![tactic(auto)]

mod laws;

pub use laws::edges_are_walks;
