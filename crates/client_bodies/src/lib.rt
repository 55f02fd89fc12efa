//! The rules of clients, asked of the bodies of a client: what stands before and behind its statements, and the first fault.
//! One context goes through all statements of a body. Behind a block it takes away what the block added to it.
#![tactic(auto)]

mod behind;
mod blocks;
mod bodies;
mod starts;
mod statements;
mod steps;
mod tables;
mod walk;

pub use bodies::first_in_bodies;
