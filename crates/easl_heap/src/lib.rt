//! The heap of objects, and what requires clauses and bodies of a specification do on it.
#![tactic(auto)]

mod body;
mod clause;
mod heap;
mod object;
mod paths;

pub use body::Done;
pub use heap::Heap;
