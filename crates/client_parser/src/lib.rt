//! Reads client programs: from bytes to the tree that they spell.
#![tactic(auto)]

mod items;
mod limits;
mod statements;
mod values;
mod whole;

pub use whole::{one_answer, one_client, read_client};
