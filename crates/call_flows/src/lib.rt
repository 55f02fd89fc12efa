//! What follows over a procedure call, into the procedure and back behind the call, under some choice of names for its hidden slots.
#![tactic(auto)]

mod back;
mod entry;
mod found;
mod gift;
mod given;
mod lists;
mod name;
mod need;
mod over;
mod search;
mod site;

pub use over::{entered, returned};
