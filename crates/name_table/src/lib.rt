//! A table of names in order, in which the first position of a name is found without a search from the front.
#![tactic(auto)]

mod firsts;
mod table;

pub use table::NameTable;
