//! Prints specifications in the canonical layout, and what clients are printed with alike.
#![tactic(auto)]

mod braces;
mod conditions;
mod laws;
mod lists;
mod members;
mod paths;
mod steps;
mod types;

pub use braces::{begin, close, otherwise};
pub use laws::specs_are_read_again;
pub use lists::{OnLine, listed};
pub use members::print_spec;
pub use types::{params, sort};
