//! The configurations of a question's terms.
#![tactic(auto)]

mod asking;
mod case;
mod classes;
mod clauses;
mod fitting;
mod gathering;
mod listing;
mod rows;
mod steps;

pub use asking::terms;
pub use case::{Cases, CasesFault, Terms};
pub use listing::configurations;
pub use rows::Rows;
