//! What follows from a fact over a step that is no procedure call, and the facts of clauses.
#![tactic(auto)]

mod clauses;
mod copies;
mod fronts;
mod lists;
mod made;
mod names;
mod next;
mod over;
mod positions;
mod put;
mod step;
mod vars;

pub use clauses::clause_facts;
pub use step::after;
