//! What a derivation gives: families of predicates, the facts that make clauses false, and how each method changes the
//! families. After Ramalingam, Warshavsky, Field, Goyal and Sagiv (PLDI 2002); the order of asking and the texts are own.
#![tactic(auto)]

mod asking;
mod entry;
mod laws;
mod print;
mod terms;

pub use asking::{clause_questions, update_questions};
pub use entry::{Abstraction, ClauseFacts, Disjunct, Question, Update};
pub use laws::{entries_are_exact, entries_are_one_each};
pub use print::print_abstraction;
