//! The derivation of families, clause facts and updates from a specification: all questions in the order of asking. After
//! Ramalingam, Warshavsky, Field, Goyal and Sagiv (PLDI 2002); the choice of disjuncts and all orders are own.
#![tactic(auto)]

mod ask;
mod cases;
mod chosen;
mod closure;
mod derive_fault;
mod entry;
mod laws;
mod meet;
mod put;
mod reply;

pub use ask::{ask_clause, ask_update};
pub use closure::derive;
pub use derive_fault::{DeriveFault, Reason};
pub use laws::{derivation_ends_once, replies_are_exact};
pub use reply::{AskFault, Predicate, Reply};
