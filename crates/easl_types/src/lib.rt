//! Checks specifications by the rules, and gives their checked form.
#![tactic(auto)]

mod check;
mod classes;
mod cycles;
mod form;
mod headers;
mod lengths;
mod methods;
mod no_memory;
mod spec_fault;

pub use check::{check_spec, first_fault_is_least};
pub use spec_fault::SpecFault;
