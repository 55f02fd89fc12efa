//! A client as facts that follow from one another over its steps and procedure calls.
#![tactic(auto)]

mod boolean_client;
mod clause_table;
mod counting;

pub use boolean_client::{BooleanClient, instantiate};
pub use counting::BigFault;
