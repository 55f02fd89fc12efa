//! Checks clients by the rules, and gives their checked form.
#![tactic(auto)]

mod check;
mod client_fault;

pub use check::check_client;
pub use client_fault::ClientFault;
