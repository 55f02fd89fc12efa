//! Prints clients in the canonical layout.
#![tactic(auto)]

mod items;
mod laws;
mod statements;
mod values;

pub use items::print_client;
pub use laws::clients_are_read_again;
