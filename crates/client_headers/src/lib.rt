//! The first and the last pass over a client: the faults of its headers, and whether there is a `main`. Names stand in tables,
//! so that many headers are soon checked.
#![tactic(auto)]

mod headers;
mod items;
mod main_procedure;
mod seconds;

pub use headers::first_header_fault;
pub use items::procedures_of;
pub use main_procedure::no_main_fault;
