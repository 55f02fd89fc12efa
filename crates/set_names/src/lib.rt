//! Which names of a procedure are surely assigned at each of its points, kept as spans of points.
#![tactic(auto)]

mod exit;
mod names_so_far;
mod set_names;
mod set_so_far;
mod spans;

pub use names_so_far::NamesSoFar;
pub use set_names::SetNames;
pub use set_so_far::SetSoFar;
pub use spans::{Span, Spans};
