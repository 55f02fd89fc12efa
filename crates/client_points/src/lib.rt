//! The checked form of a client, written statement by statement: what is done at each point, which variables are declared,
//! which calls are made, and how statements stand in one another.
#![tactic(auto)]

mod forms;
mod points;
mod shape;
mod sites;
mod whole;
mod words;
mod written;

pub use forms::{classes_of, procedure_form, start_form, statics_form};
pub use points::{declared_by, point_of};
pub use shape::shape_of;
pub use sites::site_of;
pub use whole::{Bodies, Parts, parts_of};
pub use written::Written;
