//! What the names of bodies stand for, what paths and values lead to, and the faults of a body.
#![tactic(auto)]

mod bodies;
mod context;
mod fault;
mod names;
mod paths;
mod values;

pub use bodies::{advance, faults_of_code, given_by};
pub use context::{copy_of, start_of, variable_named};
pub use fault::note_if;
pub use names::{
    class_named, class_of, constructor_among, field_count, field_named, members_of, names_agree,
};
pub use paths::{along, target_of, variable_target};
pub use values::no_class;
