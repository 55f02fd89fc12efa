//! Facts of a client's procedures, where they are true, and what they follow from over steps and calls. Hidden slots are own.
#![tactic(auto)]

mod counts;
mod fact;
mod fact_set;
mod names;
mod setting;
mod standing;

pub use counts::count_facts;
pub use fact::{Args, Fact};
pub use fact_set::FactSet;
pub use names::Names;
pub use setting::Setting;
pub use standing::{is_fact, may_stand};
