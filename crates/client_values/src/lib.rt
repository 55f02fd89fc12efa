//! The rules of clients, asked of the words, values and calls of a statement: what names stand for, what values are, and the
//! first fault. What a name stands for is found by tables of names.
#![tactic(auto)]

mod arguments;
mod callee;
mod context;
mod fault;
mod headers;
mod kind;
mod names;
mod scope;
mod setting;
mod values;
mod words;

pub use callee::{constructor_called, method_called};
pub use context::{Assigned, Context, is_local, variable_named};
pub use fault::{Fault, Rule, note_if};
pub use headers::{Header, Headers};
pub use kind::{Kind, class_in, kind_of};
pub use names::{is_literal, is_main};
pub use scope::{Scope, Variable};
pub use setting::{Setting, variable_code};
pub use values::{
    faults_of_returned, faults_of_taken, faults_of_test, faults_of_value, no_type, place_of_value,
};
pub use words::{kind_of_word, no_variable};
