//! What an Easl text is made of: places, names, tokens, trees, and the checked form with numbers for names.
#![tactic(auto)]

mod checked;
mod fault;
mod form;
mod laws;
mod place;
mod scope;
mod token;
mod tree;

pub use checked::CheckedSpec;
pub use fault::{Excess, Fault, Rule, Which};
pub use form::{Act, ClassForm, Method, Reach, Source, Test};
pub use laws::{form_is_in_range, form_is_typed, form_nests};
pub use place::{Name, Place};
pub use scope::{Context, FieldAt, Target, Variable};
pub use token::{Key, Kind, Mark, Token, Tokens};
pub use tree::{
    Arg, Class, Code, Cond, Field, Member, New, Opaque, Param, Path, Requires, Return, Sort, Spec,
    Step, Value, Word,
};
