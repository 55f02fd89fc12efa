//! What a client program is made of: the tree that its text spells, the grammar, the rules of clients as definitions that compute,
//! laws on them, and the checked form with numbers for names.
#![tactic(auto)]

mod checked;
mod form;
mod laws;
mod tree;

pub use checked::CheckedClient;
pub use form::{CallSite, Node, Point, Procedure};
pub use laws::{
    codes_tell_names, first_is_least, points_are_numbered, reads_are_set, sets_are_by_number,
    steps_keep_names,
};
pub use tree::{Call, Client, Component, New, Proc, Return, Rhs, Static, Stmt, Test};
