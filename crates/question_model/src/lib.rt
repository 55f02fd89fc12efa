//! Questions: whether a cube is true after a method's body, and whether a clause is false. They are executed on symbolic
//! values, and asked in trees.
#![tactic(auto)]

mod answer;
mod laws;
mod value;

pub use answer::Answer;
pub use laws::{asked_terms, clause_law, one_tree, update_law};
pub use value::{Value, Write};
