//! Predicates on references: terms, literals, cubes and families, and trees of questions on terms.
#![tactic(auto)]

mod cube;
mod family;
mod fitting;
mod laws;
mod permutations;
mod rename;
mod term;
mod tree;
mod truth;
mod twins;

pub use cube::cmp_cube;
pub use family::family_of;
pub use fitting::fits;
pub use laws::{
    cubes_are_ordered, family_is_one, family_keeps_truth, family_returns_cube, renaming_keeps_truth,
};
pub use rename::substitute;
pub use term::{Cube, Family, Fields, Instance, Literal, Term, Var};
pub use tree::{SplitFault, Tree};
pub use truth::cube_holds;
