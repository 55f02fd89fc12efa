//! What the readers of both languages have in common: they take tokens from the front of a list, and where
//! they stop they say how many tokens are left.
#![tactic(auto)]

mod brackets;
mod fault;
mod taking;
mod types;

pub use brackets::{MOST_OPEN, nesting};
pub use fault::ReadFault;
pub use taking::{
    Source, after_key, after_mark, begins_key, begins_literal, begins_mark, begins_name, front,
    is_literal, key, literal, mark, name, next, placed_key, placed_mark, words_of_tokens,
};
pub use types::{after_opaque, after_placed_opaque, is_type_start, opaque_sort, params, sort};
