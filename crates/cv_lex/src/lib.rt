//! Cuts a text into its tokens.
#![tactic(auto)]

mod comment;
mod fault;
mod piece;
mod quoted;
mod scan;
mod spot;

pub use easl_model::Which;
pub use fault::TextFault;
pub use scan::{one_answer, one_list_of_tokens, tokens};
