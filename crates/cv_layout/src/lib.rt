//! The canonical layout of texts, and a page that tokens are put on.
#![tactic(auto)]

mod laws;
mod page;

pub use laws::lines_are_cut;
pub use page::{Before, Page, Text};
