//! Answers that were given on a branch of a tree.
use access_paths::Term;

/// Whether two terms lead to one object, the lesser first.
#[derive(Debug, Drop)]
pub struct Answer {
    pub less: Term,
    pub more: Term,
    pub same: bool,
}
