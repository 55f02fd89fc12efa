//! Trees of questions, and why there is none.
use crate::term::Term;
use sqlite_items::Boxed;
use std::alloc::AllocError;

/// A tree of questions. The first branch is the one where the two terms lead to one object.
#[derive(Debug, Drop)]
pub enum Tree {
    Leaf(bool),
    Ask(Term, Term, Boxed<Tree>, Boxed<Tree>),
}

/// Why there is no tree: a term of 7 fields arises, or memory was wanted and not found.
#[derive(Clone, Copy, Debug, PartialEq, Eq)]
pub enum SplitFault {
    Path,
    Memory,
}

impl From<AllocError> for SplitFault {
    ghost use Rattle.std.specs.Prelude.{◌≡◌};
    ghost use Rattle.access_paths.specs.declared.tree.SplitFault.TheVariants as SplitFault;

    ghost from_gives = { λ _ fault. fault ≡ SplitFault.Memory };

    fn from(_: AllocError) -> SplitFault {
        SplitFault::Memory
    }
}
