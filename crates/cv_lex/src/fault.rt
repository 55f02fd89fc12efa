//! Why a text does not become tokens.
ghost use Rattle.std.specs.Prelude.{◌≡◌};

use easl_model::{Place, Which};
use std::alloc::AllocError;
use thiserror::Error;

/// Why a text is not taken.
#[derive(Clone, Copy, Debug, Drop, PartialEq, Eq, Error)]
pub enum TextFault {
    /// The bytes are no UTF-8: the longest front that is UTF-8 ends at this place.
    #[error("not UTF-8 at {}:{}", .0.line, .0.col)]
    NotUtf8(Place),
    /// What stands before this place is cut into gaps and tokens, and neither begins here.
    #[error("no token at {}:{}", .0.line, .0.col)]
    BadToken(Place),
    /// The tokens before this place begin a text of the grammar, and with the next one they begin none.
    #[error("not expected at {}:{}", .0.line, .0.col)]
    Syntax(Place),
    /// What begins at this place is more than the limit allows.
    #[error("over the limit {:?} at {}:{}", .0, .1.line, .1.col)]
    Limit(Which, Place),
    /// No memory was found.
    #[error("out of memory")]
    Memory,
}

impl From<AllocError> for TextFault {
    ghost use Rattle.cv_lex.specs.declared.fault.TextFault.{TextFault};

    ghost from_gives = { λ _ fault. fault ≡ TextFault.Memory };

    fn from(_error: AllocError) -> TextFault {
        TextFault::Memory
    }
}
