//! Why a text does not become a tree.
ghost use Rattle.std.specs.Prelude.{◌≡◌};
ghost use Rattle.cv_read.specs.{placed};
ghost use Rattle.cv_read.specs.Faults as faults;
ghost use Rattle.cv_read.specs.declared.fault.ReadFault.TheVariants.{Memory};

use cv_lex::{TextFault, Which};
use easl_model::{Place, Tokens};
use std::alloc::AllocError;

/// Why a reader gave nothing.
#[derive(Clone, Copy, Debug, PartialEq, Eq)]
pub enum ReadFault {
    /// The bracket at the place where so many tokens are left is one too many that stand unclosed.
    Nesting(usize),
    /// No text of the language goes on with the token at the place where so many are left, or ends there.
    Syntax(usize),
    /// Memory was wanted and not found.
    Memory,
}

impl From<AllocError> for ReadFault {
    ghost use Rattle.std.specs.Prelude.{◌≡◌};

    ghost from_gives = { λ _ e. e ≡ Memory };

    fn from(_: AllocError) -> ReadFault {
        ReadFault::Memory
    }
}

impl ReadFault {
    /// The fault of the text that has these tokens.
    pub fn of_text(self, tokens: &Tokens) -> TextFault
        ensures { result ≡ placed tokens.now self }
    {
        match self {
            ReadFault::Nesting(left) => {
                TextFault::Limit(Which::Nesting, place_where(tokens, left))
            }
            ReadFault::Syntax(left) => TextFault::Syntax(place_where(tokens, left)),
            ReadFault::Memory => TextFault::Memory,
        }
    }
}

/// The place of the token where so many tokens are left, or of the text's end.
fn place_where(tokens: &Tokens, left: usize) -> Place
    ensures { result ≡ faults.place_where tokens.now left }
{
    let list = tokens.list.as_slice();
    match list.get(list.len().saturating_sub(left)) {
        Some(token) => token.place,
        None => tokens.end,
    }
}
