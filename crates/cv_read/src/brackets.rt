//! The brackets that stand open at a token.
ghost use Rattle.std.specs.Prelude.{◌≡◌, ◌≤◌};
ghost use Rattle.easl_model.specs.Brackets as brackets;
ghost use Rattle.cv_read.specs.{Nests};

use crate::fault::ReadFault;
use crate::taking::front;
use easl_model::{Kind, Mark, Token};

/// How many brackets may stand unclosed at once.
pub const MOST_OPEN: u32 = 64;

/// Finds the first bracket that stands unclosed beside 64 others, which is a fault of nesting.
#[tactic(auto, using(crate::proofs::Unclosed::begins, crate::proofs::Unclosed::goes_on, crate::proofs::Unclosed::ends, crate::proofs::Unclosed::too_many))]
pub fn nesting(tokens: &[Token]) -> Result<(), ReadFault>
    ensures { Nests tokens.now result }
{
    let mut level = 0;
    let mut rest = tokens;
    'each: while let Some((kind, after)) = front(rest) {
        level = turned(level, kind);
        if level > MOST_OPEN {
            return Err(ReadFault::Nesting(rest.len()));
        }
        rest = after;
    }
    Ok(())
}

/// How many brackets stand unclosed after a token of this kind.
fn turned(level: u32, kind: Kind) -> u32
    requires { level ≤ MOST_OPEN }
    ensures { result ≡ brackets.turned level kind }
{
    match kind {
        Kind::Mark(Mark::Open | Mark::Begin) => level + 1,
        Kind::Mark(Mark::Close | Mark::End) => level.saturating_sub(1),
        _ => level,
    }
}
