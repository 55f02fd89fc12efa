//! The comments at the front of a text.
ghost use Rattle.std.specs.Prelude.{◌≡◌, ◌==◌, Some, slice_get};
ghost use Rattle.std.specs.List.{prefix_len};
ghost use Rattle.cv_lex.specs.Reading.{slash, star, is_on_line, BeginsWith, IsFront, FindsPiece, FindsFirstEnd};

use crate::piece::Piece;
use crate::quoted::is_at;

/// The comment at the front: from `//` to before the end of its line, or from `/*` to the next `*/`.
#[tactic(auto, using(crate::proofs::Comments::no_comment))]
pub fn comment(characters: &[char]) -> Option<Piece>
    requires { BeginsWith (λ c. c == slash) characters.now }
    ensures { FindsPiece characters.now result }
{
    if is_at(characters, 1, '/') {
        Some(line_comment(characters))
    } else if is_at(characters, 1, '*') {
        block_comment(characters)
    } else {
        None
    }
}

#[tactic(auto, using(crate::proofs::Comments::line_front, crate::proofs::Comments::line_fits))]
fn line_comment(characters: &[char]) -> Piece
    requires first { BeginsWith (λ c. c == slash) characters.now }
    requires second { slice_get characters.now 1 ≡ Some slash }
    ensures { IsFront characters.now result }
{
    Piece {
        kind: None,
        length: 2 + line_length(&characters[2..]),
    }
}

/// How many characters at the front stand on the first line.
fn line_length(characters: &[char]) -> usize
    ensures { result ≡ prefix_len is_on_line characters.now }
{
    characters
        .iter()
        .take_while(|character| **character != '\n')
        .count()
}

#[tactic(auto, using(crate::proofs::Comments::block_front, crate::proofs::Comments::no_block, crate::proofs::Comments::block_fits))]
fn block_comment(characters: &[char]) -> Option<Piece>
    requires first { BeginsWith (λ c. c == slash) characters.now }
    requires second { slice_get characters.now 1 ≡ Some star }
    ensures { FindsPiece characters.now result }
{
    match first_end(&characters[2..]) {
        Some(inside) => Some(Piece {
            kind: None,
            length: inside + 4,
        }),
        None => None,
    }
}

/// How many characters stand before the first `*/`.
fn first_end(characters: &[char]) -> Option<usize>
    ensures { FindsFirstEnd characters.now result }
{
    for at in 0..characters.len() {
        if is_at(characters, at, '*') && is_at(characters, at + 1, '/') {
            return Some(at);
        }
    }
    None
}
