//! Where the reading stands in a text.
ghost use Rattle.std.specs.Prelude.{◌≡◌, ◌+◌, ◌^◌, ◌<◌, ◌≤◌, List, ℕ, [], ◌∷◌, ◌++◌, length, take};
ghost use Rattle.easl_model.specs.{byte_len, place_after};

use easl_model::Place;

/// The place of the first character of a text.
pub const START: Place = Place { line: 1, col: 1 };

/// The next character, its first byte, and its place.
#[derive(Clone, Copy, Debug, PartialEq, Eq)]
pub struct Spot {
    pub at: usize,
    pub offset: usize,
    pub place: Place,
}

/// The spot behind the first `size` characters of the rest, which begins at the spot.
#[tactic(auto, using(crate::proofs::Bytes::front_short, crate::proofs::Bytes::front_length))]
pub fn behind(rest: &[char], size: usize, spot: Spot) -> Spot
    requires size { size ≤ length rest.now }
    requires short { spot.offset + byte_len rest.now ≤ 67108864 }
    requires at { spot.at ≤ spot.offset }
    requires line { spot.place.line ≤ spot.at + 1 }
    requires col { spot.place.col ≤ spot.at + 1 }
    ensures at { result.at ≡ spot.at + size }
    ensures offset { result.offset ≡ spot.offset + byte_len (take size rest.now) }
    ensures place { (before : List ℕ) → spot.place ≡ place_after before
        → result.place ≡ place_after (before ++ take size rest.now) }
{
    let characters = &rest[..size];
    Spot {
        at: spot.at + size,
        offset: spot.offset + byte_len(characters),
        place: place_behind(characters, spot.place),
    }
}

/// How many bytes the characters have.
#[tactic(auto, using(crate::proofs::Bytes::front_short, crate::proofs::Bytes::one_more))]
pub fn byte_len(characters: &[char]) -> usize
    requires { byte_len characters.now ≤ 67108864 }
    ensures { result ≡ byte_len characters.now }
{
    let mut size = 0;
    for character in characters {
        size += character.len_utf8();
    }
    size
}

/// The place behind the characters, the first of which stands at the place.
pub fn place_behind(characters: &[char], place: Place) -> Place
    requires line { place.line + length characters.now < 2 ^ 32 }
    requires col { place.col + length characters.now < 2 ^ 32 }
    ensures { (before : List ℕ) → place ≡ place_after before
        → result ≡ place_after (before ++ characters.now) }
{
    let mut place = place;
    for character in characters {
        place = next_place(*character, place);
    }
    place
}

#[tactic(auto, using(easl_model::proofs::Places::place_line_end, easl_model::proofs::Places::place_other))]
fn next_place(character: char, place: Place) -> Place
    requires line { place.line + 1 < 2 ^ 32 }
    requires col { place.col + 1 < 2 ^ 32 }
    ensures line { result.line ≤ place.line + 1 }
    ensures col { result.col ≤ place.col + 1 }
    ensures place { (before : List ℕ) → place ≡ place_after before
        → result ≡ place_after (before ++ character ∷ []) }
{
    if character == '\n' {
        Place {
            line: place.line + 1,
            col: 1,
        }
    } else {
        Place {
            line: place.line,
            col: place.col + 1,
        }
    }
}
