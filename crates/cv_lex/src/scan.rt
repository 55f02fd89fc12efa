//! Reads a text from its front to its end.
ghost use Rattle.std.specs.Prelude.{◌≡◌, ◌+◌, ◌^◌, ◌<◌, ◌≤◌, ◌++◌, length, take, drop, chars, encode_utf8_all, IsUtf8, IfOk, IfErr, OnOk, All};
ghost use Rattle.easl_model.specs.{IsPart, OneListOfTokens, place_after};
ghost use Rattle.cv_lex.specs.Form.{Answers, OneAnswer};
ghost use Rattle.cv_lex.specs.Reading.{IsSpot, token_from, Grows, RefusesStep, CutAnswers, RefusesBytes};

use crate::fault::TextFault;
use crate::piece::first_piece;
use crate::spot::{START, Spot, behind, place_behind};
use easl_model::{Kind, Place, Token, Tokens};
use sqlite_items::Items;
use std::alloc::{AllocError, Global};
use std::str;

/// The tokens of the text, and the place of its end.
///
/// NotUtf8 comes where the bytes are no UTF-8, else BadToken where at some place neither a token nor a gap begins, as
/// at a quoted text or a comment that nothing ends. Memory comes where none is found.
#[tactic(auto, using(crate::proofs::Along::answers, crate::proofs::Along::answers_parts, crate::proofs::Along::answers_bytes, crate::proofs::Along::no_bytes))]
pub fn tokens(alloc: Global, text: &[u8]) -> Result<Tokens, TextFault>
    requires { length text.now ≤ 67108864 }
    ensures answer { Answers text.now result }
    ensures parts { IfOk result (λ x. All (IsPart text.now) x.list) }
{
    let characters = decoded(alloc, text)?;
    cut(alloc, &characters, text)
}

/// A text has at most one list of tokens.
#[tactic(auto, using(easl_model::proofs::Cuts::one_list))]
pub fn one_list_of_tokens()
    ensures { OneListOfTokens }
{}

/// A text has one answer, want of memory aside.
#[tactic(auto, using(crate::proofs::Single::one_answer))]
pub fn one_answer()
    ensures { OneAnswer }
{}

/// The characters of the text.
fn decoded(alloc: Global, text: &[u8]) -> Result<Vec<char>, TextFault>
    requires { length text.now ≤ 67108864 }
    ensures text { IfOk result (λ v. IsUtf8 text.now × (v.items ≡ chars text.now)) }
    ensures refused { IfErr result (RefusesBytes text.now) }
{
    match str::from_utf8(text) {
        Ok(text) => Ok(characters_of(alloc, text)?),
        Err(fault) => {
            let end = end_place(alloc, &text[..fault.valid_up_to()])?;
            Err(TextFault::NotUtf8(end))
        }
    }
}

/// The place of the end of the text.
fn end_place(alloc: Global, text: &[u8]) -> Result<Place, AllocError>
    requires short { length text.now ≤ 67108864 }
    requires utf8 { IsUtf8 text.now }
    ensures { IfOk result (λ p. p ≡ place_after (chars text.now)) }
{
    let characters = characters_of(alloc, as_text(text))?;
    Ok(place_behind(&characters, START))
}

/// The text with these bytes.
fn as_text(bytes: &[u8]) -> &str
    requires { IsUtf8 bytes.now }
    ensures { result.now ≡ bytes.now }
{
    match str::from_utf8(bytes) {
        Ok(text) => text,
        Err(_) => "",
    }
}

fn characters_of(alloc: Global, text: &str) -> Result<Vec<char>, AllocError>
    ensures { IfOk result (λ v. v.items ≡ chars text.now) }
{
    text.chars().collect(alloc)
}

/// The tokens of the characters, which have these bytes.
fn cut(alloc: Global, characters: &[char], bytes: &[u8]) -> Result<Tokens, TextFault>
    requires short { length bytes.now ≤ 67108864 }
    requires bytes { bytes.now ≡ encode_utf8_all characters.now }
    ensures { CutAnswers characters.now result }
{
    let mut list = Items::new(alloc);
    let mut spot = Spot {
        at: 0,
        offset: 0,
        place: START,
    };
    while spot.at < characters.len() {
        spot = step(characters, bytes, spot, &mut list)?;
    }
    Ok(Tokens {
        list,
        end: spot.place,
    })
}

/// Reads the piece at the spot, adds it to the list if it is a token, and gives the spot behind it.
fn step(
    characters: &[char],
    bytes: &[u8],
    spot: Spot,
    list: &mut Items<Token>,
) -> Result<Spot, TextFault>
    requires short { length bytes.now ≤ 67108864 }
    requires bytes { bytes.now ≡ encode_utf8_all characters.now }
    requires spot { IsSpot characters.now spot }
    requires more { spot.at < length characters.now }
    ensures later { IfOk result (λ next. spot.at < next.at) }
    ensures spot { IfOk result (IsSpot characters.now) }
    ensures found { IfOk result (λ next. Grows characters.now spot.at next.at list.old list.new) }
    ensures refused { IfErr result (λ e. RefusesStep e (drop spot.at characters.now) spot.place) }
{
    let rest = &characters[spot.at..];
    let Some(piece) = first_piece(rest, &bytes[spot.offset..]) else {
        return Err(TextFault::BadToken(spot.place));
    };
    let next = behind(rest, piece.length, spot);
    keep(list, piece.kind, spot, next.offset)?;
    Ok(next)
}

/// Adds the token from the spot to before the end, if the piece is one.
fn keep(
    list: &mut Items<Token>,
    kind: Option<Kind>,
    spot: Spot,
    end: usize,
) -> Result<(), AllocError>
    requires start { spot.offset < 2 ^ 32 }
    requires end { end < 2 ^ 32 }
    ensures { OnOk result (list.new ≡ list.old ++ token_from kind spot end) }
{
    match kind {
        None => Ok(()),
        Some(kind) => list.push(Token {
            kind,
            start: spot.offset as u32,
            end: end as u32,
            place: spot.place,
        }),
    }
}
