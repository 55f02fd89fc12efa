//! What begins at the front of a text: a gap, or a token.
ghost use Rattle.std.specs.Prelude.{◌≡◌, ◌≤◌, [], ◌∷◌, ◌==◌, ◌&&◌, not, length, encode_utf8_all, IsTrue};
ghost use Rattle.std.specs.List.{prefix_len};
ghost use Rattle.std.specs.Char.{is_ascii_digit};
ghost use Rattle.unicode_ident.specs.Ident.{is_xid_continue};
ghost use Rattle.easl_model.specs.{begins_name, byte_len, is_white, key_text, mark_text, quote};
ghost use Rattle.cv_lex.specs.Reading.{slash, begins_other, BeginsWith, IsFront, FindsPiece, FindsWritten, FindsLong};

use crate::comment::comment;
use crate::quoted::quoted_length;
use crate::spot::byte_len;
use easl_model::{Key, Kind, Mark};
use unicode_ident::{is_xid_continue, is_xid_start};

/// A piece at the front of a text: the kind of its token, or None for a gap, and its length in characters.
#[derive(Clone, Copy, Debug, PartialEq, Eq)]
pub struct Piece {
    pub kind: Option<Kind>,
    pub length: usize,
}

/// The piece at the front of the characters, which have these bytes, or None where none begins.
pub fn first_piece(characters: &[char], bytes: &[u8]) -> Option<Piece>
    requires short { length bytes.now ≤ 67108864 }
    requires bytes { bytes.now ≡ encode_utf8_all characters.now }
    ensures { FindsPiece characters.now result }
{
    match *characters.first()? {
        ' ' | '\t' | '\r' | '\n' => Some(white(characters)),
        '/' => comment(characters),
        '0'..='9' => Some(number(characters)),
        '"' => quoted(characters),
        _ => word_or_mark(characters, bytes),
    }
}

#[tactic(auto, using(crate::proofs::Fronts::white_front))]
fn white(characters: &[char]) -> Piece
    requires { BeginsWith is_white characters.now }
    ensures { IsFront characters.now result }
{
    Piece {
        kind: None,
        length: 1,
    }
}

fn token(kind: Kind, length: usize) -> Piece
    ensures { result ≡ record { kind = Some kind; length = length } }
{
    Piece {
        kind: Some(kind),
        length,
    }
}

fn word_or_mark(characters: &[char], bytes: &[u8]) -> Option<Piece>
    requires short { length bytes.now ≤ 67108864 }
    requires bytes { bytes.now ≡ encode_utf8_all characters.now }
    requires other { BeginsWith begins_other characters.now }
    ensures { FindsPiece characters.now result }
{
    if begins_word(characters[0]) {
        Some(word(characters, bytes))
    } else {
        mark(characters)
    }
}

fn begins_word(character: char) -> bool
    ensures { result ≡ begins_name character }
{
    is_xid_start(character) | (character == '_')
}

/// The name or the keyword at the front.
#[tactic(auto, using(crate::proofs::Words::key_front, crate::proofs::Words::name_front, crate::proofs::Fronts::length_fits))]
fn word(characters: &[char], bytes: &[u8]) -> Piece
    requires short { length bytes.now ≤ 67108864 }
    requires bytes { bytes.now ≡ encode_utf8_all characters.now }
    requires word { BeginsWith begins_name characters.now }
    ensures { IsFront characters.now result }
{
    let length = 1 + word_length(&characters[1..]);
    match key(&bytes[..byte_len(&characters[..length])]) {
        Some(key) => token(Kind::Key(key), length),
        None => token(Kind::Name, length),
    }
}

/// How many characters at the front continue a word.
fn word_length(characters: &[char]) -> usize
    ensures { result ≡ prefix_len is_xid_continue characters.now }
{
    characters
        .iter()
        .take_while(|character| is_xid_continue(**character))
        .count()
}

/// The keyword that the word is.
fn key(word: &[u8]) -> Option<Key>
    ensures { FindsWritten key_text word.now result }
{
    match word {
        b"class" => Some(Key::Class),
        b"requires" => Some(Key::Requires),
        b"new" => Some(Key::New),
        b"this" => Some(Key::This),
        b"return" => Some(Key::Return),
        b"void" => Some(Key::Void),
        b"Object" => Some(Key::Object),
        b"int" => Some(Key::Int),
        b"boolean" => Some(Key::Boolean),
        b"String" => Some(Key::String),
        b"true" => Some(Key::True),
        b"false" => Some(Key::False),
        b"null" => Some(Key::Null),
        b"static" => Some(Key::Static),
        b"if" => Some(Key::If),
        b"else" => Some(Key::Else),
        b"while" => Some(Key::While),
        b"break" => Some(Key::Break),
        b"continue" => Some(Key::Continue),
        _ => None,
    }
}

/// The number at the front.
#[tactic(auto, using(crate::proofs::Fronts::number_front, crate::proofs::Fronts::length_fits))]
fn number(characters: &[char]) -> Piece
    requires { BeginsWith is_ascii_digit characters.now }
    ensures { IsFront characters.now result }
{
    token(Kind::Number, 1 + number_length(&characters[1..]))
}

/// How many characters at the front are digits.
fn number_length(characters: &[char]) -> usize
    ensures { result ≡ prefix_len is_ascii_digit characters.now }
{
    characters
        .iter()
        .take_while(|character| character.is_ascii_digit())
        .count()
}

/// The quoted text at the front.
#[tactic(auto, using(crate::proofs::Quotes::quoted_front, crate::proofs::Quotes::no_quoted))]
fn quoted(characters: &[char]) -> Option<Piece>
    requires { BeginsWith (λ c. c == quote) characters.now }
    ensures { FindsPiece characters.now result }
{
    match quoted_length(&characters[1..]) {
        Some(length) => Some(token(Kind::Text, 1 + length)),
        None => None,
    }
}

/// The mark at the front, of two characters where there is one.
#[tactic(auto, using(crate::proofs::Fronts::long_front, crate::proofs::Fronts::short_front, crate::proofs::Fronts::no_mark))]
fn mark(characters: &[char]) -> Option<Piece>
    requires other { BeginsWith begins_other characters.now }
    requires no_word { BeginsWith (λ c. not (begins_name c)) characters.now }
    ensures { FindsPiece characters.now result }
{
    match long_mark(characters) {
        Some(mark) => Some(token(Kind::Mark(mark), 2)),
        None => match short_mark(characters[0]) {
            Some(mark) => Some(token(Kind::Mark(mark), 1)),
            None => None,
        },
    }
}

fn long_mark(characters: &[char]) -> Option<Mark>
    ensures { FindsLong characters.now result }
{
    mark_pair(*characters.first()?, *characters.get(1)?)
}

fn mark_pair(first: char, second: char) -> Option<Mark>
    ensures { FindsWritten mark_text (first ∷ second ∷ []) result }
{
    match (first, second) {
        ('=', '=') => Some(Mark::Same),
        ('!', '=') => Some(Mark::Differ),
        ('&', '&') => Some(Mark::And),
        ('|', '|') => Some(Mark::Or),
        _ => None,
    }
}

fn short_mark(first: char) -> Option<Mark>
    ensures { FindsWritten mark_text (first ∷ []) result }
{
    match first {
        '{' => Some(Mark::Begin),
        '}' => Some(Mark::End),
        '(' => Some(Mark::Open),
        ')' => Some(Mark::Close),
        ';' => Some(Mark::Semicolon),
        ',' => Some(Mark::Comma),
        '.' => Some(Mark::Dot),
        '=' => Some(Mark::Assign),
        '?' => Some(Mark::Choice),
        _ => None,
    }
}
