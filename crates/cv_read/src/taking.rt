//! Taking one token, where it is the one that must stand there.
ghost use Rattle.std.specs.Prelude.{◌≡◌, ◌≢◌, ◌+◌, ◌∷◌, ◌<◌, [], ◌&&◌, length, chars, string_bytes, MatchOption, IfOk, IfErr, IfSome, IsTrue, nat_le};
ghost use Rattle.easl_model.specs.{TokensAreWritten, bytes_of, is_literal, word_of};
ghost use Rattle.cv_read.specs.{Finds, FindsRest, FirstIs, Gives, GivesRest, begins, is_key, is_mark, is_name, key_at, literal_at, mark_at, mark_place_at};
ghost use Rattle.cv_read.specs.{name_at, place_of};
ghost use Rattle.cv_read.specs.declared.fault.ReadFault.TheVariants.{Memory};

use crate::fault::ReadFault;
use easl_model::{Key, Kind, Mark, Name, Place, Token, Word};
use std::alloc::{AllocError, Global};

/// The text that the tokens were cut from, and where the tree's memory comes from.
#[derive(Clone, Copy)]
pub struct Source<'a> {
    pub alloc: Global,
    pub text: &'a str,
}

/// The first token, and those after it.
pub fn next(tokens: &[Token]) -> Option<(Token, &[Token])>
    ensures { MatchOption result (tokens.now ≡ []) (λ x. tokens.now ≡ x.0 ∷ x.1.now) }
{
    match tokens.split_first() {
        Some((first, rest)) => Some((*first, rest)),
        None => None,
    }
}

/// The kind of the first token, and the tokens after it.
pub fn front(tokens: &[Token]) -> Option<(Kind, &[Token])>
    ensures kind { MatchOption result (tokens.now ≡ []) (λ x. FirstIs x.0 x.1.now tokens.now) }
    ensures shorter { IfSome result (λ x. length tokens.now ≡ length x.1.now + 1) }
{
    match next(tokens) {
        Some((token, rest)) => Some((token.kind, rest)),
        None => None,
    }
}

/// Whether a name stands first.
pub fn begins_name(tokens: &[Token]) -> bool
    ensures { result ≡ begins is_name tokens.now }
{
    match next(tokens) {
        Some((token, _)) => is_name(token.kind),
        None => false,
    }
}

/// Whether a literal stands first.
pub fn begins_literal(tokens: &[Token]) -> bool
    ensures { result ≡ begins is_literal tokens.now }
{
    match next(tokens) {
        Some((token, _)) => is_literal(token.kind),
        None => false,
    }
}

/// Whether this mark stands first.
pub fn begins_mark(wanted: Mark, tokens: &[Token]) -> bool
    ensures { result ≡ begins (is_mark wanted) tokens.now }
{
    match next(tokens) {
        Some((token, _)) => is_mark(wanted, token.kind),
        None => false,
    }
}

/// Whether this keyword stands first.
pub fn begins_key(wanted: Key, tokens: &[Token]) -> bool
    ensures { result ≡ begins (is_key wanted) tokens.now }
{
    match next(tokens) {
        Some((token, _)) => is_key(wanted, token.kind),
        None => false,
    }
}

/// The tokens after this mark, if it is the first.
pub fn after_mark(wanted: Mark, tokens: &[Token]) -> Option<&[Token]>
    ensures finds { FindsRest (is_mark wanted) tokens.now result }
    ensures shorter { IfSome result (λ x. length x.now < length tokens.now) }
{
    match next(tokens) {
        Some((token, rest)) if is_mark(wanted, token.kind) => Some(rest),
        _ => None,
    }
}

/// The tokens after this keyword, if it is the first.
pub fn after_key(wanted: Key, tokens: &[Token]) -> Option<&[Token]>
    ensures finds { FindsRest (is_key wanted) tokens.now result }
    ensures shorter { IfSome result (λ x. length x.now < length tokens.now) }
{
    match next(tokens) {
        Some((token, rest)) if is_key(wanted, token.kind) => Some(rest),
        _ => None,
    }
}

/// The place of this keyword and the tokens after it, if it is the first.
pub fn placed_key(wanted: Key, tokens: &[Token]) -> Option<(Place, &[Token])>
    ensures finds { Finds (is_key wanted) place_of tokens.now result }
    ensures shorter { IfSome result (λ x. length x.1.now < length tokens.now) }
{
    match next(tokens) {
        Some((token, rest)) if is_key(wanted, token.kind) => Some((token.place, rest)),
        _ => None,
    }
}

/// The tokens after this mark.
pub fn mark(wanted: Mark, tokens: &[Token]) -> Result<&[Token], ReadFault>
    ensures reads { GivesRest result (mark_at wanted tokens.now) }
    ensures memory { IfErr result (λ e. e ≢ Memory) }
    ensures shorter { IfOk result (λ x. length x.now < length tokens.now) }
{
    match next(tokens) {
        Some((token, rest)) if is_mark(wanted, token.kind) => Ok(rest),
        _ => Err(ReadFault::Syntax(tokens.len())),
    }
}

/// The place of this mark, and the tokens after it.
pub fn placed_mark(wanted: Mark, tokens: &[Token]) -> Result<(Place, &[Token]), ReadFault>
    ensures reads { Gives result (mark_place_at wanted tokens.now) }
    ensures memory { IfErr result (λ e. e ≢ Memory) }
    ensures shorter { IfOk result (λ x. length x.1.now < length tokens.now) }
{
    match next(tokens) {
        Some((token, rest)) if is_mark(wanted, token.kind) => Ok((token.place, rest)),
        _ => Err(ReadFault::Syntax(tokens.len())),
    }
}

/// The tokens after this keyword.
pub fn key(wanted: Key, tokens: &[Token]) -> Result<&[Token], ReadFault>
    ensures reads { GivesRest result (key_at wanted tokens.now) }
    ensures memory { IfErr result (λ e. e ≢ Memory) }
    ensures shorter { IfOk result (λ x. length x.now < length tokens.now) }
{
    match next(tokens) {
        Some((token, rest)) if is_key(wanted, token.kind) => Ok(rest),
        _ => Err(ReadFault::Syntax(tokens.len())),
    }
}

/// A name, and the tokens after it.
pub fn name<'a>(source: Source<'_>, tokens: &'a [Token]) -> Result<(Word, &'a [Token]), ReadFault>
    ensures reads { Gives result (name_at source.entry.text.now tokens.now) }
    ensures shorter { IfOk result (λ x. length x.1.now < length tokens.now) }
{
    match next(tokens) {
        Some((token, rest)) if is_name(token.kind) => Ok((word(source, token)?, rest)),
        _ => Err(ReadFault::Syntax(tokens.len())),
    }
}

/// A literal, and the tokens after it.
pub fn literal<'a>(
    source: Source<'_>,
    tokens: &'a [Token],
) -> Result<(Word, &'a [Token]), ReadFault>
    ensures reads { Gives result (literal_at source.entry.text.now tokens.now) }
    ensures shorter { IfOk result (λ x. length x.1.now < length tokens.now) }
{
    match next(tokens) {
        Some((token, rest)) if is_literal(token.kind) => Ok((word(source, token)?, rest)),
        _ => Err(ReadFault::Syntax(tokens.len())),
    }
}

fn is_mark(wanted: Mark, kind: Kind) -> bool
    ensures { result ≡ is_mark wanted kind }
{
    match kind {
        Kind::Mark(found) => found == wanted,
        _ => false,
    }
}

fn is_key(wanted: Key, kind: Kind) -> bool
    ensures { result ≡ is_key wanted kind }
{
    match kind {
        Kind::Key(found) => found == wanted,
        _ => false,
    }
}

/// The word of each token of a text is what the token was cut from.
#[tactic(auto, using(easl_model::proofs::Written::tokens_are_written))]
pub fn words_of_tokens()
    ensures { TokensAreWritten }
{}

fn is_name(kind: Kind) -> bool
    ensures { result ≡ is_name kind }
{
    matches!(kind, Kind::Name)
}

/// Whether a token of this kind is a literal.
pub fn is_literal(kind: Kind) -> bool
    ensures { result ≡ is_literal kind }
{
    matches!(
        kind,
        Kind::Text | Kind::Number | Kind::Key(Key::True) | Kind::Key(Key::False)
    )
}

/// The token's word.
fn word(source: Source<'_>, token: Token) -> Result<Word, AllocError>
    ensures { IfOk result (λ x. x ≡ word_of source.entry.text.now token) }
{
    let name = Name(String::from_str(source.alloc, piece(source.text, token))?);
    Ok(Word {
        name,
        place: token.place,
    })
}

/// The token's part of the text, or nothing if the text may not be cut there.
fn piece(text: &str, token: Token) -> &str
    ensures { result.now ≡ bytes_of text.now token }
{
    let start = token.start as usize;
    let end = token.end as usize;
    if start <= end && text.is_char_boundary(start) && text.is_char_boundary(end) {
        &text[start..end]
    } else {
        ""
    }
}
