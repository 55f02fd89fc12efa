//! Where a quoted text ends.
ghost use Rattle.std.specs.Prelude.{◌≡◌, ◌↔◌, Some, slice_get, IsTrue};
ghost use Rattle.cv_lex.specs.Reading.{escape_size, unit_size, FindsQuoted};

/// How many characters of a quoted text stand behind its first quote, with the last one, or None where none ends it.
pub fn quoted_length(characters: &[char]) -> Option<usize>
    ensures { FindsQuoted characters.now result }
{
    let mut at = 0;
    'each: while let Some(size) = unit_size(&characters[at..]) {
        at += size;
    }
    if is_at(characters, at, '"') {
        Some(at + 1)
    } else {
        None
    }
}

/// How many characters make the next one inside the quotes, or None where only a quote could go on.
fn unit_size(characters: &[char]) -> Option<usize>
    ensures { result ≡ unit_size characters.now }
{
    match *characters.first()? {
        '"' | '\n' => None,
        '\\' => escape_size(&characters[1..]),
        _ => Some(1),
    }
}

/// How many characters an escape has, of which these stand behind its backslash.
fn escape_size(characters: &[char]) -> Option<usize>
    ensures { result ≡ escape_size characters.now }
{
    match *characters.first()? {
        '\n' => None,
        _ => Some(2),
    }
}

pub fn is_at(characters: &[char], at: usize, character: char) -> bool
    ensures { IsTrue result ↔ (slice_get characters.now at ≡ Some character) }
{
    characters.get(at) == Some(&character)
}
