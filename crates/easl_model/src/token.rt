//! Tokens of a text, their kinds, keywords and marks.
use crate::place::Place;
use sqlite_items::Items;

/// The tokens of a text in order, and the place of its end.
#[derive(Debug, Drop)]
pub struct Tokens {
    pub list: Items<Token>,
    pub end: Place,
}

/// A token: its kind, its bytes in the text from `start` to before `end`, and the place of its first character.
#[derive(Clone, Copy, Debug, PartialEq, Eq)]
pub struct Token {
    pub kind: Kind,
    pub start: u32,
    pub end: u32,
    pub place: Place,
}

#[derive(Clone, Copy, Debug, PartialEq, Eq)]
pub enum Kind {
    Name,
    Number,
    Text,
    Key(Key),
    Mark(Mark),
}

/// The keywords of both languages. All are reserved in both, also those that no rule uses yet.
#[derive(Clone, Copy, Debug, PartialEq, Eq)]
pub enum Key {
    Class,
    Requires,
    New,
    This,
    Return,
    Void,
    Object,
    Int,
    Boolean,
    String,
    True,
    False,
    Null,
    Static,
    If,
    Else,
    While,
    Break,
    Continue,
}

#[derive(Clone, Copy, Debug, PartialEq, Eq)]
pub enum Mark {
    /// `{`
    Begin,
    /// `}`
    End,
    /// `(`
    Open,
    /// `)`
    Close,
    /// `;`
    Semicolon,
    /// `,`
    Comma,
    /// `.`
    Dot,
    /// `=`
    Assign,
    /// `==`
    Same,
    /// `!=`
    Differ,
    /// `&&`
    And,
    /// `||`
    Or,
    /// `?`
    Choice,
}
