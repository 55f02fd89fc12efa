//! Places in a text, and names.
use std::marker::Model;

/// A place in a text: its line and the character in the line, both counted from 1. A line ends with LF.
#[derive(Clone, Copy, Debug, PartialEq, Eq)]
pub struct Place {
    pub line: u32,
    pub col: u32,
}

/// A name, which contracts see as the list of its characters.
#[derive(Debug, Drop)]
pub struct Name(pub String);

impl Model for Name {
    ghost use Rattle.std.specs.Prelude.{List, ℕ, string_bytes};
    ghost use Rattle.std.specs.Str.{chars};

    ghost Value = { List ℕ };

    ghost view = { λ n. chars (string_bytes n.0) };
}

impl Name {
    ghost use Rattle.std.specs.Prelude.{◌≡◌, ◌≢◌, false, IsTrue};

    /// Whether two names are one.
    pub fn is_same(&self, other: &Name) -> bool
        ensures same { IsTrue result → self.now ≡ other.now }
        ensures other { result ≡ false → self.now ≢ other.now }
    {
        self.0.as_str() == other.0.as_str()
    }
}
