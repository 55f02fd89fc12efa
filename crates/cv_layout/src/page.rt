//! A page, on which tokens are put one after another, and line after line.
ghost use Rattle.std.specs.Prelude.{◌≡◌, ℕ, List, [], ◌++◌, codes, OnOk, encode_utf8_all, if◌then◌else◌};
ghost use Rattle.easl_model.specs.declared.token.Key.{Key};
ghost use Rattle.easl_model.specs.Tokens as written;
ghost use Rattle.cv_layout.specs.{before_next, between, ended, indent, put, started};
ghost use Rattle.cv_layout.specs.Layout as laid;
ghost use Rattle.cv_layout.specs.declared.page.Before.TheVariants as before;

use easl_model::{Key, Mark, Name};
use std::alloc::{AllocError, Global};
use std::marker::Model;

/// What the last token on a line is to the next one.
#[derive(Clone, Copy, Debug, PartialEq, Eq)]
pub enum Before {
    /// A line's beginning, `(` or `.`: no space follows.
    Joined,
    /// A name or a literal: no space stands between it and `(`.
    Word,
    Other,
}

/// The bytes of a text, which contracts see as their list.
#[derive(Debug, Drop)]
pub struct Text(pub Vec<u8>);

impl Model for Text {
    ghost use Rattle.std.specs.Prelude.{List, ℕ};

    ghost Value = { List ℕ };

    ghost view = { λ t. t.0.items };
}

/// A text that grows by tokens and lines. Each call answers `AllocError` where there is no memory left; the page then
/// holds a part of what was to be put on it, and is given up.
#[derive(Debug, Drop)]
pub struct Page {
    pub text: Text,
    pub before: Before,
}

impl Page {
    /// An empty page.
    pub fn new(alloc: Global) -> Page
        ensures { result ≡ record { text = []; before = before.Joined } }
    {
        Page {
            text: Text(Vec::new(alloc)),
            before: Before::Joined,
        }
    }

    /// Begins a line, so deep.
    pub fn start(&mut self, depth: u32) -> Result<(), AllocError>
        ensures { OnOk result (self.new ≡ started self.old depth) }
    {
        push_indent(&mut self.text.0, depth)
    }

    /// Ends a line.
    pub fn end(&mut self) -> Result<(), AllocError>
        ensures { OnOk result (self.new ≡ ended self.old) }
    {
        push_bytes(&mut self.text.0, b"\n")?;
        self.before = Before::Joined;
        Ok(())
    }

    /// Puts a keyword behind what stands on the line.
    pub fn key(&mut self, key: Key) -> Result<(), AllocError>
        ensures { OnOk result (self.new ≡ put self.old (laid.key key)) }
    {
        let spaced = !is_joined(self.before);
        self.put(key_text(key), spaced, Before::Other)
    }

    /// Puts a mark behind what stands on the line.
    pub fn mark(&mut self, mark: Mark) -> Result<(), AllocError>
        ensures { OnOk result (self.new ≡ put self.old (laid.mark mark)) }
    {
        let spaced = is_spaced(self.before, mark);
        self.put(mark_text(mark), spaced, behind_mark(mark))
    }

    /// Puts a name or a literal behind what stands on the line.
    #[tactic(auto, using(crate::proofs::Spelled::spelled))]
    pub fn word(&mut self, name: &Name) -> Result<(), AllocError>
        ensures { OnOk result (self.new ≡ put self.old (laid.word name.now)) }
    {
        let spaced = !is_joined(self.before);
        self.put(name.0.as_str().as_bytes(), spaced, Before::Word)
    }

    fn put(&mut self, text: &[u8], spaced: bool, before: Before) -> Result<(), AllocError>
        ensures { OnOk result (self.new ≡ record {
          text = self.old.text ++ ((if spaced then codes " " else []) ++ text.now);
          before = before;
        }) }
    {
        if spaced {
            push_bytes(&mut self.text.0, b" ")?;
        }
        push_bytes(&mut self.text.0, text)?;
        self.before = before;
        Ok(())
    }
}

fn push_indent(out: &mut Vec<u8>, depth: u32) -> Result<(), AllocError>
    ensures { OnOk result (out.new.items ≡ out.old.items ++ indent depth) }
{
    let mut left = depth;
    'each: while left > 0 {
        push_bytes(out, b"  ")?;
        left -= 1;
    }
    Ok(())
}

fn push_bytes(out: &mut Vec<u8>, piece: &[u8]) -> Result<(), AllocError>
    ensures { OnOk result (out.new.items ≡ out.old.items ++ piece.now) }
{
    out.extend_from_slice(piece)
}

/// Whether no space stands before a name or a keyword.
fn is_joined(before: Before) -> bool
    ensures name { (cs : List ℕ) → between before (laid.word cs) ≡ (if result then [] else codes " ") }
    ensures key { (k : Key) → between before (laid.key k) ≡ (if result then [] else codes " ") }
{
    before == Before::Joined
}

/// Whether a space stands before the mark.
fn is_spaced(before: Before, mark: Mark) -> bool
    ensures { between before (laid.mark mark) ≡ (if result then codes " " else []) }
{
    match before {
        Before::Joined => false,
        Before::Word => !is_close(mark) && mark != Mark::Open,
        Before::Other => !is_close(mark),
    }
}

/// No space stands before it.
fn is_close(mark: Mark) -> bool
    ensures { result ≡ laid.is_close (laid.mark mark) }
{
    matches!(
        mark,
        Mark::Close | Mark::Semicolon | Mark::Comma | Mark::Dot
    )
}

fn behind_mark(mark: Mark) -> Before
    ensures { result ≡ before_next (laid.mark mark) }
{
    match mark {
        Mark::Open | Mark::Dot => Before::Joined,
        _ => Before::Other,
    }
}

fn mark_text(mark: Mark) -> &'static [u8]
    ensures { result.now ≡ encode_utf8_all (written.mark_text mark) }
{
    match mark {
        Mark::Begin => b"{",
        Mark::End => b"}",
        Mark::Open => b"(",
        Mark::Close => b")",
        Mark::Semicolon => b";",
        Mark::Comma => b",",
        Mark::Dot => b".",
        Mark::Assign => b"=",
        Mark::Same => b"==",
        Mark::Differ => b"!=",
        Mark::And => b"&&",
        Mark::Or => b"||",
        Mark::Choice => b"?",
    }
}

fn key_text(key: Key) -> &'static [u8]
    ensures { result.now ≡ encode_utf8_all (written.key_text key) }
{
    match key {
        Key::Class => b"class",
        Key::Requires => b"requires",
        Key::New => b"new",
        Key::This => b"this",
        Key::Return => b"return",
        Key::Void => b"void",
        Key::Object => b"Object",
        Key::Int => b"int",
        Key::Boolean => b"boolean",
        Key::String => b"String",
        Key::True => b"true",
        Key::False => b"false",
        Key::Null => b"null",
        Key::Static => b"static",
        Key::If => b"if",
        Key::Else => b"else",
        Key::While => b"while",
        Key::Break => b"break",
        Key::Continue => b"continue",
    }
}
