//! Tokens of small texts.
use cv_lex::{TextFault, tokens};
use easl_model::{Key, Kind, Mark, Place, Token};
use std::test::Fail;

#[test]
fn reads_tokens_over_two_lines(rt: HostRuntime) -> Result<(), Fail> {
    let read = tokens(rt.alloc(), b"class A {\r\n  x != 12;\t}")?;
    let list = read.list.as_slice();
    let class = Token {
        kind: Kind::Key(Key::Class),
        start: 0,
        end: 5,
        place: Place { line: 1, col: 1 },
    };
    let differ = Token {
        kind: Kind::Mark(Mark::Differ),
        start: 15,
        end: 17,
        place: Place { line: 2, col: 5 },
    };
    assert_eq!(rt; list.len(), 8);
    assert_eq!(rt; list[0], class);
    assert_eq!(rt; list[4], differ);
    assert_eq!(rt; read.end, Place { line: 2, col: 13 });
    Ok(())
}

#[test]
fn takes_the_longest_token(rt: HostRuntime) -> Result<(), Fail> {
    let kinds = [
        Kind::Mark(Mark::Same),
        Kind::Mark(Mark::Assign),
        Kind::Name,
        Kind::Number,
        Kind::Name,
        Kind::Text,
        Kind::Mark(Mark::Dot),
        Kind::Key(Key::If),
    ];
    let read = tokens(rt.alloc(), b"===newer 7x\"a b\".if")?;
    let list = read.list.as_slice();
    assert_eq!(rt; list.len(), kinds.len());
    for (token, kind) in list.iter().zip(&kinds) {
        assert_eq!(rt; token.kind, *kind);
    }
    Ok(())
}

#[test]
fn passes_over_comments_and_counts_characters(rt: HostRuntime) -> Result<(), Fail> {
    let text = b"\xc3\xa9 /* \xc3\xa9 */\"\\\"\xc3\xa9\"// *\n/**/_x";
    let name = Token {
        kind: Kind::Name,
        start: 0,
        end: 2,
        place: Place { line: 1, col: 1 },
    };
    let quoted = Token {
        kind: Kind::Text,
        start: 11,
        end: 17,
        place: Place { line: 1, col: 10 },
    };
    let last = Token {
        kind: Kind::Name,
        start: 26,
        end: 28,
        place: Place { line: 2, col: 5 },
    };
    let read = tokens(rt.alloc(), text)?;
    assert_eq!(rt; read.list.as_slice(), [name, quoted, last].as_slice());
    assert_eq!(rt; read.end, Place { line: 2, col: 7 });
    Ok(())
}

#[test]
fn tells_where_no_token_begins(rt: HostRuntime) {
    let rows: [(&[u8], u32, u32); 10] = [
        (b"a / b", 1, 3),
        (b"!", 1, 1),
        (b"\"a", 1, 1),
        (b"a\\b", 1, 2),
        (b"\"a\n\"", 1, 1),
        (b"\"\\\"", 1, 1),
        (b"a|b", 1, 2),
        (b"/*/", 1, 1),
        (b"/* \xc3\xa9 */ #", 1, 9),
        (b"//#\n  #", 2, 3),
    ];
    for (text, line, col) in rows {
        let place = Place { line, col };
        let fault = tokens(rt.alloc(), text).err();
        assert_eq!(rt; fault, Some(TextFault::BadToken(place)));
    }
}

#[test]
fn tells_where_utf8_ends(rt: HostRuntime) {
    let rows: [(&[u8], u32, u32); 4] = [
        (b"\xff", 1, 1),
        (b"#\xc3", 1, 2),
        (b"\xe2\x82", 1, 1),
        (b"class A {\n  // \xc3\xa9 x\n  \xff", 3, 3),
    ];
    for (text, line, col) in rows {
        let place = Place { line, col };
        let fault = tokens(rt.alloc(), text).err();
        assert_eq!(rt; fault, Some(TextFault::NotUtf8(place)));
    }
}
