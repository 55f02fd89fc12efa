//! The rules of specifications, the limit on statements in place, and the limits of texts.
ghost use Rattle.std.specs.Prelude.{◌≤◌, length};

use crate::reading::{Refused, checked};
use cv_lex::{TextFault, Which};
use easl_model::Place;
use easl_parser::read_spec;
use easl_types::SpecFault;
use std::alloc::{AllocError, Global};
use std::test::Fail;

/// What the rules say of the specification that the text spells; None where it is taken.
fn broken(alloc: Global, text: &[u8]) -> Option<SpecFault>
    requires { length text.now ≤ 65536 }
{
    match checked(alloc, text) {
        Err(Refused::Rule(fault)) => Some(fault),
        Err(Refused::Text(_)) => Some(SpecFault::Memory),
        Ok(_) => None,
    }
}

/// A place in the first line.
fn at(col: u32) -> Place {
    Place { line: 1, col }
}

#[test]
fn names_are_there_and_given_once(rt: HostRuntime) {
    let rows: [(&[u8], Option<SpecFault>); 15] = [
        (
            b"class A { } class A { }",
            Some(SpecFault::Duplicate(at(19))),
        ),
        (
            b"class A { A f; A f; A(A x) { f = x; } }",
            Some(SpecFault::Duplicate(at(18))),
        ),
        (
            b"class A { void m() { } void m() { } }",
            Some(SpecFault::Duplicate(at(29))),
        ),
        (
            b"class A { A() { } A() { } }",
            Some(SpecFault::Duplicate(at(19))),
        ),
        (
            b"class A { void m(A a, int a) { } }",
            Some(SpecFault::Duplicate(at(27))),
        ),
        (
            b"class A { void m(A a) { A a = new A(); } }",
            Some(SpecFault::Duplicate(at(27))),
        ),
        (
            b"class A { void m() { A a = new A(); if (a == a) { A a = new A(); } } }",
            Some(SpecFault::Duplicate(at(53))),
        ),
        (
            b"class A { void m(A b) { if (b == b) { A a = b; } A a = b; } }",
            None,
        ),
        (
            b"class A { void m() { requires x == this; } } class A { }",
            Some(SpecFault::Duplicate(at(52))),
        ),
        (b"class A { B b; }", Some(SpecFault::Unknown(at(11)))),
        (b"class A { B() { } }", Some(SpecFault::Unknown(at(11)))),
        (
            b"class A { void m(B b) { } } class C { }",
            Some(SpecFault::Unknown(at(18))),
        ),
        (
            b"class A { void m() { requires x == this; } }",
            Some(SpecFault::Unknown(at(31))),
        ),
        (
            b"class A { void m() { requires this == this.f; } }",
            Some(SpecFault::Unknown(at(44))),
        ),
        (
            b"class A { void m(Object o) { requires o.f == o; } }",
            Some(SpecFault::Unknown(at(41))),
        ),
    ];
    for (text, fault) in rows {
        assert_eq!(rt; broken(rt.alloc(), text), fault);
    }
}

#[test]
fn types_are_those_that_are_wanted(rt: HostRuntime) {
    let rows: [(&[u8], u32); 9] = [
        (b"class A { void m(Object o) { requires o == o; } }", 39),
        (
            b"class A { void m(B b) { requires this == b; } } class B { }",
            42,
        ),
        (b"class A { A m() { } }", 13),
        (b"class A { void m() { return this; } }", 29),
        (b"class A { void m() { this = new A(); } }", 22),
        (b"class A { void m(A a) { a = new A(a); } }", 29),
        (b"class A { void m(int a) { a = new A(); } }", 27),
        (
            b"class A { A(A x) { } void m(int a) { A b = new A(a); } }",
            50,
        ),
        (
            b"class A { A(int x) { } void m(A a) { A b = new A(a); } }",
            50,
        ),
    ];
    for (text, col) in rows {
        let fault = SpecFault::Mismatch(at(col));
        assert_eq!(rt; broken(rt.alloc(), text), Some(fault));
    }
}

#[test]
fn fields_are_assigned_before_they_are_read(rt: HostRuntime) {
    let rows: [(&[u8], Option<SpecFault>); 10] = [
        (
            b"class A { A f; A() { f = this; } }",
            Some(SpecFault::Unready(at(26))),
        ),
        (
            b"class A { A f; A(A x) { if (x == x) { f = x; } } }",
            Some(SpecFault::Unready(at(16))),
        ),
        (
            b"class A { A f; A(A x) { if (x == x) { f = x; } else { f = x; } } }",
            None,
        ),
        (
            b"class A { A f; A(A x) { f = f; } }",
            Some(SpecFault::Unready(at(29))),
        ),
        (b"class A { A f; A(A x) { f = x.f; } }", None),
        (
            b"class A { A f; A(A x) { } }",
            Some(SpecFault::Unready(at(16))),
        ),
        (
            b"class A { A f; A(A x) { A y = this; f = x; } }",
            Some(SpecFault::Unready(at(31))),
        ),
        (b"class A { A f; }", Some(SpecFault::Unready(at(7)))),
        (
            b"class A { B b; A() { b = new B(); } } class B { A a; B() { a = new A(); } }",
            Some(SpecFault::ConstructorCycle(at(26))),
        ),
        (
            b"class A { A() { A a = new A(); } }",
            Some(SpecFault::ConstructorCycle(at(23))),
        ),
    ];
    for (text, fault) in rows {
        assert_eq!(rt; broken(rt.alloc(), text), fault);
    }
}

/// The constructor of Ck executes two statements and the constructor of the class before twice, so 2 to the k + 1, less 2:
/// that of C9 executes 1,022.
const CHAIN: &[u8] = b"class C0 { }
class C1 { C1() { C0 a = new C0(); C0 b = new C0(); } }
class C2 { C2() { C1 a = new C1(); C1 b = new C1(); } }
class C3 { C3() { C2 a = new C2(); C2 b = new C2(); } }
class C4 { C4() { C3 a = new C3(); C3 b = new C3(); } }
class C5 { C5() { C4 a = new C4(); C4 b = new C4(); } }
class C6 { C6() { C5 a = new C5(); C5 b = new C5(); } }
class C7 { C7() { C6 a = new C6(); C6 b = new C6(); } }
class C8 { C8() { C7 a = new C7(); C7 b = new C7(); } }
class C9 { C9() { C8 a = new C8(); C8 b = new C8(); } }
";

#[test]
fn statements_in_place_are_counted(rt: HostRuntime) -> Result<(), Fail> {
    let rows: [(&[u8], Option<u32>); 6] = [
        (b"", None),
        (
            b"class C10 { C10() { C9 a = new C9(); C9 b = new C9(); } }",
            Some(13),
        ),
        (
            b"class D { void m() { C9 a = new C9(); C0 b = new C0(); } }",
            None,
        ),
        (
            b"class D { void m() { C9 a = new C9(); C0 b = new C0(); C0 c = new C0(); } }",
            Some(16),
        ),
        (
            b"class D { void m() { C9 a = new C9(); if (this == this) { C0 b = new C0(); } } }",
            Some(16),
        ),
        (
            b"class D { D m() { C9 a = new C9(); C0 b = new C0(); return this; } }",
            Some(13),
        ),
    ];
    for (more, col) in rows {
        let mut text = Vec::new(rt.alloc());
        text.extend_from_slice(CHAIN)?;
        text.extend_from_slice(more)?;
        assert!(rt; text.len() <= 65_536);
        let fault = col.map(|col| SpecFault::TooLong(Place { line: 11, col }));
        assert_eq!(rt; broken(rt.alloc(), &text), fault);
    }
    Ok(())
}

/// The middle so many times between the two ends.
fn repeated(
    alloc: Global,
    front: &[u8],
    middle: &[u8],
    back: &[u8],
    count: u32,
) -> Result<Vec<u8>, AllocError> {
    let mut text = Vec::new(alloc);
    text.extend_from_slice(front)?;
    for _ in 0..count {
        text.extend_from_slice(middle)?;
    }
    text.extend_from_slice(back)?;
    Ok(text)
}

#[test]
fn texts_have_limits(rt: HostRuntime) -> Result<(), Fail> {
    let rows: [(&[u8], &[u8], &[u8], u32, Which, u32); 10] = [
        (b"", b"class A { } ", b"", 64, Which::Classes, 769),
        (b"class A { ", b"A f; ", b"}", 16, Which::Fields, 91),
        (
            b"class A { ",
            b"void m() { } ",
            b"}",
            64,
            Which::Methods,
            843,
        ),
        (
            b"class A { void m(A a",
            b", A a",
            b") { } }",
            3,
            Which::Parameters,
            38,
        ),
        (
            b"class A { void m() { ",
            b"requires a == a; ",
            b"} }",
            16,
            Which::Clauses,
            294,
        ),
        (
            b"class A { void m() { requires a == a",
            b" && a == a",
            b"; } }",
            15,
            Which::Comparisons,
            191,
        ),
        (
            b"class A { void m() { ",
            b"a = a; ",
            b"} }",
            64,
            Which::Statements,
            470,
        ),
        (
            b"class A { A m() { ",
            b"a = a; ",
            b"return a; } }",
            63,
            Which::Statements,
            467,
        ),
        (
            b"class A { void m() { ",
            b"if (a == a) { } ",
            b"} }",
            8,
            Which::Conditionals,
            150,
        ),
        (
            b"class A { void m() { a",
            b".f",
            b" = a; } }",
            6,
            Which::Path,
            36,
        ),
    ];
    for (front, middle, back, most, which, col) in rows {
        let text = repeated(rt.alloc(), front, middle, back, most)?;
        assert!(rt; text.len() <= 65_536);
        assert!(rt; read_spec(rt.alloc(), &text).is_ok(), "{which:?}");
        let text = repeated(rt.alloc(), front, middle, back, most + 1)?;
        assert!(rt; text.len() <= 65_536);
        let fault = read_spec(rt.alloc(), &text).err();
        assert_eq!(rt; fault, Some(TextFault::Limit(which, at(col))));
    }
    Ok(())
}
