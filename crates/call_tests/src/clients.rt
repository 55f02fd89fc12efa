//! Clients that are read and printed.
use client_model::{Proc, Rhs, Stmt, Test};
use client_parser::read_client;
use client_print::print_client;
use cv_lex::{TextFault, Which};
use easl_model::{Opaque, Place, Sort};
use std::test::Fail;

const TEXT: &[u8] = b"static Set all = new Set(7, \"k\");
int count(Set s, boolean b) {
  Iterator i = s.iterator();
  String t;
  t = \"k\";
  while (i.hasNext()) { i.next(); }
  if (?) { new Set(); } else { int n = count(s, true); count(s, b); }
  if (all.isEmpty()) { }
  return t;
}
static Object one = all.get();
static boolean no = false;
void main() { return; }
void end() { }
";

const LAYOUT: &[u8] = b"static Set all = new Set(7, \"k\");
int count(Set s, boolean b) {
  Iterator i = s.iterator();
  String t;
  t = \"k\";
  while (i.hasNext()) {
    i.next();
  }
  if (?) {
    new Set();
  } else {
    int n = count(s, true);
    count(s, b);
  }
  if (all.isEmpty()) {
  }
  return t;
}
static Object one = all.get();
static boolean no = false;
void main() {
  return;
}
void end() {
}
";

const LEAVING: &[u8] = b"Set first(Set s) {
  while (s.some()) { if (?) { continue; } return s; break; }
  if (?) { return; s.clear(); } else { return 7; }
  return s;
}
";

const LEAVING_LAYOUT: &[u8] = b"Set first(Set s) {
  while (s.some()) {
    if (?) {
      continue;
    }
    return s;
    break;
  }
  if (?) {
    return;
    s.clear();
  } else {
    return 7;
  }
  return s;
}
";

#[test]
fn reads_each_rule(rt: HostRuntime) -> Result<(), Fail> {
    let client = read_client(rt.alloc(), TEXT)?;
    assert_eq!(rt; client.end, Place { line: 15, col: 1 });
    assert!(rt;
        matches!(
            client.order.as_slice(),
            [true, false, true, true, false, false]
        )
    );
    let [all, one, no] = client.statics.as_slice() else {
        assert!(rt; false, "three statics");
        return Ok(());
    };
    assert_eq!(rt; all.place, Place { line: 1, col: 1 });
    assert_eq!(rt; all.name.place, Place { line: 1, col: 12 });
    assert!(rt; matches!(&all.value, Rhs::New(new) if new.args.len() == 2));
    assert!(rt; matches!(&one.value, Rhs::Component(call) if call.method.name.0.as_str() == "get"));
    assert!(rt; matches!(&no.value, Rhs::Copy(word) if word.name.0.as_str() == "false"));
    let [count, main, end] = client.procedures.as_slice() else {
        assert!(rt; false, "three procedures");
        return Ok(());
    };
    assert_eq!(rt; count.place, Place { line: 2, col: 1 });
    assert!(rt; is_count(count));
    assert!(rt; matches!(main.result, Sort::Void));
    assert!(rt; matches!(main.body.as_slice(), [Stmt::Return(last)] if last.value.is_none()));
    assert!(rt; end.body.is_empty());
    Ok(())
}

fn is_count(procedure: &Proc) -> bool {
    procedure.params.len() == 2
        && matches!(procedure.result, Sort::Opaque(Opaque::Int))
        && procedure.end == (Place { line: 10, col: 1 })
        && matches!(
            procedure.body.as_slice(),
            [
                Stmt::Declare(_, Sort::Class(_), _, Some(Rhs::Component(_))),
                Stmt::Declare(_, Sort::Opaque(Opaque::String), _, None),
                Stmt::Assign(_, Rhs::Copy(_)),
                Stmt::While(_, Test::Call(_), body),
                Stmt::If(_, Test::Free(_), first, second, true),
                Stmt::If(_, Test::Call(_), third, fourth, false),
                Stmt::Return(last),
            ] if is_step(body.as_slice())
                && is_made(first.as_slice())
                && is_called(second.as_slice())
                && third.is_empty()
                && fourth.is_empty()
                && last.value.is_some()
        )
}

fn is_step(body: &[Stmt]) -> bool {
    matches!(body, [Stmt::Do(Rhs::Component(_))])
}

fn is_made(body: &[Stmt]) -> bool {
    matches!(body, [Stmt::Do(Rhs::New(_))])
}

fn is_called(body: &[Stmt]) -> bool {
    matches!(
        body,
        [
            Stmt::Declare(_, Sort::Opaque(Opaque::Int), _, Some(Rhs::Call(_))),
            Stmt::Do(Rhs::Call(_))
        ]
    )
}

#[test]
fn reads_the_empty_text(rt: HostRuntime) -> Result<(), Fail> {
    let client = read_client(rt.alloc(), b"")?;
    assert!(rt; client.order.is_empty());
    Ok(())
}

#[test]
fn names_the_first_wrong_token(rt: HostRuntime) -> Result<(), Fail> {
    let read = read_client(rt.alloc(), b"void main() { a.b() }");
    assert!(rt; matches!(read, Err(TextFault::Syntax(Place { line: 1, col: 21 }))));
    let read = read_client(rt.alloc(), b"static A a = f();");
    assert!(rt; matches!(read, Err(TextFault::Syntax(Place { line: 1, col: 15 }))));
    let read = read_client(rt.alloc(), b"void main() { return a b; }");
    assert!(rt; matches!(read, Err(TextFault::Syntax(Place { line: 1, col: 24 }))));
    let read = read_client(rt.alloc(), b"void main() {");
    assert!(rt; matches!(read, Err(TextFault::Syntax(Place { line: 1, col: 14 }))));
    Ok(())
}

#[test]
fn refuses_a_65th_open_bracket(rt: HostRuntime) -> Result<(), Fail> {
    let mut text = Vec::new(rt.alloc());
    text.extend_from_slice(b"void main() {")?;
    for _ in 0..63 {
        text.extend_from_slice(b"if (?) {")?;
    }
    assert!(rt; text.len() == 517);
    let read = read_client(rt.alloc(), text.as_slice());
    let end = Place { line: 1, col: 518 };
    assert!(rt; matches!(read, Err(TextFault::Syntax(at)) if at == end));
    text.extend_from_slice(b"if (?) {")?;
    assert!(rt; text.len() == 525);
    let read = read_client(rt.alloc(), text.as_slice());
    let place = Place { line: 1, col: 521 };
    assert!(rt; matches!(read, Err(TextFault::Limit(Which::Nesting, at)) if at == place));
    Ok(())
}

#[test]
fn names_a_17th_parameter(rt: HostRuntime) -> Result<(), Fail> {
    let mut text = Vec::new(rt.alloc());
    text.extend_from_slice(b"void main(A a")?;
    for _ in 0..15 {
        text.extend_from_slice(b", A a")?;
    }
    let mut more = text.to_vec(rt.alloc())?;
    text.extend_from_slice(b") { }")?;
    assert!(rt; text.len() == 93);
    let client = read_client(rt.alloc(), text.as_slice())?;
    assert!(rt; matches!(client.procedures.as_slice(), [main] if main.params.len() == 16));
    more.extend_from_slice(b", int a, int b) { }")?;
    assert!(rt; more.len() == 107);
    let read = read_client(rt.alloc(), more.as_slice());
    let place = Place { line: 1, col: 91 };
    assert!(rt; matches!(read, Err(TextFault::Limit(Which::Parameters, at)) if at == place));
    Ok(())
}

#[test]
fn prints_the_canonical_layout(rt: HostRuntime) -> Result<(), Fail> {
    let client = read_client(rt.alloc(), TEXT)?;
    let printed = print_client(rt.alloc(), &client)?;
    assert!(rt; printed.as_slice() == LAYOUT);
    let again = read_client(rt.alloc(), LAYOUT)?;
    assert!(rt; print_client(rt.alloc(), &again)?.as_slice() == LAYOUT);
    Ok(())
}

#[test]
fn reads_and_prints_what_leaves_blocks(rt: HostRuntime) -> Result<(), Fail> {
    let client = read_client(rt.alloc(), LEAVING)?;
    assert!(rt; matches!(client.procedures.as_slice(), [first] if is_first(first.body.as_slice())));
    let printed = print_client(rt.alloc(), &client)?;
    assert!(rt; printed.as_slice() == LEAVING_LAYOUT);
    let again = read_client(rt.alloc(), LEAVING_LAYOUT)?;
    assert!(rt; print_client(rt.alloc(), &again)?.as_slice() == LEAVING_LAYOUT);
    Ok(())
}

fn is_first(body: &[Stmt]) -> bool {
    matches!(
        body,
        [
            Stmt::While(_, _, inner),
            Stmt::If(_, _, first, second, true),
            Stmt::Return(last),
        ] if is_left(inner.as_slice())
            && matches!(first.as_slice(), [Stmt::Return(bare), Stmt::Do(_)] if bare.value.is_none())
            && matches!(second.as_slice(), [Stmt::Return(given)] if given.value.is_some())
            && last.place == (Place { line: 4, col: 3 })
    )
}

fn is_left(inner: &[Stmt]) -> bool {
    matches!(
        inner,
        [Stmt::If(_, _, first, _, false), Stmt::Return(_), Stmt::Break(place)]
            if matches!(first.as_slice(), [Stmt::Continue(_)])
                && *place == (Place { line: 2, col: 53 })
    )
}

#[test]
fn prints_the_empty_client(rt: HostRuntime) -> Result<(), Fail> {
    let client = read_client(rt.alloc(), b" // nothing")?;
    assert!(rt; print_client(rt.alloc(), &client)?.is_empty());
    Ok(())
}
