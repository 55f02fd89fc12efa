//! What the top call answers and writes.
use crate::canvas::canvas;
use crate::disk_shelf::DiskShelf;
use crate::std_sink::StdSink;
use cv_base::{Bytes, Held, LoadFault, MemShelf, MemSink, Shelf, Sink, Status};
use std::alloc::Global;
use std::test::Fail;

const SETS: &[u8] = b"class Iterator {
  Set set;
  Version defVer;
  Iterator(Set s) { defVer = s.ver; set = s; }
  void remove() { requires defVer == set.ver; set.ver = new Version(); defVer = set.ver; }
  Object next() { requires defVer == set.ver; }
  boolean hasNext() { }
}
class Set {
  Version ver;
  Set() { ver = new Version(); }
  boolean add(Object o) { ver = new Version(); }
  Iterator iterator() { return new Iterator(this); }
}
class Version { }
";

const STRAIGHT: &[u8] = b"void main() {
  Set v = new Set();
  Iterator i = v.iterator();
  i.next();
}
";

const BRANCHING: &[u8] = b"void main() {
  Set v = new Set();
  Iterator i = v.iterator();
  if (?) { i.next(); }
}
";

const CHANGED: &[u8] = b"void main() {
  Set v = new Set();
  Iterator i = v.iterator();
  Iterator j = v.iterator();
  v.add(\"a\");
  i.next();
  j.next();
}
";

const REMOVING: &[u8] = b"void main() {
  Set v = new Set();
  Iterator i1 = v.iterator();
  Iterator i2 = v.iterator();
  Iterator i3 = i1;
  i1.remove();
  if (?) { i2.next(); }
  if (?) { i3.next(); }
  v.add(\"x\");
  if (?) { i1.next(); }
}
";

const LOOPING: &[u8] = b"void main() {
  Set v = new Set();
  Iterator i = v.iterator();
  while (i.hasNext()) { i.next(); v.add(\"x\"); }
}
";

const ENDLESS: &[u8] = b"void main() { while (?) { } }";

const LOCK: &[u8] = b"class Lock {
  Key held;
  Key none;
  Lock() { none = new Key(); held = none; }
  void take() { requires held == none || none != none; Key fresh = new Key(); held = fresh; }
  void drop() { requires held != none && (held == held); if (held != none) { held = none; } else { held = held; } }
}
class Key { }
";

const LOCKED: &[u8] = b"void main() {
  Lock l = new Lock();
  l.take();
  l.drop();
  l.take();
}
";

const UNLOCKED_TWICE: &[u8] = b"void main() {
  Lock l = new Lock();
  l.take();
  l.drop();
  l.take();
  l.drop();
  l.drop();
}
";

const UNSET: &[u8] = b"void main() {
  Set v = new Set();
  Iterator i;
  if (?) { i = v.iterator(); }
  i.next();
}
";

const BREAKING: &[u8] = b"void main() {
  Set v = new Set();
  Iterator i = v.iterator();
  while (i.hasNext()) {
    i.next();
    if (?) { v.add(\"a\"); break; }
  }
}
";

const CONTINUING: &[u8] = b"void main() {
  Set v = new Set();
  Iterator i = v.iterator();
  while (i.hasNext()) {
    i.next();
    if (?) { v.add(\"a\"); continue; }
  }
}
";

const RETURNING: &[u8] = b"void p(Set s) { if (?) { return; } s.add(\"a\"); }
void main() { Set v = new Set(); Iterator i = v.iterator(); p(v); i.next(); }
";

const RECURSIVE: &[u8] = b"void r(Iterator i, Set s) {
  if (?) { r(i, s); }
  i.next();
  s.add(\"a\");
}
void main() {
  Set v = new Set();
  Iterator i = v.iterator();
  r(i, v);
}
";

const WORKLIST: &[u8] = b"static Set work = new Set();
void process(Object item) { if (?) { work.add(item); } }
void drain() {
  Iterator i = work.iterator();
  while (i.hasNext()) {
    Object item = i.next();
    process(item);
  }
}
void main() { work.add(\"a\"); drain(); }
";

const CALLING_ITSELF: &[u8] = b"void z() { z(); }
void main() { z(); }
";

const USAGE: &[u8] = b"usage: canvas COMMAND
show SPEC
derive SPEC
run SPEC CLIENT CHOICES
certify SPEC CLIENT
sites SPEC CLIENT
explain SPEC CLIENT
report SPEC CLIENT
proof SPEC CLIENT
check SPEC CLIENT CERT
load N
";

/// What is run, with which texts on the shelf, and what is written.
#[derive(Clone, Copy)]
struct Case {
    command: &'static str,
    choices: Option<&'static str>,
    specification: &'static [u8],
    client: &'static [u8],
    failing_load: u64,
    room: usize,
    written: &'static [u8],
    status: Status,
}

/// A number that no load has.
const NO_LOAD: u64 = 9;

const PLAIN: Case = Case {
    command: "certify",
    choices: None,
    specification: SETS,
    client: STRAIGHT,
    failing_load: NO_LOAD,
    room: 1000,
    written: b"certified\n",
    status: Status::Fine,
};

const RUN: Case = Case {
    command: "run",
    choices: Some(""),
    client: REMOVING,
    written: b"short\n",
    ..PLAIN
};

fn held(alloc: Global, name: &[u8], text: &[u8]) -> Result<Held, Fail> {
    Ok(Held {
        name: Bytes(Vec::from_slice(alloc, name)?),
        text: Bytes(Vec::from_slice(alloc, text)?),
        faults: 0,
    })
}

fn shelf(alloc: Global, case: &Case) -> Result<MemShelf, Fail> {
    let mut files = Vec::new(alloc);
    files.push(held(alloc, b"sets.easl", case.specification)?)?;
    files.push(held(alloc, b"a.client", case.client)?)?;
    let fails = Vec::from_slice(alloc, &[case.failing_load])?;
    Ok(MemShelf::new(files, fails))
}

fn words(alloc: Global, command: &str) -> Result<Vec<String>, Fail> {
    let mut words = Vec::new(alloc);
    for word in [command, "sets.easl", "a.client"] {
        words.push(String::from_str(alloc, word)?)?;
    }
    Ok(words)
}

/// The status, and what was taken.
fn outcome(alloc: Global, case: &Case) -> Result<(Status, Vec<u8>), Fail> {
    let mut words = words(alloc, case.command)?;
    if let Some(choices) = case.choices {
        words.push(String::from_str(alloc, choices)?)?;
    }
    outcome_of(alloc, words.as_slice(), case)
}

/// The same with these words.
fn outcome_of(alloc: Global, words: &[String], case: &Case) -> Result<(Status, Vec<u8>), Fail> {
    let mut shelf = shelf(alloc, case)?;
    let mut sink = MemSink::new(alloc, case.room, Vec::new(alloc))?;
    let status = canvas(alloc, words, &mut shelf, &mut sink);
    Ok((status, Vec::from_slice(alloc, sink.taken())?))
}

#[test]
fn answers_of_certify(rt: HostRuntime) -> Result<(), Fail> {
    let cases = [
        PLAIN,
        Case {
            client: CHANGED,
            written: b"alarm 6:3 Iterator.next 1\n0 main:\n",
            status: Status::Alarm,
            ..PLAIN
        },
        Case {
            client: b"void main() { }",
            ..PLAIN
        },
        Case {
            client: BRANCHING,
            written: b"not built client\n",
            status: Status::NotBuilt,
            ..PLAIN
        },
        Case {
            client: WORKLIST,
            written: b"not built client\n",
            status: Status::NotBuilt,
            ..PLAIN
        },
        Case {
            specification: b"",
            written: b"refused specification E3 1:1\n",
            status: Status::Refused,
            ..PLAIN
        },
        Case {
            specification: LOCK,
            client: LOCKED,
            ..PLAIN
        },
        Case {
            specification: LOCK,
            client: UNLOCKED_TWICE,
            written: b"alarm 7:3 Lock.drop 1\n0 main:\n",
            status: Status::Alarm,
            ..PLAIN
        },
        Case {
            failing_load: 1,
            written: b"read fault client\n",
            status: Status::ReadFault,
            ..PLAIN
        },
        Case {
            room: 3,
            written: b"cer",
            status: Status::WriteFault,
            ..PLAIN
        },
        Case {
            command: "--help",
            written: USAGE,
            status: Status::Usage,
            ..PLAIN
        },
        Case {
            command: "explain",
            written: USAGE,
            status: Status::Usage,
            ..PLAIN
        },
        Case {
            choices: Some("T"),
            written: USAGE,
            status: Status::Usage,
            ..PLAIN
        },
    ];
    for case in &cases {
        let (status, taken) = outcome(rt.alloc(), case)?;
        assert_eq!(rt; taken.as_slice(), case.written);
        assert_eq!(rt; status, case.status);
    }
    Ok(())
}

#[test]
fn outcomes_of_runs(rt: HostRuntime) -> Result<(), Fail> {
    let rows: [(&'static [u8], &'static str, &[u8], Status); 14] = [
        (REMOVING, "FT", b"short\n", Status::Fine),
        (
            REMOVING,
            "FTT",
            b"fails 10:12 Iterator.next 1, 0 left\n",
            Status::Alarm,
        ),
        (
            REMOVING,
            "T",
            b"fails 7:12 Iterator.next 1, 0 left\n",
            Status::Alarm,
        ),
        (REMOVING, "FFFT", b"ends, 1 left\n", Status::Fine),
        (REMOVING, "", b"short\n", Status::Fine),
        (
            LOOPING,
            "TT",
            b"fails 4:25 Iterator.next 1, 0 left\n",
            Status::Alarm,
        ),
        (BREAKING, "TT", b"ends, 0 left\n", Status::Fine),
        (
            CONTINUING,
            "TTT",
            b"fails 5:5 Iterator.next 1, 0 left\n",
            Status::Alarm,
        ),
        (RETURNING, "T", b"ends, 0 left\n", Status::Fine),
        (
            RETURNING,
            "F",
            b"fails 2:67 Iterator.next 1, 0 left\n",
            Status::Alarm,
        ),
        (
            RECURSIVE,
            "TF",
            b"fails 3:3 Iterator.next 1, 0 left\n",
            Status::Alarm,
        ),
        (RECURSIVE, "F", b"ends, 0 left\n", Status::Fine),
        (
            WORKLIST,
            "TTT",
            b"fails 6:19 Iterator.next 1, 0 left\n",
            Status::Alarm,
        ),
        (WORKLIST, "TFF", b"ends, 0 left\n", Status::Fine),
    ];
    for (client, choices, written, status) in rows {
        let case = Case {
            client,
            choices: Some(choices),
            ..RUN
        };
        let (found, taken) = outcome(rt.alloc(), &case)?;
        assert_eq!(rt; taken.as_slice(), written, "{choices}");
        assert_eq!(rt; found, status, "{choices}");
    }
    Ok(())
}

#[test]
fn answers_without_a_run(rt: HostRuntime) -> Result<(), Fail> {
    let cases = [
        Case {
            choices: Some("FX"),
            written: USAGE,
            status: Status::Usage,
            ..RUN
        },
        Case {
            choices: None,
            written: USAGE,
            status: Status::Usage,
            ..RUN
        },
        Case {
            client: UNSET,
            written: b"refused client C4 5:3\n",
            status: Status::Refused,
            ..RUN
        },
        Case {
            specification: b"class A { B b; }",
            written: b"refused specification S2 1:11\n",
            status: Status::Refused,
            ..RUN
        },
        Case {
            failing_load: 0,
            written: b"read fault specification\n",
            status: Status::ReadFault,
            ..RUN
        },
    ];
    for case in &cases {
        let (status, taken) = outcome(rt.alloc(), case)?;
        assert_eq!(rt; taken.as_slice(), case.written);
        assert_eq!(rt; status, case.status);
    }
    Ok(())
}

const PARENTHESES_LEFT_OUT: &[u8] = b"class A {
  void m(A a) {
    requires a == a;
  }
}
";

const CHAIN: &[u8] = b"class C0 { }
class C1 { C1() { C0 a = new C0(); C0 b = new C0(); } }
class C2 { C2() { C1 a = new C1(); C1 b = new C1(); } }
class C3 { C3() { C2 a = new C2(); C2 b = new C2(); } }
class C4 { C4() { C3 a = new C3(); C3 b = new C3(); } }
class C5 { C5() { C4 a = new C4(); C4 b = new C4(); } }
class C6 { C6() { C5 a = new C5(); C5 b = new C5(); } }
class C7 { C7() { C6 a = new C6(); C6 b = new C6(); } }
class C8 { C8() { C7 a = new C7(); C7 b = new C7(); } }
class C9 { C9() { C8 a = new C8(); C8 b = new C8(); } }
class C10 { C10() { C9 a = new C9(); C9 b = new C9(); } }
";

/// A text of one class with so many parentheses round its clause.
fn nested(alloc: Global, depth: usize) -> Result<Vec<u8>, Fail> {
    let mut text = Vec::from_slice(alloc, b"class A { void m(A a) { requires ")?;
    for _ in 0..depth {
        text.push(b'(')?;
    }
    text.extend_from_slice(b"a == a")?;
    for _ in 0..depth {
        text.push(b')')?;
    }
    text.extend_from_slice(b"; } }")?;
    Ok(text)
}

/// The status and what was taken of `show` on this text.
fn shown(alloc: Global, text: &[u8]) -> Result<(Status, Vec<u8>), Fail> {
    alone(alloc, "show", text)
}

/// The same of this command.
fn alone(alloc: Global, command: &'static str, text: &[u8]) -> Result<(Status, Vec<u8>), Fail> {
    let mut words = Vec::new(alloc);
    for word in [command, "sets.easl"] {
        words.push(String::from_str(alloc, word)?)?;
    }
    let mut files = Vec::new(alloc);
    files.push(held(alloc, b"sets.easl", text)?)?;
    let mut shelf = MemShelf::new(files, Vec::new(alloc));
    let mut sink = MemSink::new(alloc, 1000, Vec::new(alloc))?;
    let status = canvas(alloc, words.as_slice(), &mut shelf, &mut sink);
    Ok((status, Vec::from_slice(alloc, sink.taken())?))
}

#[test]
fn refusals_of_specifications(rt: HostRuntime) -> Result<(), Fail> {
    let rows: [(&'static [u8], &[u8]); 14] = [
        (b"class A {\n  /* \xC3\xA9 */ \xFF( }", b"E1 2:11"),
        (b"class A { } class A { } #", b"E2 1:25"),
        (b"class A { void m() { } } \"abc", b"E2 1:26"),
        (b"class A { void m() { } x }", b"E3 1:26"),
        (b"class A {", b"E3 1:10"),
        (
            b"class A { void m(int a, int b, int c, int d, int e) { } }",
            b"E4 parameters 1:46",
        ),
        (
            b"class A {\n  A f;\n  A(A x) { f = x; }\n  void m(A a) { requires a.f.f.f.f.f.f.f == a; }\n}",
            b"E4 path 4:40",
        ),
        (b"class A { } class A { }", b"S1 1:19"),
        (b"class A { B b; }", b"S2 1:11"),
        (
            b"class A { void m(Object o) { requires o == o; } }",
            b"S3 1:39",
        ),
        (b"class A { A f; A() { f = this; } }", b"S4 1:26"),
        (
            b"class A { A f; A(A x) { if (x == x) { f = x; } } }",
            b"S4 1:16",
        ),
        (
            b"class A { B b; A() { b = new B(); } } class B { A a; B() { a = new A(); } }",
            b"S5 1:26",
        ),
        (CHAIN, b"S6 11:13"),
    ];
    for (text, fault) in rows {
        let mut line = Vec::from_slice(rt.alloc(), b"refused specification ")?;
        line.extend_from_slice(fault)?;
        line.push(b'\n')?;
        let (status, taken) = shown(rt.alloc(), text)?;
        assert_eq!(rt; taken.as_slice(), line.as_slice());
        assert_eq!(rt; status, Status::Refused);
        let case = Case {
            specification: text,
            client: BRANCHING,
            ..PLAIN
        };
        let (status, taken) = outcome(rt.alloc(), &case)?;
        assert_eq!(rt; taken.as_slice(), line.as_slice());
        assert_eq!(rt; status, Status::Refused);
    }
    Ok(())
}

#[test]
fn refusals_of_clients(rt: HostRuntime) -> Result<(), Fail> {
    let rows: [(&'static [u8], &[u8]); 14] = [
        (b"\xFF", b"E1 1:1"),
        (b"#", b"E2 1:1"),
        (b"void main() {", b"E3 1:14"),
        (
            b"void p(int a, int b, int c, int d, int e, int f, int g, int h, int i, int j, int k, int l, int m, int n, int o, int p, int q) { }",
            b"E4 parameters 1:120",
        ),
        (
            b"void main() { Set v = new Set(); Set v = new Set(); }",
            b"C1 1:38",
        ),
        (b"void main() { w.add(\"a\"); }", b"C2 1:15"),
        (b"void main() { Set v = \"a\"; }", b"C3 1:23"),
        (UNSET, b"C4 5:3"),
        (b"Set p() { } void main() { }", b"C5 1:11"),
        (
            b"Set p(Set s) { if (?) { return s; } } void main() { }",
            b"C5 1:37",
        ),
        (b"", b"C6 1:1"),
        (b"void main() { return; main(); }", b"C7 1:23"),
        (b"void main() { break; }", b"C8 1:15"),
        (b"void main() { continue; }", b"C8 1:15"),
    ];
    for (text, fault) in rows {
        let mut line = Vec::from_slice(rt.alloc(), b"refused client ")?;
        line.extend_from_slice(fault)?;
        line.push(b'\n')?;
        let case = Case {
            client: text,
            ..PLAIN
        };
        let (status, taken) = outcome(rt.alloc(), &case)?;
        assert_eq!(rt; taken.as_slice(), line.as_slice());
        assert_eq!(rt; status, Status::Refused);
    }
    Ok(())
}

#[test]
fn specifications_that_are_shown(rt: HostRuntime) -> Result<(), Fail> {
    let written: &[u8] = b"class A {
  A f;
  A(A x) {
    if (x == x) {
      f = x;
    } else {
      f = x;
    }
  }
  boolean m(A a, int n) {
    requires (a == f || a != this.f) && (a == a && f == f) || a.f == f;
    A b = new A(a);
    if (a != b) {
      b.f = a;
    }
  }
  A n() {
    return new A(this);
  }
}
";
    let text: &[u8] =
        b"class A{A f;A(A x){if(x==x){f=x;}else{f=x;}}/* c */ boolean m(A a,int n){requires (a==f||a!=this.f)&&(a==a&&f==f)||a.f==f;A b=new A(a);if(a!=b){b.f=a;}} A n(){return new A(this);}}";
    for text in [text, written] {
        let (status, taken) = shown(rt.alloc(), text)?;
        assert_eq!(rt; taken.as_slice(), written);
        assert_eq!(rt; status, Status::Fine);
    }
    Ok(())
}

const SETS_DERIVED: &[u8] = b"families 4
F1 (Iterator x1) x1.defVer != x1.set.ver
F2 (Iterator x1, Iterator x2) x1 != x2, x1.set == x2.set
F3 (Set x1, Iterator x2) x1 == x2.set
F4 (Set x1, Set x2) x1 == x2
clauses
Iterator.remove 1: F1(this)
Iterator.next 1: F1(this)
updates
Iterator.new {x1} F1: never
Iterator.remove {} F1: F1(x1) or F2(x1, this)
Set.add {} F1: F3(this, x1) or F1(x1)
Set.iterator {x1} F1: never
Iterator.new {x1} F2: F3(p1, x2)
Iterator.new {x2} F2: F3(p1, x1)
Iterator.new {x1, x2} F2: never
Set.iterator {x1} F2: F3(this, x2)
Set.iterator {x2} F2: F3(this, x1)
Set.iterator {x1, x2} F2: never
Iterator.new {x2} F3: F4(x1, p1)
Set.new {x1} F3: never
Set.iterator {x2} F3: F4(x1, this)
Set.new {x1} F4: never
Set.new {x2} F4: never
Set.new {x1, x2} F4: always
";

const CELLS: &[u8] = b"class Flag { }
class Cell {
  Flag a;
  Flag b;
  Cell() { a = new Flag(); b = a; }
  void mark() { if (a == b) { b = new Flag(); } }
  void reset() { if (a != b) { b = a; } }
  void use() { requires a == b; }
}
";

const LONG_CHAINS: &[u8] = b"class A {
  A f;
  A(A x) { f = x; }
  void m(A a, A b, A c, A d) { requires a.f.f.f.f == b.f.f.f.f && c.f.f.f.f == d.f.f.f.f; }
}
";

#[test]
fn derivations(rt: HostRuntime) -> Result<(), Fail> {
    let rows: [(&'static [u8], &[u8], Status); 4] = [
        (SETS, SETS_DERIVED, Status::Fine),
        (CELLS, b"open O4 Cell.mark {} F5\n", Status::Open),
        (LONG_CHAINS, b"limit cases A.m clause 1\n", Status::Limit),
        (
            b"class A { B b; }",
            b"refused specification S2 1:11\n",
            Status::Refused,
        ),
    ];
    for (text, written, status) in rows {
        let (found, taken) = alone(rt.alloc(), "derive", text)?;
        assert_eq!(rt; taken.as_slice(), written);
        assert_eq!(rt; found, status);
    }
    Ok(())
}

#[test]
fn limits_of_specifications(rt: HostRuntime) -> Result<(), Fail> {
    let alloc = rt.alloc();
    let deep = nested(alloc, 62)?;
    let deeper = nested(alloc, 63)?;
    let rows: [(&[u8], &[u8], Status); 4] = [
        (deep.as_slice(), PARENTHESES_LEFT_OUT, Status::Fine),
        (
            deeper.as_slice(),
            b"refused specification E4 nesting 1:96\n",
            Status::Refused,
        ),
        (
            &[b' '; 65_536],
            b"refused specification E3 1:65537\n",
            Status::Refused,
        ),
        (
            &[b' '; 65_537],
            b"limit specification bytes 65536\n",
            Status::Limit,
        ),
    ];
    for (text, written, status) in rows {
        let (found, taken) = shown(alloc, text)?;
        assert_eq!(rt; taken.as_slice(), written);
        assert_eq!(rt; found, status);
    }
    Ok(())
}

#[test]
fn limits_of_clients(rt: HostRuntime) -> Result<(), Fail> {
    let alloc = rt.alloc();
    let rows: [(usize, &[u8], Status); 2] = [
        (1_048_576, b"refused client C6 1:1048577\n", Status::Refused),
        (1_048_577, b"limit client bytes 1048576\n", Status::Limit),
    ];
    for (count, written, status) in rows {
        let mut text = Vec::new(alloc);
        text.resize(count, b' ')?;
        let mut files = Vec::new(alloc);
        files.push(held(alloc, b"sets.easl", SETS)?)?;
        files.push(held(alloc, b"a.client", text.as_slice())?)?;
        let mut shelf = MemShelf::new(files, Vec::new(alloc));
        let mut sink = MemSink::new(alloc, 1000, Vec::new(alloc))?;
        let words = words(alloc, "certify")?;
        let found = canvas(alloc, words.as_slice(), &mut shelf, &mut sink);
        assert_eq!(rt; sink.taken(), written);
        assert_eq!(rt; found, status);
    }
    Ok(())
}

/// So many choices, each of which is true.
fn many_true(alloc: Global, count: u32) -> Result<String, Fail> {
    let mut word = String::with_capacity(alloc, count as usize)?;
    for _ in 0..count {
        word.push('T')?;
    }
    Ok(word)
}

#[test]
fn runs_have_a_limit(rt: HostRuntime) -> Result<(), Fail> {
    let alloc = rt.alloc();
    let rows: [(&'static [u8], u32, &[u8], Status); 3] = [
        (ENDLESS, 9_999_999, b"short\n", Status::Fine),
        (
            ENDLESS,
            10_000_000,
            b"limit steps 10000000\n",
            Status::Limit,
        ),
        (CALLING_ITSELF, 0, b"limit steps 10000000\n", Status::Limit),
    ];
    for (client, count, written, status) in rows {
        let case = Case { client, ..RUN };
        let mut words = words(alloc, "run")?;
        words.push(many_true(alloc, count)?)?;
        let (found, taken) = outcome_of(alloc, words.as_slice(), &case)?;
        assert_eq!(rt; taken.as_slice(), written, "{count}");
        assert_eq!(rt; found, status, "{count}");
    }
    Ok(())
}

#[test]
fn no_words(rt: HostRuntime) -> Result<(), Fail> {
    let alloc = rt.alloc();
    let mut shelf = shelf(alloc, &PLAIN)?;
    let mut sink = MemSink::new(alloc, 1000, Vec::new(alloc))?;
    assert_eq!(rt; canvas(alloc, &[], &mut shelf, &mut sink), Status::Usage);
    assert_eq!(rt; sink.taken(), USAGE);
    Ok(())
}

#[test]
fn loads_from_files(rt: HostRuntime) -> Result<(), Fail> {
    let mut shelf = DiskShelf::new(&rt);
    let zeros = shelf.load(rt.alloc(), "/dev/zero", 9999);
    assert_eq!(rt; zeros.map(|bytes| bytes.len()), Ok(10_000));
    let missing = shelf.load(rt.alloc(), "no such file", 9999);
    assert_eq!(rt; missing.map(|bytes| bytes.len()), Err(LoadFault::Failed));
    let folder = shelf.load(rt.alloc(), "/", 9999);
    assert_eq!(rt; folder.map(|bytes| bytes.len()), Err(LoadFault::Failed));
    Ok(())
}

#[test]
fn writes_to_standard_output(rt: HostRuntime) {
    let mut out = StdSink::new(&rt);
    assert_eq!(rt; out.write(b"written\n"), Ok(8));
}
