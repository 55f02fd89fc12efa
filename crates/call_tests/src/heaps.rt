//! Sets and their iterators, executed on a heap that is worked out by hand. Where memory is wanted once, as with `--fail-alloc`, nothing
//! has changed, and the same is done again.
ghost use Rattle.std.specs.Prelude.{◌<◌, length, IsTrue};
ghost use Rattle.easl_heap.specs.Body.{HasArguments};

use crate::reading::{Refused, checked, checked_again};
use cv_base::{Memory, push_bytes, push_number};
use easl_heap::{Done, Heap};
use easl_model::CheckedSpec;
use std::alloc::Global;
use std::test::Fail;

pub(crate) const SETS: &[u8] = b"class Iterator {
  Set set;
  Version defVer;
  Iterator(Set s) { defVer = s.ver; set = s; }
  void remove() { requires defVer == set.ver; set.ver = new Version(); defVer = set.ver; }
  Object next() { requires defVer == set.ver; }
}
class Set {
  Version ver;
  Set() { ver = new Version(); }
  boolean add(Object o) { ver = new Version(); }
  Iterator iterator() { return new Iterator(this); }
}
class Version { }
";

const REMOVE: u32 = 1;

const NEXT: u32 = 2;

const NEW_SET: u32 = 3;

const ADD: u32 = 4;

const NEW_ITERATOR: u32 = 5;

fn fits(spec: &CheckedSpec, method: u32, args: &[u32]) -> bool
    ensures { IsTrue result → (method < length spec.now.methods) × HasArguments spec.now method args.now }
{
    if method >= spec.method_count() {
        return false;
    }
    let called = spec.method(method);
    if called.constructor {
        args.len() == called.params.len()
    } else {
        args.len() > called.params.len() && args.len() - called.params.len() == 1
    }
}

/// The specification; where memory is wanted, it is read once more.
pub(crate) fn specification(alloc: Global) -> Result<CheckedSpec, Refused> {
    checked_again(alloc, SETS)
}

/// How many objects there are, and what the fields of the sets and iterators hold.
fn seen(heap: &Heap) -> [u32; 6] {
    [
        heap.count(),
        heap.get(1, 0),
        heap.get(3, 0),
        heap.get(3, 1),
        heap.get(5, 0),
        heap.get(5, 1),
    ]
}

/// The first false clause of the call, else what it did; None where memory is wanted, or it is no call.
fn call(
    heap: &mut Heap,
    spec: &CheckedSpec,
    method: u32,
    args: &[u32],
) -> Option<Result<Done, u32>> {
    if !fits(spec, method, args) || heap.count() > 100_000 {
        return None;
    }
    match heap.requires_of(spec, method, args) {
        Some(clause) => Some(Err(clause)),
        None => match heap.execute_body(spec, method, args) {
            Ok(done) => Some(Ok(done)),
            Err(_) => None,
        },
    }
}

fn done(object: u32, steps: u32) -> Result<Done, u32> {
    Ok(Done {
        result: object,
        steps,
    })
}

#[test]
fn iterators_follow_their_set(rt: HostRuntime) -> Result<(), Fail> {
    let spec = match specification(rt.alloc()) {
        Ok(spec) => spec,
        Err(fault) => {
            assert_eq!(rt; Some(fault), None);
            return Ok(());
        }
    };
    let mut heap = Heap::new(rt.alloc());
    let rows: [(u32, &[u32], Result<Done, u32>, u32); 9] = [
        (NEW_SET, &[], done(1, 1), 2),
        (NEW_ITERATOR, &[1], done(3, 3), 3),
        (NEXT, &[3], done(0, 0), 3),
        (REMOVE, &[3], done(0, 2), 4),
        (NEW_ITERATOR, &[1], done(5, 3), 5),
        (REMOVE, &[5], done(0, 2), 6),
        (NEXT, &[3], Err(1), 6),
        (ADD, &[1, 0], done(0, 1), 7),
        (NEXT, &[5], Err(1), 7),
    ];
    for (method, args, want, count) in rows {
        let before = seen(&heap);
        let mut found = call(&mut heap, &spec, method, args);
        if found == None {
            assert_eq!(rt; seen(&heap), before, "method {method}");
            found = call(&mut heap, &spec, method, args);
        }
        assert_eq!(rt; found, Some(want), "method {method}");
        assert_eq!(rt; heap.count(), count, "method {method}");
    }
    for (object, field, want) in [
        (1, 0, 7),
        (3, 0, 1),
        (3, 1, 4),
        (5, 0, 1),
        (5, 1, 6),
        (2, 0, 0),
        (0, 0, 0),
        (8, 0, 0),
    ] {
        assert_eq!(rt; heap.get(object, field), want, "field {field} of {object}");
    }
    Ok(())
}

const CELLS: &[u8] = b"class Flag { }
class Cell {
  Flag a;
  Flag b;
  Cell() { a = new Flag(); b = a; }
  void mark() { if (a == b) { b = new Flag(); } }
}
";

#[test]
fn a_conditional_counts_as_one_statement(rt: HostRuntime) {
    let Ok(spec) = checked(rt.alloc(), CELLS) else {
        assert!(rt; false, "not read");
        return;
    };
    let mut heap = Heap::new(rt.alloc());
    let rows: [(u32, &[u32], Result<Done, u32>, u32); 3] = [
        (1, &[], done(1, 2), 2),
        (2, &[1], done(0, 2), 3),
        (2, &[1], done(0, 1), 3),
    ];
    for (method, args, want, count) in rows {
        assert_eq!(rt; call(&mut heap, &spec, method, args), Some(want));
        assert_eq!(rt; heap.count(), count);
    }
    assert_eq!(rt; (heap.get(1, 0), heap.get(1, 1)), (2, 3));
}

#[test]
fn heaps_grow_past_65535_objects(rt: HostRuntime) {
    let Ok(spec) = specification(rt.alloc()) else {
        assert!(rt; false, "not read");
        return;
    };
    let mut heap = Heap::new(rt.alloc());
    assert_eq!(rt; call(&mut heap, &spec, NEW_SET, &[]), Some(done(1, 1)));
    for _ in 0..65_600 {
        assert_eq!(rt; call(&mut heap, &spec, ADD, &[1, 0]), Some(done(0, 1)));
    }
    assert_eq!(rt; heap.count(), 65_602);
    assert_eq!(rt; heap.get(1, 0), 65_602);
}

/// A method of four parameters, 63 locals and a `return`.
fn many_locals(alloc: Global) -> Result<Vec<u8>, Memory> {
    let mut text = Vec::new(alloc);
    push_bytes(&mut text, b"class A { A m(A a, A b, A c, A v0) { ")?;
    for number in 0..63u32 {
        push_bytes(&mut text, b"A v")?;
        push_number(&mut text, u64::from(number + 1))?;
        push_bytes(&mut text, b" = v")?;
        push_number(&mut text, u64::from(number))?;
        push_bytes(&mut text, b"; ")?;
    }
    push_bytes(&mut text, b"return v63; } }")?;
    Ok(text)
}

#[test]
fn the_most_locals_are_held(rt: HostRuntime) -> Result<(), Memory> {
    let text = many_locals(rt.alloc())?;
    assert!(rt; text.len() <= 65_536);
    let Ok(spec) = checked(rt.alloc(), &text) else {
        assert!(rt; false, "not read");
        return Ok(());
    };
    let mut heap = Heap::new(rt.alloc());
    assert_eq!(rt; call(&mut heap, &spec, 0, &[]), Some(done(1, 0)));
    assert_eq!(rt; call(&mut heap, &spec, 0, &[]), Some(done(2, 0)));
    let given = call(&mut heap, &spec, 1, &[1, 1, 1, 1, 2]);
    assert_eq!(rt; given, Some(done(2, 64)));
    Ok(())
}
