//! Questions on sets and iterators, whose trees and families are worked out by hand.
ghost use Rattle.std.specs.Prelude.{◌≡◌, ◌<◌, ◌≤◌, length, IfSome, IsTrue};
ghost use Rattle.access_paths.specs.Arguments.{HasKnownVariables};
ghost use Rattle.access_paths.specs.Terms.{IsCube};
ghost use Rattle.weakest_pre.specs.Growing.{HasClause};

use crate::heaps::specification;
use crate::reading::checked;
use access_paths::{
    Cube, Family, Fields, Instance, Literal, SplitFault, Term, Tree, Var, family_of, fits,
};
use cv_base::{List, Memory};
use easl_model::CheckedSpec;
use smallvec::SmallVec;
use std::alloc::{AllocError, Global};
use std::cmp::Ordering;
use std::test::Fail;
use weakest_pre::{split, split_clause};

const NEXT: u32 = 2;

pub(crate) const ADD: u32 = 4;

/// The term of a variable and the positions of fields.
fn term(alloc: Global, variable: u8, fields: &[u32]) -> Result<Term, AllocError> {
    Ok(Term {
        var: Var(variable),
        fields: Fields(SmallVec::from_slice(alloc, fields)?),
    })
}

/// Whether a term is that of the variable and the fields.
pub(crate) fn is_term(found: &Term, variable: u8, fields: &[u32]) -> bool {
    found.var == Var(variable) && found.fields.as_slice() == fields
}

/// The literal that compares `x.defVer` and `x.set.ver` of an iterator.
pub(crate) fn stale(alloc: Global, variable: u8) -> Result<Literal, AllocError> {
    Ok(Literal {
        same: false,
        less: term(alloc, variable, &[1])?,
        more: term(alloc, variable, &[0, 0])?,
    })
}

/// The tree of an update question without result positions; None where it is no question.
fn tree_after(
    alloc: Global,
    spec: &CheckedSpec,
    method: u32,
    family: &Family,
) -> Option<Result<Tree, SplitFault>> {
    if method < spec.method_count() && fits(spec, family) {
        Some(split(alloc, spec, method, family, 0))
    } else {
        None
    }
}

/// Whether the method has this clause, from 1.
pub(crate) fn has_clause(spec: &CheckedSpec, method: u32, clause: u32) -> bool
    ensures method { IsTrue result → method < length spec.now.methods }
    ensures clause { IsTrue result → HasClause spec.now method clause }
{
    if method >= spec.method_count() || clause == 0 {
        return false;
    }
    spec.method(method)
        .clauses
        .get(clause as usize - 1)
        .is_some()
}

/// The tree of a clause question; None where it is no question.
fn tree_of_clause(
    alloc: Global,
    spec: &CheckedSpec,
    method: u32,
    clause: u32,
) -> Option<Result<Tree, SplitFault>> {
    if has_clause(spec, method, clause) {
        Some(split_clause(alloc, spec, method, clause))
    } else {
        None
    }
}

#[test]
fn a_set_that_grows_makes_its_iterators_stale(rt: HostRuntime) -> Result<(), Fail> {
    let alloc = rt.alloc();
    let Ok(spec) = specification(alloc) else {
        assert_eq!(rt; "read", "not read");
        return Ok(());
    };
    let family = Family {
        classes: List::from_vec(vec![in alloc; 0]?),
        cube: Cube {
            literals: List::from_vec(vec![in alloc; stale(alloc, 0)?]?),
        },
    };
    let found = tree_after(alloc, &spec, ADD, &family);
    let Some(Ok(Tree::Ask(this, set, yes, no))) = found else {
        assert!(rt; false, "a question of whose set it is");
        return Ok(());
    };
    assert!(rt; is_term(&this, 3, &[]) && is_term(&set, 0, &[0]));
    assert!(rt; matches!(yes.get(), Tree::Leaf(true)));
    let Tree::Ask(version, current, yes, no) = no.get() else {
        assert!(rt; false, "a question of the iterator's versions");
        return Ok(());
    };
    assert!(rt; is_term(version, 0, &[1]) && is_term(current, 0, &[0, 0]));
    assert!(rt; matches!((yes.get(), no.get()), (Tree::Leaf(false), Tree::Leaf(true))));
    Ok(())
}

#[test]
fn next_fails_where_the_versions_differ(rt: HostRuntime) -> Result<(), Fail> {
    let alloc = rt.alloc();
    let Ok(spec) = specification(alloc) else {
        assert_eq!(rt; "read", "not read");
        return Ok(());
    };
    let Some(Ok(Tree::Ask(version, current, yes, no))) = tree_of_clause(alloc, &spec, NEXT, 1)
    else {
        assert!(rt; false, "a question of the iterator's versions");
        return Ok(());
    };
    assert!(rt; is_term(&version, 3, &[1]) && is_term(&current, 3, &[0, 0]));
    assert!(rt; matches!((yes.get(), no.get()), (Tree::Leaf(false), Tree::Leaf(true))));
    Ok(())
}

const DEEP: &[u8] = b"class A {
  A f;
  A(A x) { f = x; }
  void m(A a) { requires f.f.f.f.f.f.f == a; }
}
";

#[test]
fn a_term_of_seven_fields_is_too_long(rt: HostRuntime) -> Result<(), Fail> {
    let alloc = rt.alloc();
    let Ok(spec) = checked(alloc, DEEP) else {
        assert_eq!(rt; "read", "not read");
        return Ok(());
    };
    let found = tree_of_clause(alloc, &spec, 1, 1);
    assert!(rt; matches!(found, Some(Err(SplitFault::Path))));
    Ok(())
}

/// The family of a cube of one literal; None where its terms are not in order.
fn family_of_one(
    alloc: Global,
    literal: Literal,
    classes: &[u32],
) -> Option<Result<Instance, Memory>> {
    if literal.less.compare(&literal.more) != Ordering::Less {
        return None;
    }
    if literal.less.var.0 >= 8 || literal.more.var.0 >= 8 {
        return None;
    }
    let Ok(literals) = vec![in alloc; literal] else {
        return None;
    };
    let cube = Cube {
        literals: List::from_vec(literals),
    };
    Some(family_of(alloc, &cube, classes))
}

#[test]
fn a_stale_receiver_is_a_stale_iterator(rt: HostRuntime) -> Result<(), Fail> {
    let alloc = rt.alloc();
    let literal = stale(alloc, 3)?;
    let Some(Ok(instance)) = family_of_one(alloc, literal, &[0, 0, 0, 0]) else {
        assert!(rt; false, "a family");
        return Ok(());
    };
    assert_eq!(rt; instance.args.as_slice(), [Var(3)].as_slice());
    assert_eq!(rt; instance.family.classes.as_slice(), [0].as_slice());
    let [literal] = instance.family.cube.literals.as_slice() else {
        assert!(rt; false, "one literal");
        return Ok(());
    };
    assert!(rt;
        !literal.same && is_term(&literal.less, 0, &[1]) && is_term(&literal.more, 0, &[0, 0])
    );
    Ok(())
}
