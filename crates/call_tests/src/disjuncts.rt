//! What questions come to: their terms, configurations and disjuncts.
ghost use Rattle.std.specs.Prelude.{◌<◌, ◌≤◌, length};
ghost use Rattle.access_paths.specs.Fitting.{Fits};

use crate::heaps::specification;
use crate::questions::{ADD, has_clause, stale};
use crate::reading::checked;
use access_paths::{Cube, Family, Instance, Term, Var, fits};
use cv_base::List;
use derivation::{AskFault, Predicate, Reply, ask_clause, ask_update};
use easl_model::CheckedSpec;
use std::alloc::{AllocError, Global};
use std::test::Fail;

/// A variable and one of its fields, or none.
type Place = (u8, &'static [u32]);

/// Whether the term, in which the family's variables stand for the arguments, is this one.
fn stands_for(instance: &Instance, found: &Term, (variable, fields): Place) -> bool {
    match instance.args.as_slice().get(found.var.0 as usize) {
        Some(argument) => *argument == Var(variable) && found.fields.as_slice() == fields,
        None => false,
    }
}

/// Whether the predicate is one literal with these sides, in some order.
fn compares(predicate: &Predicate, same: bool, one: Place, other: Place) -> bool {
    let Predicate::Of(instance) = predicate else {
        return false;
    };
    let [literal] = instance.family.cube.literals.as_slice() else {
        return false;
    };
    literal.same == same
        && (stands_for(instance, &literal.less, one) && stands_for(instance, &literal.more, other)
            || stands_for(instance, &literal.less, other)
                && stands_for(instance, &literal.more, one))
}

/// What the update question of the family without result positions comes to.
#[tactic(auto, using(crate::proofs::Asked::none_is_result))]
fn without_result(
    alloc: Global,
    spec: &CheckedSpec,
    method: u32,
    family: &Family,
) -> Result<Reply, AskFault>
    requires method { method < length spec.now.methods }
    requires family { Fits spec.now family.now }
{
    ask_update(alloc, spec, method, family, 0)
}

/// What the first clause of the method comes to; None where it is no question.
fn first_clause(alloc: Global, text: &[u8], method: u32) -> Option<Result<Reply, AskFault>>
    requires { length text.now ≤ 65536 }
{
    let Ok(spec) = checked(alloc, text) else {
        return None;
    };
    if !has_clause(&spec, method, 1) {
        return None;
    }
    Some(ask_clause(alloc, &spec, method, 1))
}

const THREE_FIELDS: &[u8] = b"class A {
  A f;
  A g;
  A h;
  A(A x) { f = x; g = x; h = x; }
  void m(A a) { requires f == g && h == a.f && a.g == a.h; }
}
";

const FOUR_FIELDS: &[u8] = b"class A {
  A f;
  A g;
  A h;
  A k;
  A(A x) { f = x; g = x; h = x; k = x; }
  void m(A a) { requires f == g && h == k && a.f == a.g && a.h == a.f; }
}
";

#[test]
fn eight_terms_have_3278_configurations(rt: HostRuntime) {
    let Some(Ok(reply)) = first_clause(rt.alloc(), THREE_FIELDS, 1) else {
        assert!(rt; false, "a reply");
        return;
    };
    assert_eq!(rt; reply.term_count, 8);
    assert_eq!(rt; reply.case_count, 3278);
    let [one, two, three] = reply.disjuncts.as_slice() else {
        assert!(rt; false, "three disjuncts");
        return;
    };
    assert!(rt; compares(one, false, (3, &[0]), (3, &[1])));
    assert!(rt; compares(two, false, (3, &[2]), (4, &[0])));
    assert!(rt; compares(three, false, (4, &[1]), (4, &[2])));
}

#[test]
fn nine_terms_have_17059_configurations(rt: HostRuntime) {
    let Some(Ok(reply)) = first_clause(rt.alloc(), FOUR_FIELDS, 1) else {
        assert!(rt; false, "a reply");
        return;
    };
    assert_eq!(rt; reply.term_count, 9);
    assert_eq!(rt; reply.case_count, 17059);
    let [one, two, three, four] = reply.disjuncts.as_slice() else {
        assert!(rt; false, "four disjuncts");
        return;
    };
    assert!(rt; compares(one, false, (3, &[0]), (3, &[1])));
    assert!(rt; compares(two, false, (3, &[2]), (3, &[3])));
    assert!(rt; compares(three, false, (4, &[0]), (4, &[1])));
    assert!(rt; compares(four, false, (4, &[0]), (4, &[2])));
}

const TWENTY_TERMS: &[u8] = b"class A {
  A f;
  A(A x) { f = x; }
  void m(A a, A b, A c, A d) { requires a.f.f.f.f == b.f.f.f.f && c.f.f.f.f == d.f.f.f.f; }
}
";

#[test]
fn too_many_configurations_are_told(rt: HostRuntime) {
    let reply = first_clause(rt.alloc(), TWENTY_TERMS, 1);
    assert!(rt; matches!(reply, Some(Err(AskFault::Cases))));
}

/// The family of stale iterators.
pub(crate) fn stale_iterators(alloc: Global) -> Result<Family, AllocError> {
    Ok(Family {
        classes: List::from_vec(vec![in alloc; 0]?),
        cube: Cube {
            literals: List::from_vec(vec![in alloc; stale(alloc, 0)?]?),
        },
    })
}

#[test]
fn a_set_that_grows_has_two_disjuncts(rt: HostRuntime) -> Result<(), Fail> {
    let alloc = rt.alloc();
    let family = stale_iterators(alloc)?;
    let Ok(spec) = specification(alloc) else {
        assert!(rt; false, "not read");
        return Ok(());
    };
    assert!(rt; ADD < spec.method_count());
    assert!(rt; fits(&spec, &family));
    let Ok(reply) = without_result(alloc, &spec, ADD, &family) else {
        assert!(rt; false, "a reply");
        return Ok(());
    };
    assert_eq!(rt; reply.term_count, 5);
    assert_eq!(rt; reply.case_count, 4);
    let [this_set, versions] = reply.disjuncts.as_slice() else {
        assert!(rt; false, "two disjuncts");
        return Ok(());
    };
    assert!(rt; compares(this_set, true, (3, &[]), (0, &[0])));
    assert!(rt; compares(versions, false, (0, &[1]), (0, &[0, 0])));
    Ok(())
}
