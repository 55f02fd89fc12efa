//! Requires clauses: conditions on the objects that paths lead to.
ghost use Rattle.std.specs.Prelude.{◌≡◌, ◌<◌, ◌^◌, map, length};
ghost use Rattle.easl_model.specs.{condition_of, conditions};
ghost use Rattle.easl_heap.specs.Clause as spec;

use crate::object::Object;
use crate::paths::reached;
use easl_model::Test;

/// Whether the condition is true.
#[cycle(clause)]
pub fn holds(objects: &[Object], slots: &[u32], test: &Test) -> bool
    ensures { result ≡ spec.holds objects.now slots.now (condition_of test.now) }
{
    match test {
        Test::Same(left, right) => reached(objects, slots, left) == reached(objects, slots, right),
        Test::Differ(left, right) => {
            reached(objects, slots, left) != reached(objects, slots, right)
        }
        Test::All(tests) => all_hold(objects, slots, tests.as_slice()),
        Test::Any(tests) => any_holds(objects, slots, tests.as_slice()),
    }
}

#[cycle(clause)]
#[tactic(auto, using(std::proofs::lemmas::List::drop_more))]
fn all_hold(objects: &[Object], slots: &[u32], tests: &[Test]) -> bool
    ensures { result ≡ spec.all_hold objects.now slots.now (conditions (map condition_of tests.now)) }
{
    'each: for test in tests {
        if !holds(objects, slots, test) {
            return false;
        }
    }
    true
}

#[cycle(clause)]
#[tactic(auto, using(std::proofs::lemmas::List::drop_more))]
fn any_holds(objects: &[Object], slots: &[u32], tests: &[Test]) -> bool
    ensures { result ≡ spec.any_holds objects.now slots.now (conditions (map condition_of tests.now)) }
{
    'each: for test in tests {
        if holds(objects, slots, test) {
            return true;
        }
    }
    false
}

/// The first false clause, from 1. Within the limits there are a few.
#[tactic(auto, using(std::proofs::lemmas::List::drop_more))]
pub fn first_false(objects: &[Object], slots: &[u32], clauses: &[Test]) -> Option<u32>
    ensures { length clauses.now < 2 ^ 32 → result ≡ spec.first_false objects.now slots.now (map condition_of clauses.now) }
{
    'each: for (before, clause) in clauses.iter().enumerate() {
        if !holds(objects, slots, clause) {
            return Some(u32::try_from(before + 1).unwrap_or(u32::MAX));
        }
    }
    None
}
