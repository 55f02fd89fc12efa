//! The terms of a method's clauses, where slot 0 is `this`.
ghost use Rattle.std.specs.Prelude.{◌≡◌, [], ◌∷◌, IfOk, OnOk, map};
ghost use Rattle.case_model.specs.{terms_of_condition, terms_of_conditions};
ghost use Rattle.case_model.specs.TermLists as told;
ghost use Rattle.easl_model.specs.{condition_of, conditions};
ghost use Rattle.alias_cases.specs.{Gathers};
ghost use Rattle.alias_cases.specs.Short as short;

use crate::gathering::gather;
use access_paths::{Fields, Term, Var};
use easl_model::{Reach, Test};
use smallvec::SmallVec;
use std::alloc::{AllocError, Global};

#[cycle(gather_tests)]
fn gather_test(alloc: Global, test: &Test, list: &mut Vec<Term>) -> Result<(), AllocError>
    ensures { OnOk result (Gathers (terms_of_condition 3 (condition_of test.now)) list.old.items list.new.items) }
{
    match test {
        Test::Same(left, right) => gather_sides(alloc, left, right, list),
        Test::Differ(left, right) => gather_sides(alloc, left, right, list),
        Test::All(tests) => gather_tests(alloc, tests.as_slice(), list),
        Test::Any(tests) => gather_tests(alloc, tests.as_slice(), list),
    }
}

/// The terms of these clauses, or of the conditions that one has.
#[cycle(gather_tests)]
pub(crate) fn gather_tests(
    alloc: Global,
    tests: &[Test],
    list: &mut Vec<Term>,
) -> Result<(), AllocError>
    ensures { OnOk result (Gathers (terms_of_conditions 3 (conditions (map condition_of tests.now))) list.old.items list.new.items) }
{
    'each: for test in tests {
        gather_test(alloc, test, list)?;
    }
    Ok(())
}

fn gather_sides(
    alloc: Global,
    left: &Reach,
    right: &Reach,
    list: &mut Vec<Term>,
) -> Result<(), AllocError>
    ensures { OnOk result (Gathers (told.term_of 3 left.now ∷ told.term_of 3 right.now ∷ []) list.old.items list.new.items) }
{
    let first = term_of(alloc, left)?;
    gather(alloc, &first, list)?;
    let second = term_of(alloc, right)?;
    gather(alloc, &second, list)?;
    Ok(())
}

/// What is reached from a slot, as a term. A slot that no variable's number has room for would be want of memory.
fn term_of(alloc: Global, reach: &Reach) -> Result<Term, AllocError>
    ensures { IfOk result (λ t. t ≡ told.term_of 3 reach.now) }
{
    let Some(number) = reach.slot.checked_add(3) else {
        return Err(AllocError);
    };
    let Ok(number) = u8::try_from(number) else {
        return Err(AllocError);
    };
    Ok(Term {
        var: Var(number),
        fields: Fields(SmallVec::from_slice(alloc, reach.fields.as_slice())?),
    })
}

/// Whether each term of the condition has at most 6 fields.
#[cycle(short)]
pub(crate) fn is_short(test: &Test) -> bool
    ensures { result ≡ short.is_short (condition_of test.now) }
{
    match test {
        Test::Same(left, right) => left.fields.len() <= 6 && right.fields.len() <= 6,
        Test::Differ(left, right) => left.fields.len() <= 6 && right.fields.len() <= 6,
        Test::All(tests) => are_short(tests.as_slice()),
        Test::Any(tests) => are_short(tests.as_slice()),
    }
}

#[cycle(short)]
#[tactic(auto, using(std::proofs::lemmas::List::drop_more))]
pub(crate) fn are_short(tests: &[Test]) -> bool
    ensures { result ≡ short.are_short (conditions (map condition_of tests.now)) }
{
    'each: for test in tests {
        if !is_short(test) {
            return false;
        }
    }
    true
}
