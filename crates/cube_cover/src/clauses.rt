//! The configurations in which all clauses of a method are true.
ghost use Rattle.std.specs.Prelude.{◌≡◌, ◌<◌, ◌++◌, [], ◌∷◌, All, cond, length, map, slice_get, slice_index, IfOk, IfSome, OnOk};
ghost use Rattle.std.specs.List.{list_all};
ghost use Rattle.easl_model.specs.{condition_of, conditions};
ghost use Rattle.case_model.specs.Care as told;
ghost use Rattle.case_model.specs.Configurations as list;
ghost use Rattle.case_model.specs.{HasTerms, by_blocks, first_variable, term_of, terms_of_clauses};
ghost use Rattle.cube_cover.specs.{AreCases, configurations_at};

use crate::blocks::{block_at, place_of};
use access_paths::Term;
use alias_cases::Cases;
use cv_base::Memory;
use easl_model::{CheckedSpec, Method, Reach, Test};
use std::alloc::Global;

/// The numbers of the configurations in which all clauses of the method are true, rising. `Memory` where there is
/// none left.
pub fn care(
    alloc: Global,
    spec: &CheckedSpec,
    method: u32,
    cases: &Cases,
) -> Result<Vec<u32>, Memory>
    requires method { method < length spec.now.methods }
    requires cases { AreCases cases.now }
    requires terms { IfSome (slice_get spec.now.methods method) (λ m. HasTerms cases.now.terms.list (terms_of_clauses m)) }
    ensures care { IfOk result (λ numbers. IfSome (slice_get spec.now.methods method)
        (λ m. configurations_at cases.now.list numbers.items ≡ told.care_list m cases.now.terms.list cases.now.list)) }
    ensures within { IfOk result (λ numbers. All (λ k. k < length cases.now.list) numbers.items) }
{
    let called = spec.method(method);
    let terms = cases.terms.list.as_slice();
    let mut numbers = Vec::new(alloc);
    'each: for (number, blocks) in cases.list.as_slice().iter().enumerate() {
        let so = clauses_hold(terms, blocks.as_slice(), called);
        put_if(so, &mut numbers, number as u32)?;
    }
    Ok(numbers)
}

/// Puts a number at the end, if it is so.
fn put_if(so: bool, numbers: &mut Vec<u32>, number: u32) -> Result<(), Memory>
    ensures { OnOk result (numbers.new.items ≡ numbers.old.items ++ cond so (number ∷ []) []) }
{
    if so {
        return numbers.push(number).map_err(|_| Memory);
    }
    Ok(())
}

/// Whether all clauses of the method are true.
fn clauses_hold(terms: &[Term], blocks: &[u32], method: &Method) -> bool
    ensures { result ≡ told.clauses_hold method.now (by_blocks terms.now blocks.now) }
{
    method.constructor || are_true(terms, blocks, 3, method.clauses.as_slice())
}

/// Whether all these clauses are true.
#[tactic(auto, using(std::proofs::lemmas::List::drop_more))]
fn are_true(terms: &[Term], blocks: &[u32], first: u8, clauses: &[Test]) -> bool
    ensures { result ≡ list_all (told.condition_holds first (by_blocks terms.now blocks.now)) (map condition_of clauses.now) }
{
    'each: for clause in clauses {
        if !condition_holds(terms, blocks, first, clause) {
            return false;
        }
    }
    true
}

/// Whether the condition is true, slot 0 being the first variable.
#[cycle(condition)]
fn condition_holds(terms: &[Term], blocks: &[u32], first: u8, test: &Test) -> bool
    ensures { result ≡ told.condition_holds first (by_blocks terms.now blocks.now) (condition_of test.now) }
{
    match test {
        Test::Same(left, right) => are_joined(terms, blocks, first, left, right),
        Test::Differ(left, right) => !are_joined(terms, blocks, first, left, right),
        Test::All(tests) => all_hold(terms, blocks, first, tests.as_slice()),
        Test::Any(tests) => any_holds(terms, blocks, first, tests.as_slice()),
    }
}

#[cycle(condition)]
#[tactic(auto, using(std::proofs::lemmas::List::drop_more))]
fn all_hold(terms: &[Term], blocks: &[u32], first: u8, tests: &[Test]) -> bool
    ensures { result ≡ told.all_hold first (by_blocks terms.now blocks.now) (conditions (map condition_of tests.now)) }
{
    'each: for test in tests {
        if !condition_holds(terms, blocks, first, test) {
            return false;
        }
    }
    true
}

#[cycle(condition)]
#[tactic(auto, using(std::proofs::lemmas::List::drop_more))]
fn any_holds(terms: &[Term], blocks: &[u32], first: u8, tests: &[Test]) -> bool
    ensures { result ≡ told.any_holds first (by_blocks terms.now blocks.now) (conditions (map condition_of tests.now)) }
{
    'each: for test in tests {
        if condition_holds(terms, blocks, first, test) {
            return true;
        }
    }
    false
}

/// Whether the two paths lead to one object.
fn are_joined(terms: &[Term], blocks: &[u32], first: u8, left: &Reach, right: &Reach) -> bool
    ensures { result ≡ by_blocks terms.now blocks.now (term_of first left.now) (term_of first right.now) }
{
    block_of(terms, blocks, first, left) == block_of(terms, blocks, first, right)
}

/// The block of what the path leads to.
fn block_of(terms: &[Term], blocks: &[u32], first: u8, path: &Reach) -> u32
    ensures { result ≡ slice_index blocks.now (list.place_of terms.now (term_of first path.now)) }
{
    let variable = u64::from(first) + u64::from(path.slot);
    block_at(blocks, place_of(terms, variable, path.fields.as_slice()))
}
