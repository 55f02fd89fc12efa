//! Where literals and trees are true, among the configurations that numbers name.
ghost use Rattle.std.specs.Prelude.{◌≡◌, [], get_or, map, not, IfOk};
ghost use Rattle.access_paths.specs.{answer, literal_holds, tree_of};
ghost use Rattle.case_model.specs.Configurations as list;
ghost use Rattle.case_model.specs.{by_blocks};
ghost use Rattle.cube_cover.specs.{answers_of, configurations_at, truths_of};

use crate::blocks::{block_at, place_of};
use crate::put::put_last;
use access_paths::{Literal, Term, Tree};
use cv_base::Memory;
use sqlite_items::Items;
use std::alloc::Global;

/// In which of the named configurations the literal is true.
pub(crate) fn truths_of(
    alloc: Global,
    terms: &[Term],
    cases: &[Items<u32>],
    care: &[u32],
    literal: &Literal,
) -> Result<Vec<bool>, Memory>
    ensures { IfOk result (λ truths. truths.items ≡ truths_of terms.now (configurations_at cases.now care.now) literal.now) }
{
    let less = place_of_term(terms, &literal.less);
    let more = place_of_term(terms, &literal.more);
    let mut truths = Vec::new(alloc);
    'each: for number in care {
        let truth = holds(terms, blocks_of(cases, *number), literal, less, more);
        put_last(&mut truths, truth)?;
    }
    Ok(truths)
}

/// What the tree answers in each of the named configurations.
pub(crate) fn answers_of(
    alloc: Global,
    terms: &[Term],
    cases: &[Items<u32>],
    care: &[u32],
    tree: &Tree,
) -> Result<Vec<bool>, Memory>
    ensures { IfOk result (λ answers. answers.items ≡ answers_of terms.now (configurations_at cases.now care.now) (tree_of tree.now)) }
{
    let mut answers = Vec::new(alloc);
    'each: for number in care {
        let truth = answer(terms, blocks_of(cases, *number), tree);
        put_last(&mut answers, truth)?;
    }
    Ok(answers)
}

/// The same truth in each of the named configurations.
pub(crate) fn everywhere(alloc: Global, care: &[u32], truth: bool) -> Result<Vec<bool>, Memory>
    ensures { IfOk result (λ truths. truths.items ≡ map (λ k. truth) care.now) }
{
    match care.iter().map(|_| truth).collect(alloc) {
        Ok(truths) => Ok(truths),
        Err(_) => Err(Memory),
    }
}

/// The opposite of each.
pub(crate) fn opposite(alloc: Global, truths: &[bool]) -> Result<Vec<bool>, Memory>
    ensures { IfOk result (λ others. others.items ≡ map not truths.now) }
{
    match truths.iter().map(|truth| !*truth).collect(alloc) {
        Ok(others) => Ok(others),
        Err(_) => Err(Memory),
    }
}

/// The configuration of a number.
fn blocks_of(cases: &[Items<u32>], number: u32) -> &[u32]
    ensures { result.now ≡ get_or cases.now number [] }
{
    match cases.get(number as usize) {
        Some(blocks) => blocks.as_slice(),
        None => &[],
    }
}

/// Where the term stands; the length of the list where it does not.
fn place_of_term(terms: &[Term], term: &Term) -> usize
    ensures { result ≡ list.place_of terms.now term.now }
{
    place_of(terms, u64::from(term.var.0), term.fields.as_slice())
}

/// Whether the literal, whose terms stand at these places, is true.
fn holds(terms: &[Term], blocks: &[u32], literal: &Literal, less: usize, more: usize) -> bool
    requires less { less ≡ list.place_of terms.now literal.now.less }
    requires more { more ≡ list.place_of terms.now literal.now.more }
    ensures { result ≡ literal_holds (by_blocks terms.now blocks.now) literal.now }
{
    let one = block_at(blocks, less) == block_at(blocks, more);
    one == literal.same
}

/// What the tree answers in the configuration.
fn answer(terms: &[Term], blocks: &[u32], tree: &Tree) -> bool
    ensures { result ≡ answer (by_blocks terms.now blocks.now) (tree_of tree.now) }
{
    match tree {
        Tree::Leaf(value) => *value,
        Tree::Ask(left, right, same, other) => {
            if are_joined(terms, blocks, left, right) {
                answer(terms, blocks, same.get())
            } else {
                answer(terms, blocks, other.get())
            }
        }
    }
}

/// Whether the two terms are joined.
fn are_joined(terms: &[Term], blocks: &[u32], left: &Term, right: &Term) -> bool
    ensures { result ≡ by_blocks terms.now blocks.now left.now right.now }
{
    block_at(blocks, place_of_term(terms, left)) == block_at(blocks, place_of_term(terms, right))
}
