//! Terms are gathered, with all their prefixes, in order and each once.
ghost use Rattle.std.specs.Prelude.{◌≡◌, ◌≤◌, [], ◌∷◌, IfSome, MatchOption, OnOk, insert, length};
ghost use Rattle.access_paths.specs.{tree_of};
ghost use Rattle.case_model.specs.{terms_of_tree};
ghost use Rattle.alias_cases.specs.{Gathers, inserted};

use access_paths::{Term, Tree};
use std::alloc::{AllocError, Global};
use std::cmp::Ordering;

/// The terms that a tree asks.
pub(crate) fn gather_tree(
    alloc: Global,
    tree: &Tree,
    list: &mut Vec<Term>,
) -> Result<(), AllocError>
    ensures { OnOk result (Gathers (terms_of_tree (tree_of tree.now)) list.old.items list.new.items) }
{
    match tree {
        Tree::Leaf(_) => Ok(()),
        Tree::Ask(first, second, one, other) => {
            gather(alloc, first, list)?;
            gather(alloc, second, list)?;
            gather_tree(alloc, one.get(), list)?;
            gather_tree(alloc, other.get(), list)?;
            Ok(())
        }
    }
}

/// A term with its prefixes.
pub(crate) fn gather(alloc: Global, term: &Term, list: &mut Vec<Term>) -> Result<(), AllocError>
    ensures { OnOk result (Gathers (term.now ∷ []) list.old.items list.new.items) }
{
    let mut prefix = Term::variable(alloc, term.var.0);
    insert(list, prefix.twin(alloc)?)?;
    'each: for field in term.fields.as_slice() {
        prefix = prefix.field(alloc, *field)?;
        insert(list, prefix.twin(alloc)?)?;
    }
    Ok(())
}

/// Puts a term where it belongs, unless it is there.
fn insert(list: &mut Vec<Term>, term: Term) -> Result<(), AllocError>
    ensures { OnOk result (list.new.items ≡ inserted term list.old.items) }
{
    match place_for(list, &term) {
        Some(place) => list.insert(place, term)?,
        None => {}
    }
    Ok(())
}

/// Where a term belongs in a list; None where it is there.
fn place_for(list: &[Term], term: &Term) -> Option<usize>
    ensures within { IfSome result (λ k. k ≤ length list.now) }
    ensures place { MatchOption result (inserted term.now list.now ≡ list.now) (λ k. inserted term.now list.now ≡ insert list.now k term.now) }
{
    'each: for (place, other) in list.iter().enumerate() {
        match term.compare(other) {
            Ordering::Less => return Some(place),
            Ordering::Equal => return None,
            Ordering::Greater => {}
        }
    }
    Some(list.len())
}
