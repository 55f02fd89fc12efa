//! The term list of a question.
ghost use Rattle.std.specs.Prelude.{◌≡◌, ◌<◌, [], Some, true, if◌then◌else◌, length, slice_get, IfOk, IsErrOf, OnOk};
ghost use Rattle.std.specs.Bool.{OnFalse, OnTrue};
ghost use Rattle.std.specs.Option.{option_copied};
ghost use Rattle.access_paths.specs.{tree_of};
ghost use Rattle.case_model.specs.{AreTermsOf, AreTyped, HasLongTerm, HaveClasses, question_variables, terms_asked, terms_of_clauses, terms_of_tree};
ghost use Rattle.alias_cases.specs.{Gathers};
ghost use Rattle.easl_model.specs.declared.form.Method.{Method as MethodForm};

use crate::case::Terms;
use crate::classes::classes_of;
use crate::clauses::{are_short, gather_tests};
use crate::gathering::gather_tree;
use access_paths::{Family, SplitFault, Term, Tree};
use easl_model::{CheckedSpec, Method};
use sqlite_items::Items;
use std::alloc::{AllocError, Global};

/// The term list of a question: all terms that the tree asks, with `with_clauses` those of the method's clauses too,
/// and their prefixes. `family` is that of an update question. Path exactly where a clause that is asked for has a term
/// of 7 fields, or Memory.
pub fn terms(
    alloc: Global,
    spec: &CheckedSpec,
    method: u32,
    family: Option<&Family>,
    tree: &Tree,
    with_clauses: bool,
) -> Result<Terms, SplitFault>
    requires method { method < length spec.now.methods }
    requires typed { (m : MethodForm) → slice_get spec.now.methods method ≡ Some m → AreTyped spec.now (question_variables m (option_copied family)) (terms_of_tree (tree_of tree.now)) }
    ensures terms { (m : MethodForm) → slice_get spec.now.methods method ≡ Some m → IfOk result (λ terms. AreTermsOf (terms_asked m (tree_of tree.now) with_clauses) terms.list) }
    ensures classes { (m : MethodForm) → slice_get spec.now.methods method ≡ Some m → IfOk result (λ terms. HaveClasses spec.now (question_variables m (option_copied family.entry)) terms.list terms.classes) }
    ensures short { (m : MethodForm) → slice_get spec.now.methods method ≡ Some m → IfOk result (λ _. with_clauses ≡ true → ¬ HasLongTerm (terms_of_clauses m)) }
    ensures path { (m : MethodForm) → slice_get spec.now.methods method ≡ Some m → IsErrOf result SplitFault.Path → (with_clauses ≡ true) × HasLongTerm (terms_of_clauses m) }
{
    let asked = spec.method(method);
    if with_clauses && !has_short_clauses(asked) {
        return Err(SplitFault::Path);
    }
    let list = asked_terms(alloc, asked, tree, with_clauses)?;
    let classes = classes_of(alloc, spec, asked, family, &list)?;
    Ok(Terms {
        list: Items::from_vec(list),
        classes,
    })
}

/// Whether each term of the method's clauses has at most 6 fields.
fn has_short_clauses(method: &Method) -> bool
    ensures short { OnTrue result (¬ HasLongTerm (terms_of_clauses method.now)) }
    ensures long { OnFalse result (HasLongTerm (terms_of_clauses method.now)) }
{
    if method.constructor {
        return true;
    }
    are_short(method.clauses.as_slice())
}

/// The terms that are asked, with their prefixes.
fn asked_terms(
    alloc: Global,
    method: &Method,
    tree: &Tree,
    with_clauses: bool,
) -> Result<Vec<Term>, AllocError>
    ensures { IfOk result (λ list. AreTermsOf (terms_asked method.now (tree_of tree.now) with_clauses) list.items) }
{
    let mut list = Vec::new(alloc);
    gather_tree(alloc, tree, &mut list)?;
    gather_clauses(alloc, method, with_clauses, &mut list)?;
    Ok(list)
}

/// The terms of the method's clauses, where they are asked for.
fn gather_clauses(
    alloc: Global,
    method: &Method,
    with_clauses: bool,
    list: &mut Vec<Term>,
) -> Result<(), AllocError>
    ensures { OnOk result (Gathers (if with_clauses then terms_of_clauses method.now else []) list.old.items list.new.items) }
{
    if !with_clauses {
        return Ok(());
    }
    if method.constructor {
        return Ok(());
    }
    gather_tests(alloc, method.clauses.as_slice(), list)
}
