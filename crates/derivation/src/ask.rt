//! One question: its tree, term list, configurations, care list and disjuncts.
ghost use Rattle.std.specs.Prelude.{◌≡◌, ◌<◌, Err, MatchResult, Some, length, slice_get};
ghost use Rattle.std.specs.Option.{option_copied};
ghost use Rattle.access_paths.specs.{AreResults, Fits, tree_of};
ghost use Rattle.case_model.specs.{AreTyped, question_variables, terms_of_tree};
ghost use Rattle.derivation.specs.Replies.{AreItsCases, ClauseReplies, ComesTo, UpdateReplies};
ghost use Rattle.easl_model.specs.{condition_of};
ghost use Rattle.easl_model.specs.declared.form.Method.{Method};
ghost use Rattle.easl_model.specs.declared.form.Test.{Test};
ghost use Rattle.weakest_pre.specs.{HasClause, IsClauseAt};

use crate::cases::counted;
use crate::chosen::{classes_of, predicates};
use crate::reply::{AskFault, Reply};
use access_paths::{Family, Tree};
use alias_cases::{Cases, configurations, terms};
use cube_cover::disjuncts;
use easl_model::CheckedSpec;
use std::alloc::Global;
use weakest_pre::{split, split_clause};

/// When the clause of this number is false; clauses are counted from 1. Each fault comes exactly by the rule, `Path`
/// before `Cases` and this before `Cover`, or `Memory`.
pub fn ask_clause(
    alloc: Global,
    spec: &CheckedSpec,
    method: u32,
    clause: u32,
) -> Result<Reply, AskFault>
    requires method { method < length spec.now.methods }
    requires clause { HasClause spec.now method clause }
    ensures { (m : Method) (test : Test) → IsClauseAt spec.now method clause m test
        → ClauseReplies spec.now m (condition_of test) result }
{
    let tree = split_clause(alloc, spec, method, clause)?;
    reply(alloc, spec, method, None, &tree)
}

/// When the family is true after the method. `results` has bit k set where x(k+1) stands for the call's result. Each
/// fault comes exactly by the rule, `Path` before `Cases` and this before `Cover`, or `Memory`.
pub fn ask_update(
    alloc: Global,
    spec: &CheckedSpec,
    method: u32,
    family: &Family,
    results: u32,
) -> Result<Reply, AskFault>
    requires method { method < length spec.now.methods }
    requires family { Fits spec.now family.now }
    requires results { (m : Method) → slice_get spec.now.methods method ≡ Some m → AreResults m family.now results }
    ensures { (m : Method) → slice_get spec.now.methods method ≡ Some m → UpdateReplies spec.now m family.now results result }
{
    let tree = split(alloc, spec, method, family, results)?;
    reply(alloc, spec, method, Some(family), &tree)
}

/// What this tree comes to; `family` is that of an update question.
fn reply(
    alloc: Global,
    spec: &CheckedSpec,
    method: u32,
    family: Option<&Family>,
    tree: &Tree,
) -> Result<Reply, AskFault>
    requires method { method < length spec.now.methods }
    requires typed { (m : Method) → slice_get spec.now.methods method ≡ Some m
        → AreTyped spec.now (question_variables m (option_copied family)) (terms_of_tree (tree_of tree.now)) }
    ensures { (m : Method) → slice_get spec.now.methods method ≡ Some m
        → ComesTo spec.now m (option_copied family.entry) (tree_of tree.now) result }
{
    let called = spec.method(method);
    let cases = cases_of(alloc, spec, method, family, tree)?;
    let care = counted(alloc, spec, method, family, &cases)?;
    let cubes = disjuncts(alloc, tree, &cases, care.as_slice())?;
    let classes = classes_of(alloc, called, family)?;
    Ok(Reply {
        term_count: cases.terms.list.len(),
        case_count: cases.list.len(),
        disjuncts: predicates(alloc, cubes.as_slice(), classes.as_slice())?,
    })
}

/// The configurations of this tree's terms.
fn cases_of(
    alloc: Global,
    spec: &CheckedSpec,
    method: u32,
    family: Option<&Family>,
    tree: &Tree,
) -> Result<Cases, AskFault>
    requires method { method < length spec.now.methods }
    requires typed { (m : Method) → slice_get spec.now.methods method ≡ Some m
        → AreTyped spec.now (question_variables m (option_copied family)) (terms_of_tree (tree_of tree.now)) }
    ensures { (m : Method) → slice_get spec.now.methods method ≡ Some m → MatchResult result
        (λ cases. AreItsCases spec.now m (option_copied family.entry) (tree_of tree.now) cases.terms.list cases.terms.classes cases.list)
        (λ fault. ComesTo spec.now m (option_copied family.entry) (tree_of tree.now) (Err fault)) }
{
    let terms = terms(alloc, spec, method, family, tree, family.is_some())?;
    Ok(configurations(alloc, &terms)?)
}
