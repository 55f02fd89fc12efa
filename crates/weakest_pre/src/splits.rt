//! The trees of update questions and of clause questions.
ghost use Rattle.std.specs.Prelude.{◌≡◌, ◌-◌, ◌<◌, ◌≤◌, Some, length, slice_get, IfOk};
ghost use Rattle.easl_model.specs.{condition_of};
ghost use Rattle.easl_model.specs.declared.form.Method.{Method};
ghost use Rattle.easl_model.specs.declared.form.Test.{Test};
ghost use Rattle.access_paths.specs.{AreResults, Fits, tree_of};
ghost use Rattle.question_model.specs.{TellsAfter, TellsFalse};
ghost use Rattle.weakest_pre.specs.{HasClause, IsClauseAt, IsClauseSplit, IsSplit};

use crate::branch::Branch;
use crate::grow::{Question, grow};
use crate::stop::Stop;
use access_paths::{Family, SplitFault, Tree};
use easl_model::{CheckedSpec, Method, Test};
use question_model::Answer;
use std::alloc::Global;

/// Whether a family's cube is true after a method.
#[derive(Drop)]
struct Update<'a> {
    spec: &'a CheckedSpec,
    method: &'a Method,
    family: &'a Family,
    results: u32,
}

impl Question for Update<'_> {
    ghost use Rattle.std.specs.Prelude.{length};
    ghost use Rattle.easl_model.specs.{MethodInRange, MethodKeepsLimits};
    ghost use Rattle.question_model.specs.{update};
    ghost use Rattle.weakest_pre.specs.Running.{most};

    ghost ready = { λ q. MethodInRange (length q.spec.now.classes) q.method.now × MethodKeepsLimits q.spec.now q.method.now };

    ghost comes = { λ q answers. update q.spec.now most answers q.method.now q.family.now q.results };

    fn run(&self, alloc: Global, answers: &[Answer]) -> Result<bool, Stop> {
        let branch = Branch {
            alloc,
            spec: self.spec,
            answers,
        };
        branch.update(self.method, self.family, self.results)
    }
}

/// Whether a clause of a method is false.
#[derive(Drop)]
struct Falsity<'a> {
    spec: &'a CheckedSpec,
    method: &'a Method,
    clause: &'a Test,
}

impl Question for Falsity<'_> {
    ghost use Rattle.std.specs.Prelude.{length};
    ghost use Rattle.easl_model.specs.{MethodInRange, condition_of};
    ghost use Rattle.question_model.specs.{fails};
    ghost use Rattle.weakest_pre.specs.Running.{most};

    ghost ready = { λ q. MethodInRange (length q.spec.now.classes) q.method.now };

    ghost comes = { λ q answers. fails q.spec.now most answers q.method.now (condition_of q.clause.now) };

    fn run(&self, alloc: Global, answers: &[Answer]) -> Result<bool, Stop> {
        let branch = Branch {
            alloc,
            spec: self.spec,
            answers,
        };
        branch.fails(self.method, self.clause)
    }
}

/// The tree that tells whether the family's cube is true after the method. `results` has bit k set where x(k+1) stands
/// for the call's result. `Path` comes exactly where a term of 7 fields arises on some branch, `Memory` where memory was
/// wanted and not found.
pub fn split(
    alloc: Global,
    spec: &CheckedSpec,
    method: u32,
    family: &Family,
    results: u32,
) -> Result<Tree, SplitFault>
    requires method { method < length spec.now.methods }
    requires family { Fits spec.now family.now }
    requires results { (m : Method) → slice_get spec.now.methods method ≡ Some m → AreResults m family.now results }
    ensures tree { (m : Method) → slice_get spec.now.methods method ≡ Some m → IsSplit spec.now m family.now results result }
    ensures tells { (m : Method) → slice_get spec.now.methods method ≡ Some m
        → IfOk result (λ t. TellsAfter spec.now m family.now results (tree_of t)) }
{
    let question = Update {
        spec,
        method: spec.method(method),
        family,
        results,
    };
    grow(alloc, &question)
}

/// The clause of this number, from 1.
fn clause_at(method: &Method, clause: u32) -> &Test
    requires some { 0 < clause }
    requires there { clause ≤ length method.now.clauses }
    ensures { slice_get method.now.clauses (clause - 1) ≡ Some result.now }
{
    &method.clauses.as_slice()[clause as usize - 1]
}

/// The tree that tells whether the clause is false before the call; clauses are counted from 1. `Path` comes exactly where
/// a term of 7 fields arises on some branch, `Memory` where memory was wanted and not found.
pub fn split_clause(
    alloc: Global,
    spec: &CheckedSpec,
    method: u32,
    clause: u32,
) -> Result<Tree, SplitFault>
    requires method { method < length spec.now.methods }
    requires clause { HasClause spec.now method clause }
    ensures tree { (m : Method) (test : Test) → IsClauseAt spec.now method clause m test
        → IsClauseSplit spec.now m (condition_of test) result }
    ensures tells { (m : Method) (test : Test) → IsClauseAt spec.now method clause m test
        → IfOk result (λ t. TellsFalse spec.now m (condition_of test) (tree_of t)) }
{
    let called = spec.method(method);
    let question = Falsity {
        spec,
        method: called,
        clause: clause_at(called, clause),
    };
    grow(alloc, &question)
}
