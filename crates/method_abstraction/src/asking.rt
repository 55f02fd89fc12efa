//! The questions in the order of asking.
ghost use Rattle.std.specs.Prelude.{◌≡◌, ◌≤◌, ◌++◌, ◌∷◌, [], IfOk, OnOk, if◌then◌else◌, length, map, slice_get};
ghost use Rattle.std.specs.List.{range_with_len};
ghost use Rattle.method_abstraction.specs.Asking as told;
ghost use Rattle.method_abstraction.specs.declared.entry.Question.TheVariants.{Clause, Update};

use crate::entry::Question;
use access_paths::Family;
use cv_base::Memory;
use easl_model::{CheckedSpec, Method};
use std::alloc::Global;

fn push(questions: &mut Vec<Question>, question: Question) -> Result<(), Memory>
    ensures { OnOk result (questions.new.items ≡ questions.old.items ++ question ∷ []) }
{
    match questions.push(question) {
        Ok(()) => Ok(()),
        Err(_) => Err(Memory),
    }
}

/// Adds the question, where it is asked.
fn push_where(questions: &mut Vec<Question>, asked: bool, question: Question) -> Result<(), Memory>
    ensures { OnOk result (questions.new.items ≡ questions.old.items ++ (if asked then question ∷ [] else [])) }
{
    if asked {
        return push(questions, question);
    }
    Ok(())
}

/// How many clauses the method has; a constructor has none.
fn clause_count(method: &Method) -> u32
    requires { length method.now.clauses ≤ 16 }
    ensures count { result ≡ told.clause_count method.now }
    ensures few { result ≤ 16 }
{
    if method.constructor {
        return 0;
    }
    method.clauses.len() as u32
}

/// Adds a question for each of so many clauses of the method.
fn push_clauses(questions: &mut Vec<Question>, method: u32, count: u32) -> Result<(), Memory>
    requires { count ≤ 16 }
    ensures { OnOk result (questions.new.items ≡ questions.old.items
        ++ map (λ k. Clause method k) (range_with_len 1 count)) }
{
    'each: for index in 0..count {
        let clause = index + 1;
        push(questions, Question::Clause { method, clause })?;
    }
    Ok(())
}

/// The questions of all clauses, by method and clause. Memory is the only error.
pub fn clause_questions(alloc: Global, spec: &CheckedSpec) -> Result<Vec<Question>, Memory>
    ensures { IfOk result (λ v. v.items ≡ told.clause_questions spec.now) }
{
    let mut questions = Vec::new(alloc);
    'each: for number in 0..spec.method_count() {
        push_clauses(&mut questions, number, clause_count(spec.method(number)))?;
    }
    Ok(questions)
}

/// Whether the method's result is of the class of the family's variable, where there is one.
fn gives(method: &Method, family: &Family, variable: usize) -> bool
    ensures { result ≡ told.gives method.now (slice_get family.now.classes variable) }
{
    match family.classes.as_slice().get(variable) {
        Some(class) => method.result == Some(*class),
        None => false,
    }
}

/// Whether the method's result may stand at each position whose bit is set.
fn may_stand(method: &Method, family: &Family, results: u32) -> bool
    ensures { result ≡ told.may_stand method.now family.now results }
{
    (results % 2 != 1 || gives(method, family, 0))
        && (results / 2 % 2 != 1 || gives(method, family, 1))
        && (results / 2 / 2 % 2 != 1 || gives(method, family, 2))
}

/// Adds the questions on the family of this number after the method, one for each set of result positions.
fn push_updates(
    questions: &mut Vec<Question>,
    number: u32,
    method: &Method,
    family_number: u32,
    family: &Family,
) -> Result<(), Memory>
    ensures { OnOk result (questions.new.items ≡ questions.old.items
        ++ map (λ results. Update number results family_number) (told.result_sets method.now family.now)) }
{
    'each: for results in 0..8 {
        let question = Question::Update {
            method: number,
            results,
            family: family_number,
        };
        push_where(questions, may_stand(method, family, results), question)?;
    }
    Ok(())
}

/// The questions on the family of this number, by method and set of result positions. Memory is the only error.
pub fn update_questions(
    alloc: Global,
    spec: &CheckedSpec,
    number: u32,
    family: &Family,
) -> Result<Vec<Question>, Memory>
    ensures { IfOk result (λ v. v.items ≡ told.updates_by number family.now 0 spec.now.methods) }
{
    let mut questions = Vec::new(alloc);
    'each: for method in 0..spec.method_count() {
        push_updates(&mut questions, method, spec.method(method), number, family)?;
    }
    Ok(questions)
}
