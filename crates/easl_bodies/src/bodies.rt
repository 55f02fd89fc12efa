//! The faults of bodies.
ghost use Rattle.std.specs.Prelude.{◌≡◌, IfOk, OnOk, map};
ghost use Rattle.std.specs.Option.{option_copied, option_map};
ghost use Rattle.easl_model.specs.{block_of, clause_of, clauses, first_with, start_of, written_of};
ghost use Rattle.easl_model.specs.BodyFaults as told;
ghost use Rattle.easl_model.specs.Faults.{comes_before};
ghost use Rattle.easl_model.specs.Paths as paths_told;

use crate::context::{assign, copy_of, declare, has_unset, is_declared, join, start_of};
use crate::fault::{note, note_if};
use crate::names::{class_named, class_of, field_named};
use crate::paths::{field_of_this, from_this_to_owner, is_this, target_of};
use crate::values::{
    faults_of_clause, faults_of_value, faults_within, field_unready, is_opaque, no_class, no_name,
    place_of_value,
};
use easl_model::{Code, Context, Fault, Path, Requires, Rule, Spec, Step, Target, Value, Word};
use std::alloc::{AllocError, Global};

/// A local is named as a variable in scope.
fn named_twice(context: &Context, name: &Word, found: Option<Fault>) -> Option<Fault>
    ensures { result ≡ first_with comes_before found (told.named_twice context.now name.now) }
{
    let is_second = is_declared(context, &name.name);
    note_if(found, is_second, Rule::Duplicate, name.place)
}

/// `this` alone is assigned.
fn this_assigned(path: &Path, found: Option<Fault>) -> Option<Fault>
    ensures { result ≡ first_with comes_before found (told.this_assigned path.now) }
{
    note_if(found, is_this(path), Rule::Mismatch, path.place)
}

/// The faults of an assigned path.
#[tactic(auto, using(easl_model::proofs::Finding::both))]
fn faults_of_assigned(
    spec: &Spec,
    context: &Context,
    path: &Path,
    found: Option<Fault>,
) -> Option<Fault>
    ensures { result ≡ first_with comes_before found (told.faults_of_assigned spec.now context.now path.now) }
{
    let target = target_of(spec, context, path);
    let found = this_assigned(path, found);
    let found = is_opaque(path.place, target, found);
    let found = no_name(target, found);
    field_unready(spec, context, from_this_to_owner(context, path), found)
}

fn class_in(target: Target) -> Option<usize>
    ensures { result ≡ told.class_in target }
{
    match target {
        Target::Object(class) => Some(class),
        Target::Opaque | Target::Unknown(_) => None,
    }
}

/// Those of a declaration.
#[tactic(auto, using(easl_model::proofs::Finding::both))]
fn faults_of_declared(
    spec: &Spec,
    context: &Context,
    class: &Word,
    name: &Word,
    value: &Value,
    found: Option<Fault>,
) -> Option<Fault>
    ensures { result ≡ first_with comes_before found (told.faults_of_declared spec.now context.now class.now name.now value.now) }
{
    let found = no_class(spec, class, found);
    let found = named_twice(context, name, found);
    let taken = class_named(spec, &class.name);
    faults_of_value(spec, context, taken, value, found)
}

/// Those of a statement.
#[cycle(steps)]
#[tactic(auto, using(easl_model::proofs::Finding::both))]
fn faults_of_step(
    alloc: Global,
    spec: &Spec,
    context: &Context,
    step: &Step,
    found: Option<Fault>,
) -> Result<Option<Fault>, AllocError>
    ensures { IfOk result (λ f. f ≡ first_with comes_before found (told.faults_of_written spec.now context.now (written_of step.now))) }
{
    match step {
        Step::Declare(class, name, value) => Ok(faults_of_declared(
            spec, context, class, name, value, found,
        )),
        Step::Assign(path, value) => {
            let found = faults_of_assigned(spec, context, path, found);
            let taken = class_in(target_of(spec, context, path));
            Ok(faults_of_value(spec, context, taken, value, found))
        }
        Step::If(_, test, first, second, _) => {
            let found = faults_of_clause(spec, context, test, found);
            let found = faults_of_branch(alloc, spec, context, first.as_slice(), found)?;
            faults_of_branch(alloc, spec, context, second.as_slice(), found)
        }
    }
}

/// Those of a branch.
#[cycle(steps)]
fn faults_of_branch(
    alloc: Global,
    spec: &Spec,
    context: &Context,
    steps: &[Step],
    start: Option<Fault>,
) -> Result<Option<Fault>, AllocError>
    ensures { IfOk result (λ f. f ≡ first_with comes_before start (told.faults_of_block spec.now context.now (block_of steps.now))) }
{
    let mut inner = copy_of(alloc, context)?;
    faults_of_steps(alloc, spec, &mut inner, steps, start)
}

/// Goes behind a statement.
#[cycle(advance)]
pub fn advance(
    alloc: Global,
    spec: &Spec,
    context: &mut Context,
    step: &Step,
) -> Result<(), AllocError>
    ensures { OnOk result (context.new ≡ told.after spec.now context.old (written_of step.now)) }
{
    match step {
        Step::Declare(class, name, _) => declare(alloc, spec, context, class, name),
        Step::Assign(path, _) => set_by(alloc, spec, context, path),
        Step::If(_, _, first, second, _) => {
            let one = behind_all(alloc, spec, context, first.as_slice())?;
            let other = behind_all(alloc, spec, context, second.as_slice())?;
            join(alloc, context, &one, &other)
        }
    }
}

/// What stands behind statements.
#[cycle(advance)]
#[tactic(auto, using(std::proofs::lemmas::List::drop_more))]
fn behind_all(
    alloc: Global,
    spec: &Spec,
    context: &Context,
    steps: &[Step],
) -> Result<Context, AllocError>
    ensures { IfOk result (λ c. c ≡ told.after_all spec.now context.now (block_of steps.now)) }
{
    let mut behind = copy_of(alloc, context)?;
    'each: for step in steps {
        advance(alloc, spec, &mut behind, step)?;
    }
    Ok(behind)
}

fn set_by(alloc: Global, spec: &Spec, context: &mut Context, path: &Path) -> Result<(), AllocError>
    ensures { OnOk result (context.new ≡ told.set_by spec.now context.old (paths_told.way_of context.old path.now)) }
{
    let Some(word) = field_of_this(context, path) else {
        return Ok(());
    };
    match field_named(spec, context.class, &word.name) {
        Some(field) => assign(alloc, context, field.position),
        None => Ok(()),
    }
}

/// Those of statements; the context goes behind them.
#[cycle(steps)]
#[tactic(auto, using(std::proofs::lemmas::List::drop_more, easl_model::proofs::Finding::both))]
fn faults_of_steps(
    alloc: Global,
    spec: &Spec,
    context: &mut Context,
    steps: &[Step],
    start: Option<Fault>,
) -> Result<Option<Fault>, AllocError>
    ensures found { IfOk result (λ f. f ≡ first_with comes_before start (told.faults_of_block spec.now context.old (block_of steps.now))) }
    ensures behind { OnOk result (context.new ≡ told.after_all spec.now context.old (block_of steps.now)) }
{
    let mut found = start;
    'each: for step in steps {
        found = faults_of_step(alloc, spec, context, step, found)?;
        advance(alloc, spec, context, step)?;
    }
    Ok(found)
}

/// Those of a method's clauses.
#[tactic(auto, using(std::proofs::lemmas::List::drop_more, easl_model::proofs::Finding::both))]
fn faults_of_requires(
    spec: &Spec,
    context: &Context,
    conditions: &[Requires],
    start: Option<Fault>,
) -> Option<Fault>
    ensures { result ≡ first_with comes_before start
        (told.faults_of_clauses spec.now context.now (clauses (map (λ c. clause_of c.condition) conditions.now))) }
{
    let mut found = start;
    'each: for clause in conditions {
        found = faults_of_clause(spec, context, &clause.condition, found);
    }
    found
}

/// A `return` is missing.
fn no_return(
    result_class: Option<usize>,
    value: Option<&Value>,
    name: &Word,
    found: Option<Fault>,
) -> Option<Fault>
    ensures { result ≡ first_with comes_before found (told.no_return result_class (option_copied value.entry) name.now) }
{
    match (result_class, value) {
        (Some(_), None) => note(found, Rule::Mismatch, name.place),
        _ => found,
    }
}

/// Those of a `return`.
fn faults_of_return(
    spec: &Spec,
    context: &Context,
    result_class: Option<usize>,
    value: Option<&Value>,
    found: Option<Fault>,
) -> Option<Fault>
    ensures { result ≡ first_with comes_before found (told.faults_of_return spec.now context.now result_class (option_copied value.entry)) }
{
    let Some(value) = value else {
        return found;
    };
    match result_class {
        Some(class) => faults_of_value(spec, context, Some(class), value, found),
        None => {
            let found = note(found, Rule::Mismatch, place_of_value(value));
            faults_within(spec, context, value, found)
        }
    }
}

/// The value that a `return` gives.
pub fn given_by(code: &Code) -> Option<&Value>
    ensures { option_copied result ≡ option_map (λ r. r.value) code.now.value }
{
    match &code.value {
        Some(given) => Some(&given.value),
        None => None,
    }
}

/// Those of a constructor or a method of the class.
#[tactic(auto, using(easl_model::proofs::Finding::both))]
pub fn faults_of_code(
    alloc: Global,
    spec: &Spec,
    class: usize,
    is_constructor: bool,
    code: &Code,
    start: Option<Fault>,
) -> Result<Option<Fault>, AllocError>
    ensures { IfOk result (λ f. f ≡ first_with comes_before start (told.faults_of_body spec.now
        (record { class = class; constructor = is_constructor; code = code.now }))) }
{
    let mut context = start_of(alloc, spec, class, is_constructor, code.params.as_slice())?;
    let result_class = class_of(spec, &code.result);
    let given = given_by(code);
    let found = no_return(result_class, given, &code.name, start);
    let found = faults_of_requires(spec, &context, code.clauses.as_slice(), found);
    let found = faults_of_steps(alloc, spec, &mut context, code.body.as_slice(), found)?;
    let found = faults_of_return(spec, &context, result_class, given, found);
    Ok(note_if(found, has_unset(&context), Rule::Unready, code.name.place))
}
