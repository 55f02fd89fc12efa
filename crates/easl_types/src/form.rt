//! The checked form of bodies.
ghost use Rattle.std.specs.Prelude.{◌≡◌, ◌++◌, IfOk, OnOk, List, None, map};
ghost use Rattle.std.specs.List.{last_or};
ghost use Rattle.easl_model.specs.{block_of, clause_of, clauses, written_of};
ghost use Rattle.easl_model.specs.declared.tree.Word as tree;
ghost use Rattle.easl_model.specs.BodyFaults as rules_told;
ghost use Rattle.easl_model.specs.CheckedForm as told;
ghost use Rattle.easl_model.specs.declared.scope.Target.TheVariants as target;
ghost use Rattle.easl_model.specs.Paths as paths_told;

use crate::no_memory::NoMemory;
use easl_bodies::{
    advance, along, class_named, copy_of, field_named, target_of, variable_named, variable_target,
};
use easl_model::{
    Act, Arg, Cond, Context, Path, Reach, Source, Spec, Step, Target, Test, Value, Word,
};
use sqlite_items::Items;
use std::alloc::Global;

pub(crate) fn number(of: usize) -> Result<u32, NoMemory>
    ensures { IfOk result (λ n. n ≡ of) }
{
    match u32::try_from(of) {
        Ok(number) => Ok(number),
        Err(_) => Err(NoMemory),
    }
}

/// The number of a class that is there.
pub(crate) fn class_number(spec: &Spec, word: &Word) -> usize
    ensures { result ≡ told.class_number spec.now word.now }
{
    match class_named(spec, &word.name) {
        Some(class) => class,
        None => 0,
    }
}

/// The position of a field that is there.
fn position_in(spec: &Spec, from: Target, word: &Word) -> usize
    ensures { result ≡ told.position_in spec.now from word.now }
{
    match from {
        Target::Object(class) => position_of(spec, class, word),
        Target::Opaque | Target::Unknown(_) => 0,
    }
}

fn position_of(spec: &Spec, class: usize, word: &Word) -> usize
    ensures { result ≡ told.position_in spec.now (target.Object class) word.now }
{
    match field_named(spec, class, &word.name) {
        Some(field) => field.position,
        None => 0,
    }
}

/// What a path begins with: what its head leads to, and how that is reached.
#[derive(Debug, Drop)]
struct Start {
    target: Target,
    slot: usize,
    fields: Items<u32>,
}

fn start_of(
    alloc: Global,
    spec: &Spec,
    context: &Context,
    head: &Option<Word>,
) -> Result<Start, NoMemory>
    ensures { IfOk result (λ s. (names : List tree.Word) → told.reach_by spec.now context.now (paths_told.way_by context.now head.now names)
        ≡ record { slot = s.slot; fields = s.fields ++ told.positions_along spec.now s.target names }) }
{
    let this = Target::Object(context.class);
    let Some(word) = head else {
        return Ok(Start {
            target: this,
            slot: 0,
            fields: Items::new(alloc),
        });
    };
    match variable_named(context, &word.name) {
        Some(at) => Ok(Start {
            target: variable_target(context, at),
            slot: at.checked_add(1).ok_or(NoMemory)?,
            fields: Items::new(alloc),
        }),
        None => {
            let mut fields = Items::new(alloc);
            fields.push(number(position_in(spec, this, word))?)?;
            Ok(Start {
                target: along(spec, this, word),
                slot: 0,
                fields,
            })
        }
    }
}

/// What a path reaches.
pub(crate) fn reach_of(
    alloc: Global,
    spec: &Spec,
    context: &Context,
    path: &Path,
) -> Result<Reach, NoMemory>
    ensures { IfOk result (λ r. r ≡ told.reach_of spec.now context.now path.now) }
{
    let Start {
        mut target,
        slot,
        mut fields,
    } = start_of(alloc, spec, context, &path.head)?;
    'each: for word in path.fields.as_slice() {
        fields.push(number(position_in(spec, target, word))?)?;
        target = along(spec, target, word);
    }
    Ok(Reach {
        slot: number(slot)?,
        fields,
    })
}

/// An argument, None where it is opaque.
fn argument_of(
    alloc: Global,
    spec: &Spec,
    context: &Context,
    argument: &Arg,
) -> Result<Option<Reach>, NoMemory>
    ensures { IfOk result (λ r. r ≡ told.argument_of spec.now context.now argument.now) }
{
    match argument {
        Arg::Literal(_) => Ok(None),
        Arg::Path(path) => path_argument(alloc, spec, context, path),
    }
}

fn path_argument(
    alloc: Global,
    spec: &Spec,
    context: &Context,
    path: &Path,
) -> Result<Option<Reach>, NoMemory>
    ensures { IfOk result (λ r. r ≡ told.argument_by (told.reach_of spec.now context.now path.now)
        (paths_told.target_of spec.now context.now path.now)) }
{
    match target_of(spec, context, path) {
        Target::Object(_) => Ok(Some(reach_of(alloc, spec, context, path)?)),
        Target::Opaque | Target::Unknown(_) => Ok(None),
    }
}

fn arguments_of(
    alloc: Global,
    spec: &Spec,
    context: &Context,
    arguments: &[Arg],
) -> Result<Items<Option<Reach>>, NoMemory>
    ensures { IfOk result (λ rs. rs ≡ map (told.argument_of spec.now context.now) arguments.now) }
{
    let mut reaches = Items::new(alloc);
    'each: for argument in arguments {
        reaches.push(argument_of(alloc, spec, context, argument)?)?;
    }
    Ok(reaches)
}

/// What a value gives.
pub(crate) fn source_of(
    alloc: Global,
    spec: &Spec,
    context: &Context,
    value: &Value,
) -> Result<Source, NoMemory>
    ensures { IfOk result (λ s. s ≡ told.source_of spec.now context.now value.now) }
{
    match value {
        Value::Path(path) => Ok(Source::Reach(reach_of(alloc, spec, context, path)?)),
        Value::New(new) => {
            let arguments = arguments_of(alloc, spec, context, new.args.as_slice())?;
            let class = number(class_number(spec, &new.class))?;
            Ok(Source::Make(class, arguments))
        }
    }
}

/// The statement, with numbers for names.
#[cycle(acts)]
fn act_of(alloc: Global, spec: &Spec, context: &Context, step: &Step) -> Result<Act, NoMemory>
    ensures { IfOk result (λ a. a ≡ told.act_of spec.now context.now (written_of step.now)) }
{
    match step {
        Step::Declare(_, _, value) => Ok(Act::Local(source_of(alloc, spec, context, value)?)),
        Step::Assign(path, value) => {
            let source = source_of(alloc, spec, context, value)?;
            assigned_by(alloc, spec, context, path, source)
        }
        Step::If(_, test, first, second, _) => {
            let test = test_of(alloc, spec, context, test)?;
            let first = acts_of_branch(alloc, spec, context, first.as_slice())?;
            let second = acts_of_branch(alloc, spec, context, second.as_slice())?;
            Ok(Act::If(test, first, second))
        }
    }
}

/// The statements of a branch.
#[cycle(acts)]
fn acts_of_branch(
    alloc: Global,
    spec: &Spec,
    context: &Context,
    steps: &[Step],
) -> Result<Items<Act>, NoMemory>
    ensures { IfOk result (λ acts. acts ≡ told.acts_of spec.now context.now (block_of steps.now)) }
{
    let mut inner = copy_of(alloc, context)?;
    acts_of(alloc, spec, &mut inner, steps)
}

/// The assignment of a value to a path.
fn assigned_by(
    alloc: Global,
    spec: &Spec,
    context: &Context,
    path: &Path,
    source: Source,
) -> Result<Act, NoMemory>
    ensures { IfOk result (λ a. a ≡ told.assigned_by spec.now context.now (paths_told.way_of context.now path.now)
        (last_or None (paths_told.way_of context.now path.now).names) source) }
{
    let Reach { slot, mut fields } = reach_of(alloc, spec, context, path)?;
    match fields.pop() {
        Some(field) => Ok(Act::Write(Reach { slot, fields }, field, source)),
        None => Ok(Act::Change(slot, source)),
    }
}

/// The statements; the context goes behind them.
#[cycle(acts)]
pub(crate) fn acts_of(
    alloc: Global,
    spec: &Spec,
    context: &mut Context,
    steps: &[Step],
) -> Result<Items<Act>, NoMemory>
    ensures acts { IfOk result (λ acts. acts ≡ told.acts_of spec.now context.old (block_of steps.now)) }
    ensures behind { OnOk result (context.new ≡ rules_told.after_all spec.now context.old (block_of steps.now)) }
{
    let mut acts = Items::new(alloc);
    'each: for step in steps {
        acts.push(act_of(alloc, spec, context, step)?)?;
        advance(alloc, spec, context, step)?;
    }
    Ok(acts)
}

/// A clause.
#[cycle(condition)]
pub(crate) fn test_of(
    alloc: Global,
    spec: &Spec,
    context: &Context,
    clause: &Cond,
) -> Result<Test, NoMemory>
    ensures { IfOk result (λ t. t ≡ told.test_of spec.now context.now (clause_of clause.now)) }
{
    match clause {
        Cond::Same(left, right) => {
            let left = reach_of(alloc, spec, context, left)?;
            let right = reach_of(alloc, spec, context, right)?;
            Ok(Test::Same(left, right))
        }
        Cond::Differ(left, right) => {
            let left = reach_of(alloc, spec, context, left)?;
            let right = reach_of(alloc, spec, context, right)?;
            Ok(Test::Differ(left, right))
        }
        Cond::All(parts) => {
            let tests = tests_of(alloc, spec, context, parts.as_slice())?;
            Ok(Test::All(tests))
        }
        Cond::Any(parts) => {
            let tests = tests_of(alloc, spec, context, parts.as_slice())?;
            Ok(Test::Any(tests))
        }
    }
}

#[cycle(condition)]
fn tests_of(
    alloc: Global,
    spec: &Spec,
    context: &Context,
    parts: &[Cond],
) -> Result<Items<Test>, NoMemory>
    ensures { IfOk result (λ ts. ts ≡ told.tests_of spec.now context.now (clauses (map clause_of parts.now))) }
{
    let mut tests = Items::new(alloc);
    'each: for part in parts {
        tests.push(test_of(alloc, spec, context, part)?)?;
    }
    Ok(tests)
}
