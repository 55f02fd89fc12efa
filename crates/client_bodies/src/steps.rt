//! From what stands before a statement to what stands behind it.
ghost use Rattle.std.specs.Prelude.{◌≡◌, Option, OnOk, option_map};
ghost use Rattle.std.specs.Option.{option_map_or};
ghost use Rattle.client_values.specs.Knowing.{Knows};
ghost use Rattle.client_bodies.specs.Walking.{IsName, IsSame, Keeps, Notes, Walks};
ghost use Rattle.client_model.specs.declared.tree.Rhs.{Rhs};
ghost use Rattle.client_model.specs.Contexts as told;
ghost use Rattle.client_model.specs.Settings.{variable_named};

use client_model::{Rhs, Test};
use client_values::{Context, Setting, Variable, kind_of, variable_code, variable_named};
use easl_model::{Name, Sort, Word};
use std::alloc::{AllocError, Global};

/// How many component calls and constructions a value makes.
pub(crate) fn call_count(value: &Rhs) -> u32
    ensures { result ≡ told.call_count value.now }
{
    match value {
        Rhs::Copy(_) | Rhs::Call(_) => 0,
        Rhs::New(_) | Rhs::Component(_) => 1,
    }
}

/// The same of a test.
pub(crate) fn call_count_of_test(test: &Test) -> u32
    ensures { result ≡ option_map_or told.call_count (told.value_of_test test.now) 0 }
{
    match test {
        Test::Free(_) => 0,
        Test::Call(_) => 1,
    }
}

/// Goes behind the point of a statement that makes so many calls. Numbers that run out are want of memory.
pub(crate) fn evaluate(context: &mut Context, calls: u32) -> Result<(), AllocError>
    ensures behind { OnOk result ((c : told.Context) → Knows c context.old → (v : Option Rhs) → option_map_or told.call_count v 0 ≡ calls
        → Knows (told.evaluated v c) context.new) }
    ensures notes { OnOk result (Notes context.old context.new) }
    ensures same { OnOk result (IsSame context.old.assigned context.new.assigned) }
{
    context.points = context.points.checked_add(1).ok_or(AllocError)?;
    context.calls = context.calls.checked_add(calls).ok_or(AllocError)?;
    context.assigned.names.pass()?;
    Ok(())
}

/// Declares a local.
pub(crate) fn declare(
    alloc: Global,
    setting: &Setting<'_>,
    context: &mut Context,
    sort: &Sort,
    word: &Word,
) -> Result<(), AllocError>
    ensures behind { OnOk result ((c : told.Context) → Knows c context.old → Knows (told.declared setting.now sort.now word.now c) context.new) }
    ensures keeps { OnOk result (Keeps context.old.assigned context.new.assigned) }
{
    let variable = Variable {
        name: Name(String::from_str(alloc, word.name.0.as_str())?),
        kind: kind_of(setting.spec, sort),
        code: variable_code(context.variables)?,
    };
    context.scope.push(variable)?;
    context.variables = context.variables.checked_add(1).ok_or(AllocError)?;
    context.assigned.names.declare()?;
    Ok(())
}

/// Assigns the name of this code. A static is assigned already.
pub(crate) fn mark(context: &mut Context, code: u32) -> Result<(), AllocError>
    ensures behind { OnOk result ((c : told.Context) → Knows c context.old → IsName c code
        → Knows (record c { assigned = told.with_code code c.assigned }) context.new) }
    ensures keeps { OnOk result (Keeps context.old.assigned context.new.assigned) }
{
    if code % 4 == 1 {
        context.assigned.names.set(code / 4)?;
    }
    Ok(())
}

/// The code of the name.
fn code_of(setting: &Setting<'_>, context: &Context, name: &Name) -> Option<u32>
    ensures { (c : told.Context) → Knows c context.now → result ≡ option_map (λ v. v.code) (variable_named setting.now c.scope name.now) }
{
    match variable_named(setting, context, name) {
        Some(variable) => Some(variable.code),
        None => None,
    }
}

/// Assigns the name.
#[tactic(auto, using(crate::proofs::Marked::by_code))]
pub(crate) fn assign(
    setting: &Setting<'_>,
    context: &mut Context,
    word: &Word,
) -> Result<(), AllocError>
    ensures behind { OnOk result ((c : told.Context) → Walks setting.now c context.old → Knows (told.assigned setting.now word.now c) context.new) }
    ensures keeps { OnOk result (Keeps context.old.assigned context.new.assigned) }
{
    match code_of(setting, context, &word.name) {
        Some(code) => {
            mark(context, code)?;
            Ok(())
        }
        None => Ok(()),
    }
}

/// Nothing behind it in its block is reached.
pub(crate) fn stop(context: &mut Context)
    ensures behind { (c : told.Context) → Knows c context.old → Knows (told.stopped c) context.new }
    ensures assigned { context.new.assigned ≡ context.old.assigned }
{
    context.reached = false;
}

/// Goes before the first statement of a block.
pub(crate) fn enter(context: &mut Context)
    ensures behind { (c : told.Context) → Knows c context.old → Knows (told.entered c) context.new }
    ensures assigned { context.new.assigned ≡ context.old.assigned }
{
    context.reached = true;
}
