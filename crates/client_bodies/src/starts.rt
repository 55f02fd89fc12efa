//! What stands before the first statement of an initialiser and of a body.
ghost use Rattle.std.specs.Prelude.{◌≡◌, ◌+◌, [], ℕ, None, IfOk, OnOk, length, suc};
ghost use Rattle.std.specs.List.{range_with_len};
ghost use Rattle.client_bodies.specs.Walking.{Walks};
ghost use Rattle.client_model.specs.SetNumbers.{AreNumbered};
ghost use Rattle.client_model.specs.declared.tree.Rhs.{Rhs};
ghost use Rattle.client_model.specs.Bodies as told;
ghost use Rattle.client_model.specs.Codes as codes;
ghost use Rattle.client_model.specs.Contexts.{call_count};
ghost use Rattle.client_model.specs.Settings.{Setting};
ghost use Rattle.client_values.specs.Knowing.{Knows};

use crate::steps::{call_count, evaluate};
use crate::tables::variable_as;
use client_model::Rhs;
use client_values::{Assigned, Context, Scope, Setting, Variable, kind_of, variable_code};
use easl_model::{CheckedSpec, Param};
use set_names::NamesSoFar;
use sqlite_items::Items;
use std::alloc::{AllocError, Global};

/// Before the first initialiser.
pub(crate) fn before_first(alloc: Global) -> Context
    ensures { (s : Setting) → Knows (told.before_initialiser s 0 0) result }
{
    Context {
        scope: Scope::new(alloc),
        assigned: Assigned {
            names: NamesSoFar::new(alloc, 0),
            everything: false,
        },
        reached: true,
        looped: false,
        variables: 0,
        points: 0,
        calls: 0,
    }
}

/// Goes before the next initialiser, behind that with this value.
pub(crate) fn pass_initialiser(
    alloc: Global,
    setting: &Setting<'_>,
    context: &mut Context,
    value: &Rhs,
) -> Result<(), AllocError>
    requires { AreNumbered setting.now }
    ensures { OnOk result ((number calls : ℕ) → Knows (told.before_initialiser setting.now number calls) context.old
        → Knows (told.before_initialiser setting.now (suc number) (calls + call_count value.now)) context.new) }
{
    let number = context.points as usize;
    evaluate(context, call_count(value))?;
    if number < setting.statics.len() {
        context.assigned.names = NamesSoFar::new(alloc, context.points);
    }
    Ok(())
}

/// The code of the variable of this number.
fn code_of(number: usize) -> Result<u32, AllocError>
    ensures { IfOk result (λ code. code ≡ codes.variable_code number) }
{
    match u32::try_from(number) {
        Ok(number) => variable_code(number),
        Err(_) => Err(AllocError),
    }
}

/// The parameters as variables.
fn variables_of(alloc: Global, spec: &CheckedSpec, params: &[Param]) -> Result<Scope, AllocError>
    ensures { IfOk result (λ variables. variables ≡ told.params_from spec.now 0 params.now) }
{
    let mut variables = Scope::new(alloc);
    'each: for number in 0..params.len() {
        let param = &params[number];
        let kind = kind_of(spec, &param.sort);
        let code = code_of(number)?;
        variables.push(variable_as(alloc, &param.name.name, kind, code)?)?;
    }
    Ok(variables)
}

/// So many statics are assigned, and so many parameters.
fn names_at_entry(alloc: Global, statics: u32, params: u32) -> Result<NamesSoFar, AllocError>
    ensures { IfOk result (λ names. names
        ≡ record { statics = statics; variables = params; before = []; trail = range_with_len 0 params; left = None }) }
{
    let mut names = NamesSoFar::new(alloc, statics);
    'each: for number in 0..params {
        names.declare()?;
        names.set(number)?;
    }
    Ok(names)
}

/// At the entry of a procedure with these parameters, behind so many calls.
pub(crate) fn entry_of(
    alloc: Global,
    setting: &Setting<'_>,
    params: &[Param],
    calls: u32,
) -> Result<Context, AllocError>
    requires { AreNumbered setting.now }
    ensures entry { IfOk result (λ entry. Walks setting.now (told.at_entry setting.now calls params.now) entry) }
    ensures statics { IfOk result (λ entry. entry.assigned.names.statics ≡ length setting.now.statics) }
    ensures before { IfOk result (λ entry. entry.assigned.names.before ≡ []) }
    ensures left { IfOk result (λ entry. entry.assigned.names.left ≡ None) }
{
    let scope = variables_of(alloc, setting.spec, params)?;
    let variables = count_of(scope.as_slice())?;
    let statics = count_of(setting.statics.as_slice())?;
    let names = names_at_entry(alloc, statics, variables)?;
    Ok(Context {
        scope,
        assigned: Assigned {
            names,
            everything: false,
        },
        reached: true,
        looped: false,
        variables,
        points: 0,
        calls,
    })
}

/// How many these are. Numbers that run out are want of memory.
fn count_of(variables: &[Variable]) -> Result<u32, AllocError>
    ensures { IfOk result (λ count. count ≡ length variables.now) }
{
    match u32::try_from(variables.len()) {
        Ok(count) => Ok(count),
        Err(_) => Err(AllocError),
    }
}
