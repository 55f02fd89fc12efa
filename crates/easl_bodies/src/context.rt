//! What stands before a statement of a body.
ghost use Rattle.std.specs.Prelude.{◌≡◌, ◌==◌, ◌||◌, IfOk, OnOk, map, not};
ghost use Rattle.std.specs.List.{filter, list_any, position_from};
ghost use Rattle.easl_model.specs.{is_same};
ghost use Rattle.easl_model.specs.Contexts as told;

use crate::names::{class_named, class_of, field_count, members_of};
use easl_model::{Context, Name, Param, Spec, Variable, Word};
use sqlite_items::Items;
use std::alloc::{AllocError, Global};

/// Which of the variables has the name.
pub fn variable_named(context: &Context, name: &Name) -> Option<usize>
    ensures { result ≡ told.variable_named context.now name.now }
{
    variable_among(context.variables.as_slice(), name)
}

fn variable_among(variables: &[Variable], name: &Name) -> Option<usize>
    ensures { result ≡ position_from (λ v. is_same v.name name.now) 0 variables.now }
{
    'each: for at in 0..variables.len() {
        if variables[at].name.is_same(name) {
            return Some(at);
        }
    }
    None
}

pub(crate) fn is_declared(context: &Context, name: &Name) -> bool
    ensures { result ≡ told.is_declared context.now name.now }
{
    variable_named(context, name).is_some()
}

/// Whether the field at the position is not assigned yet.
pub(crate) fn is_unset(context: &Context, position: usize) -> bool
    ensures { result ≡ told.is_unset context.now position }
{
    is_among(context.unset.as_slice(), position)
}

fn is_among(positions: &[usize], position: usize) -> bool
    ensures { result ≡ list_any (λ p. p == position) positions.now }
{
    'each: for at in positions {
        if *at == position {
            return true;
        }
    }
    false
}

/// Whether some field is not assigned yet.
pub(crate) fn has_unset(context: &Context) -> bool
    ensures { result ≡ not (told.is_empty context.now.unset) }
{
    !context.unset.is_empty()
}

/// Declares a local.
pub(crate) fn declare(
    alloc: Global,
    spec: &Spec,
    context: &mut Context,
    class: &Word,
    name: &Word,
) -> Result<(), AllocError>
    ensures { OnOk result (context.new ≡ told.declared spec.now class.now name.now context.old) }
{
    let class = class_named(spec, &class.name);
    let name = Name(String::from_str(alloc, name.name.0.as_str())?);
    context.variables.push(Variable { name, class })
}

/// Assigns the field of `this` at the position.
pub(crate) fn assign(
    alloc: Global,
    context: &mut Context,
    position: usize,
) -> Result<(), AllocError>
    ensures { OnOk result (context.new ≡ told.assigned position context.old) }
{
    let unset = without(alloc, context.unset.as_slice(), position)?;
    context.unset = unset;
    Ok(())
}

fn without(alloc: Global, positions: &[usize], position: usize) -> Result<Items<usize>, AllocError>
    ensures { IfOk result (λ left. left ≡ filter (λ p. not (p == position)) positions.now) }
{
    let mut left = Items::new(alloc);
    'each: for at in positions {
        if *at != position {
            left.push(*at)?;
        }
    }
    Ok(left)
}

/// Before the first statement of a body with these parameters.
pub fn start_of(
    alloc: Global,
    spec: &Spec,
    class: usize,
    is_constructor: bool,
    params: &[Param],
) -> Result<Context, AllocError>
    ensures { IfOk result (λ c. c ≡ told.start_in spec.now class is_constructor params.now) }
{
    let variables = variables_of(alloc, spec, params)?;
    let unset = if is_constructor {
        positions_of(alloc, spec, class)?
    } else {
        Items::new(alloc)
    };
    Ok(Context {
        class,
        variables,
        unset,
    })
}

fn variables_of(alloc: Global, spec: &Spec, params: &[Param]) -> Result<Items<Variable>, AllocError>
    ensures { IfOk result (λ vs. vs ≡ map (told.variable_of spec.now) params.now) }
{
    let mut variables = Items::new(alloc);
    'each: for param in params {
        let class = class_of(spec, &param.sort);
        let name = Name(String::from_str(alloc, param.name.name.0.as_str())?);
        variables.push(Variable { name, class })?;
    }
    Ok(variables)
}

fn positions_of(alloc: Global, spec: &Spec, class: usize) -> Result<Items<usize>, AllocError>
    ensures { IfOk result (λ ps. ps ≡ told.positions_of spec.now class) }
{
    let mut positions = Items::new(alloc);
    'each: for position in 0..field_count(members_of(spec, class)) {
        positions.push(position)?;
    }
    Ok(positions)
}

/// A copy.
pub fn copy_of(alloc: Global, context: &Context) -> Result<Context, AllocError>
    ensures { IfOk result (λ c. c ≡ context.now) }
{
    Ok(Context {
        class: context.class,
        variables: copy_of_variables(alloc, context.variables.as_slice())?,
        unset: copy_of_positions(alloc, context.unset.as_slice())?,
    })
}

fn copy_of_variables(alloc: Global, variables: &[Variable]) -> Result<Items<Variable>, AllocError>
    ensures { IfOk result (λ copy. copy ≡ variables.now) }
{
    let mut copy = Items::new(alloc);
    'each: for variable in variables {
        let name = Name(String::from_str(alloc, variable.name.0.as_str())?);
        let class = variable.class;
        copy.push(Variable { name, class })?;
    }
    Ok(copy)
}

fn copy_of_positions(alloc: Global, positions: &[usize]) -> Result<Items<usize>, AllocError>
    ensures { IfOk result (λ copy. copy ≡ positions.now) }
{
    let mut copy = Items::new(alloc);
    'each: for position in positions {
        copy.push(*position)?;
    }
    Ok(copy)
}

/// Goes behind a conditional, behind whose branches these contexts stand.
pub(crate) fn join(
    alloc: Global,
    context: &mut Context,
    one: &Context,
    other: &Context,
) -> Result<(), AllocError>
    ensures { OnOk result (context.new ≡ told.behind_both context.old one.now other.now) }
{
    let unset = unset_in_either(alloc, context.unset.as_slice(), one, other)?;
    context.unset = unset;
    Ok(())
}

fn unset_in_either(
    alloc: Global,
    positions: &[usize],
    one: &Context,
    other: &Context,
) -> Result<Items<usize>, AllocError>
    ensures { IfOk result (λ left. left ≡ filter (λ p. told.is_unset one.now p || told.is_unset other.now p) positions.now) }
{
    let mut left = Items::new(alloc);
    'each: for position in positions {
        if is_unset(one, *position) || is_unset(other, *position) {
            left.push(*position)?;
        }
    }
    Ok(left)
}
