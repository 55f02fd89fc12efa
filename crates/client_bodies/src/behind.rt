//! What stands behind statements that hold no others.
ghost use Rattle.std.specs.Prelude.{◌∷◌, [], None, OnOk, Some};
ghost use Rattle.client_bodies.specs.Walking.{Grows, Notes, Passed, Walks, initialised};
ghost use Rattle.client_model.specs.Statements as trees;
ghost use Rattle.client_model.specs.SetNumbers.{AreThese};
ghost use Rattle.client_model.specs.Settings.{Setting};
ghost use Rattle.client_model.specs.declared.tree.Return.{Return};
ghost use Rattle.client_points.specs.Writing.{at};
ghost use Rattle.easl_model.specs.declared.place.Place.{Place};
ghost use Rattle.client_model.specs.Contexts as told;
ghost use Rattle.client_values.specs.Knowing.{Knows};

use crate::steps::{assign, call_count, declare, evaluate, mark, stop};
use client_model::Rhs;
use client_values::{Context, Setting, variable_code};
use easl_model::{Sort, Word};
use std::alloc::{AllocError, Global};

/// Goes behind a declaration without a value.
fn behind_declared(
    alloc: Global,
    setting: &Setting<'_>,
    context: &mut Context,
    sort: &Sort,
    name: &Word,
) -> Result<(), AllocError>
    ensures behind { OnOk result ((c : told.Context) → Knows c context.old → Knows (told.declared setting.now sort.now name.now (told.evaluated None c)) context.new) }
    ensures notes { OnOk result (Notes context.old context.new) }
{
    evaluate(context, 0)?;
    declare(alloc, setting, context, sort, name)?;
    Ok(())
}

/// Goes behind a declaration with its value.
fn behind_initialised(
    alloc: Global,
    setting: &Setting<'_>,
    context: &mut Context,
    sort: &Sort,
    name: &Word,
    value: &Rhs,
) -> Result<(), AllocError>
    ensures behind { OnOk result ((c : told.Context) → Knows c context.old → Knows (initialised setting.now sort.now name.now value.now c) context.new) }
    ensures notes { OnOk result (Notes context.old context.new) }
{
    let code = variable_code(context.variables)?;
    evaluate(context, call_count(value))?;
    declare(alloc, setting, context, sort, name)?;
    mark(context, code)?;
    Ok(())
}

/// Goes behind a declaration.
pub(crate) fn behind_declaration(
    alloc: Global,
    setting: &Setting<'_>,
    context: &mut Context,
    sort: &Sort,
    name: &Word,
    value: &Option<Rhs>,
) -> Result<(), AllocError>
    ensures behind { OnOk result ((c : told.Context) (place : Place) → Knows c context.old
        → Knows (told.after setting.now c (trees.Declare place sort.now name.now value.now)) context.new) }
    ensures notes { OnOk result (Notes context.old context.new) }
{
    match value {
        None => behind_declared(alloc, setting, context, sort, name),
        Some(value) => behind_initialised(alloc, setting, context, sort, name, value),
    }
}

/// Goes behind an assignment.
pub(crate) fn behind_assigned(
    setting: &Setting<'_>,
    context: &mut Context,
    name: &Word,
    value: &Rhs,
) -> Result<(), AllocError>
    ensures behind { OnOk result ((c : told.Context) → Walks setting.now c context.old → Knows (told.after setting.now c (trees.Assign name.now value.now)) context.new) }
    ensures notes { OnOk result (Notes context.old context.new) }
{
    evaluate(context, call_count(value))?;
    assign(setting, context, name)?;
    Ok(())
}

/// Goes behind a call or a construction alone.
pub(crate) fn behind_done(context: &mut Context, value: &Rhs) -> Result<(), AllocError>
    ensures behind { OnOk result ((c : told.Context) → Knows c context.old → Knows (told.evaluated (Some value.now) c) context.new) }
    ensures notes { OnOk result (Notes context.old context.new) }
{
    evaluate(context, call_count(value))?;
    Ok(())
}

/// Goes behind a statement that does not go on.
pub(crate) fn behind_stopped(context: &mut Context) -> Result<(), AllocError>
    ensures behind { OnOk result ((c : told.Context) → Knows c context.old → Knows (told.stopped (told.evaluated None c)) context.new) }
    ensures notes { OnOk result (Notes context.old context.new) }
{
    evaluate(context, 0)?;
    stop(context);
    Ok(())
}

/// Goes behind a `return`, where the body is left.
pub(crate) fn behind_returned(alloc: Global, context: &mut Context) -> Result<(), AllocError>
    ensures behind { OnOk result ((c : told.Context) → Knows c context.old → Knows (told.stopped (told.evaluated None c)) context.new) }
    ensures grows { OnOk result (Grows context.old.assigned context.new.assigned) }
    ensures passed { OnOk result ((s : Setting) (c : told.Context) (r : Return) → Knows c context.old → AreThese c.assigned
        → Passed (at s c (trees.Return r) ∷ []) context.old.assigned.names context.new.assigned.names) }
{
    context.assigned.names.leave(alloc)?;
    behind_stopped(context)?;
    Ok(())
}
