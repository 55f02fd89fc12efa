//! The component calls and constructions of statements.
ghost use Rattle.std.specs.Prelude.{◌≡◌, IfOk, None, Some};
ghost use Rattle.client_model.specs.Statements.{statement_of};
ghost use Rattle.client_model.specs.declared.tree.Rhs.TheVariants as rhs;
ghost use Rattle.client_points.specs.Writing.{Makes, at};
ghost use Rattle.client_model.specs.Contexts as contexts;
ghost use Rattle.client_model.specs.Points as told;
ghost use Rattle.client_values.specs.Knowing.{Knows};

use crate::words::{add_arguments, argument_of};
use client_model::{CallSite, Component, New, Rhs, Stmt, Test};
use client_values::{Context, Setting, constructor_called, method_called};
use sqlite_items::Items;
use std::alloc::{AllocError, Global};

/// A construction.
fn site_of_new(
    alloc: Global,
    setting: &Setting<'_>,
    context: &Context,
    new: &New,
) -> Result<Option<CallSite>, AllocError>
    ensures { IfOk result (λ site. (c : contexts.Context) → Knows c context.now → Makes setting.now c (Some (rhs.New new.now)) site) }
{
    match constructor_called(setting, new) {
        Some(method) => {
            let mut args = Items::new(alloc);
            add_arguments(setting, context, new.args.as_slice(), &mut args)?;
            Ok(Some(CallSite {
                procedure: setting.procedure,
                point: context.points,
                method,
                args,
                place: new.place,
            }))
        }
        None => Ok(None),
    }
}

/// The names of a component call's receiver and arguments.
fn names_of(
    alloc: Global,
    setting: &Setting<'_>,
    context: &Context,
    call: &Component,
) -> Result<Items<Option<u32>>, AllocError>
    ensures { IfOk result (λ args. (c : contexts.Context) → Knows c context.now → args ≡ told.arguments_of setting.now c (rhs.Component call.now)) }
{
    let mut args = Items::new(alloc);
    args.push(argument_of(setting, context, &call.receiver))?;
    add_arguments(setting, context, call.args.as_slice(), &mut args)?;
    Ok(args)
}

/// A component call.
fn site_of_component(
    alloc: Global,
    setting: &Setting<'_>,
    context: &Context,
    call: &Component,
) -> Result<Option<CallSite>, AllocError>
    ensures { IfOk result (λ site. (c : contexts.Context) → Knows c context.now → Makes setting.now c (Some (rhs.Component call.now)) site) }
{
    match method_called(setting, context, call) {
        Some(method) => Ok(Some(CallSite {
            procedure: setting.procedure,
            point: context.points,
            method,
            args: names_of(alloc, setting, context, call)?,
            place: call.receiver.place,
        })),
        None => Ok(None),
    }
}

/// That of a value.
pub(crate) fn site_of_value(
    alloc: Global,
    setting: &Setting<'_>,
    context: &Context,
    value: &Rhs,
) -> Result<Option<CallSite>, AllocError>
    ensures { IfOk result (λ site. (c : contexts.Context) → Knows c context.now → Makes setting.now c (Some value.now) site) }
{
    match value {
        Rhs::New(new) => site_of_new(alloc, setting, context, new),
        Rhs::Component(call) => site_of_component(alloc, setting, context, call),
        Rhs::Copy(_) | Rhs::Call(_) => Ok(None),
    }
}

/// That of a test.
fn site_of_test(
    alloc: Global,
    setting: &Setting<'_>,
    context: &Context,
    test: &Test,
) -> Result<Option<CallSite>, AllocError>
    ensures { IfOk result (λ site. (c : contexts.Context) → Knows c context.now → Makes setting.now c (contexts.value_of_test test.now) site) }
{
    match test {
        Test::Free(_) => Ok(None),
        Test::Call(call) => site_of_component(alloc, setting, context, call),
    }
}

/// The component call or construction of a statement.
pub fn site_of(
    alloc: Global,
    setting: &Setting<'_>,
    context: &Context,
    item: &Stmt,
) -> Result<Option<CallSite>, AllocError>
    ensures { IfOk result (λ site. (c : contexts.Context) → Knows c context.now → site ≡ told.site_at (at setting.now c (statement_of item.now))) }
{
    match item {
        Stmt::Declare(_, _, _, Some(value)) | Stmt::Assign(_, value) | Stmt::Do(value) => {
            site_of_value(alloc, setting, context, value)
        }
        Stmt::If(_, test, ..) | Stmt::While(_, test, _) => {
            site_of_test(alloc, setting, context, test)
        }
        Stmt::Declare(_, _, _, None) => Ok(None),
        Stmt::Break(_) | Stmt::Continue(_) | Stmt::Return(_) => Ok(None),
    }
}
