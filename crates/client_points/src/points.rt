//! What is done at the point of a statement, and the variable that it declares.
ghost use Rattle.std.specs.Prelude.{◌≡◌, IfOk};
ghost use Rattle.client_model.specs.Statements.{Assign, Declare, statement_of};
ghost use Rattle.client_model.specs.declared.tree.Rhs.TheVariants as rhs;
ghost use Rattle.client_model.specs.Codes.{variable_code};
ghost use Rattle.client_model.specs.Contexts as contexts;
ghost use Rattle.client_model.specs.Points as told;
ghost use Rattle.client_model.specs.Settings.{kind_of};
ghost use Rattle.client_values.specs.Knowing.{Knows};
ghost use Rattle.easl_model.specs.declared.place.Place.{Place};
ghost use Rattle.easl_model.specs.declared.tree.Word.{Word};

use crate::words::{add_arguments, argument_of, code_by, code_of};
use client_model::{Call, Point, Rhs, Stmt, Test};
use client_values::{Context, Setting, class_in, kind_of, variable_code};
use easl_model::{Sort, Word};
use sqlite_items::Items;
use std::alloc::{AllocError, Global};

/// The name code of a procedure's result.
const RESULT_CODE: u32 = 3;

/// The number as it stands in the form. Numbers that run out are want of memory.
fn numbered(number: usize) -> Result<u32, AllocError>
    ensures { IfOk result (λ same. same ≡ number) }
{
    match u32::try_from(number) {
        Ok(number) => Ok(number),
        Err(_) => Err(AllocError),
    }
}

/// What is done where the result of a procedure is assigned to the name.
fn calls_procedure(
    alloc: Global,
    setting: &Setting<'_>,
    context: &Context,
    target: Option<u32>,
    call: &Call,
) -> Result<Point, AllocError>
    ensures { IfOk result (λ point. (c : contexts.Context) → Knows c context.now → point ≡ told.assigns setting.now c target (rhs.Call call.now)) }
{
    match setting.procedures.called(&call.procedure.name) {
        Some((number, _)) => {
            let number = numbered(number)?;
            let mut args = Items::new(alloc);
            add_arguments(setting, context, call.args.as_slice(), &mut args)?;
            Ok(Point::Call(target, number, args, call.procedure.place))
        }
        None => Ok(Point::Nothing),
    }
}

/// What is done where a value is assigned to the name.
fn assigns(
    alloc: Global,
    setting: &Setting<'_>,
    context: &Context,
    target: Option<u32>,
    value: &Rhs,
) -> Result<Point, AllocError>
    ensures { IfOk result (λ point. (c : contexts.Context) → Knows c context.now → point ≡ told.assigns setting.now c target value.now) }
{
    match value {
        Rhs::Copy(word) => Ok(Point::Copy(target, argument_of(setting, context, word))),
        Rhs::New(_) | Rhs::Component(_) => Ok(Point::Component(target, context.calls)),
        Rhs::Call(call) => calls_procedure(alloc, setting, context, target, call),
    }
}

/// What is done where a value is assigned to the variable.
pub(crate) fn assigned_point(
    alloc: Global,
    setting: &Setting<'_>,
    context: &Context,
    word: &Word,
    value: &Rhs,
) -> Result<Point, AllocError>
    ensures { IfOk result (λ point. (c : contexts.Context) → Knows c context.now → point ≡ told.done_at setting.now c (Assign word.now value.now)) }
{
    let target = code_of(setting, context, word);
    assigns(alloc, setting, context, target, value)
}

/// The code of the variable that is declared next.
fn next_code(
    setting: &Setting<'_>,
    context: &Context,
    sort: &Sort,
) -> Result<Option<u32>, AllocError>
    ensures { IfOk result (λ code. (c : contexts.Context) → Knows c context.now
        → code ≡ told.code_by (variable_code c.variables) (kind_of setting.now.form sort.now)) }
{
    let code = variable_code(context.variables)?;
    Ok(code_by(code, kind_of(setting.spec, sort)))
}

/// What is done where a variable is declared.
fn declares(
    alloc: Global,
    setting: &Setting<'_>,
    context: &Context,
    sort: &Sort,
    value: &Option<Rhs>,
) -> Result<Point, AllocError>
    ensures { IfOk result (λ point. (c : contexts.Context) → Knows c context.now → (place : Place) (w : Word)
        → point ≡ told.done_at setting.now c (Declare place sort.now w value.now)) }
{
    match value {
        None => Ok(Point::Nothing),
        Some(value) => {
            let target = next_code(setting, context, sort)?;
            assigns(alloc, setting, context, target, value)
        }
    }
}

fn branch(context: &Context, test: &Test) -> Point
    ensures { (c : contexts.Context) → Knows c context.now → result ≡ told.branch c test.now }
{
    match test {
        Test::Free(_) => Point::Branch(None),
        Test::Call(_) => Point::Branch(Some(context.calls)),
    }
}

/// The result takes the value.
fn returned(setting: &Setting<'_>, context: &Context, value: &Option<Word>) -> Point
    ensures { (c : contexts.Context) → Knows c context.now → result ≡ told.returned setting.now c value.now }
{
    match value {
        None => Point::Nothing,
        Some(word) => {
            let target = code_by(RESULT_CODE, setting.result);
            Point::Copy(target, argument_of(setting, context, word))
        }
    }
}

/// What is done at the point of a statement.
pub fn point_of(
    alloc: Global,
    setting: &Setting<'_>,
    context: &Context,
    item: &Stmt,
) -> Result<Point, AllocError>
    ensures { IfOk result (λ point. (c : contexts.Context) → Knows c context.now → point ≡ told.done_at setting.now c (statement_of item.now)) }
{
    match item {
        Stmt::Declare(_, sort, _, value) => declares(alloc, setting, context, sort, value),
        Stmt::Assign(word, value) => assigned_point(alloc, setting, context, word, value),
        Stmt::Do(value) => assigns(alloc, setting, context, None, value),
        Stmt::If(_, test, ..) | Stmt::While(_, test, _) => Ok(branch(context, test)),
        Stmt::Break(_) | Stmt::Continue(_) => Ok(Point::Nothing),
        Stmt::Return(given) => Ok(returned(setting, context, &given.value)),
    }
}

/// The class of the variable that a statement declares.
pub fn declared_by(setting: &Setting<'_>, item: &Stmt) -> Option<Option<u32>>
    ensures { result ≡ told.declared_by setting.now (statement_of item.now) }
{
    match item {
        Stmt::Declare(_, sort, _, _) => Some(class_in(kind_of(setting.spec, sort))),
        Stmt::Assign(..) | Stmt::Do(_) | Stmt::If(..) | Stmt::While(..) => None,
        Stmt::Break(_) | Stmt::Continue(_) | Stmt::Return(_) => None,
    }
}
