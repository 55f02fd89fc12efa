//! The first fault of the statements of a block, and what is written of them, in one walk that goes behind them.
ghost use Rattle.std.specs.Prelude.{◌≡◌, ◌||◌, ℕ, IfOk, OnOk, filter};
ghost use Rattle.client_bodies.specs.Walking.{AreWithin, Grows, IsSame, Passed, Walks, block, faults_inside, faults_of_trees, is_among, is_own, with_inside};
ghost use Rattle.client_model.specs.Statements.{statement_of};
ghost use Rattle.client_points.specs.Writing.{written_with};
ghost use Rattle.client_model.specs.Codes.{variable_code};
ghost use Rattle.client_model.specs.Contexts as told;
ghost use Rattle.client_model.specs.SetNumbers.{AllThese, AreThese};
ghost use Rattle.client_model.specs.Statements as trees;
ghost use Rattle.easl_model.specs.declared.place.Place.{Place};
ghost use Rattle.client_values.specs.Knowing.{is_everything};
ghost use Rattle.client_values.specs.ToldFaults.{Finds};

use crate::behind::{
    behind_assigned, behind_declaration, behind_done, behind_returned, behind_stopped,
};
use crate::blocks::{Block, assigned_of, join, leave, outside_of};
use crate::statements::{all_go_on, faults_at};
use crate::steps::{call_count_of_test, enter, evaluate};
use client_model::{Stmt, Test};
use client_points::Written;
use client_values::{Context, Fault, Setting};
use std::alloc::{AllocError, Global};

/// The first fault of statements and what was found before; the context goes behind them.
#[cycle(walk)]
pub fn faults_of_statements(
    alloc: Global,
    setting: &Setting<'_>,
    context: &mut Context,
    items: &[Stmt],
    written: &mut Written,
    start: Option<Fault>,
) -> Result<Option<Fault>, AllocError>
    ensures found { IfOk result (λ f. (c : told.Context) → Walks setting.now c context.old → Finds start f (faults_of_trees setting.now c (block items.now))) }
    ensures behind { OnOk result ((c : told.Context) → Walks setting.now c context.old → Walks setting.now (told.after_all setting.now c (block items.now)) context.new) }
    ensures written { OnOk result ((c : told.Context) → Walks setting.now c context.old → written.new ≡ written_with (told.situated setting.now c (block items.now)) written.old) }
    ensures grows { OnOk result (Grows context.old.assigned context.new.assigned) }
    ensures passed { OnOk result ((c : told.Context) → Walks setting.now c context.old → AllThese (told.situated setting.now c (block items.now))
        → Passed (told.situated setting.now c (block items.now)) context.old.assigned.names context.new.assigned.names) }
{
    let mut found = start;
    'each: for item in items {
        written.note(alloc, setting, context, item)?;
        let here = faults_at(setting, context, item, found);
        found = faults_inside(alloc, setting, context, item, written, here)?;
    }
    Ok(found)
}

/// That of what a statement holds; the context goes behind it.
#[cycle(walk)]
fn faults_inside(
    alloc: Global,
    setting: &Setting<'_>,
    context: &mut Context,
    item: &Stmt,
    written: &mut Written,
    found: Option<Fault>,
) -> Result<Option<Fault>, AllocError>
    ensures found { IfOk result (λ f. (c : told.Context) → Walks setting.now c context.old → Finds found f (faults_inside setting.now c (statement_of item.now))) }
    ensures behind { OnOk result ((c : told.Context) → Walks setting.now c context.old → Walks setting.now (told.after setting.now c (statement_of item.now)) context.new) }
    ensures written { OnOk result ((c : told.Context) → Walks setting.now c context.old → written.new ≡ written_with (told.situated_in setting.now c (statement_of item.now)) written.old) }
    ensures grows { OnOk result (Grows context.old.assigned context.new.assigned) }
    ensures passed { OnOk result ((c : told.Context) → Walks setting.now c context.old → AreThese c.assigned
        → AllThese (told.situated_in setting.now c (statement_of item.now))
        → Passed (with_inside setting.now c (statement_of item.now)) context.old.assigned.names context.new.assigned.names) }
{
    match item {
        Stmt::Declare(_, sort, name, value) => {
            behind_declaration(alloc, setting, context, sort, name, value)?;
            Ok(found)
        }
        Stmt::Assign(name, value) => {
            behind_assigned(setting, context, name, value)?;
            Ok(found)
        }
        Stmt::Do(value) => {
            behind_done(context, value)?;
            Ok(found)
        }
        Stmt::If(_, test, first, second, _) => {
            evaluate(context, call_count_of_test(test))?;
            let one = faults_of_block(
                alloc,
                setting,
                context,
                first.as_slice(),
                &[],
                written,
                found,
            )?;
            let other = faults_of_block(
                alloc,
                setting,
                context,
                second.as_slice(),
                one.own.numbers.as_slice(),
                written,
                one.found,
            )?;
            join(context, &one, &other)?;
            Ok(other.found)
        }
        Stmt::While(_, test, inner) => faults_of_while(
            alloc,
            setting,
            context,
            test,
            inner.as_slice(),
            written,
            found,
        ),
        Stmt::Break(_) | Stmt::Continue(_) => {
            behind_stopped(context)?;
            Ok(found)
        }
        Stmt::Return(_) => {
            behind_returned(alloc, context)?;
            Ok(found)
        }
    }
}

/// That of the block of a `while`; the context goes behind it.
#[cycle(walk)]
fn faults_of_while(
    alloc: Global,
    setting: &Setting<'_>,
    context: &mut Context,
    test: &Test,
    items: &[Stmt],
    written: &mut Written,
    start: Option<Fault>,
) -> Result<Option<Fault>, AllocError>
    ensures found { IfOk result (λ f. (c : told.Context) → Walks setting.now c context.old
        → Finds start f (faults_of_trees setting.now (told.looping (told.evaluated (told.value_of_test test.now) c)) (block items.now))) }
    ensures behind { OnOk result ((c : told.Context) → Walks setting.now c context.old
        → Walks setting.now (told.counting c (told.after_all setting.now (told.looping (told.evaluated (told.value_of_test test.now) c)) (block items.now))) context.new) }
    ensures written { OnOk result ((c : told.Context) → Walks setting.now c context.old
        → written.new ≡ written_with (told.situated setting.now (told.looping (told.evaluated (told.value_of_test test.now) c)) (block items.now)) written.old) }
    ensures same { OnOk result (IsSame context.old.assigned context.new.assigned) }
    ensures passed { OnOk result ((c : told.Context) (place : Place) → Walks setting.now c context.old → AreThese c.assigned
        → AllThese (told.situated_in setting.now c (trees.While place test.now (block items.now)))
        → Passed (with_inside setting.now c (trees.While place test.now (block items.now))) context.old.assigned.names context.new.assigned.names) }
{
    evaluate(context, call_count_of_test(test))?;
    let looped = context.looped;
    context.looped = true;
    let inner = faults_of_block(alloc, setting, context, items, &[], written, start)?;
    context.looped = looped;
    Ok(inner.found)
}

/// What is known behind a block; the context goes behind it.
#[cycle(walk)]
fn faults_of_block(
    alloc: Global,
    setting: &Setting<'_>,
    context: &mut Context,
    items: &[Stmt],
    others: &[u32],
    written: &mut Written,
    start: Option<Fault>,
) -> Result<Block, AllocError>
    ensures found { IfOk result (λ b. (c : told.Context) → Walks setting.now c context.old → Finds start b.found (faults_of_trees setting.now (told.entered c) (block items.now))) }
    ensures goes_on { IfOk result (λ b. b.goes_on ≡ told.ends_going_on (block items.now)) }
    ensures behind { OnOk result ((c : told.Context) → Walks setting.now c context.old
        → Walks setting.now (told.counting c (told.after_all setting.now (told.entered c) (block items.now))) context.new) }
    ensures written { OnOk result ((c : told.Context) → Walks setting.now c context.old
        → written.new ≡ written_with (told.situated setting.now (told.entered c) (block items.now)) written.old) }
    ensures same { OnOk result (IsSame context.old.assigned context.new.assigned) }
    ensures own { IfOk result (λ b. (c : told.Context) → Walks setting.now c context.old → (code : ℕ)
        → told.has (told.behind_block (block items.now) (told.after_all setting.now (told.entered c) (block items.now))) code
        ≡ (is_among context.old.assigned code || is_own b.own code)) }
    ensures everything { IfOk result (λ b. (c : told.Context) → Walks setting.now c context.old
        → is_everything (told.behind_block (block items.now) (told.after_all setting.now (told.entered c) (block items.now))) ≡ b.own.everything) }
    ensures within { IfOk result (λ b. AreWithin context.new.assigned.names.variables b.own.numbers) }
    ensures both { IfOk result (λ b. b.both
        ≡ filter (λ k. is_among context.old.assigned (variable_code k) || is_own b.own (variable_code k)) others.now) }
    ensures passed { OnOk result ((c : told.Context) → Walks setting.now c context.old → AllThese (told.situated setting.now (told.entered c) (block items.now))
        → Passed (told.situated setting.now (told.entered c) (block items.now)) context.old.assigned.names context.new.assigned.names) }
{
    let outside = outside_of(context);
    enter(context);
    let found = faults_of_statements(alloc, setting, context, items, written, start)?;
    let goes_on = all_go_on(true, items);
    let both = assigned_of(alloc, &context.assigned, goes_on, others)?;
    let own = leave(alloc, context, outside, goes_on)?;
    Ok(Block {
        found,
        goes_on,
        own,
        both,
    })
}
