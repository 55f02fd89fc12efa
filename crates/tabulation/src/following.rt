//! Edges that follow from one edge, and from a call and an exit.
ghost use Rattle.std.specs.Prelude.{◌≡◌, ℕ, Bool, ◌∷◌, [], ◌++◌, Contains, OnOk, true};
ghost use Rattle.client_facts.specs.Facts.{IsFact};
ghost use Rattle.client_facts.specs.Flows.{FollowsStep};
ghost use Rattle.client_facts.specs.Held as held;
ghost use Rattle.client_facts.specs.Over.{IsAfter};
ghost use Rattle.client_facts.specs.Setting.{exit_of};
ghost use Rattle.client_facts.specs.declared.fact.Fact as told;
ghost use Rattle.client_walks.specs.Edges as edges;
ghost use Rattle.tabulation.specs.Extended.{IsExtended, IsOfOne};
ghost use Rattle.tabulation.specs.Successors.{IsCallTo, IsEntered, IsEntry, IsNext, IsReturned, IsStepped, IsTo};

use crate::places::{call_to, step_to};
use boolean_client::BooleanClient;
use client_facts::{Fact, Setting, is_fact};
use client_walks::Edge;
use cv_base::Memory;
use cv_fix::Twin;
use std::alloc::Global;

/// Puts what follows from the edge over a step behind what was found.
#[tactic(auto, using(crate::proofs::Followed::stepped))]
pub(crate) fn add_steps(
    alloc: Global,
    boolean: &BooleanClient<'_>,
    edge: &Edge,
    found: &mut Vec<Edge>,
) -> Result<(), Memory>
    requires { IsFact (held.setting boolean.now) edge.now.procedure edge.now.point edge.now.fact }
    ensures { OnOk result (IsExtended (IsStepped (held.setting boolean.now) edge.now) found.old.items found.new.items) }
{
    let facts = boolean.after(alloc, edge.procedure, edge.point, &edge.fact)?;
    add_next(
        alloc,
        boolean.setting(),
        edge,
        true,
        facts.as_slice(),
        found,
    )?;
    add_next(
        alloc,
        boolean.setting(),
        edge,
        false,
        facts.as_slice(),
        found,
    )?;
    Ok(())
}

/// The same over a step with this outcome, of what follows over all of them.
#[tactic(auto, using(crate::proofs::Followed::next, crate::proofs::Followed::no_next))]
fn add_next(
    alloc: Global,
    setting: &Setting<'_>,
    edge: &Edge,
    outcome: bool,
    facts: &[Fact],
    found: &mut Vec<Edge>,
) -> Result<(), Memory>
    requires { (f : told.Fact) →
        (Contains facts.now f → IsAfter (held.setting setting.now) edge.now.procedure edge.now.point edge.now.fact f)
        × (IsAfter (held.setting setting.now) edge.now.procedure edge.now.point edge.now.fact f → Contains facts.now f) }
    ensures { OnOk result (IsExtended (IsNext (held.setting setting.now) edge.now outcome) found.old.items found.new.items) }
{
    match step_to(setting, edge.procedure, edge.point, outcome) {
        Some(point) => {
            add_facts(alloc, setting, edge, point, facts, found)?;
            Ok(())
        }
        None => Ok(()),
    }
}

/// Lets the edge go on to the point with each of these facts that is one there.
#[tactic(auto, using(crate::proofs::Extended::more, crate::proofs::Extended::none))]
fn add_facts(
    alloc: Global,
    setting: &Setting<'_>,
    edge: &Edge,
    point: u32,
    facts: &[Fact],
    found: &mut Vec<Edge>,
) -> Result<(), Memory>
    ensures { OnOk result (IsExtended (IsOfOne (IsTo (held.setting setting.now) edge.now point) facts.now) found.old.items found.new.items) }
{
    'each: for fact in facts {
        add_fact(alloc, setting, edge, point, fact, found)?;
    }
    Ok(())
}

/// The same with one fact.
#[tactic(auto, using(crate::proofs::Followed::to_one, crate::proofs::Followed::to_none))]
fn add_fact(
    alloc: Global,
    setting: &Setting<'_>,
    edge: &Edge,
    point: u32,
    fact: &Fact,
    found: &mut Vec<Edge>,
) -> Result<(), Memory>
    ensures { OnOk result (IsExtended (IsTo (held.setting setting.now) edge.now point fact.now) found.old.items found.new.items) }
{
    if is_fact(setting, edge.procedure, point, fact) {
        push(alloc, edge.procedure, &edge.entry, point, fact, found)?;
    }
    Ok(())
}

/// Puts an edge behind what was found.
fn push(
    alloc: Global,
    procedure: u32,
    entry: &Fact,
    point: u32,
    fact: &Fact,
    found: &mut Vec<Edge>,
) -> Result<(), Memory>
    ensures { OnOk result (found.new.items ≡ found.old.items ++ edges.edge procedure entry.now point fact.now ∷ []) }
{
    let entry = entry.twin(alloc)?;
    let fact = fact.twin(alloc)?;
    let edge = Edge {
        procedure,
        entry,
        point,
        fact,
    };
    found.push(edge).map_err(|_| Memory)?;
    Ok(())
}

/// Puts the edges of the entry of what is called at the edge behind what was found.
#[tactic(auto, using(crate::proofs::Followed::entered, crate::proofs::Followed::not_entered))]
pub(crate) fn add_entries(
    alloc: Global,
    boolean: &BooleanClient<'_>,
    edge: &Edge,
    found: &mut Vec<Edge>,
) -> Result<(), Memory>
    requires { IsFact (held.setting boolean.now) edge.now.procedure edge.now.point edge.now.fact }
    ensures { OnOk result (IsExtended (IsEntered (held.setting boolean.now) edge.now) found.old.items found.new.items) }
{
    match call_to(boolean.setting(), edge.procedure, edge.point) {
        Some((callee, _)) => {
            let facts = boolean.entered(alloc, edge.procedure, edge.point, &edge.fact)?;
            add_entry(alloc, callee, &Fact::Always, found)?;
            add_entry_facts(alloc, callee, facts.as_slice(), found)?;
            Ok(())
        }
        None => Ok(()),
    }
}

/// The edges of these entry facts of the procedure.
#[tactic(auto, using(crate::proofs::Extended::more, crate::proofs::Extended::none))]
fn add_entry_facts(
    alloc: Global,
    callee: u32,
    facts: &[Fact],
    found: &mut Vec<Edge>,
) -> Result<(), Memory>
    ensures { OnOk result (IsExtended (IsOfOne (IsEntry callee) facts.now) found.old.items found.new.items) }
{
    'each: for fact in facts {
        add_entry(alloc, callee, fact, found)?;
    }
    Ok(())
}

/// The edge of this entry fact.
#[tactic(auto, using(crate::proofs::Followed::entry_one))]
fn add_entry(alloc: Global, callee: u32, fact: &Fact, found: &mut Vec<Edge>) -> Result<(), Memory>
    ensures { OnOk result (IsExtended (IsEntry callee fact.now) found.old.items found.new.items) }
{
    push(alloc, callee, fact, 0, fact, found)?;
    Ok(())
}

/// Puts what follows behind the call at the one edge from the other one at the exit of what is called behind what was found.
#[tactic(auto, using(crate::proofs::Followed::other_procedure, crate::proofs::Followed::other_point, crate::proofs::Followed::not_called))]
pub(crate) fn add_returns(
    alloc: Global,
    boolean: &BooleanClient<'_>,
    before: &Edge,
    exit: &Edge,
    found: &mut Vec<Edge>,
) -> Result<(), Memory>
    ensures { OnOk result (IsExtended (IsReturned (held.setting boolean.now) before.now exit.now) found.old.items found.new.items) }
{
    match call_to(boolean.setting(), before.procedure, before.point) {
        Some((callee, behind)) => {
            if exit.procedure != callee {
                return Ok(());
            }
            if exit.point != boolean.setting().exit(callee) {
                return Ok(());
            }
            add_returned(alloc, boolean, before, exit, behind, found)?;
            Ok(())
        }
        None => Ok(()),
    }
}

/// The same to the point behind the call.
#[tactic(auto, using(crate::proofs::Followed::behind))]
fn add_returned(
    alloc: Global,
    boolean: &BooleanClient<'_>,
    before: &Edge,
    exit: &Edge,
    behind: u32,
    found: &mut Vec<Edge>,
) -> Result<(), Memory>
    requires call { IsCallTo (held.setting boolean.now) before.now.procedure before.now.point exit.now.procedure behind }
    requires exit { exit.now.point ≡ exit_of (held.setting boolean.now) exit.now.procedure }
    ensures { OnOk result (IsExtended (IsReturned (held.setting boolean.now) before.now exit.now) found.old.items found.new.items) }
{
    let facts = boolean.returned(
        alloc,
        before.procedure,
        before.point,
        &before.fact,
        &exit.entry,
        &exit.fact,
    )?;
    add_facts(
        alloc,
        boolean.setting(),
        before,
        behind,
        facts.as_slice(),
        found,
    )?;
    Ok(())
}
