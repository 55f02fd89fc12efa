//! Which of the known edges leave and call procedures, so that returns are found without a scan.
ghost use Rattle.std.specs.Prelude.{◌≡◌, ℕ, ◌+◌, ◌<◌, Contains, OnOk, length};
ghost use Rattle.client_facts.specs.Facts.{IsFact};
ghost use Rattle.client_facts.specs.Held as held;
ghost use Rattle.client_walks.specs.Edges.{IsEdge};
ghost use Rattle.client_walks.specs.declared.edge.Edge as told;
ghost use Rattle.tabulation.specs.Indexed.{AreNoted, IsCallerOf, IsExitOf, IsNoted, IsOfFacts, context};
ghost use Rattle.tabulation.specs.Tables.{IsWithPlace};

use crate::places::call_to;
use crate::table::{Context, Table};
use boolean_client::BooleanClient;
use client_facts::{Fact, Setting};
use client_walks::Edge;
use cv_base::Memory;
use cv_fix::Twin;
use std::alloc::Global;

/// Notes the edge at this place, where it is at the exit of its procedure.
#[tactic(auto, using(crate::proofs::Noted::exit_more))]
pub(crate) fn note_exit(
    alloc: Global,
    boolean: &BooleanClient<'_>,
    exits: &mut Table,
    edges: &[Edge],
    at: usize,
) -> Result<(), Memory>
    requires at { at < length edges.now }
    requires noted { AreNoted (IsExitOf (held.setting boolean.now)) edges.now at exits.old }
    ensures { OnOk result (AreNoted (IsExitOf (held.setting boolean.now)) edges.now (at + 1) exits.new) }
{
    add_exit(alloc, boolean.setting(), exits, &edges[at], at)?;
    Ok(())
}

/// Puts the place of the edge to its context, where it is at the exit.
#[tactic(auto, using(crate::proofs::Noted::exit_there, crate::proofs::Noted::no_exit))]
fn add_exit(
    alloc: Global,
    setting: &Setting<'_>,
    exits: &mut Table,
    edge: &Edge,
    at: usize,
) -> Result<(), Memory>
    ensures { OnOk result (IsNoted (IsExitOf (held.setting setting.now) edge.now) at exits.old exits.new) }
{
    if edge.point == setting.exit(edge.procedure) {
        add(alloc, exits, edge.procedure, &edge.entry, at)?;
    }
    Ok(())
}

/// Notes the edge at this place, where it is at a procedure call.
#[tactic(auto, using(crate::proofs::Noted::caller_more, crate::proofs::Answered::fact_there))]
pub(crate) fn note_caller(
    alloc: Global,
    boolean: &BooleanClient<'_>,
    callers: &mut Table,
    edges: &[Edge],
    at: usize,
) -> Result<(), Memory>
    requires at { at < length edges.now }
    requires sound { (x : told.Edge) → Contains edges.now x → IsEdge (held.setting boolean.now) x }
    requires noted { AreNoted (IsCallerOf (held.setting boolean.now)) edges.now at callers.old }
    ensures { OnOk result (AreNoted (IsCallerOf (held.setting boolean.now)) edges.now (at + 1) callers.new) }
{
    add_caller(alloc, boolean, callers, &edges[at], at)?;
    Ok(())
}

/// Puts the place of the edge to each context that it enters.
#[tactic(auto, using(crate::proofs::Noted::caller_there, crate::proofs::Noted::no_caller))]
fn add_caller(
    alloc: Global,
    boolean: &BooleanClient<'_>,
    callers: &mut Table,
    edge: &Edge,
    at: usize,
) -> Result<(), Memory>
    requires { IsFact (held.setting boolean.now) edge.now.procedure edge.now.point edge.now.fact }
    ensures { OnOk result (IsNoted (IsCallerOf (held.setting boolean.now) edge.now) at callers.old callers.new) }
{
    match call_to(boolean.setting(), edge.procedure, edge.point) {
        Some((callee, _)) => {
            let facts = boolean.entered(alloc, edge.procedure, edge.point, &edge.fact)?;
            add_facts(alloc, callers, callee, facts.as_slice(), at)?;
            Ok(())
        }
        None => Ok(()),
    }
}

/// Puts the place to the contexts of these entry facts.
#[tactic(auto, using(crate::proofs::Noted::facts_more, crate::proofs::Noted::facts_none))]
fn add_facts(
    alloc: Global,
    callers: &mut Table,
    callee: u32,
    facts: &[Fact],
    at: usize,
) -> Result<(), Memory>
    ensures { OnOk result (IsNoted (IsOfFacts callee facts.now) at callers.old callers.new) }
{
    'each: for fact in facts {
        add(alloc, callers, callee, fact, at)?;
    }
    Ok(())
}

/// Puts the place to the context.
fn add(
    alloc: Global,
    table: &mut Table,
    procedure: u32,
    entry: &Fact,
    at: usize,
) -> Result<(), Memory>
    ensures { OnOk result (IsWithPlace table.old (context procedure entry.now) at table.new) }
{
    let entry = entry.twin(alloc)?;
    let context = Context { procedure, entry };
    table.add(alloc, context, at).map_err(|_| Memory)?;
    Ok(())
}
