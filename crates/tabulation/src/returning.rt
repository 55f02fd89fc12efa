//! Returns between an edge and those at noted places.
ghost use Rattle.std.specs.Prelude.{ℕ, ◌<◌, EachIndex, OnOk, length, slice_index};
ghost use Rattle.client_facts.specs.Facts.{IsFact};
ghost use Rattle.client_facts.specs.Held as held;
ghost use Rattle.tabulation.specs.Extended.{IsExtended, IsOfOne};
ghost use Rattle.tabulation.specs.Reached.{IsFromPlace, IsMet, IsMetAt, IsMetCaller, IsMetExit, IsReached};
ghost use Rattle.tabulation.specs.Successors.{IsReturned};
ghost use Rattle.tabulation.specs.Tables.{HasPlace};

use crate::following::add_returns;
use crate::places::call_to;
use crate::table::{Context, Table};
use boolean_client::BooleanClient;
use client_facts::Fact;
use client_walks::Edge;
use cv_base::Memory;
use cv_fix::Twin;
use std::alloc::Global;

/// Puts what returns from the edge to noted calls of its context behind what was found.
pub(crate) fn add_to_callers(
    alloc: Global,
    boolean: &BooleanClient<'_>,
    callers: &Table,
    edges: &[Edge],
    edge: &Edge,
    found: &mut Vec<Edge>,
) -> Result<(), Memory>
    requires { (j : ℕ) → HasPlace callers.now j → j < length edges.now }
    ensures { OnOk result (IsReached (IsMetCaller (held.setting boolean.now) edge.now callers.now edges.now)
        (IsMet (λ z. IsReturned (held.setting boolean.now) z edge.now) callers.now edges.now) found.old.items found.new.items) }
{
    let entry = edge.entry.twin(alloc)?;
    let context = Context {
        procedure: edge.procedure,
        entry,
    };
    let places = callers.places(&context);
    add_calls(alloc, boolean, edges, places, edge, found)?;
    Ok(())
}

/// The same of the calls at these places.
#[tactic(auto, using(crate::proofs::Extended::none))]
fn add_calls(
    alloc: Global,
    boolean: &BooleanClient<'_>,
    edges: &[Edge],
    places: &[usize],
    edge: &Edge,
    found: &mut Vec<Edge>,
) -> Result<(), Memory>
    requires { EachIndex places.now (λ k. slice_index places.now k < length edges.now) }
    ensures { OnOk result (IsExtended (IsOfOne (IsFromPlace (λ z. IsReturned (held.setting boolean.now) z edge.now) edges.now) places.now)
        found.old.items found.new.items) }
{
    'each: for place in places {
        add_returns(alloc, boolean, &edges[*place], edge, found)?;
    }
    Ok(())
}

/// Puts what returns behind the call at the edge from noted exits of what it enters behind what was found.
pub(crate) fn add_from_exits(
    alloc: Global,
    boolean: &BooleanClient<'_>,
    exits: &Table,
    edges: &[Edge],
    edge: &Edge,
    found: &mut Vec<Edge>,
) -> Result<(), Memory>
    requires fact { IsFact (held.setting boolean.now) edge.now.procedure edge.now.point edge.now.fact }
    requires within { (j : ℕ) → HasPlace exits.now j → j < length edges.now }
    ensures { OnOk result (IsReached (IsMetExit (held.setting boolean.now) edge.now exits.now edges.now)
        (IsMet (IsReturned (held.setting boolean.now) edge.now) exits.now edges.now) found.old.items found.new.items) }
{
    match call_to(boolean.setting(), edge.procedure, edge.point) {
        Some((callee, _)) => {
            let facts = boolean.entered(alloc, edge.procedure, edge.point, &edge.fact)?;
            add_from_facts(
                alloc,
                boolean,
                exits,
                edges,
                edge,
                callee,
                facts.as_slice(),
                found,
            )?;
            Ok(())
        }
        None => Ok(()),
    }
}

/// The same of the exits of these entry facts.
#[tactic(auto, using(crate::proofs::Reached::facts_more, crate::proofs::Reached::facts_none))]
fn add_from_facts(
    alloc: Global,
    boolean: &BooleanClient<'_>,
    exits: &Table,
    edges: &[Edge],
    edge: &Edge,
    callee: u32,
    facts: &[Fact],
    found: &mut Vec<Edge>,
) -> Result<(), Memory>
    requires { (j : ℕ) → HasPlace exits.now j → j < length edges.now }
    ensures { OnOk result (IsReached (IsOfOne (IsMetAt (held.setting boolean.now) edge.now exits.now edges.now callee) facts.now)
        (IsMet (IsReturned (held.setting boolean.now) edge.now) exits.now edges.now) found.old.items found.new.items) }
{
    'each: for fact in facts {
        add_from_fact(alloc, boolean, exits, edges, edge, callee, fact, found)?;
    }
    Ok(())
}

/// The same of the exits of this entry fact.
fn add_from_fact(
    alloc: Global,
    boolean: &BooleanClient<'_>,
    exits: &Table,
    edges: &[Edge],
    edge: &Edge,
    callee: u32,
    fact: &Fact,
    found: &mut Vec<Edge>,
) -> Result<(), Memory>
    requires { (j : ℕ) → HasPlace exits.now j → j < length edges.now }
    ensures { OnOk result (IsReached (IsMetAt (held.setting boolean.now) edge.now exits.now edges.now callee fact.now)
        (IsMet (IsReturned (held.setting boolean.now) edge.now) exits.now edges.now) found.old.items found.new.items) }
{
    let entry = fact.twin(alloc)?;
    let context = Context {
        procedure: callee,
        entry,
    };
    let places = exits.places(&context);
    add_exits(alloc, boolean, edges, places, edge, found)?;
    Ok(())
}

/// The same of the exits at these places.
#[tactic(auto, using(crate::proofs::Extended::none))]
fn add_exits(
    alloc: Global,
    boolean: &BooleanClient<'_>,
    edges: &[Edge],
    places: &[usize],
    edge: &Edge,
    found: &mut Vec<Edge>,
) -> Result<(), Memory>
    requires { EachIndex places.now (λ k. slice_index places.now k < length edges.now) }
    ensures { OnOk result (IsExtended (IsOfOne (IsFromPlace (IsReturned (held.setting boolean.now) edge.now) edges.now) places.now)
        found.old.items found.new.items) }
{
    'each: for place in places {
        add_returns(alloc, boolean, edge, &edges[*place], found)?;
    }
    Ok(())
}
