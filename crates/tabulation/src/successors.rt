//! What follows from an edge with those before it.
ghost use Rattle.std.specs.Prelude.{◌+◌, ◌<◌, Contains, IfOk, length};
ghost use Rattle.client_facts.specs.Held as held;
ghost use Rattle.client_walks.specs.Edges.{IsEdge};
ghost use Rattle.client_walks.specs.declared.edge.Edge as told;
ghost use Rattle.tabulation.specs.Indexed.{AreNoted, IsCallerOf, IsExitOf};
ghost use Rattle.tabulation.specs.Successors.{AreSuccessors};

use crate::following::{add_entries, add_steps};
use crate::returning::{add_from_exits, add_to_callers};
use crate::table::Table;
use boolean_client::BooleanClient;
use client_walks::Edge;
use cv_base::Memory;
use std::alloc::Global;

/// What the edge at this place gives with those before it, besides what those give by themselves. `Memory` where there is no memory left.
#[tactic(auto, using(crate::proofs::Answered::fact_there, crate::proofs::Reached::are_found))]
pub(crate) fn successors(
    alloc: Global,
    boolean: &BooleanClient<'_>,
    exits: &Table,
    callers: &Table,
    edges: &[Edge],
    at: usize,
) -> Result<Vec<Edge>, Memory>
    requires at { at < length edges.now }
    requires sound { (x : told.Edge) → Contains edges.now x → IsEdge (held.setting boolean.now) x }
    requires left { AreNoted (IsExitOf (held.setting boolean.now)) edges.now (at + 1) exits.now }
    requires called { AreNoted (IsCallerOf (held.setting boolean.now)) edges.now (at + 1) callers.now }
    ensures { IfOk result (λ found. AreSuccessors (held.setting boolean.now) edges.now at found.items) }
{
    let edge = &edges[at];
    let mut found = Vec::new(alloc);
    add_steps(alloc, boolean, edge, &mut found)?;
    add_entries(alloc, boolean, edge, &mut found)?;
    add_from_exits(alloc, boolean, exits, edges, edge, &mut found)?;
    add_to_callers(alloc, boolean, callers, edges, edge, &mut found)?;
    Ok(found)
}
