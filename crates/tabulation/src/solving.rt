//! The least list of edges.
ghost use Rattle.std.specs.Prelude.{◌≡◌, ◌≢◌, ◌↔◌, ◌+◌, ◌<◌, ◌≤◌, AllPairs, Contains, IfOk, OnOk, length};
ghost use Rattle.client_facts.specs.Held as held;
ghost use Rattle.client_walks.specs.Edges.{IsEdge, IsLeastList};
ghost use Rattle.client_walks.specs.declared.edge.Edge as told;
ghost use Rattle.tabulation.specs.Indexed.{AreNoted, IsCallerOf, IsExitOf};
ghost use Rattle.tabulation.specs.Orders.{IsInOrder};
ghost use Rattle.tabulation.specs.SoFar.{IsSoFar};

use crate::index::{note_caller, note_exit};
use crate::solution::Solution;
use crate::successors::successors;
use crate::table::Table;
use boolean_client::BooleanClient;
use client_facts::Fact;
use client_walks::Edge;
use cv_base::Memory;
use cv_fix::Steps;
use std::alloc::Global;
use std::sync::ledger::Ledger;

/// The least list of edges of the client in the order in which they are found: it begins with the first edge, and asks of each in turn
/// what follows from it and those before it. It takes one step for each edge. `Memory` where there is no memory left.
#[tactic(auto, using(crate::proofs::Begun::exact, crate::proofs::Begun::is_least))]
pub fn solve<L: Ledger>(
    alloc: Global,
    boolean: &BooleanClient<'_>,
    steps: &mut Steps<L>,
) -> Result<Solution, Memory>
    ensures edges { IfOk result (λ solution. (x : told.Edge) → Contains solution x ↔ IsEdge (held.setting boolean.now) x) }
    ensures least { IfOk result (λ solution. IsLeastList (held.setting boolean.now) solution) }
    ensures once { IfOk result (λ solution. AllPairs (λ x y. x ≢ y) solution) }
    ensures order { IfOk result (λ solution. IsInOrder (held.setting boolean.now) solution) }
    ensures steps { IfOk result (λ solution. steps.new ≡ steps.old + length solution) }
{
    let mut solution = begun(alloc, boolean)?;
    let mut exits = Table::new(alloc);
    let mut callers = Table::new(alloc);
    let mut at = 0;
    'each: while at < solution.edges().len() {
        steps.tick();
        ask(alloc, boolean, &mut solution, &mut exits, &mut callers, at)?;
        at += 1;
    }
    Ok(solution)
}

/// The first edge.
#[tactic(auto, using(crate::proofs::Begun::alone, crate::proofs::Begun::begun))]
fn begun(alloc: Global, boolean: &BooleanClient<'_>) -> Result<Solution, Memory>
    ensures { IfOk result (λ solution. IsSoFar (held.setting boolean.now) solution 0) }
{
    let first = Edge {
        procedure: 0,
        entry: Fact::Always,
        point: 0,
        fact: Fact::Always,
    };
    let Ok(edges) = vec![in alloc; first] else {
        return Err(Memory);
    };
    let solution = Solution::new(alloc, edges)?;
    Ok(solution)
}

/// Puts what follows from the edge at this place and those before it at the end.
#[tactic(auto, using(crate::proofs::Begun::so_far, crate::proofs::Begun::as_many))]
fn ask(
    alloc: Global,
    boolean: &BooleanClient<'_>,
    solution: &mut Solution,
    exits: &mut Table,
    callers: &mut Table,
    at: usize,
) -> Result<(), Memory>
    requires at { at < length solution.old }
    requires so_far { IsSoFar (held.setting boolean.now) solution.old at }
    requires left { AreNoted (IsExitOf (held.setting boolean.now)) solution.old at exits.old }
    requires called { AreNoted (IsCallerOf (held.setting boolean.now)) solution.old at callers.old }
    ensures so_far { OnOk result (IsSoFar (held.setting boolean.now) solution.new (at + 1)) }
    ensures left { OnOk result (AreNoted (IsExitOf (held.setting boolean.now)) solution.new (at + 1) exits.new) }
    ensures called { OnOk result (AreNoted (IsCallerOf (held.setting boolean.now)) solution.new (at + 1) callers.new) }
    ensures grown { OnOk result (length solution.old ≤ length solution.new) }
{
    note_exit(alloc, boolean, exits, solution.edges(), at)?;
    note_caller(alloc, boolean, callers, solution.edges(), at)?;
    let found = successors(alloc, boolean, exits, callers, solution.edges(), at)?;
    solution.add_all(found)?;
    Ok(())
}
