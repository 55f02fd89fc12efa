//! The walk over a client's statements that finds where their points go on.
ghost use Rattle.std.specs.Prelude.{◌≡◌, ◌∷◌, ◌++◌, [], ◌≤◌, drop, length, map, IfOk, OnOk};
ghost use Rattle.client_model.specs.Nodes.{tree_of};
ghost use Rattle.client_model.specs.Ways as told;
ghost use Rattle.client_model.specs.Checked.{procedure_seen, seen};
ghost use Rattle.flow_graph.specs.Code.{row, ways_told};
ghost use Rattle.flow_graph.specs.Points.{graph_of, next_in};

use crate::tables::Graph;
use client_model::{CheckedClient, Node, Procedure};
use cv_base::Memory;
use std::alloc::{AllocError, Global};

/// The graph of a client: where each point of each procedure goes on. Procedures go by their numbers, the start being 0, and the
/// points of each from 0 on; the exit is the number after the last point and goes nowhere. `Memory` where there is no memory left.
pub fn graph(alloc: Global, client: &CheckedClient) -> Result<Graph, Memory>
    ensures { IfOk result (λ g. g ≡ graph_of (seen client.now)) }
{
    match tables_of(alloc, client) {
        Ok(next) => Ok(Graph::new(next)),
        Err(_) => Err(Memory),
    }
}

/// Where the points of each procedure go on, the exits left out.
fn tables_of(alloc: Global, client: &CheckedClient) -> Result<Vec<Vec<(u32, u32)>>, AllocError>
    ensures { IfOk result (λ next. map (λ v. v.items) next.items ≡ graph_of (seen client.now)) }
{
    client.is_kept();
    let mut next = Vec::new(alloc);
    'each: for number in 0..client.procedure_count() {
        let table = next_of(alloc, client.procedure(number))?;
        next.push(table)?;
    }
    Ok(next)
}

/// What follows statements, and where a `break`, a `continue` and a `return` in them go.
#[derive(Clone, Copy, Debug)]
struct Ways {
    on: u32,
    broken: u32,
    again: u32,
    exit: u32,
}

/// Where each point of the procedure goes on.
fn next_of(alloc: Global, procedure: &Procedure) -> Result<Vec<(u32, u32)>, AllocError>
    requires { length procedure.now.points ≤ 1048577 }
    ensures { IfOk result (λ next. next.items ≡ next_in (procedure_seen procedure.now)) }
{
    let exit = procedure.points.len() as u32;
    let ways = Ways {
        on: exit,
        broken: exit,
        again: exit,
        exit,
    };
    let mut next = Vec::new(alloc);
    add_all(procedure.shape.as_slice(), ways, &mut next)?;
    Ok(next)
}

/// The point of a statement.
fn point_of(node: &Node) -> u32
    ensures { result ≡ told.point_of (tree_of node.now) }
{
    match node {
        Node::Step(point)
        | Node::If(point, _, _)
        | Node::While(point, _)
        | Node::Break(point)
        | Node::Continue(point)
        | Node::Return(point) => *point,
    }
}

/// The first point of these statements from this one on, else what follows them.
fn point_from(nodes: &[Node], at: usize, on: u32) -> u32
    ensures { result ≡ told.first_point (row (drop at nodes.now)) on }
{
    match nodes.get(at) {
        Some(node) => point_of(node),
        None => on,
    }
}

/// The first point of these statements, else what follows them.
fn first_point(nodes: &[Node], on: u32) -> u32
    ensures { result ≡ told.first_point (row nodes.now) on }
{
    point_from(nodes, 0, on)
}

/// Adds where a point goes on whatever its outcome.
fn put(next: &mut Vec<(u32, u32)>, on: u32) -> Result<(), AllocError>
    ensures { OnOk result (next.new.items ≡ next.old.items ++ (on, on) ∷ []) }
{
    next.push((on, on))?;
    Ok(())
}

/// Adds where the points of these statements go on.
#[cycle(walk)]
fn add_all(nodes: &[Node], ways: Ways, next: &mut Vec<(u32, u32)>) -> Result<(), AllocError>
    ensures { OnOk result (next.new.items ≡ next.old.items ++ told.ways_of (ways_told ways) (row nodes.now)) }
{
    'each: for (at, node) in nodes.iter().enumerate() {
        let on = point_from(nodes, at + 1, ways.on);
        add(node, Ways { on, ..ways }, next)?;
    }
    Ok(())
}

/// Adds where the point of this statement goes on, and those of the statements that it holds.
#[cycle(walk)]
fn add(node: &Node, ways: Ways, next: &mut Vec<(u32, u32)>) -> Result<(), AllocError>
    ensures { OnOk result (next.new.items ≡ next.old.items ++ told.ways_in (ways_told ways) (tree_of node.now)) }
{
    match node {
        Node::Step(_) => put(next, ways.on),
        Node::If(_, first, second) => {
            let on_true = first_point(first.as_slice(), ways.on);
            let on_false = first_point(second.as_slice(), ways.on);
            next.push((on_true, on_false))?;
            add_all(first.as_slice(), ways, next)?;
            add_all(second.as_slice(), ways, next)
        }
        Node::While(point, inner) => {
            next.push((first_point(inner.as_slice(), *point), ways.on))?;
            let looped = Ways {
                on: *point,
                broken: ways.on,
                again: *point,
                exit: ways.exit,
            };
            add_all(inner.as_slice(), looped, next)
        }
        Node::Break(_) => put(next, ways.broken),
        Node::Continue(_) => put(next, ways.again),
        Node::Return(_) => put(next, ways.exit),
    }
}
