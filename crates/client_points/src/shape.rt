//! How statements stand in one another.
ghost use Rattle.std.specs.Prelude.{◌≡◌, ◌+◌, IfOk, OnOk, map};
ghost use Rattle.client_model.specs.Nodes.{count, count_in, node_at, shape_from, tree_of, trees};
ghost use Rattle.client_model.specs.Statements.{statement_of, statements};

use client_model::{Node, Stmt};
use sqlite_items::Items;
use std::alloc::{AllocError, Global};

/// The statements by their points, which are numbered in text order from here on.
pub fn shape_of(alloc: Global, items: &[Stmt], first: u32) -> Result<Items<Node>, AllocError>
    ensures { IfOk result (λ nodes. trees (map tree_of nodes) ≡ shape_from first (statements (map statement_of items.now))) }
{
    let mut point = first;
    nodes_of(alloc, items, &mut point)
}

/// The same; the point goes behind them.
#[cycle(shape)]
fn nodes_of(alloc: Global, items: &[Stmt], point: &mut u32) -> Result<Items<Node>, AllocError>
    ensures nodes { IfOk result (λ nodes. trees (map tree_of nodes) ≡ shape_from point.old (statements (map statement_of items.now))) }
    ensures behind { OnOk result (point.new ≡ point.old + count (statements (map statement_of items.now))) }
{
    let mut nodes = Items::new(alloc);
    'each: for item in items {
        nodes.push(node_of(alloc, item, point)?)?;
    }
    Ok(nodes)
}

/// The node of a statement; the point goes behind what it holds. Numbers that run out are want of memory.
#[cycle(shape)]
fn node_of(alloc: Global, item: &Stmt, point: &mut u32) -> Result<Node, AllocError>
    ensures node { IfOk result (λ node. tree_of node ≡ node_at point.old (statement_of item.now)) }
    ensures behind { OnOk result (point.new ≡ point.old + count_in (statement_of item.now)) }
{
    let here = *point;
    *point = here.checked_add(1).ok_or(AllocError)?;
    match item {
        Stmt::Declare(..) | Stmt::Assign(..) | Stmt::Do(_) => Ok(Node::Step(here)),
        Stmt::If(_, _, first, second, _) => {
            let first = nodes_of(alloc, first.as_slice(), point)?;
            let second = nodes_of(alloc, second.as_slice(), point)?;
            Ok(Node::If(here, first, second))
        }
        Stmt::While(_, _, inner) => {
            let inner = nodes_of(alloc, inner.as_slice(), point)?;
            Ok(Node::While(here, inner))
        }
        Stmt::Break(_) => Ok(Node::Break(here)),
        Stmt::Continue(_) => Ok(Node::Continue(here)),
        Stmt::Return(_) => Ok(Node::Return(here)),
    }
}
