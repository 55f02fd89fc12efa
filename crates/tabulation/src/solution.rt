//! Lists of edges, each once.
use client_walks::Edge;
use cv_base::Memory;
use indexmap::IndexSet;
use std::alloc::Global;
use std::marker::Model;

/// Edges in the order in which they came, each once. Contracts see their list.
#[derive(Debug, Drop)]
pub struct Solution {
    edges: IndexSet<Edge>,
}

impl Model for Solution {
    ghost use Rattle.std.specs.Prelude.{List};
    ghost use Rattle.client_walks.specs.declared.edge.Edge.{Edge};
    ghost use Rattle.tabulation.specs.Orders.{AllDiffer};

    ghost Value = { List Edge };

    ghost view = { λ s. s.edges.keys };

    ghost invariant = { λ s. AllDiffer s.edges.keys };
}

impl Solution {
    ghost use Rattle.std.specs.Prelude.{◌≡◌, ◌≢◌, [], AllPairs, Contains, IfOk, OnOk, true};
    ghost use Rattle.client_walks.specs.contracts.edge.EdgePartialEq.TheImpl as edges;
    ghost use Rattle.indexmap.specs.IndexSet.{insert_all, insert_key};

    /// The edges. `Memory` where there is no memory left.
    #[tactic(auto, using(crate::proofs::Inserted::as_they_are))]
    pub fn new(alloc: Global, edges: Vec<Edge>) -> Result<Solution, Memory>
        requires { AllPairs (λ x y. x ≢ y) edges.items }
        ensures { IfOk result (λ solution. solution ≡ edges.items) }
    {
        let mut solution = Solution::empty(alloc);
        solution.add_all(edges)?;
        Ok(solution)
    }

    /// No edges. It takes no memory.
    fn empty(alloc: Global) -> Solution
        ensures { result ≡ [] }
    {
        Solution {
            edges: IndexSet::new(alloc),
        }
    }

    /// The edges in order.
    pub fn edges(&self) -> &[Edge]
        ensures value { result.now ≡ self.now }
        ensures once { AllPairs (λ x y. x ≢ y) self.now }
    {
        self.edges.as_slice()
    }

    /// Whether the edge is one of these.
    #[tactic(auto, using(crate::proofs::Inserted::is_there, crate::proofs::Inserted::is_known))]
    pub fn has(&self, edge: &Edge) -> bool
        ensures there { result ≡ true → Contains self.now edge.now }
        ensures only { Contains self.now edge.now → result ≡ true }
    {
        self.edges.contains(edge)
    }

    /// Puts each new edge at the end. `Memory` where there is no memory left.
    pub(crate) fn add_all(&mut self, found: Vec<Edge>) -> Result<(), Memory>
        ensures { OnOk result (self.new ≡ insert_all (edges.ghosts).eq self.old found.items) }
    {
        'each: for edge in found {
            self.add(edge)?;
        }
        Ok(())
    }

    /// Puts the edge at the end, unless it is there.
    #[tactic(auto, using(crate::proofs::Inserted::once))]
    fn add(&mut self, edge: Edge) -> Result<(), Memory>
        ensures { OnOk result (self.new ≡ insert_key (edges.ghosts).eq self.old edge) }
    {
        let Ok(_) = self.edges.insert(edge) else {
            return Err(Memory);
        };
        Ok(())
    }
}
