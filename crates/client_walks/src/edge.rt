//! Edges: what becomes true at a point, from what is true where its procedure is entered.
use client_facts::Fact;
use cv_base::Memory;
use cv_fix::Twin;
use std::alloc::Global;

/// On a matched path from the procedure's entry, where the first fact is true, to the point the second one becomes true.
#[derive(Debug, Drop, PartialEq, Eq, Hash)]
pub struct Edge {
    pub procedure: u32,
    pub entry: Fact,
    pub point: u32,
    pub fact: Fact,
}

impl Twin for Edge {
    ghost use Rattle.client_walks.specs.Same.{same_edge};

    ghost exact = { same_edge };

    fn twin(&self, alloc: Global) -> Result<Edge, Memory> {
        Ok(Edge {
            procedure: self.procedure,
            entry: self.entry.twin(alloc)?,
            point: self.point,
            fact: self.fact.twin(alloc)?,
        })
    }
}
