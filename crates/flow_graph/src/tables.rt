//! Where points go on, as a table for each procedure.
ghost use Rattle.std.specs.Prelude.{◌≡◌, map, option_and_then, slice_get};

use std::marker::Model;

/// Where the points of a client's procedures go on. Procedures go by their numbers, the start being 0, and the points of each
/// from 0 on. The exit of a procedure is the number after its last point.
#[derive(Debug, Drop)]
pub struct Graph {
    /// By procedure and point, the exits left out: where it goes on, on T and on F. Both are equal where it is no test.
    next: Vec<Vec<(u32, u32)>>,
}

impl Model for Graph {
    ghost use Rattle.std.specs.Prelude.{List, ℕ, map};

    ghost Value = { List (List (ℕ × ℕ)) };

    ghost view = { λ g. map (λ v. v.items) g.next.items };
}

impl Graph {
    /// The graph with these tables, one for each procedure.
    pub(crate) fn new(next: Vec<Vec<(u32, u32)>>) -> Graph
        ensures { result ≡ map (λ v. v.items) next.items }
    {
        Graph { next }
    }

    /// Where this point of the procedure goes on, on T and on F; both are equal where it is no test. None where there is no such
    /// point: an exit goes nowhere.
    pub fn ways(&self, procedure: u32, point: u32) -> Option<(u32, u32)>
        ensures { result ≡ option_and_then (λ t. slice_get t point) (slice_get self.now procedure) }
    {
        let table = self.next.get(procedure as usize)?;
        table.get(point as usize).copied()
    }
}
