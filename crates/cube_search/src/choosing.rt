//! The choice among the widest cubes.
ghost use Rattle.std.specs.Prelude.{◌≡◌, ◌↔◌, true, length, IfOk};
ghost use Rattle.cube_search.specs.Choice.{chosen_of, union};
ghost use Rattle.cube_search.specs.Cubes.{AreAsLong, Before, Counts, IsEmpty, IsEnough, IsTrueAt, covers};
ghost use Rattle.cube_search.specs.Widest.{AreChosen};

use crate::row::{Row, either, is_within};
use crate::searching::{Candidate, Task, put, widest};
use cv_base::Memory;
use std::alloc::Global;

/// What is chosen.
#[derive(Debug, Drop)]
pub struct Choice {
    /// The chosen cubes in their order.
    pub cubes: Vec<Candidate>,
    /// Whether each configuration in which the tree is true is one in which some of them is.
    pub is_enough: bool,
}

/// The widest implicants in the order of cubes, each that is true where none of those before that are chosen is; and
/// whether they are enough. `none` is a row without a bit, as long as the others. `Memory` where there is none left.
pub fn disjuncts(alloc: Global, task: &Task, none: Row) -> Result<Choice, Memory>
    requires empty { IsEmpty none }
    requires long { AreAsLong task.now none }
    ensures chosen { IfOk result (λ c. AreChosen IsTrueAt Before covers (Counts task.now) c.cubes.items) }
    ensures enough { IfOk result (λ c. c.is_enough ≡ true ↔ IsEnough task.now.wanted c.cubes.items) }
{
    let kept = widest(alloc, task)?;
    let (cubes, covered) = choose(alloc, kept, none)?;
    let is_enough = is_within(&task.wanted, &covered);
    Ok(Choice { cubes, is_enough })
}

/// Those that are true where none of those before that are chosen is, and the row of where some of them is true.
fn choose(alloc: Global, kept: Vec<Candidate>, none: Row) -> Result<(Vec<Candidate>, Row), Memory>
    ensures chosen { IfOk result (λ pair. pair.0.items ≡ chosen_of kept.items none) }
    ensures covered { IfOk result (λ pair. pair.1 ≡ union none pair.0.items) }
{
    let mut chosen = Vec::new(alloc);
    let mut covered = none;
    'each: for candidate in kept {
        if !is_within(&candidate.row, &covered) {
            covered = either(alloc, &covered, &candidate.row)?;
            put(&mut chosen, candidate)?;
        }
    }
    Ok((chosen, covered))
}
