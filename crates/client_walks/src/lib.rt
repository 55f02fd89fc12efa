//! Walks and paths of a client, the edges that tell what becomes true along them, and the programs that describe a path, as
//! definitions, with the types of edges and alarms. Edges are after Reps, Horwitz and Sagiv (POPL 1995).
#![tactic(auto)]

mod alarm;
mod edge;

pub use alarm::{Alarm, Item, PathProgram, Segment};
pub use edge::Edge;
