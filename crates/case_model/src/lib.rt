//! Which terms of a question are equal: term lists, configurations, the configuration of a heap, and what
//! disjuncts are chosen over configurations.
#![tactic(auto)]

mod laws;

pub use laws::{clauses_have_classes, heaps_have_cases};
