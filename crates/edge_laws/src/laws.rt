//! Laws on the definitions, each the contract of a function that does nothing.
ghost use Rattle.edge_laws.specs.Laws.{EdgesAreWalks, FlagsAreEdges};

/// There is an edge exactly where its first fact is true where its procedure is entered, and its second one follows from that along
/// some walk to its point. So a clause's fact is true along some path to its call exactly where an edge has it there.
pub fn edges_are_walks()
    ensures walks { EdgesAreWalks }
    ensures flags { FlagsAreEdges }
{}
