//! Laws on entries, as the contracts of functions that do nothing.
ghost use Rattle.method_abstraction.specs.{ClausesAreExact, OneEntryEach, UpdatesAreExact};

/// An abstraction that has exact entries has one for each question.
pub fn entries_are_one_each()
    ensures { OneEntryEach }
{}

/// Where the cubes are together true exactly where the tree is, in each configuration in which all clauses of the
/// method are true, the disjuncts that say what the cubes say are exact; for a clause, in each configuration.
pub fn entries_are_exact()
    ensures updates { UpdatesAreExact }
    ensures clauses { ClausesAreExact }
{}
