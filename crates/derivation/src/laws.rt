//! Laws on replies, as the contracts of functions that do nothing.
ghost use Rattle.derivation.specs.Ends.{EndsOnce};
ghost use Rattle.derivation.specs.Laws.{ClauseRepliesAreExact, UpdateRepliesAreExact};

/// The disjuncts of a reply are exact, once their families are numbered.
pub fn replies_are_exact()
    ensures updates { UpdateRepliesAreExact }
    ensures clauses { ClauseRepliesAreExact }
{}

/// A specification closes in one way, or one question stops it for one reason, and not both.
pub fn derivation_ends_once()
    ensures { EndsOnce }
{}
