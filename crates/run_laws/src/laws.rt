//! The law on runs and paths, the contract of a function that does nothing.
ghost use Rattle.run_laws.specs.Breaks.{RunsAreBreaks};

/// A run on some choices fails at a clause of a call exactly where a path leads to the call on which no earlier clause is false,
/// where the clause is the first of the call that is false, and the outcomes of the path's tests are the choices that the run took.
pub fn runs_are_breaks()
    ensures { RunsAreBreaks }
{}
