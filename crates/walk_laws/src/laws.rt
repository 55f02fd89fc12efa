//! Laws, each the contract of a function that does nothing.
ghost use Rattle.walk_laws.specs.Exactness.{CallsAreExact, PathsAreExact, WalksAreExact};
ghost use Rattle.walk_laws.specs.Points.{SoundFits, StepsAreExact};

/// With a checked specification, exact entries and a client that keeps its points, each step but a procedure call is exact: a fact is true after
/// it exactly where one that it follows from is true before it, and no slot comes in.
pub fn steps_are_exact()
    ensures { StepsAreExact }
{}

/// So are the facts of clauses: one is true exactly where a clause of its call is false, its own or one before it. With what procedure calls keep
/// of names, this is all that the laws on walks rest on.
pub fn sound_fits()
    ensures { SoundFits }
{}

/// Where the walk inside a procedure call is exact, so is the call under its slot choices: a fact whose slots all have objects is true behind
/// it exactly where one that it follows from is true before it.
pub fn calls_are_exact()
    ensures { CallsAreExact }
{}

/// Each walk is exact: a fact whose slots all have objects is true at its end exactly where one that it follows from is true at its beginning.
pub fn walks_are_exact()
    ensures { WalksAreExact }
{}

/// A fact without slots is true in the state at the end of a path exactly where it is true along the path.
pub fn paths_are_exact()
    ensures { PathsAreExact }
{}
