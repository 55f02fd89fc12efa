//! Laws on the definitions, each the contract of a function that does nothing.
ghost use Rattle.client_model.specs.Codes.{CodesTellNames};
ghost use Rattle.client_model.specs.FirstFault.{FirstIsLeast, NoneIsWellFormed};
ghost use Rattle.client_model.specs.Kept.{BodiesKeepNames, StepsKeepNames};
ghost use Rattle.client_model.specs.Reads.{ArgumentsAreSet, ReadsAreSet};
ghost use Rattle.client_model.specs.SetNumbers.{NothingIsEverything, SetsAreByNumber};
ghost use Rattle.client_model.specs.Laws.{EachHasWays, FirstIsFirst, PointsAreNumbered};

/// Each name code tells the static, variable, hidden slot or result that it stands for.
pub fn codes_tell_names()
    ensures { CodesTellNames }
{}

/// The points of a body are numbered in text order, it is entered at its first, and each goes on somewhere.
pub fn points_are_numbered()
    ensures numbered { PointsAreNumbered }
    ensures ways { EachHasWays }
    ensures first { FirstIsFirst }
{}

/// A name that is set behind a step of a body was set before it, or the step sets it: by the statements as they stand in one
/// another, and from point to point in a body that breaks no rule.
pub fn steps_keep_names()
    ensures statements { BodiesKeepNames }
    ensures points { StepsKeepNames }
{}

/// In a whole body that breaks no rule some names are assigned at each point, and never everything; and the names that are
/// set there are the statics and the variables that are set.
pub fn sets_are_by_number()
    ensures only { NothingIsEverything }
    ensures by_number { SetsAreByNumber }
{}

/// What a statement that breaks no rule reads is surely assigned there: what is copied or handed to a procedure, and the
/// arguments of its component call.
pub fn reads_are_set()
    ensures points { ReadsAreSet }
    ensures calls { ArgumentsAreSet }
{}

/// The first of some faults is one of them, and none of them comes before it; a client that has none breaks no rule.
pub fn first_is_least()
    ensures least { FirstIsLeast }
    ensures none { NoneIsWellFormed }
{}
