//! Laws on the definitions, each the contract of a function that does nothing.
ghost use Rattle.client_run.specs.Kept.{BodiesStayInside, FramesKeepLengths};
ghost use Rattle.client_run.specs.Laws.{FormsAgree, PointsAreTrees};

/// A run from point to point comes to what the run by statement trees comes to, where points go on as statements do; and in the
/// checked form of a client they do.
pub fn points_are_trees()
    ensures trees { PointsAreTrees }
    ensures agree { FormsAgree }
{}

/// The statements of a procedure keep how many statics and variables there are.
pub fn frames_keep_lengths()
    ensures { FramesKeepLengths }
{}

/// In the checked form of a client that is well-formed, the body of a procedure leaves no loop that is not there.
pub fn bodies_stay_inside()
    ensures { BodiesStayInside }
{}
