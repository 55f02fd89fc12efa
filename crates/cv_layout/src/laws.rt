//! Laws on laid-out lines, each the contract of a function that does nothing.
ghost use Rattle.cv_layout.specs.{LinesAreCut};

/// Lines of proper tokens are cut into exactly these tokens.
#[tactic(auto, using(crate::proofs::Cutting::lines_are_cut))]
pub fn lines_are_cut()
    ensures { LinesAreCut }
{}
