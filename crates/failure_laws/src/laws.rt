//! Laws on the definitions, each the contract of a function that does nothing.
ghost use Rattle.failure_laws.specs.Laws.{AlarmsFail, RunsArePaths};

/// Where steps, calls and clauses keep what a checked client keeps, some run fails exactly where some fact of a clause is true along some
/// path to its call.
pub fn runs_are_paths()
    ensures { RunsArePaths }
{}

/// Where moreover an alarm is well-built, no clause's fact is true along its path at an earlier call, and the named clause is the first with
/// a true fact at its end, the run on the outcomes of its tests fails there, with none left.
pub fn alarms_fail()
    ensures { AlarmsFail }
{}
