//! Laws on runs, each the contract of a function that does nothing.
ghost use Rattle.client_steps.specs.Laws.{FailsOnTaken, MoreKeeps, RunsExist, RunsOnce, SafeBySpent, UncutIsOne};

/// Each client has exactly one outcome for each list of choices and each budget.
pub fn runs_once()
    ensures some { RunsExist }
    ensures one { RunsOnce }
{}

/// A greater budget keeps every outcome but that of a run that is cut, so all budgets that cut no run give it one outcome.
pub fn more_keeps()
    ensures keeps { MoreKeeps }
    ensures one { UncutIsOne }
{}

/// A run that fails with some choices left fails on the choices that it took with none left, so those runs alone decide whether
/// a client is safe.
pub fn fails_on_taken()
    ensures taken { FailsOnTaken }
    ensures safe { SafeBySpent }
{}
