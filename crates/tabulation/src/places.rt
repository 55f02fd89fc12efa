//! Where points go on.
ghost use Rattle.std.specs.Prelude.{◌≡◌, ℕ, true, None, MatchOption, option_map};
ghost use Rattle.client_facts.specs.Held as held;
ghost use Rattle.client_facts.specs.Setting as told;
ghost use Rattle.client_facts.specs.Setting.{IsOutcome, IsStep};
ghost use Rattle.client_steps.specs.States.{call_in};
ghost use Rattle.tabulation.specs.Successors.{IsCallTo};

use client_facts::Setting;
use client_model::Point;

/// Where a step with this outcome goes from the point; None where there is no such step.
#[tactic(auto, using(crate::proofs::Ways::step_there, crate::proofs::Ways::no_point, crate::proofs::Ways::no_outcome))]
pub(crate) fn step_to(
    setting: &Setting<'_>,
    procedure: u32,
    point: u32,
    outcome: bool,
) -> Option<u32>
    ensures { MatchOption result
        ((m : ℕ) → IsStep (held.setting setting.now) procedure point outcome m → ⊥)
        (λ m. IsStep (held.setting setting.now) procedure point outcome m) }
{
    let here = setting.point(procedure, point)?;
    if !has_outcome(here, outcome) {
        return None;
    }
    let ways = setting.ways(procedure, point)?;
    Some(way(outcome, ways))
}

/// The way of the outcome.
fn way(outcome: bool, ways: (u32, u32)) -> u32
    ensures { result ≡ told.way outcome ways }
{
    if outcome { ways.0 } else { ways.1 }
}

/// Whether what is done at the point is a step that may have this outcome.
fn has_outcome(point: &Point, outcome: bool) -> bool
    ensures plain { result ≡ true → call_in point.now ≡ None }
    ensures stands { result ≡ true → IsOutcome point.now outcome }
    ensures only { call_in point.now ≡ None → IsOutcome point.now outcome → result ≡ true }
{
    match point {
        Point::Branch(_) => true,
        Point::Call(_, _, _, _) => false,
        _ => outcome,
    }
}

/// The procedure that is called at the point, and the point behind the call; None where there is no call.
#[tactic(auto, using(crate::proofs::Ways::call_there, crate::proofs::Ways::no_call_point, crate::proofs::Ways::no_call))]
pub(crate) fn call_to(setting: &Setting<'_>, procedure: u32, point: u32) -> Option<(u32, u32)>
    ensures { MatchOption result
        ((c m : ℕ) → IsCallTo (held.setting setting.now) procedure point c m → ⊥)
        (λ call. IsCallTo (held.setting setting.now) procedure point call.0 call.1) }
{
    let here = setting.point(procedure, point)?;
    let callee = callee_of(here)?;
    let (behind, _) = setting.ways(procedure, point)?;
    Some((callee, behind))
}

/// The procedure that the point calls.
fn callee_of(point: &Point) -> Option<u32>
    ensures { result ≡ option_map (λ k. k.callee) (call_in point.now) }
{
    match point {
        Point::Call(_, callee, _, _) => Some(*callee),
        _ => None,
    }
}
