//! Procedure calls where they stand.
ghost use Rattle.std.specs.Prelude.{◌≡◌, ℕ, IfSome, MatchOption};
ghost use Rattle.call_flows.specs.Told.{Stands};
ghost use Rattle.client_facts.specs.Held.{setting as told};
ghost use Rattle.client_facts.specs.Setting.{IsCall};

use client_facts::Setting;
use client_model::Point;

/// A procedure call: where it stands, the name that takes the result, the procedure that is called, the names of its arguments, and
/// the point behind the call.
#[derive(Clone, Copy, Debug)]
pub(crate) struct Site<'a> {
    pub(crate) procedure: u32,
    pub(crate) point: u32,
    pub(crate) target: Option<u32>,
    pub(crate) callee: u32,
    pub(crate) args: &'a [Option<u32>],
    pub(crate) next: u32,
}

/// The procedure call at this point, if there is one that goes on.
pub(crate) fn site_at<'a>(setting: &Setting<'a>, procedure: u32, point: u32) -> Option<Site<'a>>
    ensures at { IfSome result (λ s. (s.procedure ≡ procedure) × (s.point ≡ point)) }
    ensures stands { MatchOption result ((k : _) (m : ℕ) → IsCall (told setting.now) procedure point k m → ⊥) (Stands (told setting.now)) }
{
    let (next, _) = setting.ways(procedure, point)?;
    match setting.point(procedure, point)? {
        Point::Call(target, callee, args, _) => Some(Site {
            procedure,
            point,
            target: *target,
            callee: *callee,
            args: args.as_slice(),
            next,
        }),
        _ => None,
    }
}
