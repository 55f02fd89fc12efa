//! Which names the slots of a called procedure are given where an entry fact follows from a fact before the call.
ghost use Rattle.std.specs.Prelude.{◌≡◌, IfSome, length};
ghost use Rattle.call_flows.specs.Offers.{IsGivenAs, IsGivenBy};
ghost use Rattle.client_facts.specs.Held.{setting as told};

use crate::need::are_as_many;
use client_facts::{Fact, Setting};

/// The caller's name for which this name stands at the entry, if it is one of these at as many places of these classes.
fn given_at(classes: &[u32], outer: &[u32], inner: &[u32], class: u32, code: u32) -> Option<u32>
    requires outer { length outer.now ≡ length classes.now }
    requires inner { length inner.now ≡ length classes.now }
    ensures { IfSome result (IsGivenAs classes.now outer.now inner.now class code) }
{
    'each: for at in 0..classes.len() {
        if classes[at] == class && inner[at] == code {
            return Some(outer[at]);
        }
    }
    None
}

/// The same of names at places of these classes.
fn given_in(classes: &[u32], outer: &[u32], inner: &[u32], class: u32, code: u32) -> Option<u32>
    ensures { IfSome result (IsGivenAs classes.now outer.now inner.now class code) }
{
    if !are_as_many(classes, outer, inner) {
        return None;
    }
    given_at(classes, outer, inner, class, code)
}

/// The caller's name for which this name stands at the entry, if the two facts tell it.
pub(crate) fn given_by(
    setting: &Setting<'_>,
    before: &Fact,
    entry: &Fact,
    class: u32,
    code: u32,
) -> Option<u32>
    ensures { IfSome result (IsGivenBy (told setting.now) before.now entry.now class code) }
{
    match (before, entry) {
        (Fact::Of { family, args }, Fact::Of { args: codes, .. }) => given_in(
            setting.classes(*family),
            args.as_slice(),
            codes.as_slice(),
            class,
            code,
        ),
        _ => None,
    }
}
