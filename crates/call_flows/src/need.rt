//! What the names of two facts need of a slot choice, place by place.
ghost use Rattle.std.specs.Prelude.{◌≡◌, ◌↔◌, Some, IsTrue, OnOk, length, slice_get};
ghost use Rattle.call_flows.specs.Needs.{CanMeet, Crosses, Meets, MeetsAll};
ghost use Rattle.call_flows.specs.Told.{call_told, name_told};
ghost use Rattle.client_facts.specs.Calls.{AllThree, Match, AtEntry, AtReturn, Remains, StandsFor, WasGiven, is_target};
ghost use Rattle.client_facts.specs.Choices.{Choice};
ghost use Rattle.client_facts.specs.declared.fact.Fact.TheVariants.{Always, Of};
ghost use Rattle.client_facts.specs.Held.{setting as told};
ghost use Rattle.client_model.specs.Codes.{name_of, result_code};

use crate::gift::{Gift, may_be_given};
use crate::name::{Name, name_of};
use crate::site::Site;
use client_facts::{Args, Fact, Setting};
use std::alloc::{AllocError, Global};

/// What one place of two facts needs of a slot choice.
#[derive(Clone, Copy, Debug)]
pub(crate) enum Need {
    /// Each choice will do.
    Nothing,
    /// The choice makes this gift.
    Give(Gift),
    /// No choice will do.
    Never,
}

/// The way into the called procedure, or the way back.
#[derive(Clone, Copy, Debug)]
pub(crate) enum Crossing {
    Entry,
    Return,
}

/// Nothing, where this holds.
fn need_that(holds: bool) -> Need
    ensures { (c : Choice) → Meets c result ↔ IsTrue holds }
{
    if holds { Need::Nothing } else { Need::Never }
}

/// Whether the argument of this number is the name with this code.
pub(crate) fn is_argument(site: &Site<'_>, number: u32, code: u32) -> bool
    ensures { IsTrue result ↔ (slice_get site.now.args.now number ≡ Some (Some code)) }
{
    match site.args.get(number as usize) {
        Some(Some(argument)) => *argument == code,
        _ => false,
    }
}

/// That the name of the called procedure, which has the code `inner`, stands at its entry for the caller's name `outer`.
fn need_to_stand(site: &Site<'_>, class: u32, outer: u32, inner: u32, name: Name) -> Need
    ensures { (c : Choice) → Meets c result ↔ StandsFor c (call_told site.now) class outer inner (name_told name) }
{
    match name {
        Name::Static(_) => need_that(inner == outer),
        Name::Variable(number) => need_that(is_argument(site, number, outer)),
        Name::Slot(number) => Need::Give(Gift {
            class,
            number,
            code: outer,
        }),
        Name::Result(_) => Need::Never,
    }
}

fn need_at_entry(site: &Site<'_>, class: u32, outer: u32, inner: u32) -> Need
    ensures { (c : Choice) → Meets c result ↔ AtEntry c (call_told site.now) class outer inner }
{
    need_to_stand(site, class, outer, inner, name_of(inner))
}

/// That the name of the called procedure is a slot that was given the caller's name `outer`.
fn need_to_be_given(class: u32, outer: u32, name: Name) -> Need
    ensures { (c : Choice) → Meets c result ↔ WasGiven c class outer (name_told name) }
{
    match name {
        Name::Slot(number) => Need::Give(Gift {
            class,
            number,
            code: outer,
        }),
        _ => Need::Never,
    }
}

/// That the caller's name, which has the code `outer` and does not take the result, stands behind the call for the name `inner`.
fn need_to_remain(class: u32, outer: u32, inner: u32, name: Name) -> Need
    ensures { (c : Choice) → Meets c result ↔ Remains c class outer inner (name_told name) }
{
    match name {
        Name::Static(_) => need_that(inner == outer),
        Name::Variable(_) | Name::Slot(_) => need_to_be_given(class, outer, name_of(inner)),
        Name::Result(_) => Need::Never,
    }
}

/// Whether the name takes the result.
fn is_target(site: &Site<'_>, code: u32) -> bool
    ensures { result ≡ is_target site.now.target code }
{
    site.target == Some(code)
}

/// The code of the result.
const RESULT: u32 = 3;

fn need_at_return(site: &Site<'_>, class: u32, outer: u32, inner: u32) -> Need
    ensures { (c : Choice) → Meets c result ↔ AtReturn c (call_told site.now) class outer inner }
{
    if is_target(site, outer) {
        need_that(inner == RESULT)
    } else {
        need_to_remain(class, outer, inner, name_of(outer))
    }
}

/// That the two names stand so for one another on this way.
fn need_on(crossing: Crossing, site: &Site<'_>, class: u32, outer: u32, inner: u32) -> Need
    ensures { (c : Choice) → Meets c result ↔ Crosses crossing c (call_told site.now) class outer inner }
{
    match crossing {
        Crossing::Entry => need_at_entry(site, class, outer, inner),
        Crossing::Return => need_at_return(site, class, outer, inner),
    }
}

/// All that is needed so far: some gifts, or what no choice will do.
#[derive(Debug, Drop)]
pub(crate) struct Needs {
    pub(crate) gifts: Vec<Gift>,
    pub(crate) never: bool,
}

/// Nothing. It takes no memory.
pub(crate) fn no_needs(alloc: Global) -> Needs
    ensures { (c : Choice) → MeetsAll c result }
{
    Needs {
        gifts: Vec::new(alloc),
        never: false,
    }
}

/// This too.
fn add(needs: &mut Needs, need: Need) -> Result<(), AllocError>
    ensures { OnOk result ((c : Choice) → MeetsAll c needs.new ↔ (MeetsAll c needs.old × Meets c need)) }
{
    match need {
        Need::Nothing => {}
        Need::Give(gift) => needs.gifts.push(gift)?,
        Need::Never => needs.never = true,
    }
    Ok(())
}

/// That names at as many places of these classes stand so for one another on this way.
fn need_each(
    needs: &mut Needs,
    crossing: Crossing,
    site: &Site<'_>,
    classes: &[u32],
    outer: &[u32],
    inner: &[u32],
) -> Result<(), AllocError>
    requires outer { length outer.now ≡ length classes.now }
    requires inner { length inner.now ≡ length classes.now }
    ensures { OnOk result ((c : Choice) → MeetsAll c needs.new ↔ (MeetsAll c needs.old
        × AllThree (Crosses crossing c (call_told site.now)) classes.now outer.now inner.now)) }
{
    'each: for at in 0..classes.len() {
        add(
            needs,
            need_on(crossing, site, classes[at], outer[at], inner[at]),
        )?;
    }
    Ok(())
}

/// Whether there is a name for each class in both.
pub(crate) fn are_as_many(classes: &[u32], outer: &[u32], inner: &[u32]) -> bool
    ensures { IsTrue result ↔ ((length outer.now ≡ length classes.now) × (length inner.now ≡ length classes.now)) }
{
    outer.len() == classes.len() && inner.len() == classes.len()
}

/// That names at places of these classes stand so for one another on this way.
fn need_all(
    needs: &mut Needs,
    crossing: Crossing,
    site: &Site<'_>,
    classes: &[u32],
    outer: &[u32],
    inner: &[u32],
) -> Result<(), AllocError>
    ensures { OnOk result ((c : Choice) → MeetsAll c needs.new ↔ (MeetsAll c needs.old
        × AllThree (Crosses crossing c (call_told site.now)) classes.now outer.now inner.now)) }
{
    if !are_as_many(classes, outer, inner) {
        add(needs, Need::Never)?;
        return Ok(());
    }
    need_each(needs, crossing, site, classes, outer, inner)
}

/// That the names of the two facts stand so for one another on this way.
pub(crate) fn need_facts(
    needs: &mut Needs,
    setting: &Setting<'_>,
    crossing: Crossing,
    site: &Site<'_>,
    outer: &Fact,
    inner: &Fact,
) -> Result<(), AllocError>
    ensures { OnOk result ((c : Choice) → MeetsAll c needs.new ↔ (MeetsAll c needs.old
        × Match (told setting.now) (Crosses crossing c (call_told site.now)) outer.now inner.now)) }
{
    match outer {
        Fact::Always => need_always(needs, inner),
        Fact::Of { family, args } => need_same(
            needs, setting, crossing, site, *family, args, inner,
        ),
    }
}

/// That the fact is what is always true.
fn need_always(needs: &mut Needs, inner: &Fact) -> Result<(), AllocError>
    ensures { OnOk result ((c : Choice) → MeetsAll c needs.new ↔ (MeetsAll c needs.old × (inner.now ≡ Always))) }
{
    match inner {
        Fact::Always => Ok(()),
        Fact::Of { .. } => add(needs, Need::Never),
    }
}

/// That the fact is of this family, and the names stand so for one another on this way.
fn need_same(
    needs: &mut Needs,
    setting: &Setting<'_>,
    crossing: Crossing,
    site: &Site<'_>,
    family: u32,
    args: &Args,
    inner: &Fact,
) -> Result<(), AllocError>
    ensures { OnOk result ((c : Choice) → MeetsAll c needs.new ↔ (MeetsAll c needs.old
        × Match (told setting.now) (Crosses crossing c (call_told site.now)) (Of family args.now) inner.now)) }
{
    match inner {
        Fact::Always => add(needs, Need::Never),
        Fact::Of {
            family: other,
            args: codes,
        } => {
            if *other == family {
                let classes = setting.classes(family);
                need_all(
                    needs,
                    crossing,
                    site,
                    classes,
                    args.as_slice(),
                    codes.as_slice(),
                )
            } else {
                add(needs, Need::Never)
            }
        }
    }
}

/// Whether some choice for the procedure call will do.
pub(crate) fn can_be_met(setting: &Setting<'_>, site: &Site<'_>, needs: &Needs) -> bool
    ensures { IsTrue result ↔ CanMeet (told setting.now) site.now.procedure site.now.point needs.now }
{
    !needs.never && may_be_given(setting, site.procedure, site.point, needs.gifts.as_slice())
}
