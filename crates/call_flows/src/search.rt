//! What is looked for at a procedure call.
ghost use Rattle.std.specs.Prelude.{◌↔◌, IfOk, IsTrue};
ghost use Rattle.call_flows.specs.Search.{IsWanted};
ghost use Rattle.call_flows.specs.Told.{call_told};
ghost use Rattle.client_facts.specs.Facts.{IsFact};
ghost use Rattle.client_facts.specs.Held.{setting as told};
ghost use Rattle.client_facts.specs.Over.{EntersAt, ReturnsAt};

use crate::need::{Crossing, can_be_met, need_facts, no_needs};
use crate::site::Site;
use client_facts::{Fact, Setting, is_fact};
use std::alloc::{AllocError, Global};

/// Whether the entry fact follows from the fact before the call.
fn enters(
    alloc: Global,
    setting: &Setting<'_>,
    site: &Site<'_>,
    before: &Fact,
    entry: &Fact,
) -> Result<bool, AllocError>
    ensures { IfOk result (λ is. IsTrue is
        ↔ EntersAt (told setting.now) site.now.procedure site.now.point (call_told site.now) before.now entry.now) }
{
    if !is_fact(setting, site.callee, 0, entry) {
        return Ok(false);
    }
    let mut needs = no_needs(alloc);
    need_facts(&mut needs, setting, Crossing::Entry, site, before, entry)?;
    Ok(can_be_met(setting, site, &needs))
}

/// Whether the fact behind the call follows from the one before it, where the entry fact leads to the exit fact.
fn returns(
    alloc: Global,
    setting: &Setting<'_>,
    site: &Site<'_>,
    before: &Fact,
    entry: &Fact,
    exit: &Fact,
    after: &Fact,
) -> Result<bool, AllocError>
    ensures { IfOk result (λ is. IsTrue is
        ↔ (ReturnsAt (told setting.now) site.now.procedure site.now.point (call_told site.now) before.now entry.now exit.now after.now
        × IsFact (told setting.now) site.now.procedure site.now.next after.now)) }
{
    if !is_fact(setting, site.procedure, site.next, after) {
        return Ok(false);
    }
    let mut needs = no_needs(alloc);
    need_facts(&mut needs, setting, Crossing::Entry, site, before, entry)?;
    need_facts(&mut needs, setting, Crossing::Return, site, after, exit)?;
    Ok(can_be_met(setting, site, &needs))
}

/// What is looked for at a procedure call.
#[derive(Clone, Copy, Debug)]
pub(crate) enum Wanted<'a> {
    /// Entry facts that follow from this one before the call.
    Entry {
        before: &'a Fact,
    },
    /// Facts behind the call that follow from this one before it, where this entry fact leads to this exit fact.
    Return {
        before: &'a Fact,
        entry: &'a Fact,
        exit: &'a Fact,
    },
}

/// Whether the fact is one of those.
pub(crate) fn is_wanted(
    alloc: Global,
    setting: &Setting<'_>,
    site: &Site<'_>,
    wanted: &Wanted<'_>,
    fact: &Fact,
) -> Result<bool, AllocError>
    ensures { IfOk result (λ is. IsTrue is ↔ IsWanted (told setting.now) site.now wanted.now fact.now) }
{
    match wanted {
        Wanted::Entry { before } => enters(alloc, setting, site, before, fact),
        Wanted::Return {
            before,
            entry,
            exit,
        } => returns(alloc, setting, site, before, entry, exit, fact),
    }
}
