//! What follows over procedure calls.
ghost use Rattle.std.specs.Prelude.{◌≢◌, AllPairs, Contains, IfOk};
ghost use Rattle.client_facts.specs.Facts.{IsFact};
ghost use Rattle.client_facts.specs.Held as held;
ghost use Rattle.client_facts.specs.NameLists.{AreNamesOf};
ghost use Rattle.client_facts.specs.Over.{IsEnteredFrom, IsReturnedFrom};
ghost use Rattle.client_facts.specs.declared.fact.Fact.{Fact as FactForm};

use crate::back::Back;
use crate::found::entry_facts;
use crate::site::site_at;
use client_facts::{Fact, Names, Setting};
use std::alloc::{AllocError, Global};

/// What follows from the fact over the procedure call at this point, at the entry of the procedure that is called: its facts that
/// are true there where this one is true before the call, with its hidden slots for the caller's names under some choice. None where
/// the point is no procedure call. `AllocError` where there is no memory left, and where codes run out.
pub fn entered(
    alloc: Global,
    setting: &Setting<'_>,
    procedure: u32,
    point: u32,
    fact: &Fact,
) -> Result<Vec<Fact>, AllocError>
    requires fact { IsFact (held.setting setting.now) procedure point fact.now }
    ensures follow { IfOk result (λ facts. (f : FactForm) → (Contains facts.items f → IsEnteredFrom (held.setting setting.now) procedure point fact.now f)
        × (IsEnteredFrom (held.setting setting.now) procedure point fact.now f → Contains facts.items f)) }
    ensures once { IfOk result (λ facts. AllPairs (λ x y. x ≢ y) facts.items) }
{
    let Some(site) = site_at(setting, procedure, point) else {
        return Ok(Vec::new(alloc));
    };
    let facts = entry_facts(alloc, setting, &site, fact)?;
    facts.into_facts(alloc)
}

/// What follows from the exit fact over the procedure call at this point: the facts of the point behind the call that are true there where
/// the exit fact is true, under a choice of names for the hidden slots under which the entry fact follows from the one before the call.
/// None where the point is no procedure call. `names` are those of the setting. `AllocError` where there is no memory left.
pub fn returned(
    alloc: Global,
    setting: &Setting<'_>,
    names: &Names,
    procedure: u32,
    point: u32,
    before: &Fact,
    entry: &Fact,
    exit: &Fact,
) -> Result<Vec<Fact>, AllocError>
    requires names { AreNamesOf (held.setting setting.now) names.now }
    ensures follow { IfOk result (λ facts. (h : FactForm) →
        (Contains facts.items h → IsReturnedFrom (held.setting setting.now) procedure point before.now entry.now exit.now h)
        × (IsReturnedFrom (held.setting setting.now) procedure point before.now entry.now exit.now h → Contains facts.items h)) }
    ensures once { IfOk result (λ facts. AllPairs (λ x y. x ≢ y) facts.items) }
{
    let Some(site) = site_at(setting, procedure, point) else {
        return Ok(Vec::new(alloc));
    };
    let back = Back {
        alloc,
        setting,
        names,
        site,
        before,
        entry,
    };
    let facts = back.facts(exit)?;
    facts.into_facts(alloc)
}
