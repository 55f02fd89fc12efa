//! Facts that are found by trying all that may be wanted.
ghost use Rattle.std.specs.Prelude.{◌≡◌, IfOk, OnOk};
ghost use Rattle.call_flows.specs.Found.{AddsWanted, AreAll, Finds, IsListed};
ghost use Rattle.call_flows.specs.Search.{IsWanted};
ghost use Rattle.call_flows.specs.Told.{call_told};
ghost use Rattle.client_facts.specs.Held.{setting as told};
ghost use Rattle.client_facts.specs.Over.{EntersAt};
ghost use Rattle.client_facts.specs.declared.fact.Fact.TheVariants.{Always};

use crate::entry::all_entry_offers;
use crate::lists::all_lists;
use crate::search::{Wanted, is_wanted};
use crate::site::Site;
use client_facts::{Args, Fact, FactSet, Setting};
use std::alloc::{AllocError, Global};

/// Adds the fact if it is wanted.
fn add_wanted(
    alloc: Global,
    setting: &Setting<'_>,
    site: &Site<'_>,
    wanted: &Wanted<'_>,
    fact: Fact,
    facts: &mut FactSet,
) -> Result<(), AllocError>
    ensures { OnOk result (AddsWanted (IsWanted (told setting.now) site.now wanted.now) fact facts.old facts.new) }
{
    if !is_wanted(alloc, setting, site, wanted, &fact)? {
        return Ok(());
    }
    facts.insert(fact)?;
    Ok(())
}

/// What is always true, if it is wanted.
pub(crate) fn found_always(
    alloc: Global,
    setting: &Setting<'_>,
    site: &Site<'_>,
    wanted: &Wanted<'_>,
) -> Result<FactSet, AllocError>
    ensures { IfOk result (Finds (IsWanted (told setting.now) site.now wanted.now) (λ f. f ≡ Always)) }
{
    let mut facts = FactSet::new(alloc);
    add_wanted(alloc, setting, site, wanted, Fact::Always, &mut facts)?;
    Ok(facts)
}

/// The facts that are wanted and are the family with one of these lists of names.
pub(crate) fn found_listed(
    alloc: Global,
    setting: &Setting<'_>,
    site: &Site<'_>,
    wanted: &Wanted<'_>,
    family: u32,
    lists: &[Args],
) -> Result<FactSet, AllocError>
    ensures { IfOk result (Finds (IsWanted (told setting.now) site.now wanted.now) (IsListed family lists.now)) }
{
    let mut facts = FactSet::new(alloc);
    'each: for codes in lists {
        let args = codes.twin(alloc)?;
        let fact = Fact::Of { family, args };
        add_wanted(alloc, setting, site, wanted, fact, &mut facts)?;
    }
    Ok(facts)
}

/// All entry facts that follow from the fact before the call.
pub(crate) fn entry_facts(
    alloc: Global,
    setting: &Setting<'_>,
    site: &Site<'_>,
    before: &Fact,
) -> Result<FactSet, AllocError>
    ensures { IfOk result (AreAll (EntersAt (told setting.now) site.now.procedure site.now.point (call_told site.now) before.now)) }
{
    let wanted = Wanted::Entry { before };
    match before {
        Fact::Always => found_always(alloc, setting, site, &wanted),
        Fact::Of { family, args } => {
            let places = all_entry_offers(alloc, site, args.as_slice())?;
            let lists = all_lists(alloc, places.as_slice())?;
            found_listed(alloc, setting, site, &wanted, *family, lists.as_slice())
        }
    }
}
