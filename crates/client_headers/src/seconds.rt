//! Names that are given a second time.
ghost use Rattle.std.specs.Prelude.{◌≡◌, ◌∷◌, ◌++◌, [], IfOk, OnOk, map};
ghost use Rattle.std.specs.List.{list_any};
ghost use Rattle.client_model.specs.Lookups.{is_same};
ghost use Rattle.client_model.specs.Faults as faults;
ghost use Rattle.client_model.specs.HeaderFaults as told;
ghost use Rattle.client_values.specs.ToldFaults.{Finds};

use client_model::{Proc, Static};
use client_values::{Fault, Rule, note_if};
use cv_base::Memory;
use easl_model::{Param, Word};
use name_table::NameTable;
use std::alloc::Global;

/// A word has the name of an earlier one. Behind it, its name is one of those.
#[tactic(auto, using(name_table::proofs::Looking::is_among))]
fn second_name(
    before: &mut NameTable,
    word: &Word,
    found: Option<Fault>,
) -> Result<Option<Fault>, Memory>
    ensures found { IfOk result (λ f. Finds found f
        (faults.broken_if (list_any (λ n. is_same n word.now.name) before.old) faults.Duplicate word.now.place)) }
    ensures behind { OnOk result (before.new ≡ before.old ++ word.now.name ∷ []) }
{
    let is_second = before.first(&word.name).is_some();
    before.push(&word.name)?;
    Ok(note_if(found, is_second, Rule::Duplicate, word.place))
}

/// Second statics of one name.
pub(crate) fn second_statics(
    alloc: Global,
    statics: &[Static],
    start: Option<Fault>,
) -> Result<Option<Fault>, Memory>
    ensures { IfOk result (λ f. Finds start f (told.second_names [] (map (λ x. x.name) statics.now))) }
{
    let mut before = NameTable::new(alloc);
    let mut found = start;
    'each: for item in statics {
        found = second_name(&mut before, &item.name, found)?;
    }
    Ok(found)
}

/// Second procedures of one name.
pub(crate) fn second_procedures(
    alloc: Global,
    procedures: &[Proc],
    start: Option<Fault>,
) -> Result<Option<Fault>, Memory>
    ensures { IfOk result (λ f. Finds start f (told.second_names [] (map (λ p. p.name) procedures.now))) }
{
    let mut before = NameTable::new(alloc);
    let mut found = start;
    'each: for procedure in procedures {
        found = second_name(&mut before, &procedure.name, found)?;
    }
    Ok(found)
}

/// Second parameters of one name.
pub(crate) fn second_params(
    alloc: Global,
    params: &[Param],
    start: Option<Fault>,
) -> Result<Option<Fault>, Memory>
    ensures { IfOk result (λ f. Finds start f (told.second_names [] (map (λ x. x.name) params.now))) }
{
    let mut before = NameTable::new(alloc);
    let mut found = start;
    'each: for param in params {
        found = second_name(&mut before, &param.name, found)?;
    }
    Ok(found)
}
