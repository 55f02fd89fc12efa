//! Which names may stand at the places of an entry fact.
ghost use Rattle.std.specs.Prelude.{◌≡◌, ◌∷◌, ℕ, [], Contains, Some, IfOk, OnOk, length, slice_get};
ghost use Rattle.std.specs.List.{AllZip};
ghost use Rattle.call_flows.specs.Offers.{IsEntryOffer, own_offers};
ghost use Rattle.call_flows.specs.Told.{name_told};
ghost use Rattle.client_model.specs.Codes as codes;

use crate::lists::{no_codes, push_code};
use crate::name::{Name, name_of};
use crate::need::is_argument;
use crate::site::Site;
use client_facts::Args;
use smallvec::SmallVec;
use std::alloc::{AllocError, Global};

/// The codes of the three slots.
pub(crate) fn slot_codes(alloc: Global) -> Result<Args, AllocError>
    ensures { IfOk result (λ codes. codes ≡ 2 ∷ 6 ∷ 10 ∷ []) }
{
    Ok(Args(SmallVec::from_slice(alloc, &[2, 6, 10])?))
}

/// This code alone.
pub(crate) fn one_code(alloc: Global, code: u32) -> Result<Args, AllocError>
    ensures { IfOk result (λ codes. codes ≡ code ∷ []) }
{
    Ok(Args(SmallVec::from_slice(alloc, &[code])?))
}

/// The names but for parameters that may stand at the entry for the caller's name, which has this code: itself where it is a
/// static, else a slot.
fn own_offers(alloc: Global, name: Name, code: u32) -> Result<Args, AllocError>
    ensures { IfOk result (λ offers. offers ≡ own_offers code (name_told name)) }
{
    match name {
        Name::Static(_) => one_code(alloc, code),
        Name::Variable(_) | Name::Slot(_) => slot_codes(alloc),
        Name::Result(_) => Ok(no_codes(alloc)),
    }
}

/// The code of the variable of this number. Numbers that run out are want of memory.
fn variable_code(number: u32) -> Result<u32, AllocError>
    ensures { IfOk result (λ code. code ≡ codes.variable_code number) }
{
    let Some(start) = number.checked_mul(4) else {
        return Err(AllocError);
    };
    let Some(code) = start.checked_add(1) else {
        return Err(AllocError);
    };
    Ok(code)
}

/// Adds the parameter of this number, if its argument is the name with this code.
fn add_parameter(
    site: &Site<'_>,
    code: u32,
    number: u32,
    offers: &mut Args,
) -> Result<(), AllocError>
    ensures kept { OnOk result ((a : ℕ) → Contains offers.old a → Contains offers.new a) }
    ensures taken { OnOk result (slice_get site.now.args.now number ≡ Some (Some code) → Contains offers.new (codes.variable_code number)) }
{
    if is_argument(site, number, code) {
        let parameter = variable_code(number)?;
        push_code(offers, parameter)?;
    }
    Ok(())
}

/// Adds the parameters whose argument is the name with this code. Numbers that run out are want of memory.
fn add_parameters(site: &Site<'_>, code: u32, offers: &mut Args) -> Result<(), AllocError>
    ensures kept { OnOk result ((a : ℕ) → Contains offers.old a → Contains offers.new a) }
    ensures taken { OnOk result ((number : ℕ) → slice_get site.now.args.now number ≡ Some (Some code) → Contains offers.new (codes.variable_code number)) }
{
    let Ok(count) = u32::try_from(site.args.len()) else {
        return Err(AllocError);
    };
    'each: for number in 0..count {
        add_parameter(site, code, number, offers)?;
    }
    Ok(())
}

/// The names of the called procedure that may stand at its entry for the caller's name, which has this code.
fn entry_offers(alloc: Global, site: &Site<'_>, code: u32) -> Result<Args, AllocError>
    ensures { IfOk result (IsEntryOffer site.now code) }
{
    let mut offers = own_offers(alloc, name_of(code), code)?;
    add_parameters(site, code, &mut offers)?;
    Ok(offers)
}

/// Those for each of the caller's names, which have these codes.
pub(crate) fn all_entry_offers(
    alloc: Global,
    site: &Site<'_>,
    codes: &[u32],
) -> Result<Vec<Args>, AllocError>
    ensures { IfOk result (λ places. AllZip (IsEntryOffer site.now) codes.now places.items) }
{
    let mut places = Vec::new(alloc);
    'each: for code in codes {
        let offers = entry_offers(alloc, site, *code)?;
        places.push(offers)?;
    }
    Ok(places)
}
