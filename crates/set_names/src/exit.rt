//! Which variables are assigned wherever a body is left.
ghost use Rattle.std.specs.Prelude.{◌≡◌, ◌<◌, ◌==◌, ◌&&◌, ◌||◌, ℕ, false, not, nat_lt, slice_index_or, IfOk, OnOk};
ghost use Rattle.set_names.specs.Names.{is_in, is_left};

use crate::set_so_far::SetSoFar;
use sqlite_items::Items;
use std::alloc::{AllocError, Global};

/// For each of so many variables whether it is set.
pub(crate) fn flags_of(
    alloc: Global,
    sets: &SetSoFar,
    variables: u32,
) -> Result<Items<bool>, AllocError>
    ensures { IfOk result (λ flags. (k : ℕ) → slice_index_or flags k false ≡ (nat_lt k variables && is_in sets.now.now k)) }
{
    let mut flags = Items::new(alloc);
    'each: for variable in 0..variables {
        flags.push(sets.is_set(variable))?;
    }
    Ok(flags)
}

/// Those that are gone and are not set again are so no longer.
pub(crate) fn unset_gone(mut flags: Items<bool>, gone: &[u32], sets: &SetSoFar) -> Items<bool>
    ensures { (k : ℕ) → slice_index_or result k false ≡ (slice_index_or flags k false && (is_in sets.now.now k || not (is_in gone.now k))) }
{
    'each: for variable in gone {
        clear_unset(&mut flags, *variable, sets);
    }
    flags
}

fn clear_unset(flags: &mut Items<bool>, variable: u32, sets: &SetSoFar)
    ensures { (k : ℕ) → slice_index_or flags.new k false ≡ (slice_index_or flags.old k false && (is_in sets.now.now k || not (variable == k))) }
{
    let at = variable as usize;
    if at < flags.len() && !sets.is_set(variable) {
        flags.set(at, false);
    }
}

/// Whether the variable is assigned wherever the body was left.
fn is_left(left: &Option<Items<bool>>, variable: u32) -> bool
    ensures { result ≡ is_left left.now variable }
{
    match left {
        Some(flags) => match flags.get(variable as usize) {
            Some(flag) => *flag,
            None => false,
        },
        None => true,
    }
}

/// Of so many variables those that are assigned wherever the body was left are set, and no others.
pub(crate) fn bring(
    sets: &mut SetSoFar,
    left: &Option<Items<bool>>,
    variables: u32,
) -> Result<(), AllocError>
    requires { sets.old.variables ≡ variables }
    ensures now { OnOk result ((k : ℕ) → k < variables → is_in sets.new.now k ≡ is_left left.now k) }
    ensures before { OnOk result (sets.new.before ≡ sets.old.before) }
    ensures many { OnOk result (sets.new.variables ≡ sets.old.variables) }
{
    'each: for variable in 0..variables {
        if is_left(left, variable) {
            sets.set(variable);
        } else if sets.unset(variable).is_err() {
            return Err(AllocError);
        }
    }
    Ok(())
}
