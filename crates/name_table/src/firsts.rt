//! The first position of each of some names.
ghost use Rattle.std.specs.Prelude.{◌≡◌, ◌∷◌, ◌++◌, [], List, ℕ, OnErr, OnOk, length};
ghost use Rattle.name_table.specs.Firsts.{HasFirsts};

use cv_base::Memory;
use easl_model::Name;
use std::alloc::Global;
use std::collections::BTreeMap;

/// The first position of each name.
pub(crate) type Firsts = BTreeMap<String, u32>;

/// One more name stands behind so many.
pub(crate) fn note(
    alloc: Global,
    firsts: &mut Firsts,
    name: &Name,
    position: usize,
) -> Result<(), Memory>
    ensures noted { OnOk result ((names : List (List ℕ)) → HasFirsts names firsts.old → length names ≡ position
        → HasFirsts (names ++ name.now ∷ []) firsts.new) }
    ensures unchanged { OnErr result ((names : List (List ℕ)) → HasFirsts names firsts.old → HasFirsts names firsts.new) }
{
    let text = name.0.as_str();
    if firsts.contains_key(text) {
        return Ok(());
    }
    let Ok(position) = u32::try_from(position) else {
        return Err(Memory);
    };
    let Ok(copy) = String::from_str(alloc, text) else {
        return Err(Memory);
    };
    match firsts.insert(copy, position) {
        Ok(_) => Ok(()),
        Err(_) => Err(Memory),
    }
}

/// The last name, behind so many, is gone.
pub(crate) fn forget(firsts: &mut Firsts, name: &Name, position: usize)
    ensures { (names : List (List ℕ)) → HasFirsts (names ++ name.now ∷ []) firsts.old → length names ≡ position → HasFirsts names firsts.new }
{
    let text = name.0.as_str();
    let is_first = match firsts.get(text) {
        Some(first) => *first as usize == position,
        None => false,
    };
    if is_first {
        firsts.remove(text);
    }
}
