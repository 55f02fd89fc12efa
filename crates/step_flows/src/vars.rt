//! What the variables of a disjunct say of the names of a fact after a component call.
ghost use Rattle.std.specs.Prelude.{◌≡◌, ℕ, List, true, Some, IfSome, slice_get};
ghost use Rattle.std.specs.Bool.{OnFalse, OnTrue};
ghost use Rattle.client_facts.specs.Flows.{names_of_update};
ghost use Rattle.step_flows.specs.Put.{AreNamed, IsKnown, has_position};

use crate::names::{Asked, call_name, is_code};
use access_paths::Var;

/// Whether the result stands at this position.
pub(crate) fn takes_result(results: u32, position: usize) -> bool
    ensures { OnTrue result (has_position results position ≡ true) }
{
    match position {
        0 => results % 2 == 1,
        1 => results / 2 % 2 == 1,
        2 => results / 2 / 2 % 2 == 1,
        _ => false,
    }
}

/// The name that a fact before the call has for the variable of this position after it.
pub(crate) fn known_name(vars: &[Var], names: &[u32], position: usize) -> Option<u32>
    ensures { IfSome result (IsKnown vars.now names.now position) }
{
    if position >= 3 {
        return None;
    }
    'each: for (number, var) in vars.iter().enumerate() {
        if var.0 as usize == position {
            return names.get(number).copied();
        }
    }
    None
}

impl Asked<'_> {
    /// Whether the variable may have this name under some fact after the call.
    fn may_be_named(&self, variable: u8, code: u32) -> bool
        ensures { OnFalse result ((codes : List ℕ) → slice_get (names_of_update self.now.results codes self.now.method.now self.now.site.now) variable ≡
            Some (Some code) → ⊥) }
    {
        if variable < 3 {
            return !takes_result(self.results, variable as usize);
        }
        is_code(call_name(self.method, self.site, variable - 3), code)
    }

    /// Whether the variables may have these names under some fact after the call.
    pub fn may_be(&self, vars: &[Var], names: &[u32]) -> bool
        ensures { OnFalse result ((codes : List ℕ) → AreNamed (names_of_update self.now.results codes self.now.method.now self.now.site.now) vars.now
            names.now → ⊥) }
    {
        if vars.len() != names.len() {
            return false;
        }
        'each: for (number, var) in vars.iter().enumerate() {
            if !self.may_be_named(var.0, names[number]) {
                return false;
            }
        }
        true
    }
}
