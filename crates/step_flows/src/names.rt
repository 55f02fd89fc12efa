//! The names that stand for the variables of a question at a component call.
ghost use Rattle.std.specs.Prelude.{◌≡◌, ◌==◌, ◌%◌, ℕ, Some, None, MatchOption, if◌then◌else◌, slice_get};
ghost use Rattle.std.specs.Bool.{OnFalse, OnTrue};
ghost use Rattle.client_facts.specs.Flows.{names_from_this, names_of_update};

use client_model::CallSite;
use easl_model::Method;

/// A question on the method of a component call, with the positions of the family at which the result stands.
#[derive(Clone, Copy)]
pub(crate) struct Asked<'a> {
    pub site: &'a CallSite,
    pub method: &'a Method,
    pub results: u32,
}

/// The name at this position of the fact, none where the result stands.
fn family_name(results: u32, codes: &[u32], position: u8) -> Option<u32>
    ensures { result ≡ (if results % 2 == 1 then None else slice_get codes.now position) }
{
    if results % 2 == 1 {
        return None;
    }
    codes.get(position as usize).copied()
}

/// The name of this number from `this` on; a construction has no receiver.
pub(crate) fn call_name(method: &Method, site: &CallSite, number: u8) -> Option<Option<u32>>
    ensures { result ≡ slice_get (names_from_this method.now site.now) number }
{
    let args = site.args.as_slice();
    if !method.constructor {
        return args.get(number as usize).copied();
    }
    if number == 0 {
        return Some(None);
    }
    args.get(number as usize - 1).copied()
}

/// Whether it is this name.
pub(crate) fn is_code(name: Option<Option<u32>>, code: u32) -> bool
    ensures so { OnTrue result (name ≡ Some (Some code)) }
    ensures not_so { OnFalse result (name ≡ Some (Some code) → ⊥) }
{
    match name {
        Some(Some(other)) => other == code,
        Some(None) => false,
        None => false,
    }
}

impl Asked<'_> {
    /// The name of the variable of this number, where the fact after the call has these names.
    pub fn name(&self, codes: &[u32], variable: u8) -> Option<Option<u32>>
        ensures { result ≡ slice_get (names_of_update self.now.results codes.now self.now.method.now self.now.site.now) variable }
    {
        match variable {
            0 => Some(family_name(self.results, codes, 0)),
            1 => Some(family_name(self.results / 2, codes, 1)),
            2 => Some(family_name(self.results / 2 / 2, codes, 2)),
            _ => call_name(self.method, self.site, variable - 3),
        }
    }

    /// Whether the variable has this name.
    pub fn is_named(&self, codes: &[u32], variable: u8, code: u32) -> bool
        ensures so { OnTrue result (slice_get (names_of_update self.now.results codes.now self.now.method.now self.now.site.now) variable ≡ Some (Some code)) }
        ensures not_so { OnFalse result (slice_get (names_of_update self.now.results codes.now self.now.method.now self.now.site.now) variable ≡ Some
            (Some code) → ⊥) }
    {
        is_code(self.name(codes, variable), code)
    }

    /// The code of the variable's name, None where it has none.
    pub fn code(&self, codes: &[u32], variable: u8) -> Option<u32>
        ensures { MatchOption result ((code : ℕ) → slice_get (names_of_update self.now.results codes.now self.now.method.now self.now.site.now) variable ≡
            Some (Some code) → ⊥)
            (λ code. slice_get (names_of_update self.now.results codes.now self.now.method.now self.now.site.now) variable ≡ Some (Some code)) }
    {
        self.name(codes, variable).flatten()
    }
}
