//! What stands before a statement.
ghost use Rattle.std.specs.Prelude.{◌≡◌, option_map};
ghost use Rattle.std.specs.List.{list_any};
ghost use Rattle.client_values.specs.Knowing.{Knows, is_marked};
ghost use Rattle.client_model.specs.Lookups.{is_same};
ghost use Rattle.client_model.specs.Contexts as told;
ghost use Rattle.client_model.specs.Settings.{variable_named};

use crate::scope::{Scope, Variable};
use crate::setting::Setting;
use easl_model::Name;
use set_names::NamesSoFar;
use sqlite_items::Items;

/// What is surely assigned: some names; or everything, where nothing goes on to.
#[derive(Debug, Drop)]
pub struct Assigned {
    pub names: NamesSoFar,
    pub everything: bool,
}

/// Before a statement: the parameters and locals in scope, in order; what is surely assigned; whether all before it in its
/// block goes on; whether a `while` holds it; and how many variables and points of its procedure and how many calls of the
/// client stand before it in the text.
#[derive(Debug, Drop)]
pub struct Context {
    pub scope: Scope,
    pub assigned: Assigned,
    pub reached: bool,
    pub looped: bool,
    pub variables: u32,
    pub points: u32,
    pub calls: u32,
}

/// The parameter or local of this name that is in scope, else the static.
#[tactic(auto, using(crate::proofs::Finding::find_both))]
pub fn variable_named<'a>(
    setting: &'a Setting<'_>,
    context: &'a Context,
    name: &Name,
) -> Option<&'a Variable>
    ensures { (c : told.Context) → Knows c context.now → option_map (λ v. v.now) result ≡ variable_named setting.now c.scope name.now }
{
    match context.scope.named(name) {
        Some(variable) => Some(variable),
        None => setting.statics.named(name),
    }
}

/// Whether a parameter or local in scope has the name.
pub fn is_local(context: &Context, name: &Name) -> bool
    ensures { (c : told.Context) → Knows c context.now → result ≡ list_any (λ v. is_same v.name name.now) c.scope }
{
    context.scope.has(name)
}

/// Whether the name of this code is surely assigned.
pub(crate) fn is_assigned(context: &Context, code: u32) -> bool
    ensures { (c : told.Context) → Knows c context.now → result ≡ told.has c.assigned code }
{
    has(&context.assigned, code)
}

fn has(assigned: &Assigned, code: u32) -> bool
    ensures { result ≡ is_marked assigned.now code }
{
    assigned.everything || assigned.names.has(code)
}
