//! Words that are read.
ghost use Rattle.std.specs.Prelude.{◌≡◌};
ghost use Rattle.client_values.specs.Knowing.{Knows};
ghost use Rattle.client_values.specs.ToldFaults.{Finds};
ghost use Rattle.client_values.specs.ToldKinds.{kind_told};
ghost use Rattle.client_model.specs.BodyFaults as told;
ghost use Rattle.client_model.specs.Contexts as contexts;
ghost use Rattle.client_model.specs.Settings.{kind_of_word};

use crate::context::{Context, is_assigned, variable_named};
use crate::fault::{Fault, Rule, note_if};
use crate::kind::Kind;
use crate::names::is_literal;
use crate::setting::Setting;
use easl_model::Word;

/// What a word is; a literal is opaque.
pub fn kind_of_word(setting: &Setting<'_>, context: &Context, word: &Word) -> Kind
    ensures { (c : contexts.Context) → Knows c context.now → kind_told result ≡ kind_of_word setting.now c.scope word.now }
{
    if is_literal(&word.name) {
        return Kind::Opaque;
    }
    match variable_named(setting, context, &word.name) {
        Some(variable) => variable.kind,
        None => Kind::Unknown,
    }
}

/// A variable is not there.
pub fn no_variable(
    setting: &Setting<'_>,
    context: &Context,
    word: &Word,
    found: Option<Fault>,
) -> Option<Fault>
    ensures { (c : contexts.Context) → Knows c context.now → Finds found result (told.no_variable setting.now c word.now) }
{
    let is_there = variable_named(setting, context, &word.name).is_some();
    note_if(found, !is_there, Rule::Unknown, word.place)
}

/// A variable is read where it is not surely assigned.
fn unset(
    setting: &Setting<'_>,
    context: &Context,
    word: &Word,
    found: Option<Fault>,
) -> Option<Fault>
    ensures { (c : contexts.Context) → Knows c context.now → Finds found result (told.unset setting.now c word.now) }
{
    let is_unset = match variable_named(setting, context, &word.name) {
        Some(variable) => !is_assigned(context, variable.code),
        None => false,
    };
    note_if(found, is_unset, Rule::Unset, word.place)
}

/// The faults of a word that is read.
#[tactic(auto, using(easl_model::proofs::Finding::both))]
pub(crate) fn faults_of_read(
    setting: &Setting<'_>,
    context: &Context,
    word: &Word,
    found: Option<Fault>,
) -> Option<Fault>
    ensures { (c : contexts.Context) → Knows c context.now → Finds found result (told.faults_of_read setting.now c word.now) }
{
    if is_literal(&word.name) {
        return found;
    }
    let found = no_variable(setting, context, word, found);
    unset(setting, context, word, found)
}
