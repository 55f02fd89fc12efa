//! The faults of arguments and calls.
ghost use Rattle.std.specs.Prelude.{◌≡◌, ◌<◌, [], ℕ, IfSome, Some, length, map, option_and_then, option_map, slice_get};
ghost use Rattle.client_values.specs.Calling.{faults_of_argument, callee_by_header};
ghost use Rattle.client_values.specs.Knowing.{Knows};
ghost use Rattle.client_values.specs.ToldFaults.{Finds};
ghost use Rattle.client_values.specs.ToldKinds.{kind_told};
ghost use Rattle.client_model.specs.BodyFaults as told;
ghost use Rattle.client_model.specs.Contexts as contexts;
ghost use Rattle.client_model.specs.Settings.{callee_by, method_at, valued};

use crate::context::Context;
use crate::fault::{Fault, Rule, note_if};
use crate::headers::Header;
use crate::kind::{Kind, fits, valued};
use crate::setting::Setting;
use crate::words::{faults_of_read, kind_of_word};
use easl_model::{Method, Place, Word};

/// A value is of another type than what takes it.
pub(crate) fn differs(place: Place, taken: Kind, given: Kind, found: Option<Fault>) -> Option<Fault>
    ensures { Finds found result (told.differs place (kind_told taken) (kind_told given)) }
{
    note_if(found, !fits(taken, given), Rule::Mismatch, place)
}

/// The faults of an argument and what takes it, where something does.
#[tactic(auto, using(easl_model::proofs::Finding::both))]
fn faults_of_argument(
    setting: &Setting<'_>,
    context: &Context,
    taken: Option<Kind>,
    word: &Word,
    found: Option<Fault>,
) -> Option<Fault>
    ensures { (c : contexts.Context) → Knows c context.now → Finds found result (faults_of_argument setting.now c (option_map kind_told taken) word.now) }
{
    let Some(taken) = taken else {
        return faults_of_read(setting, context, word, found);
    };
    let given = kind_of_word(setting, context, word);
    let found = differs(word.place, taken, given, found);
    faults_of_read(setting, context, word, found)
}

/// Those of arguments that a procedure takes.
#[tactic(auto, using(easl_model::proofs::Finding::both, crate::proofs::Taking::argument_more))]
fn faults_of_arguments(
    setting: &Setting<'_>,
    context: &Context,
    params: &[Kind],
    args: &[Word],
    start: Option<Fault>,
) -> Option<Fault>
    ensures { (c : contexts.Context) → Knows c context.now → Finds start result (told.faults_of_arguments setting.now c (map kind_told params.now) args.now) }
{
    let mut found = start;
    'each: for at in 0..args.len() {
        let taken = kind_in(params, at);
        found = faults_of_argument(setting, context, taken, &args[at], found);
    }
    found
}

/// Those of arguments that a method or constructor takes.
#[tactic(auto, using(easl_model::proofs::Finding::both, crate::proofs::Taking::argument_more))]
fn faults_of_given(
    setting: &Setting<'_>,
    context: &Context,
    params: &[Option<u32>],
    args: &[Word],
    start: Option<Fault>,
) -> Option<Fault>
    ensures { (c : contexts.Context) → Knows c context.now → Finds start result (told.faults_of_arguments setting.now c (map valued params.now) args.now) }
{
    let mut found = start;
    'each: for at in 0..args.len() {
        let taken = kind_at(params, at);
        found = faults_of_argument(setting, context, taken, &args[at], found);
    }
    found
}

/// What the procedure's parameter of this number is.
#[tactic(auto, using(crate::proofs::Taking::get_map))]
fn kind_in(params: &[Kind], at: usize) -> Option<Kind>
    ensures { option_map kind_told result ≡ slice_get (map kind_told params.now) at }
{
    match params.get(at) {
        Some(kind) => Some(*kind),
        None => None,
    }
}

/// What the method's parameter of this number is.
#[tactic(auto, using(crate::proofs::Taking::get_map))]
fn kind_at(params: &[Option<u32>], at: usize) -> Option<Kind>
    ensures { option_map kind_told result ≡ slice_get (map valued params.now) at }
{
    match params.get(at) {
        Some(class) => Some(valued(*class)),
        None => None,
    }
}

/// Those of a call of a procedure.
#[tactic(auto, using(easl_model::proofs::Finding::both, crate::proofs::Taking::length_map))]
pub(crate) fn faults_of_procedure_call(
    setting: &Setting<'_>,
    context: &Context,
    place: Place,
    header: &Header,
    args: &[Word],
    found: Option<Fault>,
) -> Option<Fault>
    ensures { (c : contexts.Context) → Knows c context.now → (number : ℕ)
        → Finds found result (told.faults_of_call setting.now c place (Some (callee_by_header number header.now)) args.now) }
{
    let is_wrong = header.params.len() != args.len();
    let found = note_if(found, is_wrong, Rule::Mismatch, place);
    faults_of_arguments(setting, context, header.params.as_slice(), args, found)
}

/// Those of a call of a method or constructor.
#[tactic(auto, using(easl_model::proofs::Finding::both, crate::proofs::Taking::length_map))]
fn faults_of_method_call(
    setting: &Setting<'_>,
    context: &Context,
    place: Place,
    method: &Method,
    args: &[Word],
    found: Option<Fault>,
) -> Option<Fault>
    ensures { (c : contexts.Context) → Knows c context.now → (number : ℕ)
        → Finds found result (told.faults_of_call setting.now c place (Some (callee_by number method.now)) args.now) }
{
    let is_wrong = method.params.len() != args.len();
    let found = note_if(found, is_wrong, Rule::Mismatch, place);
    faults_of_given(setting, context, method.params.as_slice(), args, found)
}

/// Those of arguments that nothing takes.
pub(crate) fn faults_of_untaken(
    setting: &Setting<'_>,
    context: &Context,
    args: &[Word],
    found: Option<Fault>,
) -> Option<Fault>
    ensures { (c : contexts.Context) → Knows c context.now → Finds found result (told.faults_of_arguments setting.now c [] args.now) }
{
    faults_of_arguments(setting, context, &[], args, found)
}

/// Those of a call of the method or constructor of this number, where there is one.
pub(crate) fn faults_of_numbered(
    setting: &Setting<'_>,
    context: &Context,
    place: Place,
    number: Option<u32>,
    args: &[Word],
    found: Option<Fault>,
) -> Option<Fault>
    requires { IfSome number (λ n. n < length setting.now.form.methods) }
    ensures { (c : contexts.Context) → Knows c context.now
        → Finds found result (told.faults_of_call setting.now c place (option_and_then (method_at setting.now.form) number) args.now) }
{
    match number {
        Some(number) => {
            let method = setting.spec.method(number);
            faults_of_method_call(setting, context, place, method, args, found)
        }
        None => faults_of_untaken(setting, context, args, found),
    }
}
