//! The faults of values, tests and what a `return` gives.
ghost use Rattle.std.specs.Prelude.{◌≡◌};
ghost use Rattle.client_values.specs.Calling.{faults_of_receiver};
ghost use Rattle.client_values.specs.Knowing.{Knows};
ghost use Rattle.client_values.specs.ToldFaults.{Finds};
ghost use Rattle.client_values.specs.ToldKinds.{kind_told};
ghost use Rattle.client_model.specs.declared.tree.Rhs.TheVariants as rhs;
ghost use Rattle.client_model.specs.BodyFaults as told;
ghost use Rattle.client_model.specs.Contexts as contexts;
ghost use Rattle.client_model.specs.HeaderFaults as headers;
ghost use Rattle.client_model.specs.Settings.{procedure_from};
ghost use Rattle.client_model.specs.Trees as trees;

use crate::arguments::{differs, faults_of_numbered, faults_of_procedure_call, faults_of_untaken};
use crate::callee::{constructor_called, kind_of_component, kind_of_value, method_called};
use crate::context::Context;
use crate::fault::{Fault, Rule, note, note_if};
use crate::kind::{Kind, fits};
use crate::names::{class_named, method_named};
use crate::setting::Setting;
use crate::words::{faults_of_read, kind_of_word};
use client_model::{Call, Component, New, Rhs, Test};
use easl_model::{CheckedSpec, Place, Sort, Word};

/// A class is not there.
pub(crate) fn no_class(spec: &CheckedSpec, class: &Word, found: Option<Fault>) -> Option<Fault>
    ensures { Finds found result (headers.no_class spec.now class.now) }
{
    let is_there = class_named(spec, &class.name).is_some();
    note_if(found, !is_there, Rule::Unknown, class.place)
}

/// A type is no class.
pub fn no_type(spec: &CheckedSpec, sort: &Sort, found: Option<Fault>) -> Option<Fault>
    ensures { Finds found result (headers.no_type spec.now sort.now) }
{
    match sort {
        Sort::Void | Sort::Opaque(_) => found,
        Sort::Class(class) => no_class(spec, class, found),
    }
}

/// The class of a receiver has no such method.
fn no_method(
    setting: &Setting<'_>,
    receiver: Kind,
    method: &Word,
    found: Option<Fault>,
) -> Option<Fault>
    ensures { Finds found result (told.no_method setting.now (kind_told receiver) method.now) }
{
    match receiver {
        Kind::Object(class) => {
            let is_there = method_named(setting.spec, class, &method.name).is_some();
            note_if(found, !is_there, Rule::Unknown, method.place)
        }
        Kind::Opaque | Kind::Void | Kind::Unknown => found,
    }
}

/// A procedure is not there.
fn no_procedure(setting: &Setting<'_>, procedure: &Word, found: Option<Fault>) -> Option<Fault>
    ensures { Finds found result (told.no_procedure setting.now procedure.now) }
{
    let is_there = setting.procedures.has(&procedure.name);
    note_if(found, !is_there, Rule::Unknown, procedure.place)
}

/// A receiver is opaque.
fn opaque_receiver(place: Place, receiver: Kind, found: Option<Fault>) -> Option<Fault>
    ensures { Finds found result (told.opaque_receiver place (kind_told receiver)) }
{
    match receiver {
        Kind::Opaque => note(found, Rule::Mismatch, place),
        Kind::Object(_) | Kind::Void | Kind::Unknown => found,
    }
}

/// A test's call gives no opaque value.
fn no_test(place: Place, given: Kind, found: Option<Fault>) -> Option<Fault>
    ensures { Finds found result (told.no_test place (kind_told given)) }
{
    note_if(found, !fits(Kind::Opaque, given), Rule::Mismatch, place)
}

/// The faults of a construction.
#[tactic(auto, using(easl_model::proofs::Finding::both))]
fn faults_of_new(
    setting: &Setting<'_>,
    context: &Context,
    new: &New,
    found: Option<Fault>,
) -> Option<Fault>
    ensures { (c : contexts.Context) → Knows c context.now → Finds found result (told.faults_of_value setting.now c (rhs.New new.now)) }
{
    let found = no_class(setting.spec, &new.class, found);
    let number = constructor_called(setting, new);
    faults_of_numbered(
        setting,
        context,
        new.place,
        number,
        new.args.as_slice(),
        found,
    )
}

/// Those of a method's receiver and name.
#[tactic(auto, using(easl_model::proofs::Finding::both))]
fn faults_of_receiver(
    setting: &Setting<'_>,
    context: &Context,
    call: &Component,
    found: Option<Fault>,
) -> Option<Fault>
    ensures { (c : contexts.Context) → Knows c context.now → Finds found result (faults_of_receiver setting.now c call.now) }
{
    let receiver = kind_of_word(setting, context, &call.receiver);
    let found = faults_of_read(setting, context, &call.receiver, found);
    let found = opaque_receiver(call.receiver.place, receiver, found);
    no_method(setting, receiver, &call.method, found)
}

/// Those of a call of a method.
#[tactic(auto, using(easl_model::proofs::Finding::both))]
fn faults_of_component(
    setting: &Setting<'_>,
    context: &Context,
    call: &Component,
    found: Option<Fault>,
) -> Option<Fault>
    ensures { (c : contexts.Context) → Knows c context.now → Finds found result (told.faults_of_value setting.now c (rhs.Component call.now)) }
{
    let found = faults_of_receiver(setting, context, call, found);
    let number = method_called(setting, context, call);
    let place = call.receiver.place;
    faults_of_numbered(setting, context, place, number, call.args.as_slice(), found)
}

/// Those of a call of a procedure.
#[tactic(auto, using(easl_model::proofs::Finding::both))]
fn faults_of_call(
    setting: &Setting<'_>,
    context: &Context,
    call: &Call,
    found: Option<Fault>,
) -> Option<Fault>
    ensures { (c : contexts.Context) → Knows c context.now → Finds found result (told.faults_of_value setting.now c (rhs.Call call.now)) }
{
    let found = no_procedure(setting, &call.procedure, found);
    faults_of_arguments_of(setting, context, call, found)
}

/// Those of the arguments of a call of a procedure.
fn faults_of_arguments_of(
    setting: &Setting<'_>,
    context: &Context,
    call: &Call,
    found: Option<Fault>,
) -> Option<Fault>
    ensures { (c : contexts.Context) → Knows c context.now → Finds found result
        (told.faults_of_call setting.now c call.now.procedure.place (procedure_from 1 setting.now.procedures call.now.procedure.name) call.now.args) }
{
    let args = call.args.as_slice();
    match setting.procedures.called(&call.procedure.name) {
        Some((_, header)) => {
            let place = call.procedure.place;
            faults_of_procedure_call(setting, context, place, header, args, found)
        }
        None => faults_of_untaken(setting, context, args, found),
    }
}

/// Those of a value by itself.
pub fn faults_of_value(
    setting: &Setting<'_>,
    context: &Context,
    value: &Rhs,
    found: Option<Fault>,
) -> Option<Fault>
    ensures { (c : contexts.Context) → Knows c context.now → Finds found result (told.faults_of_value setting.now c value.now) }
{
    match value {
        Rhs::Copy(word) => faults_of_read(setting, context, word, found),
        Rhs::New(new) => faults_of_new(setting, context, new, found),
        Rhs::Component(call) => faults_of_component(setting, context, call, found),
        Rhs::Call(call) => faults_of_call(setting, context, call, found),
    }
}

/// The place of a value's first token.
pub fn place_of_value(value: &Rhs) -> Place
    ensures { result ≡ trees.place_of_value value.now }
{
    match value {
        Rhs::Copy(word) => word.place,
        Rhs::New(new) => new.place,
        Rhs::Component(call) => call.receiver.place,
        Rhs::Call(call) => call.procedure.place,
    }
}

/// Those of a value and what takes it.
#[tactic(auto, using(easl_model::proofs::Finding::both))]
pub fn faults_of_taken(
    setting: &Setting<'_>,
    context: &Context,
    taken: Kind,
    value: &Rhs,
    found: Option<Fault>,
) -> Option<Fault>
    ensures { (c : contexts.Context) → Knows c context.now → Finds found result (told.faults_of_taken setting.now c (kind_told taken) value.now) }
{
    let given = kind_of_value(setting, context, value);
    let found = differs(place_of_value(value), taken, given, found);
    faults_of_value(setting, context, value, found)
}

/// Those of a test.
#[tactic(auto, using(easl_model::proofs::Finding::both))]
pub fn faults_of_test(
    setting: &Setting<'_>,
    context: &Context,
    test: &Test,
    found: Option<Fault>,
) -> Option<Fault>
    ensures { (c : contexts.Context) → Knows c context.now → Finds found result (told.faults_of_test setting.now c test.now) }
{
    match test {
        Test::Free(_) => found,
        Test::Call(call) => {
            let given = kind_of_component(setting, context, call);
            let found = no_test(call.receiver.place, given, found);
            faults_of_component(setting, context, call, found)
        }
    }
}

/// A value is returned where there is no result.
fn returned_to_none(place: Place, result_kind: Kind, found: Option<Fault>) -> Option<Fault>
    ensures { Finds found result (told.returned_to_none place (kind_told result_kind)) }
{
    match result_kind {
        Kind::Void => note(found, Rule::Mismatch, place),
        Kind::Object(_) | Kind::Opaque | Kind::Unknown => found,
    }
}

/// A `return` without value stands where there is a result.
fn nothing_returned(place: Place, result_kind: Kind, found: Option<Fault>) -> Option<Fault>
    ensures { Finds found result (told.nothing_returned place (kind_told result_kind)) }
{
    match result_kind {
        Kind::Void => found,
        Kind::Object(_) | Kind::Opaque | Kind::Unknown => note(found, Rule::NoReturn, place),
    }
}

/// Those of what a `return` at this place gives.
#[tactic(auto, using(easl_model::proofs::Finding::both))]
pub fn faults_of_returned(
    setting: &Setting<'_>,
    context: &Context,
    place: Place,
    value: &Option<Word>,
    found: Option<Fault>,
) -> Option<Fault>
    ensures { (c : contexts.Context) → Knows c context.now → Finds found result (told.faults_of_returned setting.now c place value.now) }
{
    match value {
        None => nothing_returned(place, setting.result, found),
        Some(word) => {
            let given = kind_of_word(setting, context, word);
            let found = returned_to_none(place, setting.result, found);
            let found = differs(word.place, setting.result, given, found);
            faults_of_read(setting, context, word, found)
        }
    }
}
