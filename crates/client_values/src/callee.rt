//! What values call, and what they are.
ghost use Rattle.std.specs.Prelude.{◌≡◌, ◌<◌, [], IfSome, length, option_and_then};
ghost use Rattle.std.specs.Option.{option_map_or};
ghost use Rattle.client_values.specs.Knowing.{Knows};
ghost use Rattle.client_values.specs.ToldKinds.{kind_told};
ghost use Rattle.client_model.specs.declared.tree.Rhs.TheVariants as rhs;
ghost use Rattle.client_model.specs.Contexts as contexts;
ghost use Rattle.client_model.specs.Settings as told;

use crate::context::Context;
use crate::kind::{Kind, class_in, valued};
use crate::names::{class_named, method_named};
use crate::setting::Setting;
use crate::words::kind_of_word;
use client_model::{Component, New, Rhs};
use easl_model::{CheckedSpec, Method, Name};

/// The number of the constructor that is called.
pub fn constructor_called(setting: &Setting<'_>, new: &New) -> Option<u32>
    ensures called { option_and_then (told.method_at setting.now.form) result ≡ told.callee_of setting.now [] (rhs.New new.now) }
    ensures in_range { IfSome result (λ n. n < length setting.now.form.methods) }
{
    match class_named(setting.spec, &new.class.name) {
        Some(class) => Some(setting.spec.constructor(class)),
        None => None,
    }
}

/// The number of the method that is called.
pub fn method_called(setting: &Setting<'_>, context: &Context, call: &Component) -> Option<u32>
    ensures called { (c : contexts.Context) → Knows c context.now
        → option_and_then (told.method_at setting.now.form) result ≡ told.callee_of setting.now c.scope (rhs.Component call.now) }
    ensures in_range { IfSome result (λ n. n < length setting.now.form.methods) }
{
    match class_in(kind_of_word(setting, context, &call.receiver)) {
        Some(class) => method_named(setting.spec, class, &call.method.name),
        None => None,
    }
}

/// What a method gives.
fn given_by(method: &Method) -> Kind
    ensures { kind_told result ≡ (told.callee_by 0 method.now).result }
{
    if method.gives {
        valued(method.result)
    } else {
        Kind::Void
    }
}

/// What the method or constructor of this number gives, where there is one.
fn given(spec: &CheckedSpec, number: Option<u32>) -> Kind
    requires { IfSome number (λ n. n < length spec.now.methods) }
    ensures { kind_told result ≡ option_map_or (λ m. m.result) (option_and_then (told.method_at spec.now) number) told.Unknown }
{
    match number {
        Some(number) => given_by(spec.method(number)),
        None => Kind::Unknown,
    }
}

/// What a value is.
pub(crate) fn kind_of_value(setting: &Setting<'_>, context: &Context, value: &Rhs) -> Kind
    ensures { (c : contexts.Context) → Knows c context.now → kind_told result ≡ told.kind_of_value setting.now c.scope value.now }
{
    match value {
        Rhs::Copy(word) => kind_of_word(setting, context, word),
        Rhs::New(new) => kind_of_new(setting, new),
        Rhs::Component(call) => kind_of_component(setting, context, call),
        Rhs::Call(call) => kind_of_call(setting, &call.procedure.name),
    }
}

/// What a construction is.
fn kind_of_new(setting: &Setting<'_>, new: &New) -> Kind
    ensures { kind_told result ≡ told.kind_of_value setting.now [] (rhs.New new.now) }
{
    given(setting.spec, constructor_called(setting, new))
}

/// What a call of a method is.
pub(crate) fn kind_of_component(setting: &Setting<'_>, context: &Context, call: &Component) -> Kind
    ensures { (c : contexts.Context) → Knows c context.now → kind_told result ≡ told.kind_of_value setting.now c.scope (rhs.Component call.now) }
{
    given(setting.spec, method_called(setting, context, call))
}

/// What a call of a procedure is.
fn kind_of_call(setting: &Setting<'_>, name: &Name) -> Kind
    ensures { kind_told result ≡ option_map_or (λ m. m.result) (told.procedure_from 1 setting.now.procedures name.now) told.Unknown }
{
    match setting.procedures.called(name) {
        Some((_, header)) => header.result,
        None => Kind::Unknown,
    }
}
