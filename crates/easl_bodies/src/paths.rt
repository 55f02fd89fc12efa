//! What paths lead to.
ghost use Rattle.std.specs.Prelude.{◌≡◌, ◌+◌, List, Some};
ghost use Rattle.std.specs.List.{fold};
ghost use Rattle.std.specs.Option.{option_copied};
ghost use Rattle.easl_model.specs.declared.tree.Word as tree;
ghost use Rattle.easl_model.specs.Paths as told;

use crate::context::{is_declared, variable_named};
use crate::names::field_named;
use easl_model::{Context, Path, Spec, Target, Word};

fn valued(class: Option<usize>) -> Target
    ensures { result ≡ told.valued class }
{
    match class {
        Some(class) => Target::Object(class),
        None => Target::Opaque,
    }
}

/// What one more name leads to.
pub fn along(spec: &Spec, from: Target, word: &Word) -> Target
    ensures { result ≡ told.along spec.now from word.now }
{
    match from {
        Target::Object(class) => match field_named(spec, class, &word.name) {
            Some(field) => valued(field.class),
            None => Target::Unknown(word.place),
        },
        Target::Opaque => Target::Unknown(word.place),
        Target::Unknown(place) => Target::Unknown(place),
    }
}

/// What the head of a path leads to.
fn head_target(spec: &Spec, context: &Context, head: &Option<Word>) -> Target
    ensures { (fields : List tree.Word) → told.end_of spec.now context.now (told.way_by context.now head.now fields)
        ≡ fold (told.along spec.now) result fields }
{
    let Some(word) = head else {
        return Target::Object(context.class);
    };
    match variable_named(context, &word.name) {
        Some(at) => variable_target(context, at),
        None => along(spec, Target::Object(context.class), word),
    }
}

pub fn variable_target(context: &Context, at: usize) -> Target
    ensures { result ≡ told.slot_target context.now (at + 1) }
{
    match context.variables.get(at) {
        Some(variable) => valued(variable.class),
        None => Target::Opaque,
    }
}

/// What a path leads to.
pub fn target_of(spec: &Spec, context: &Context, path: &Path) -> Target
    ensures { result ≡ told.target_of spec.now context.now path.now }
{
    let mut target = head_target(spec, context, &path.head);
    'each: for word in path.fields.as_slice() {
        target = along(spec, target, word);
    }
    target
}

/// Whether a path is `this` alone.
pub(crate) fn is_this(path: &Path) -> bool
    ensures { result ≡ told.is_this path.now }
{
    path.head.is_none() && path.fields.is_empty()
}

/// The first name behind `this`, where a path goes from there.
pub(crate) fn from_this<'a>(context: &Context, path: &'a Path) -> Option<&'a Word>
    ensures { option_copied result ≡ told.from_this (told.way_of context.now path.now) }
{
    match &path.head {
        Some(word) => own_name(context, word),
        None => path.fields.as_slice().first(),
    }
}

/// The name where it is no variable's.
fn own_name<'a>(context: &Context, word: &'a Word) -> Option<&'a Word>
    ensures { (fields : List tree.Word) → option_copied result ≡ told.from_this (told.way_by context.now (Some word.now) fields) }
{
    if is_declared(context, &word.name) {
        None
    } else {
        Some(word)
    }
}

/// The same of the path without its last name.
pub(crate) fn from_this_to_owner<'a>(context: &Context, path: &'a Path) -> Option<&'a Word>
    ensures { option_copied result ≡ told.from_this (told.owner_of (told.way_of context.now path.now)) }
{
    let fields = path.fields.as_slice();
    match &path.head {
        Some(word) => {
            if fields.is_empty() {
                None
            } else {
                own_name(context, word)
            }
        }
        None => {
            if fields.len() < 2 {
                None
            } else {
                fields.first()
            }
        }
    }
}

/// The field of `this` that a path is.
pub(crate) fn field_of_this<'a>(context: &Context, path: &'a Path) -> Option<&'a Word>
    ensures { option_copied result ≡ told.field_of_this (told.way_of context.now path.now) }
{
    let fields = path.fields.as_slice();
    match &path.head {
        Some(word) => {
            if fields.is_empty() {
                own_name(context, word)
            } else {
                None
            }
        }
        None => {
            if fields.len() == 1 {
                fields.first()
            } else {
                None
            }
        }
    }
}
