//! The classes that terms lead to.
ghost use Rattle.std.specs.Prelude.{◌≡◌, if◌then◌else◌, IfOk, map, slice_get, slice_index, unwrap_or};
ghost use Rattle.std.specs.Option.{option_copied};
ghost use Rattle.case_model.specs.{question_variables};
ghost use Rattle.easl_model.specs.{fields_of};
ghost use Rattle.alias_cases.specs.{class_of_term, start_class};

use access_paths::{Family, Term, Var};
use easl_model::{CheckedSpec, Method};
use sqlite_items::Items;
use std::alloc::{AllocError, Global};

/// The class of each term, where `family` has those of x1 to x3.
pub(crate) fn classes_of(
    alloc: Global,
    spec: &CheckedSpec,
    method: &Method,
    family: Option<&Family>,
    list: &[Term],
) -> Result<Items<u32>, AllocError>
    ensures { IfOk result (λ classes. classes ≡ map (class_of_term spec.now (question_variables method.now (option_copied family.entry))) list.now) }
{
    let mut classes = Items::new(alloc);
    'each: for term in list {
        classes.push(class_of(spec, method, family, term))?;
    }
    Ok(classes)
}

fn class_of(spec: &CheckedSpec, method: &Method, family: Option<&Family>, term: &Term) -> u32
    ensures { result ≡ class_of_term spec.now (question_variables method.now (option_copied family.entry)) term.now }
{
    let mut class = class_of_variable(method, family, term.var);
    'each: for field in term.fields.as_slice() {
        class = class_of_field(spec, class, *field);
    }
    class
}

/// The class of a field; 0 where there is none.
#[tactic(auto, using(crate::proofs::Typed::no_fields))]
fn class_of_field(spec: &CheckedSpec, class: u32, field: u32) -> u32
    ensures { result ≡ slice_index (fields_of spec.now class) field }
{
    if class >= spec.class_count() {
        return 0;
    }
    if field >= spec.field_count(class) {
        return 0;
    }
    spec.field_class(class, field)
}

/// The class of a variable; 0 where it has no object.
fn class_of_variable(method: &Method, family: Option<&Family>, variable: Var) -> u32
    ensures { result ≡ start_class (question_variables method.now (option_copied family.entry)) variable.0 }
{
    let number = usize::from(variable.0);
    if number < 3 {
        return match family {
            Some(family) => class_at(family.classes.as_slice(), number),
            None => 0,
        };
    }
    if number == 3 {
        return own_class(method);
    }
    class_of_parameter(method, number - 4)
}

fn class_at(classes: &[u32], place: usize) -> u32
    ensures { result ≡ unwrap_or (slice_get classes.now place) 0 }
{
    match classes.get(place) {
        Some(class) => *class,
        None => 0,
    }
}

/// The class of `this`; 0 where there is none.
fn own_class(method: &Method) -> u32
    ensures { result ≡ (if method.now.constructor then 0 else method.now.class) }
{
    if method.constructor { 0 } else { method.class }
}

fn class_of_parameter(method: &Method, place: usize) -> u32
    ensures { result ≡ start_class method.now.params place }
{
    match method.params.as_slice().get(place) {
        Some(Some(class)) => *class,
        _ => 0,
    }
}
