//! The faults of all bodies.
ghost use Rattle.std.specs.Prelude.{◌≡◌, ◌∷◌, [], IfOk, None, map};
ghost use Rattle.std.specs.List.{flat_map};
ghost use Rattle.std.specs.Option.{option_copied};
ghost use Rattle.easl_model.specs.{bodies_from, bodies_in, constructor_body, constructor_in, constructor_or_implicit, faults_of_bodies, faults_of_body};
ghost use Rattle.easl_model.specs.{first_of, first_with, method_body, methods_in};
ghost use Rattle.easl_model.specs.Faults.{comes_before};

use easl_bodies::{constructor_among, faults_of_code, field_count, members_of, note_if};
use easl_model::{Class, Fault, Member, Rule, Spec};
use std::alloc::{AllocError, Global};

/// The first fault of the bodies.
pub(crate) fn first_in_bodies(alloc: Global, spec: &Spec) -> Result<Option<Fault>, AllocError>
    ensures { IfOk result (λ f. f ≡ first_of (faults_of_bodies spec.now)) }
{
    faults_of_classes(alloc, spec, spec.classes.as_slice(), None)
}

fn faults_of_classes(
    alloc: Global,
    spec: &Spec,
    classes: &[Class],
    start: Option<Fault>,
) -> Result<Option<Fault>, AllocError>
    ensures { IfOk result (λ f. f ≡ first_with comes_before start (flat_map (faults_of_body spec.now) (bodies_from 0 classes.now))) }
{
    let mut found = start;
    'each: for class in 0..classes.len() {
        found = faults_of_class(alloc, spec, class, &classes[class], found)?;
    }
    Ok(found)
}

#[tactic(auto, using(easl_model::proofs::Finding::both))]
fn faults_of_class(
    alloc: Global,
    spec: &Spec,
    number: usize,
    class: &Class,
    start: Option<Fault>,
) -> Result<Option<Fault>, AllocError>
    ensures { IfOk result (λ f. f ≡ first_with comes_before start (flat_map (faults_of_body spec.now) (bodies_in number class.now))) }
{
    let found = faults_of_constructor(alloc, spec, number, class, start)?;
    faults_of_methods(alloc, spec, number, class.members.as_slice(), found)
}

fn faults_of_constructor(
    alloc: Global,
    spec: &Spec,
    number: usize,
    class: &Class,
    start: Option<Fault>,
) -> Result<Option<Fault>, AllocError>
    ensures { IfOk result (λ f. f ≡ first_with comes_before start (faults_of_body spec.now (constructor_body number class.now))) }
{
    match constructor_among(class.members.as_slice()) {
        Some(code) => faults_of_code(alloc, spec, number, true, code, start),
        None => {
            let has_fields = field_count(members_of(spec, number)) > 0;
            Ok(note_if(start, has_fields, Rule::Unready, class.name.place))
        }
    }
}

fn faults_of_methods(
    alloc: Global,
    spec: &Spec,
    number: usize,
    members: &[Member],
    start: Option<Fault>,
) -> Result<Option<Fault>, AllocError>
    ensures { IfOk result (λ f. f ≡ first_with comes_before start (flat_map (faults_of_body spec.now) (map (method_body number) (methods_in members.now)))) }
{
    let mut found = start;
    'each: for member in members {
        if let Member::Method(code) = member {
            found = faults_of_code(alloc, spec, number, false, code, found)?;
        }
    }
    Ok(found)
}
