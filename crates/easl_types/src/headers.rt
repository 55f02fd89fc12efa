//! The faults of headers.
ghost use Rattle.std.specs.Prelude.{◌≡◌, ◌∷◌, ◌++◌, [], IfOk, None, OnOk, map};
ghost use Rattle.std.specs.List.{flat_map, list_any};
ghost use Rattle.easl_model.specs.declared.fault.Rule.TheVariants as rule;
ghost use Rattle.easl_model.specs.{broken_if, codes_in, constructors_in, fields_in, first_of, first_with, is_same, methods_in};
ghost use Rattle.easl_model.specs.Faults.{comes_before};
ghost use Rattle.easl_model.specs.BodyFaults as bodies_told;
ghost use Rattle.easl_model.specs.HeaderFaults as told;

use easl_bodies::{names_agree, no_class, note_if};
use easl_model::{Class, Code, Fault, Member, Name, Param, Rule, Sort, Spec, Word};
use sqlite_items::Items;
use std::alloc::{AllocError, Global};

/// The first fault of the headers.
#[tactic(auto, using(easl_model::proofs::Finding::both))]
pub(crate) fn first_in_headers(alloc: Global, spec: &Spec) -> Result<Option<Fault>, AllocError>
    ensures { IfOk result (λ f. f ≡ first_of (told.faults_of_headers spec.now)) }
{
    let found = second_classes(alloc, spec.classes.as_slice(), None)?;
    faults_of_classes(alloc, spec, spec.classes.as_slice(), found)
}

#[tactic(auto, using(std::proofs::lemmas::List::drop_more, easl_model::proofs::Finding::both))]
fn faults_of_classes(
    alloc: Global,
    spec: &Spec,
    classes: &[Class],
    start: Option<Fault>,
) -> Result<Option<Fault>, AllocError>
    ensures { IfOk result (λ f. f ≡ first_with comes_before start (flat_map (told.faults_of_class spec.now) classes.now)) }
{
    let mut found = start;
    'each: for class in classes {
        found = faults_of_class(alloc, spec, class, found)?;
    }
    Ok(found)
}

#[tactic(auto, using(easl_model::proofs::Finding::both))]
fn faults_of_class(
    alloc: Global,
    spec: &Spec,
    class: &Class,
    found: Option<Fault>,
) -> Result<Option<Fault>, AllocError>
    ensures { IfOk result (λ f. f ≡ first_with comes_before found (told.faults_of_class spec.now class.now)) }
{
    let members = class.members.as_slice();
    let found = second_fields(alloc, members, found)?;
    let found = second_methods(alloc, members, found)?;
    let found = second_constructors(members, found);
    let found = types_of_fields(spec, members, found);
    let found = names_of_constructors(class, members, found);
    faults_of_headers(alloc, spec, members, found)
}

/// Whether one of the words has the name.
fn is_named(words: &[Word], name: &Name) -> bool
    ensures { result ≡ list_any (λ w. is_same w.name name.now) words.now }
{
    'each: for word in words {
        if names_agree(&word.name, name) {
            return true;
        }
    }
    false
}

fn copy_of(alloc: Global, word: &Word) -> Result<Word, AllocError>
    ensures { IfOk result (λ w. w ≡ word.now) }
{
    let name = Name(String::from_str(alloc, word.name.0.as_str())?);
    Ok(Word {
        name,
        place: word.place,
    })
}

/// A word has the name of an earlier one. Behind it, the word is one of those.
fn second_name(
    alloc: Global,
    before: &mut Items<Word>,
    word: &Word,
    found: Option<Fault>,
) -> Result<Option<Fault>, AllocError>
    ensures found { IfOk result (λ f. f ≡ first_with comes_before found
        (broken_if (list_any (λ v. is_same v.name word.now.name) before.old) rule.Duplicate word.now.place)) }
    ensures behind { OnOk result (before.new ≡ before.old ++ word.now ∷ []) }
{
    let is_second = is_named(before.as_slice(), &word.name);
    before.push(copy_of(alloc, word)?)?;
    Ok(note_if(found, is_second, Rule::Duplicate, word.place))
}

/// Second classes of one name.
#[tactic(auto, using(std::proofs::lemmas::List::drop_more, easl_model::proofs::Finding::both))]
fn second_classes(
    alloc: Global,
    classes: &[Class],
    start: Option<Fault>,
) -> Result<Option<Fault>, AllocError>
    ensures { IfOk result (λ f. f ≡ first_with comes_before start (told.second_names [] (map (λ c. c.name) classes.now))) }
{
    let mut before = Items::new(alloc);
    let mut found = start;
    'each: for class in classes {
        found = second_name(alloc, &mut before, &class.name, found)?;
    }
    Ok(found)
}

/// Second fields of one name.
#[tactic(auto, using(std::proofs::lemmas::List::drop_more, easl_model::proofs::Finding::both))]
fn second_fields(
    alloc: Global,
    members: &[Member],
    start: Option<Fault>,
) -> Result<Option<Fault>, AllocError>
    ensures { IfOk result (λ f. f ≡ first_with comes_before start (told.second_names [] (map (λ f. f.name) (fields_in members.now)))) }
{
    let mut before = Items::new(alloc);
    let mut found = start;
    'each: for member in members {
        if let Member::Field(field) = member {
            found = second_name(alloc, &mut before, &field.name, found)?;
        }
    }
    Ok(found)
}

/// Second methods of one name.
#[tactic(auto, using(std::proofs::lemmas::List::drop_more, easl_model::proofs::Finding::both))]
fn second_methods(
    alloc: Global,
    members: &[Member],
    start: Option<Fault>,
) -> Result<Option<Fault>, AllocError>
    ensures { IfOk result (λ f. f ≡ first_with comes_before start (told.second_names [] (map (λ code. code.name) (methods_in members.now)))) }
{
    let mut before = Items::new(alloc);
    let mut found = start;
    'each: for member in members {
        if let Member::Method(code) = member {
            found = second_name(alloc, &mut before, &code.name, found)?;
        }
    }
    Ok(found)
}

/// Second parameters of one name.
#[tactic(auto, using(std::proofs::lemmas::List::drop_more, easl_model::proofs::Finding::both))]
fn second_params(
    alloc: Global,
    params: &[Param],
    start: Option<Fault>,
) -> Result<Option<Fault>, AllocError>
    ensures { IfOk result (λ f. f ≡ first_with comes_before start (told.second_names [] (map (λ p. p.name) params.now))) }
{
    let mut before = Items::new(alloc);
    let mut found = start;
    'each: for param in params {
        found = second_name(alloc, &mut before, &param.name, found)?;
    }
    Ok(found)
}

/// Second constructors.
#[tactic(auto, using(std::proofs::lemmas::List::drop_more, easl_model::proofs::Finding::both))]
fn second_constructors(members: &[Member], start: Option<Fault>) -> Option<Fault>
    ensures { result ≡ first_with comes_before start (told.second_constructors (constructors_in members.now)) }
{
    let mut found = start;
    let mut is_second = false;
    'each: for member in members {
        if let Member::Constructor(code) = member {
            found = note_if(found, is_second, Rule::Duplicate, code.name.place);
            is_second = true;
        }
    }
    found
}

/// Fields whose type is no class.
#[tactic(auto, using(std::proofs::lemmas::List::drop_more, easl_model::proofs::Finding::both))]
fn types_of_fields(spec: &Spec, members: &[Member], start: Option<Fault>) -> Option<Fault>
    ensures { result ≡ first_with comes_before start (flat_map (λ f. bodies_told.no_class spec.now f.class) (fields_in members.now)) }
{
    let mut found = start;
    'each: for member in members {
        if let Member::Field(field) = member {
            found = no_class(spec, &field.class, found);
        }
    }
    found
}

/// A constructor is not named as its class.
fn other_name(class: &Class, code: &Code, found: Option<Fault>) -> Option<Fault>
    ensures { result ≡ first_with comes_before found (told.other_name class.now code.now) }
{
    let is_other = !names_agree(&code.name.name, &class.name.name);
    note_if(found, is_other, Rule::Unknown, code.name.place)
}

#[tactic(auto, using(std::proofs::lemmas::List::drop_more, easl_model::proofs::Finding::both))]
fn names_of_constructors(class: &Class, members: &[Member], start: Option<Fault>) -> Option<Fault>
    ensures { result ≡ first_with comes_before start (flat_map (told.other_name class.now) (constructors_in members.now)) }
{
    let mut found = start;
    'each: for member in members {
        if let Member::Constructor(code) = member {
            found = other_name(class, code, found);
        }
    }
    found
}

/// The faults of constructors' and methods' own headers.
#[tactic(auto, using(std::proofs::lemmas::List::drop_more, easl_model::proofs::Finding::both))]
fn faults_of_headers(
    alloc: Global,
    spec: &Spec,
    members: &[Member],
    start: Option<Fault>,
) -> Result<Option<Fault>, AllocError>
    ensures { IfOk result (λ f. f ≡ first_with comes_before start (flat_map (told.faults_of_header spec.now) (codes_in members.now))) }
{
    let mut found = start;
    'each: for member in members {
        if let Member::Constructor(code) | Member::Method(code) = member {
            found = faults_of_header(alloc, spec, code, found)?;
        }
    }
    Ok(found)
}

#[tactic(auto, using(easl_model::proofs::Finding::both))]
fn faults_of_header(
    alloc: Global,
    spec: &Spec,
    code: &Code,
    found: Option<Fault>,
) -> Result<Option<Fault>, AllocError>
    ensures { IfOk result (λ f. f ≡ first_with comes_before found (told.faults_of_header spec.now code.now)) }
{
    let found = no_type(spec, &code.result, found);
    let found = second_params(alloc, code.params.as_slice(), found)?;
    Ok(types_of_params(spec, code.params.as_slice(), found))
}

/// A type is no class.
fn no_type(spec: &Spec, sort: &Sort, found: Option<Fault>) -> Option<Fault>
    ensures { result ≡ first_with comes_before found (told.no_type spec.now sort.now) }
{
    match sort {
        Sort::Void | Sort::Opaque(_) => found,
        Sort::Class(word) => no_class(spec, word, found),
    }
}

#[tactic(auto, using(std::proofs::lemmas::List::drop_more, easl_model::proofs::Finding::both))]
fn types_of_params(spec: &Spec, params: &[Param], start: Option<Fault>) -> Option<Fault>
    ensures { result ≡ first_with comes_before start (flat_map (λ p. told.no_type spec.now p.sort) params.now) }
{
    let mut found = start;
    'each: for param in params {
        found = no_type(spec, &param.sort, found);
    }
    found
}
