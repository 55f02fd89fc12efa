//! What names stand for in a specification.
ghost use Rattle.std.specs.Prelude.{◌≡◌, length};
ghost use Rattle.std.specs.Option.{option_copied};
ghost use Rattle.std.specs.List.{position_from};
ghost use Rattle.easl_model.specs.{constructor_in, fields_in, members_of as members_in};
ghost use Rattle.easl_bodies.specs.Shape as shape;
ghost use Rattle.easl_model.specs.Names as told;
ghost use Rattle.easl_model.specs.BodyFaults as rules_told;

use easl_model::{Class, Code, FieldAt, Member, Name, Param, Sort, Spec};

/// Whether two names are one.
#[tactic(auto, using(crate::proofs::SameNames::told_same))]
pub fn names_agree(one: &Name, other: &Name) -> bool
    ensures { result ≡ told.is_same one.now other.now }
{
    one.is_same(other)
}

/// The number of the class of this name.
pub fn class_named(spec: &Spec, name: &Name) -> Option<usize>
    ensures { result ≡ told.class_named spec.now name.now }
{
    class_among(spec.classes.as_slice(), name)
}

fn class_among(classes: &[Class], name: &Name) -> Option<usize>
    ensures { result ≡ position_from (λ c. told.is_same c.name.name name.now) 0 classes.now }
{
    'each: for at in 0..classes.len() {
        if classes[at].name.name.is_same(name) {
            return Some(at);
        }
    }
    None
}

/// The class that a type names, None where it is opaque.
pub fn class_of(spec: &Spec, sort: &Sort) -> Option<usize>
    ensures { result ≡ told.class_of spec.now sort.now }
{
    match sort {
        Sort::Void | Sort::Opaque(_) => None,
        Sort::Class(word) => class_named(spec, &word.name),
    }
}

/// The members of a class.
pub fn members_of(spec: &Spec, class: usize) -> &[Member]
    ensures { result.now ≡ members_in spec.now class }
{
    match spec.classes.as_slice().get(class) {
        Some(class) => class.members.as_slice(),
        None => &[],
    }
}

/// The class's field of the name.
pub fn field_named(spec: &Spec, class: usize, name: &Name) -> Option<FieldAt>
    ensures { result ≡ told.field_named spec.now class name.now }
{
    field_among(spec, members_of(spec, class), name)
}

fn field_among(spec: &Spec, members: &[Member], name: &Name) -> Option<FieldAt>
    ensures { result ≡ told.field_among spec.now 0 (fields_in members.now) name.now }
{
    let mut position = 0;
    'each: for member in members {
        if let Member::Field(field) = member {
            if field.name.name.is_same(name) {
                let class = class_named(spec, &field.class.name);
                return Some(FieldAt { position, class });
            }
            position += 1;
        }
    }
    None
}

/// What the constructor of a class takes; an implicit one takes nothing.
pub(crate) fn params_of(spec: &Spec, class: usize) -> &[Param]
    ensures { result.now ≡ rules_told.params_of spec.now class }
{
    match constructor_among(members_of(spec, class)) {
        Some(code) => code.params.as_slice(),
        None => &[],
    }
}

#[tactic(auto, using(std::proofs::lemmas::List::drop_more))]
pub fn constructor_among(members: &[Member]) -> Option<&Code>
    ensures { option_copied result ≡ constructor_in members.now }
{
    'each: for member in members {
        if let Member::Constructor(code) = member {
            return Some(code);
        }
    }
    None
}

pub fn field_count(members: &[Member]) -> usize
    ensures { result ≡ length (fields_in members.now) }
{
    members.iter().filter(|member| is_field(member)).count()
}

fn is_field(member: &Member) -> bool
    ensures { result ≡ shape.is_field member.now }
{
    matches!(member, Member::Field(_))
}
