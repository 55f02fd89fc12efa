//! The faults of paths, comparisons and values.
ghost use Rattle.std.specs.Prelude.{◌≡◌, map};
ghost use Rattle.std.specs.Option.{option_copied};
ghost use Rattle.easl_model.specs.{clause_of, clauses, first_with};
ghost use Rattle.easl_model.specs.BodyFaults as told;
ghost use Rattle.easl_model.specs.Faults.{comes_before};

use crate::context::{has_unset, is_unset};
use crate::fault::{note, note_if};
use crate::names::{class_named, class_of, field_named, params_of};
use crate::paths::{from_this, is_this, target_of};
use easl_model::{
    Arg, Cond, Context, Fault, New, Param, Path, Place, Rule, Spec, Target, Value, Word,
};

/// A class is not there.
pub fn no_class(spec: &Spec, class: &Word, found: Option<Fault>) -> Option<Fault>
    ensures { result ≡ first_with comes_before found (told.no_class spec.now class.now) }
{
    let is_there = class_named(spec, &class.name).is_some();
    note_if(found, !is_there, Rule::Unknown, class.place)
}

/// A head name or a field is not there.
pub(crate) fn no_name(target: Target, found: Option<Fault>) -> Option<Fault>
    ensures { result ≡ first_with comes_before found (told.no_name target) }
{
    match target {
        Target::Unknown(place) => note(found, Rule::Unknown, place),
        _ => found,
    }
}

/// An opaque path is compared, used as a value or assigned.
pub(crate) fn is_opaque(place: Place, target: Target, found: Option<Fault>) -> Option<Fault>
    ensures { result ≡ first_with comes_before found (told.is_opaque place target) }
{
    match target {
        Target::Opaque => note(found, Rule::Mismatch, place),
        _ => found,
    }
}

/// The two sides of a comparison differ in class.
fn sides_differ(place: Place, left: Target, right: Target, found: Option<Fault>) -> Option<Fault>
    ensures { result ≡ first_with comes_before found (told.sides_differ place left right) }
{
    match (left, right) {
        (Target::Object(one), Target::Object(other)) => note_if(
            found,
            one != other,
            Rule::Mismatch,
            place,
        ),
        _ => found,
    }
}

/// A value differs from its variable, field or result.
fn value_differs(
    place: Place,
    taken: Option<usize>,
    given: Target,
    found: Option<Fault>,
) -> Option<Fault>
    ensures { result ≡ first_with comes_before found (told.value_differs place taken given) }
{
    match (taken, given) {
        (Some(taken), Target::Object(class)) => note_if(
            found,
            class != taken,
            Rule::Mismatch,
            place,
        ),
        _ => found,
    }
}

/// An argument differs from its parameter.
fn argument_differs(
    place: Place,
    taken: Option<usize>,
    given: Target,
    found: Option<Fault>,
) -> Option<Fault>
    ensures { result ≡ first_with comes_before found (told.argument_differs place taken given) }
{
    match (taken, given) {
        (Some(taken), Target::Object(class)) => note_if(
            found,
            class != taken,
            Rule::Mismatch,
            place,
        ),
        (Some(_), Target::Opaque) => note(found, Rule::Mismatch, place),
        (None, Target::Object(_)) => note(found, Rule::Mismatch, place),
        _ => found,
    }
}

/// A field of `this` is read before it is assigned.
pub(crate) fn field_unready(
    spec: &Spec,
    context: &Context,
    name: Option<&Word>,
    found: Option<Fault>,
) -> Option<Fault>
    ensures { result ≡ first_with comes_before found (told.field_unready spec.now context.now (option_copied name.entry)) }
{
    match name {
        Some(word) => {
            let is_read = reads_unset(spec, context, word);
            note_if(found, is_read, Rule::Unready, word.place)
        }
        None => found,
    }
}

fn reads_unset(spec: &Spec, context: &Context, word: &Word) -> bool
    ensures { result ≡ told.reads_unset spec.now context.now word.now }
{
    match field_named(spec, context.class, &word.name) {
        Some(field) => is_unset(context, field.position),
        None => false,
    }
}

/// The faults of a path whose object is taken.
#[tactic(auto, using(easl_model::proofs::Finding::both))]
pub(crate) fn faults_of_path(
    spec: &Spec,
    context: &Context,
    path: &Path,
    found: Option<Fault>,
) -> Option<Fault>
    ensures { result ≡ first_with comes_before found (told.faults_of_path spec.now context.now path.now) }
{
    let found = no_name(target_of(spec, context, path), found);
    let found = field_unready(spec, context, from_this(context, path), found);
    let is_unready = is_this(path) && has_unset(context);
    note_if(found, is_unready, Rule::Unready, path.place)
}

/// Those of a path that has to lead to an object.
#[tactic(auto, using(easl_model::proofs::Finding::both))]
fn faults_of_object(
    spec: &Spec,
    context: &Context,
    path: &Path,
    found: Option<Fault>,
) -> Option<Fault>
    ensures { result ≡ first_with comes_before found (told.faults_of_object spec.now context.now path.now) }
{
    let found = is_opaque(path.place, target_of(spec, context, path), found);
    faults_of_path(spec, context, path, found)
}

/// Those of the two sides of a comparison.
#[tactic(auto, using(easl_model::proofs::Finding::both))]
fn faults_of_sides(
    spec: &Spec,
    context: &Context,
    left: &Path,
    right: &Path,
    found: Option<Fault>,
) -> Option<Fault>
    ensures { result ≡ first_with comes_before found (told.faults_of_sides spec.now context.now left.now right.now) }
{
    let found = faults_of_object(spec, context, left, found);
    let found = faults_of_object(spec, context, right, found);
    let one = target_of(spec, context, left);
    let other = target_of(spec, context, right);
    sides_differ(right.place, one, other, found)
}

/// Those of a clause.
#[cycle(clause)]
pub(crate) fn faults_of_clause(
    spec: &Spec,
    context: &Context,
    clause: &Cond,
    found: Option<Fault>,
) -> Option<Fault>
    ensures { result ≡ first_with comes_before found (told.faults_of_clause spec.now context.now (clause_of clause.now)) }
{
    match clause {
        Cond::Same(left, right) | Cond::Differ(left, right) => faults_of_sides(
            spec, context, left, right, found,
        ),
        Cond::All(parts) | Cond::Any(parts) => faults_of_clauses(
            spec,
            context,
            parts.as_slice(),
            found,
        ),
    }
}

#[cycle(clause)]
#[tactic(auto, using(std::proofs::lemmas::List::drop_more, easl_model::proofs::Finding::both))]
fn faults_of_clauses(
    spec: &Spec,
    context: &Context,
    parts: &[Cond],
    start: Option<Fault>,
) -> Option<Fault>
    ensures { result ≡ first_with comes_before start (told.faults_of_clauses spec.now context.now (clauses (map clause_of parts.now))) }
{
    let mut found = start;
    'each: for part in parts {
        found = faults_of_clause(spec, context, part, found);
    }
    found
}

fn place_of_argument(argument: &Arg) -> Place
    ensures { result ≡ told.place_of_argument argument.now }
{
    match argument {
        Arg::Literal(word) => word.place,
        Arg::Path(path) => path.place,
    }
}

fn target_of_argument(spec: &Spec, context: &Context, argument: &Arg) -> Target
    ensures { result ≡ told.target_of_argument spec.now context.now argument.now }
{
    match argument {
        Arg::Literal(_) => Target::Opaque,
        Arg::Path(path) => target_of(spec, context, path),
    }
}

fn faults_of_argument(
    spec: &Spec,
    context: &Context,
    argument: &Arg,
    found: Option<Fault>,
) -> Option<Fault>
    ensures { result ≡ first_with comes_before found (told.faults_of_argument spec.now context.now argument.now) }
{
    match argument {
        Arg::Literal(_) => found,
        Arg::Path(path) => faults_of_path(spec, context, path, found),
    }
}

/// Those of an argument and the parameter that takes it, where there is one.
#[tactic(auto, using(easl_model::proofs::Finding::both))]
fn faults_of_taken(
    spec: &Spec,
    context: &Context,
    param: Option<&Param>,
    argument: &Arg,
    found: Option<Fault>,
) -> Option<Fault>
    ensures { result ≡ first_with comes_before found (told.faults_of_taken spec.now context.now (option_copied param.entry) argument.now) }
{
    let found = match param {
        Some(param) => {
            let taken = class_of(spec, &param.sort);
            let given = target_of_argument(spec, context, argument);
            argument_differs(place_of_argument(argument), taken, given, found)
        }
        None => found,
    };
    faults_of_argument(spec, context, argument, found)
}

/// Those of arguments and the parameters that take them.
#[tactic(auto, using(std::proofs::lemmas::List::drop_more, easl_model::proofs::Finding::both))]
fn faults_of_arguments(
    spec: &Spec,
    context: &Context,
    params: &[Param],
    arguments: &[Arg],
    start: Option<Fault>,
) -> Option<Fault>
    ensures { result ≡ first_with comes_before start (told.faults_of_arguments spec.now context.now params.now 0 arguments.now) }
{
    let mut found = start;
    'each: for at in 0..arguments.len() {
        found = faults_of_taken(
            spec,
            context,
            sqlite_items::at(params, at),
            &arguments[at],
            found,
        );
    }
    found
}

pub(crate) fn place_of_value(value: &Value) -> Place
    ensures { result ≡ told.place_of_value value.now }
{
    match value {
        Value::Path(path) => path.place,
        Value::New(new) => new.place,
    }
}

fn target_of_value(spec: &Spec, context: &Context, value: &Value) -> Target
    ensures { result ≡ told.target_of_value spec.now context.now value.now }
{
    match value {
        Value::Path(path) => target_of(spec, context, path),
        Value::New(new) => match class_named(spec, &new.class.name) {
            Some(class) => Target::Object(class),
            None => Target::Unknown(new.class.place),
        },
    }
}

/// Those of a construction.
#[tactic(auto, using(easl_model::proofs::Finding::both))]
fn faults_of_new(spec: &Spec, context: &Context, new: &New, found: Option<Fault>) -> Option<Fault>
    ensures { result ≡ first_with comes_before found (told.faults_of_new spec.now context.now new.now) }
{
    match class_named(spec, &new.class.name) {
        Some(class) => faults_of_made(spec, context, params_of(spec, class), new, found),
        None => {
            let found = note(found, Rule::Unknown, new.class.place);
            faults_of_arguments(spec, context, &[], new.args.as_slice(), found)
        }
    }
}

/// Those of a construction that takes these parameters.
#[tactic(auto, using(easl_model::proofs::Finding::both))]
fn faults_of_made(
    spec: &Spec,
    context: &Context,
    params: &[Param],
    new: &New,
    found: Option<Fault>,
) -> Option<Fault>
    ensures { result ≡ first_with comes_before found (told.faults_of_made spec.now context.now params.now new.now) }
{
    let is_wrong = new.args.len() != params.len();
    let found = note_if(found, is_wrong, Rule::Mismatch, new.place);
    faults_of_arguments(spec, context, params, new.args.as_slice(), found)
}

/// Those of a value by itself.
pub(crate) fn faults_within(
    spec: &Spec,
    context: &Context,
    value: &Value,
    found: Option<Fault>,
) -> Option<Fault>
    ensures { result ≡ first_with comes_before found (told.faults_within spec.now context.now value.now) }
{
    match value {
        Value::Path(path) => faults_of_object(spec, context, path, found),
        Value::New(new) => faults_of_new(spec, context, new, found),
    }
}

/// Those of a value and the class of what takes it.
#[tactic(auto, using(easl_model::proofs::Finding::both))]
pub(crate) fn faults_of_value(
    spec: &Spec,
    context: &Context,
    taken: Option<usize>,
    value: &Value,
    found: Option<Fault>,
) -> Option<Fault>
    ensures { result ≡ first_with comes_before found (told.faults_of_value spec.now context.now taken value.now) }
{
    let given = target_of_value(spec, context, value);
    let found = value_differs(place_of_value(value), taken, given, found);
    faults_within(spec, context, value, found)
}
