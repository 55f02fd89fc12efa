//! How many statements methods execute in place.
ghost use Rattle.std.specs.Prelude.{◌≡◌, ◌+◌, IfOk, List, length};
ghost use Rattle.std.specs.Option.{option_copied};
ghost use Rattle.easl_model.specs.{body_of, count_of, first_of, first_with, statement_count, statement_of, statements_of, total_count, value_count};
ghost use Rattle.easl_model.specs.Faults.{comes_before};
ghost use Rattle.easl_model.specs.declared.form.ClassForm as declared;
ghost use Rattle.easl_types.specs.Counts as told;

use easl_bodies::note_if;
use easl_model::{Act, ClassForm, Fault, Method, Place, Rule, Source};
use sqlite_items::Items;
use std::alloc::{AllocError, Global};

/// A count; beyond the limit it is one more than the limit.
fn cut(count: u32) -> u32
    ensures { result ≡ told.cut count }
{
    count.min(1025)
}

fn add(left: u32, right: u32) -> u32
    ensures { result ≡ told.cut (told.cut left + told.cut right) }
{
    cut(cut(left) + cut(right))
}

/// The count of a class's constructor.
fn count_at(counts: &[u32], class: u32) -> u32
    ensures { result ≡ told.count_at counts.now class }
{
    match counts.get(class as usize) {
        Some(count) => *count,
        None => 0,
    }
}

/// The statements that a value executes.
fn count_of_source(counts: &[u32], source: &Source) -> u32
    ensures { result ≡ count_of (told.count_at counts.now) source.now }
{
    match source {
        Source::Reach(_) => 0,
        Source::Make(class, _) => count_at(counts, *class),
    }
}

/// Those that a statement does.
#[cycle(count)]
#[tactic(auto, using(crate::proofs::Cutting::cut_more, crate::proofs::Cutting::cut_second))]
fn count_of_act(counts: &[u32], act: &Act) -> u32
    ensures { result ≡ told.cut (statement_count (told.count_at counts.now) (statement_of act.now)) }
{
    match act {
        Act::Local(source) => add(1, count_of_source(counts, source)),
        Act::Change(_, source) => add(1, count_of_source(counts, source)),
        Act::Write(_, _, source) => add(1, count_of_source(counts, source)),
        Act::If(_, first, second) => {
            let first = count_of_acts(counts, first.as_slice());
            let second = count_of_acts(counts, second.as_slice());
            add(1, add(first, second))
        }
    }
}

#[cycle(count)]
#[tactic(auto, using(std::proofs::lemmas::List::drop_more, crate::proofs::Cutting::cut_more))]
fn count_of_acts(counts: &[u32], acts: &[Act]) -> u32
    ensures { result ≡ told.cut (total_count (told.count_at counts.now) (statements_of acts.now)) }
{
    let mut count = 0;
    'each: for act in acts {
        count = add(count, count_of_act(counts, act));
    }
    count
}

fn count_of_value(counts: &[u32], value: &Option<Source>) -> u32
    ensures { result ≡ told.cut (value_count (told.count_at counts.now) value.now) }
{
    match value {
        Some(source) => add(1, count_of_source(counts, source)),
        None => 0,
    }
}

/// The counts of the classes' constructors, each with those of the constructors that it calls.
fn counts_of_classes(
    alloc: Global,
    classes: &[ClassForm],
    methods: &[Method],
) -> Result<Items<u32>, AllocError>
    ensures { IfOk result (λ counts. counts ≡ told.counts_after (record { classes = classes.now; methods = methods.now }) (length classes.now)) }
{
    let mut counts = Items::new(alloc);
    'each: for _round in 0..classes.len() {
        counts = next_counts(alloc, classes, methods, counts.as_slice())?;
    }
    Ok(counts)
}

/// The counts of the classes' constructors, where those that they call have these counts.
fn next_counts(
    alloc: Global,
    classes: &[ClassForm],
    methods: &[Method],
    counts: &[u32],
) -> Result<Items<u32>, AllocError>
    ensures { IfOk result (λ next. next ≡ told.next_counts (record { classes = classes.now; methods = methods.now }) counts.now) }
{
    let mut next = Items::new(alloc);
    'each: for class in classes {
        next.push(count_of_method(counts, methods, class.constructor))?;
    }
    Ok(next)
}

/// The count of the body of the method of this number.
fn count_of_method(counts: &[u32], methods: &[Method], method: u32) -> u32
    ensures { (classes : List declared.ClassForm) → result ≡ told.cut (total_count (told.count_at counts.now)
        (body_of (record { classes = classes; methods = methods.now }) method)) }
{
    match methods.get(method as usize) {
        Some(method) => count_of_acts(counts, method.body.as_slice()),
        None => 0,
    }
}

/// The statements that a method executes.
fn count_in_place(counts: &[u32], method: &Method) -> u32
    ensures { result ≡ told.cut (told.count_by counts.now method.now) }
{
    if method.constructor {
        cut(count_at(counts, method.class))
    } else {
        let body = count_of_acts(counts, method.body.as_slice());
        add(body, count_of_value(counts, &method.value))
    }
}

/// The first of the methods, whose names stand at the places, that executes more statements than the limit.
pub(crate) fn first_in_lengths(
    alloc: Global,
    classes: &[ClassForm],
    methods: &[Method],
    places: &[Place],
) -> Result<Option<Fault>, AllocError>
    ensures { IfOk result (λ f. f ≡ first_of (told.long_methods (record { classes = classes.now; methods = methods.now }) places.now)) }
{
    let counts = counts_of_classes(alloc, classes, methods)?;
    Ok(long_methods(counts.as_slice(), methods, places))
}

#[tactic(auto, using(easl_model::proofs::Finding::both))]
fn long_methods(counts: &[u32], methods: &[Method], places: &[Place]) -> Option<Fault>
    ensures { result ≡ first_of (told.long_from counts.now methods.now 0 places.now) }
{
    let mut found = None;
    'each: for at in 0..places.len() {
        found = too_long(counts, sqlite_items::at(methods, at), places[at], found);
    }
    found
}

fn too_long(
    counts: &[u32],
    method: Option<&Method>,
    place: Place,
    found: Option<Fault>,
) -> Option<Fault>
    ensures { result ≡ first_with comes_before found (told.long_at counts.now (option_copied method.entry) place) }
{
    match method {
        Some(method) => {
            let is_long = count_in_place(counts, method) > 1024;
            note_if(found, is_long, Rule::TooLong, place)
        }
        None => found,
    }
}
