//! Constructors that call each other.
ghost use Rattle.std.specs.Prelude.{◌≡◌, ◌==◌, ◌||◌, ◌++◌, IfOk, None, OnOk, length};
ghost use Rattle.std.specs.List.{flat_map, list_any};
ghost use Rattle.easl_model.specs.{block_of, faults_of_cycles, first_of, first_with, new_in, news_in, news_of, written_of};
ghost use Rattle.easl_model.specs.Faults.{comes_before};
ghost use Rattle.easl_types.specs.Calls as told;

use easl_bodies::{class_named, constructor_among, note_if};
use easl_model::{Class, Fault, Place, Rule, Spec, Step, Value};
use sqlite_items::Items;
use std::alloc::{AllocError, Global};

/// The call of a constructor: the class, and the place of the `new`.
#[derive(Clone, Copy, Debug, PartialEq, Eq)]
pub struct Call {
    pub class: usize,
    pub place: Place,
}

/// The first fault of constructors that call each other.
#[tactic(auto, using(crate::proofs::Rounds::over_all))]
pub(crate) fn first_in_cycles(alloc: Global, spec: &Spec) -> Result<Option<Fault>, AllocError>
    ensures { IfOk result (λ f. f ≡ first_of (faults_of_cycles spec.now)) }
{
    let calls = calls_of_classes(alloc, spec, spec.classes.as_slice())?;
    faults_of_calls(alloc, calls.as_slice())
}

/// The calls in each class's constructor.
fn calls_of_classes(
    alloc: Global,
    spec: &Spec,
    classes: &[Class],
) -> Result<Items<Items<Call>>, AllocError>
    ensures { IfOk result (λ calls. calls ≡ told.calls_of_classes spec.now classes.now) }
{
    let mut calls = Items::new(alloc);
    'each: for class in classes {
        calls.push(calls_of_class(alloc, spec, class)?)?;
    }
    Ok(calls)
}

fn calls_of_class(alloc: Global, spec: &Spec, class: &Class) -> Result<Items<Call>, AllocError>
    ensures { IfOk result (λ calls. calls ≡ told.calls_of_class spec.now class.now) }
{
    let mut calls = Items::new(alloc);
    if let Some(code) = constructor_among(class.members.as_slice()) {
        calls_in_steps(spec, code.body.as_slice(), &mut calls)?;
    }
    Ok(calls)
}

#[cycle(calls)]
#[tactic(auto, using(std::proofs::lemmas::List::drop_more, crate::proofs::Rounds::calls_in_both))]
fn calls_in_steps(spec: &Spec, steps: &[Step], calls: &mut Items<Call>) -> Result<(), AllocError>
    ensures { OnOk result (calls.new ≡ calls.old ++ flat_map (told.call_of spec.now) (news_in (block_of steps.now))) }
{
    'each: for step in steps {
        calls_in_step(spec, step, calls)?;
    }
    Ok(())
}

#[cycle(calls)]
#[tactic(auto, using(crate::proofs::Rounds::calls_in_both))]
fn calls_in_step(spec: &Spec, step: &Step, calls: &mut Items<Call>) -> Result<(), AllocError>
    ensures { OnOk result (calls.new ≡ calls.old ++ flat_map (told.call_of spec.now) (news_of (written_of step.now))) }
{
    match step {
        Step::Declare(_, _, value) => calls_in_value(spec, value, calls),
        Step::Assign(_, value) => calls_in_value(spec, value, calls),
        Step::If(_, _, first, second, _) => {
            calls_in_steps(spec, first.as_slice(), calls)?;
            calls_in_steps(spec, second.as_slice(), calls)
        }
    }
}

fn calls_in_value(spec: &Spec, value: &Value, calls: &mut Items<Call>) -> Result<(), AllocError>
    ensures { OnOk result (calls.new ≡ calls.old ++ flat_map (told.call_of spec.now) (new_in value.now)) }
{
    match value {
        Value::Path(_) => Ok(()),
        Value::New(new) => match class_named(spec, &new.class.name) {
            Some(class) => calls.push(Call {
                class,
                place: new.place,
            }),
            None => Ok(()),
        },
    }
}

/// The faults of calls that lead back to the class in whose constructor they stand.
#[tactic(auto, using(std::proofs::lemmas::List::drop_more, easl_model::proofs::Finding::both))]
fn faults_of_calls(alloc: Global, calls: &[Items<Call>]) -> Result<Option<Fault>, AllocError>
    ensures { IfOk result (λ f. f ≡ first_of (told.cycles_over calls.now 0 calls.now)) }
{
    let mut found = None;
    'each: for class in 0..calls.len() {
        let row = row_of(alloc, calls, class)?;
        found = calls_back(calls[class].as_slice(), row.as_slice(), class, found);
    }
    Ok(found)
}

#[tactic(auto, using(std::proofs::lemmas::List::drop_more, easl_model::proofs::Finding::both))]
fn calls_back(calls: &[Call], row: &[bool], class: usize, start: Option<Fault>) -> Option<Fault>
    ensures { result ≡ first_with comes_before start (flat_map (told.calls_back row.now class) calls.now) }
{
    let mut found = start;
    'each: for call in calls {
        found = note_if(
            found,
            leads_to(row, class, *call),
            Rule::ConstructorCycle,
            call.place,
        );
    }
    found
}

/// For each class, whether its constructor calls that of the other, directly or through at most as many others as there
/// are classes.
fn row_of(alloc: Global, calls: &[Items<Call>], other: usize) -> Result<Items<bool>, AllocError>
    ensures { IfOk result (λ row. row ≡ told.row_of calls.now other (length calls.now)) }
{
    let mut row = next_row(alloc, calls, &[], other)?;
    'each: for _round in 0..calls.len() {
        row = next_row(alloc, calls, row.as_slice(), other)?;
    }
    Ok(row)
}

/// The same through one more.
fn next_row(
    alloc: Global,
    calls: &[Items<Call>],
    row: &[bool],
    other: usize,
) -> Result<Items<bool>, AllocError>
    ensures { IfOk result (λ next. next ≡ told.next_row calls.now other row.now) }
{
    let mut next = Items::new(alloc);
    'each: for made in calls {
        next.push(some_leads_to(made.as_slice(), row, other))?;
    }
    Ok(next)
}

fn some_leads_to(calls: &[Call], row: &[bool], other: usize) -> bool
    ensures { result ≡ list_any (told.leads_to row.now other) calls.now }
{
    'each: for call in calls {
        if leads_to(row, other, *call) {
            return true;
        }
    }
    false
}

/// Whether a call is of the other class's constructor, or of one that calls it.
fn leads_to(row: &[bool], other: usize, call: Call) -> bool
    ensures { result ≡ told.leads_to row.now other call }
{
    call.class == other || is_set(row, call.class)
}

fn is_set(row: &[bool], class: usize) -> bool
    ensures { result ≡ told.is_set row.now class }
{
    match row.get(class) {
        Some(flag) => *flag,
        None => false,
    }
}
