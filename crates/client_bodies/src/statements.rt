//! The faults of statements, what they hold aside.
ghost use Rattle.std.specs.Prelude.{◌≡◌, ◌++◌};
ghost use Rattle.client_values.specs.Knowing.{Knows};
ghost use Rattle.client_values.specs.ToldFaults.{Finds};
ghost use Rattle.client_bodies.specs.Walking.{block, faults_here};
ghost use Rattle.client_model.specs.Statements as trees;
ghost use Rattle.client_model.specs.Statements.{statement_of};
ghost use Rattle.client_model.specs.BodyFaults as told;
ghost use Rattle.client_model.specs.Contexts as contexts;
ghost use Rattle.client_model.specs.HeaderFaults.{no_type};
ghost use Rattle.client_model.specs.Settings.{kind_of};
ghost use Rattle.client_model.specs.Trees.{place_of};

use client_model::{Rhs, Stmt};
use client_values::{
    Context, Fault, Rule, Setting, faults_of_returned, faults_of_taken, faults_of_test,
    faults_of_value, is_local, kind_of, kind_of_word, no_type, no_variable, note_if,
    place_of_value,
};
use easl_model::{Place, Sort, Word};

/// Whether a statement goes on.
#[cycle(goes)]
pub(crate) fn goes_on(item: &Stmt) -> bool
    ensures { result ≡ contexts.goes_on (statement_of item.now) }
{
    match item {
        Stmt::Declare(..) | Stmt::Assign(..) | Stmt::Do(_) | Stmt::While(..) => true,
        Stmt::If(_, _, first, second, _) => {
            let first_goes_on = all_go_on(true, first.as_slice());
            let second_goes_on = all_go_on(true, second.as_slice());
            first_goes_on || second_goes_on
        }
        Stmt::Break(_) | Stmt::Continue(_) | Stmt::Return(_) => false,
    }
}

/// Whether a block goes on: where it is empty, if what stands before does.
#[cycle(goes)]
#[tactic(auto, using(std::proofs::lemmas::List::drop_more))]
pub(crate) fn all_go_on(before: bool, items: &[Stmt]) -> bool
    ensures { result ≡ contexts.block_goes_on before (block items.now) }
{
    let mut on = before;
    'each: for item in items {
        on = goes_on(item);
    }
    on
}

/// The place of a statement's first token.
fn place_of(item: &Stmt) -> Place
    ensures { result ≡ place_of (statement_of item.now) }
{
    match item {
        Stmt::Declare(place, ..) | Stmt::If(place, ..) | Stmt::While(place, ..) => *place,
        Stmt::Assign(name, _) => name.place,
        Stmt::Do(value) => place_of_value(value),
        Stmt::Break(place) | Stmt::Continue(place) => *place,
        Stmt::Return(given) => given.place,
    }
}

/// A local is named as a parameter or local in scope.
fn named_twice(context: &Context, name: &Word, found: Option<Fault>) -> Option<Fault>
    ensures { (c : contexts.Context) → Knows c context.now → Finds found result (told.named_twice c name.now) }
{
    note_if(
        found,
        is_local(context, &name.name),
        Rule::Duplicate,
        name.place,
    )
}

/// The faults of a declaration without its value.
#[tactic(auto, using(easl_model::proofs::Finding::both))]
fn faults_of_declared(
    setting: &Setting<'_>,
    context: &Context,
    sort: &Sort,
    name: &Word,
    found: Option<Fault>,
) -> Option<Fault>
    ensures { (c : contexts.Context) → Knows c context.now → Finds found result (no_type setting.now.form sort.now ++ told.named_twice c name.now) }
{
    let found = no_type(setting.spec, sort, found);
    named_twice(context, name, found)
}

/// Those of a declaration with its value.
#[tactic(auto, using(easl_model::proofs::Finding::both))]
fn faults_of_initialised(
    setting: &Setting<'_>,
    context: &Context,
    sort: &Sort,
    name: &Word,
    value: &Rhs,
    found: Option<Fault>,
) -> Option<Fault>
    ensures { (c : contexts.Context) → Knows c context.now → Finds found result
        (no_type setting.now.form sort.now ++ told.named_twice c name.now ++ told.faults_of_taken setting.now c (kind_of setting.now.form sort.now) value.now) }
{
    let found = faults_of_declared(setting, context, sort, name, found);
    faults_of_taken(setting, context, kind_of(setting.spec, sort), value, found)
}

/// Those of an assignment.
#[tactic(auto, using(easl_model::proofs::Finding::both))]
pub(crate) fn faults_of_assigned(
    setting: &Setting<'_>,
    context: &Context,
    name: &Word,
    value: &Rhs,
    found: Option<Fault>,
) -> Option<Fault>
    ensures { (c : contexts.Context) → Knows c context.now
        → Finds found result (told.faults_of_statement setting.now c (trees.Assign name.now value.now)) }
{
    let found = no_variable(setting, context, name, found);
    let taken = kind_of_word(setting, context, name);
    faults_of_taken(setting, context, taken, value, found)
}

/// A `break` or `continue` stands in no `while`.
fn outside_loop(context: &Context, place: Place, found: Option<Fault>) -> Option<Fault>
    ensures { (c : contexts.Context) → Knows c context.now → Finds found result (told.outside_loop c place) }
{
    note_if(found, !context.looped, Rule::OutsideLoop, place)
}

/// Those of a statement by itself.
fn faults_of_statement(
    setting: &Setting<'_>,
    context: &Context,
    item: &Stmt,
    found: Option<Fault>,
) -> Option<Fault>
    ensures { (c : contexts.Context) → Knows c context.now → Finds found result (told.faults_of_statement setting.now c (statement_of item.now)) }
{
    match item {
        Stmt::Declare(_, sort, name, None) => {
            faults_of_declared(setting, context, sort, name, found)
        }
        Stmt::Declare(_, sort, name, Some(value)) => faults_of_initialised(
            setting, context, sort, name, value, found,
        ),
        Stmt::Assign(name, value) => faults_of_assigned(setting, context, name, value, found),
        Stmt::Do(value) => faults_of_value(setting, context, value, found),
        Stmt::If(_, test, ..) | Stmt::While(_, test, _) => {
            faults_of_test(setting, context, test, found)
        }
        Stmt::Break(place) | Stmt::Continue(place) => outside_loop(context, *place, found),
        Stmt::Return(given) => {
            faults_of_returned(setting, context, given.place, &given.value, found)
        }
    }
}

/// A statement stands in its block behind one that does not go on.
fn unreachable(context: &Context, item: &Stmt, found: Option<Fault>) -> Option<Fault>
    ensures { (c : contexts.Context) → Knows c context.now → Finds found result (told.unreachable c (statement_of item.now)) }
{
    note_if(found, !context.reached, Rule::Unreachable, place_of(item))
}

/// Those of a statement where it stands.
#[tactic(auto, using(easl_model::proofs::Finding::both))]
pub(crate) fn faults_at(
    setting: &Setting<'_>,
    context: &Context,
    item: &Stmt,
    found: Option<Fault>,
) -> Option<Fault>
    ensures { (c : contexts.Context) → Knows c context.now → Finds found result (faults_here setting.now c (statement_of item.now)) }
{
    let found = unreachable(context, item, found);
    faults_of_statement(setting, context, item, found)
}
