//! The first fault of the initialisers and bodies of a client, and what is written of them.
ghost use Rattle.std.specs.Prelude.{◌≡◌, ◌&&◌, ◌||◌, ◌+◌, ◌∷◌, ◌++◌, [], Bool, List, IfOk, OnOk, false, filter, filter_map, map, not, option_map, true};
ghost use Rattle.set_names.specs.Names.{is_in, is_left};
ghost use Rattle.set_names.specs.Sets.{codes_of};
ghost use Rattle.std.specs.List.{flat_map, range_with_len};
ghost use Rattle.client_bodies.specs.InTextOrder.{SetsStay, Stands, all_in_end, first_in_end, nothing_yet, so_far};
ghost use Rattle.client_bodies.specs.Walking.{AreSets};
ghost use Rattle.client_model.specs.SetNumbers.{AreNumbered};
ghost use Rattle.client_points.specs.Wholes.{AreBodies, sets_by, unset_seen, with_bodies, without_set};
ghost use Rattle.client_points.specs.Writing.{written_with};
ghost use Rattle.client_model.specs.Bodies.{all_in, bodies_from, body_of, end_of};
ghost use Rattle.client_model.specs.BodyFaults as told;
ghost use Rattle.client_model.specs.CheckedForm.{procedure_form};
ghost use Rattle.client_model.specs.Faults.{first_of};
ghost use Rattle.client_model.specs.Points.{site_at};
ghost use Rattle.client_model.specs.Rules.{faults_of_bodies, faults_of_body};
ghost use Rattle.client_model.specs.Settings.{inside};
ghost use Rattle.client_model.specs.Trees.{client_of, procedure_of};
ghost use Rattle.client_values.specs.ToldFaults.{Finds, fault_told};
ghost use Rattle.easl_model.specs.CheckedForm.{has_values};

use crate::starts::{before_first, entry_of, pass_initialiser};
use crate::statements::{all_go_on, faults_of_assigned};
use crate::tables::tables_of;
use crate::walk::faults_of_statements;
use client_model::{CallSite, Client, Proc, Procedure};
use client_points::{Bodies, Written, classes_of, procedure_form, statics_form};
use client_values::{Context, Fault, Kind, Rule, Setting, kind_of, note_if};
use easl_model::{CheckedSpec, Sort};
use set_names::{NamesSoFar, SetNames};
use sqlite_items::Items;
use std::alloc::{AllocError, Global};
use std::mem;

/// Before an item of a client: what stands before the next initialiser, how many procedures stand before the item, the first fault so far, what is written of the start and which calls
/// are made, and the forms of the procedures.
#[derive(Drop)]
pub(crate) struct Progress {
    pub(crate) start: Context,
    pub(crate) procedures: u32,
    pub(crate) found: Option<Fault>,
    pub(crate) written: Written,
    pub(crate) forms: Items<Procedure>,
}

/// In the procedure of this number.
fn inside<'a>(setting: &Setting<'a>, number: u32, procedure: &Proc) -> Setting<'a>
    ensures { result ≡ inside number (procedure_of procedure.now) setting.now }
{
    Setting {
        spec: setting.spec,
        statics: setting.statics,
        procedures: setting.procedures,
        procedure: number,
        result: kind_of(setting.spec, &procedure.result),
    }
}

fn has_values(sort: &Sort) -> bool
    ensures { result ≡ has_values sort.now }
{
    match sort {
        Sort::Void => false,
        Sort::Opaque(_) | Sort::Class(_) => true,
    }
}

/// A procedure has a result, and its body goes on at its end.
fn no_return(procedure: &Proc, found: Option<Fault>) -> Option<Fault>
    ensures { Finds found result (told.no_return (procedure_of procedure.now)) }
{
    let is_left_open = has_values(&procedure.result) && all_go_on(true, procedure.body.as_slice());
    note_if(found, is_left_open, Rule::NoReturn, procedure.end)
}

/// The number of the procedure behind so many. Numbers that run out are want of memory.
fn next(procedures: u32) -> Result<u32, AllocError>
    ensures { IfOk result (λ number. number ≡ procedures + 1) }
{
    procedures.checked_add(1).ok_or(AllocError)
}

/// The names that are set at the points of a body and at its exit, where it goes on at its end.
fn sets_at_end(alloc: Global, names: NamesSoFar) -> Result<SetNames, AllocError>
    ensures { IfOk result (λ sets. sets ≡ map (codes_of names.statics) (names.before
        ++ filter (λ k. is_left names.left k && is_in names.trail k) (range_with_len 0 names.variables) ∷ [])) }
{
    let mut names = names;
    names.leave(alloc)?;
    names.finish()
}

/// The same, behind its last statement.
fn sets_of(alloc: Global, names: NamesSoFar, goes_on: bool) -> Result<SetNames, AllocError>
    ensures { IfOk result (λ sets. sets ≡ map (codes_of names.statics) (names.before
        ++ filter (λ k. is_left names.left k && (not goes_on || is_in names.trail k)) (range_with_len 0 names.variables) ∷ [])) }
{
    if goes_on {
        sets_at_end(alloc, names)
    } else {
        names.finish()
    }
}

/// What is known behind a body: the first fault so far, how many calls stand before its end, and which names are set in it.
#[derive(Drop)]
struct Walked {
    found: Option<Fault>,
    calls: u32,
    sets: SetNames,
}

/// Walks over the body of the procedure of this number, behind so many calls. The body is written.
fn walk_body(
    alloc: Global,
    setting: &Setting<'_>,
    number: u32,
    procedure: &Proc,
    calls: u32,
    written: &mut Written,
    found: Option<Fault>,
) -> Result<Walked, AllocError>
    requires { AreNumbered setting.now }
    ensures found { IfOk result (λ r. Finds found r.found (faults_of_body (body_of setting.now number calls (procedure_of procedure.now)))) }
    ensures calls { IfOk result (λ r. r.calls ≡ (end_of (body_of setting.now number calls (procedure_of procedure.now))).calls) }
    ensures written { OnOk result (written.new ≡ written_with (all_in (body_of setting.now number calls (procedure_of procedure.now))) written.old) }
    ensures sets { IfOk result (λ r. AreSets (body_of setting.now number calls (procedure_of procedure.now)) r.sets) }
{
    let mut context = entry_of(alloc, setting, procedure.params.as_slice(), calls)?;
    let within = inside(setting, number, procedure);
    let found = faults_of_statements(
        alloc,
        &within,
        &mut context,
        procedure.body.as_slice(),
        written,
        found,
    )?;
    let Context {
        assigned,
        calls,
        ..
    } = context;
    let goes_on = all_go_on(true, procedure.body.as_slice());
    let sets = sets_of(alloc, assigned.names, goes_on)?;
    Ok(Walked {
        found: no_return(procedure, found),
        calls,
        sets,
    })
}

/// What is known behind a procedure: the first fault so far, its form, the calls of the client so far, and how many these are.
#[derive(Drop)]
struct Passed {
    found: Option<Fault>,
    form: Procedure,
    calls: Items<CallSite>,
    count: u32,
}

/// Passes the procedure of this number, behind these calls, which are so many.
fn pass_body(
    alloc: Global,
    setting: &Setting<'_>,
    number: u32,
    procedure: &Proc,
    calls: Items<CallSite>,
    count: u32,
    found: Option<Fault>,
) -> Result<Passed, AllocError>
    requires { AreNumbered setting.now }
    ensures found { IfOk result (λ p. Finds found p.found (faults_of_body (body_of setting.now number count (procedure_of procedure.now)))) }
    ensures count { IfOk result (λ p. p.count ≡ (end_of (body_of setting.now number count (procedure_of procedure.now))).calls) }
    ensures form { IfOk result (λ p. unset_seen p.form
        ≡ without_set (procedure_form setting.now.form (body_of setting.now number count (procedure_of procedure.now)) (procedure_of procedure.now))) }
    ensures sets { IfOk result (λ p. AreSets (body_of setting.now number count (procedure_of procedure.now)) p.form.set) }
    ensures calls { IfOk result (λ p. p.calls ≡ calls ++ filter_map site_at (all_in (body_of setting.now number count (procedure_of procedure.now)))) }
{
    let mut written = Written {
        points: Items::new(alloc),
        variables: classes_of(alloc, setting.spec, procedure.params.as_slice())?,
        calls,
    };
    let walked = walk_body(
        alloc,
        setting,
        number,
        procedure,
        count,
        &mut written,
        found,
    )?;
    let Written {
        points,
        variables,
        calls,
    } = written;
    let form = procedure_form(
        alloc,
        setting.spec,
        procedure,
        points,
        variables,
        walked.sets,
    )?;
    Ok(Passed {
        found: walked.found,
        form,
        calls,
        count: walked.calls,
    })
}

/// Passes the next initialiser, where there is one.
fn pass_static(
    alloc: Global,
    setting: &Setting<'_>,
    client: &Client,
    progress: &mut Progress,
) -> Result<(), AllocError>
    requires { Stands setting.now progress.old }
    ensures stands { OnOk result (Stands setting.now progress.new) }
    ensures first { OnOk result ((order : List Bool)
        → first_in_end setting.now client.now progress.new order ≡ first_in_end setting.now client.now progress.old (true ∷ order)) }
    ensures all { OnOk result ((order : List Bool)
        → all_in_end setting.now client.now progress.new order ≡ all_in_end setting.now client.now progress.old (true ∷ order)) }
    ensures sets { OnOk result (SetsStay setting.now client.now progress.old progress.new true) }
{
    match client.statics.get(progress.start.points as usize) {
        Some(x) => {
            let found = faults_of_assigned(
                setting,
                &progress.start,
                &x.name,
                &x.value,
                progress.found,
            );
            progress
                .written
                .note_assigned(alloc, setting, &progress.start, &x.name, &x.value)?;
            pass_initialiser(alloc, setting, &mut progress.start, &x.value)?;
            progress.found = found;
            Ok(())
        }
        None => Ok(()),
    }
}

/// Passes the next procedure, where there is one.
fn pass_procedure(
    alloc: Global,
    setting: &Setting<'_>,
    client: &Client,
    progress: &mut Progress,
) -> Result<(), AllocError>
    requires { Stands setting.now progress.old }
    ensures stands { OnOk result (Stands setting.now progress.new) }
    ensures first { OnOk result ((order : List Bool)
        → first_in_end setting.now client.now progress.new order ≡ first_in_end setting.now client.now progress.old (false ∷ order)) }
    ensures all { OnOk result ((order : List Bool)
        → all_in_end setting.now client.now progress.new order ≡ all_in_end setting.now client.now progress.old (false ∷ order)) }
    ensures sets { OnOk result (SetsStay setting.now client.now progress.old progress.new false) }
{
    match client.procedures.get(progress.procedures as usize) {
        Some(procedure) => {
            let number = next(progress.procedures)?;
            let calls = mem::replace(&mut progress.written.calls, Items::new(alloc));
            let passed = pass_body(
                alloc,
                setting,
                number,
                procedure,
                calls,
                progress.start.calls,
                progress.found,
            )?;
            progress.forms.push(passed.form)?;
            progress.written.calls = passed.calls;
            progress.start.calls = passed.count;
            progress.procedures = number;
            progress.found = passed.found;
            Ok(())
        }
        None => Ok(()),
    }
}

/// Passes the next item.
fn pass_item(
    alloc: Global,
    setting: &Setting<'_>,
    client: &Client,
    is_static: bool,
    progress: &mut Progress,
) -> Result<(), AllocError>
    requires { Stands setting.now progress.old }
    ensures stands { OnOk result (Stands setting.now progress.new) }
    ensures first { OnOk result ((order : List Bool)
        → first_in_end setting.now client.now progress.new order ≡ first_in_end setting.now client.now progress.old (is_static ∷ order)) }
    ensures all { OnOk result ((order : List Bool)
        → all_in_end setting.now client.now progress.new order ≡ all_in_end setting.now client.now progress.old (is_static ∷ order)) }
    ensures sets { OnOk result (SetsStay setting.now client.now progress.old progress.new is_static) }
{
    if is_static {
        pass_static(alloc, setting, client, progress)
    } else {
        pass_procedure(alloc, setting, client, progress)
    }
}

/// Passes all items.
fn pass_items(alloc: Global, setting: &Setting<'_>, client: &Client) -> Result<Progress, AllocError>
    requires { AreNumbered setting.now }
    ensures first { IfOk result (λ p. option_map fault_told p.found ≡ first_of (flat_map faults_of_body (bodies_from setting.now 0 1 0 (client_of client.now).items))) }
    ensures all { IfOk result (λ p. so_far p ≡ with_bodies setting.now.form (bodies_from setting.now 0 1 0 (client_of client.now).items) nothing_yet) }
    ensures sets { IfOk result (λ p. flat_map faults_of_body (bodies_from setting.now 0 1 0 (client_of client.now).items) ≡ []
        → map (λ f. f.set) p.forms ≡ filter_map (λ b. sets_by b b.item) (bodies_from setting.now 0 1 0 (client_of client.now).items)) }
{
    let mut progress = Progress {
        start: before_first(alloc),
        procedures: 0,
        found: None,
        written: Written {
            points: Items::new(alloc),
            variables: Items::new(alloc),
            calls: Items::new(alloc),
        },
        forms: Items::new(alloc),
    };
    'each: for is_static in client.order.as_slice() {
        pass_item(alloc, setting, client, *is_static, &mut progress)?;
    }
    Ok(progress)
}

/// The first fault of the initialisers and bodies of a client, and what is written of them.
pub fn first_in_bodies(
    alloc: Global,
    spec: &CheckedSpec,
    client: &Client,
) -> Result<(Option<Fault>, Bodies), AllocError>
    ensures first { IfOk result (λ r. option_map fault_told r.0 ≡ first_of (faults_of_bodies spec.now (client_of client.now))) }
    ensures bodies { IfOk result (λ r. AreBodies spec.now (client_of client.now) r.1) }
{
    let tables = tables_of(alloc, spec, client)?;
    let setting = Setting {
        spec,
        statics: &tables.statics,
        procedures: &tables.procedures,
        procedure: 0,
        result: Kind::Void,
    };
    let progress = pass_items(alloc, &setting, client)?;
    let statics = statics_form(alloc, tables.statics.as_slice())?;
    let Progress {
        found,
        written,
        forms,
        ..
    } = progress;
    let bodies = Bodies {
        statics,
        initial: written.points,
        procedures: forms,
        calls: written.calls,
    };
    Ok((found, bodies))
}
