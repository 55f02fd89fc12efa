//! The faults of headers.
ghost use Rattle.std.specs.Prelude.{◌≡◌, IfOk, option_map};
ghost use Rattle.std.specs.List.{flat_map};
ghost use Rattle.client_model.specs.Faults.{first_of};
ghost use Rattle.client_model.specs.HeaderFaults as told;
ghost use Rattle.client_model.specs.Trees.{client_of, procedure_of};
ghost use Rattle.client_values.specs.ToldFaults.{Finds, fault_told};
ghost use Rattle.easl_model.specs.CheckedForm as forms;

use crate::items::{procedures_of, statics_of};
use crate::seconds::{second_params, second_procedures, second_statics};
use client_model::{Client, Proc, Static};
use client_values::{Fault, Rule, is_main, no_type, note_if};
use cv_base::Memory;
use easl_model::{CheckedSpec, Param, Sort};
use std::alloc::Global;

/// The first fault of the headers.
#[tactic(auto, using(easl_model::proofs::Finding::both))]
pub fn first_header_fault(
    alloc: Global,
    spec: &CheckedSpec,
    client: &Client,
) -> Result<Option<Fault>, Memory>
    ensures { IfOk result (λ f. option_map fault_told f ≡ first_of (told.faults_of_headers spec.now (client_of client.now))) }
{
    let statics = statics_of(client);
    let procedures = procedures_of(client);
    let found = second_statics(alloc, statics, None)?;
    let found = second_procedures(alloc, procedures, found)?;
    let found = types_of_statics(spec, statics, found);
    faults_of_procedures(alloc, spec, procedures, found)
}

/// Statics whose type is no class.
#[tactic(auto, using(std::proofs::lemmas::List::drop_more, easl_model::proofs::Finding::both))]
fn types_of_statics(spec: &CheckedSpec, statics: &[Static], start: Option<Fault>) -> Option<Fault>
    ensures { Finds start result (flat_map (λ x. told.no_type spec.now x.sort) statics.now) }
{
    let mut found = start;
    'each: for item in statics {
        found = no_type(spec, &item.sort, found);
    }
    found
}

/// The faults of procedures' own headers.
#[tactic(auto, using(std::proofs::lemmas::List::drop_more, easl_model::proofs::Finding::both))]
fn faults_of_procedures(
    alloc: Global,
    spec: &CheckedSpec,
    procedures: &[Proc],
    start: Option<Fault>,
) -> Result<Option<Fault>, Memory>
    ensures { IfOk result (λ f. Finds start f (flat_map (λ p. told.faults_of_header spec.now (procedure_of p)) procedures.now)) }
{
    let mut found = start;
    'each: for procedure in procedures {
        found = faults_of_header(alloc, spec, procedure, found)?;
    }
    Ok(found)
}

#[tactic(auto, using(easl_model::proofs::Finding::both))]
fn faults_of_header(
    alloc: Global,
    spec: &CheckedSpec,
    procedure: &Proc,
    found: Option<Fault>,
) -> Result<Option<Fault>, Memory>
    ensures { IfOk result (λ f. Finds found f (told.faults_of_header spec.now (procedure_of procedure.now))) }
{
    let params = procedure.params.as_slice();
    let found = main_differs(procedure, found);
    let found = no_type(spec, &procedure.result, found);
    let found = second_params(alloc, params, found)?;
    Ok(types_of_params(spec, params, found))
}

/// `main` has a parameter or a result.
fn main_differs(procedure: &Proc, found: Option<Fault>) -> Option<Fault>
    ensures { Finds found result (told.main_differs (procedure_of procedure.now)) }
{
    let takes_or_gives = !procedure.params.is_empty() || has_values(&procedure.result);
    let differs = is_main(procedure) && takes_or_gives;
    note_if(found, differs, Rule::Mismatch, procedure.name.place)
}

fn has_values(sort: &Sort) -> bool
    ensures { result ≡ forms.has_values sort.now }
{
    match sort {
        Sort::Void => false,
        Sort::Opaque(_) | Sort::Class(_) => true,
    }
}

/// Parameters whose type is no class.
#[tactic(auto, using(std::proofs::lemmas::List::drop_more, easl_model::proofs::Finding::both))]
fn types_of_params(spec: &CheckedSpec, params: &[Param], start: Option<Fault>) -> Option<Fault>
    ensures { Finds start result (flat_map (λ x. told.no_type spec.now x.sort) params.now) }
{
    let mut found = start;
    'each: for param in params {
        found = no_type(spec, &param.sort, found);
    }
    found
}
