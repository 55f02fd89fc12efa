//! Checks specifications.
ghost use Rattle.std.specs.Prelude.{◌≡◌, IfOk, MatchResult, None};
ghost use Rattle.easl_model.specs.Checked.{IsReadable};
ghost use Rattle.easl_model.specs.{first_fault, form_of};
ghost use Rattle.easl_types.specs.Answers.{Tells, first_of_names};
ghost use Rattle.easl_types.specs.Laws.{FirstIsLeast, NoneIsWellFormed};

use crate::classes::first_in_bodies;
use crate::cycles::first_in_cycles;
use crate::headers::first_in_headers;
use crate::lengths::first_in_lengths;
use crate::methods::parts_of;
use crate::spec_fault::{SpecFault, told};
use easl_model::{CheckedSpec, Fault, Spec};
use std::alloc::{AllocError, Global};

/// Checks a specification that a reader can give. The answer is its checked form, or the first rule that it breaks: that
/// of the first pass that finds one, in that pass the first in text order, at one place that of the lowest number. The
/// passes go over headers, bodies, constructors that call each other, and counts of statements in place.
pub fn check_spec(alloc: Global, spec: Spec) -> Result<CheckedSpec, SpecFault>
    requires { IsReadable spec }
    ensures { MatchResult result (λ checked. (first_fault spec ≡ None) × (checked ≡ form_of spec)) (Tells (first_fault spec)) }
{
    if let Some(fault) = first_in_names(alloc, &spec)? {
        return Err(told(fault));
    }
    let parts = parts_of(alloc, &spec)?;
    let long = first_in_lengths(
        alloc,
        parts.classes.as_slice(),
        parts.methods.as_slice(),
        parts.places.as_slice(),
    )?;
    match long {
        Some(fault) => Err(told(fault)),
        None => Ok(CheckedSpec::new(parts.classes, parts.methods)),
    }
}

/// What the check answers is the least fault, by place and then by number, of the first pass that finds any, and where it
/// answers none no rule is broken.
#[tactic(auto, using(crate::proofs::Least::first_is_least, crate::proofs::Least::none_is_well_formed))]
pub fn first_fault_is_least()
    ensures least { FirstIsLeast }
    ensures none { NoneIsWellFormed }
{}

/// The first fault of the passes before the counts.
fn first_in_names(alloc: Global, spec: &Spec) -> Result<Option<Fault>, AllocError>
    ensures { IfOk result (λ f. f ≡ first_of_names spec.now) }
{
    if let Some(fault) = first_in_headers(alloc, spec)? {
        return Ok(Some(fault));
    }
    if let Some(fault) = first_in_bodies(alloc, spec)? {
        return Ok(Some(fault));
    }
    first_in_cycles(alloc, spec)
}
