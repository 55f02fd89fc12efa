//! How each term of a list comes from the one that is one field shorter.
ghost use Rattle.std.specs.Prelude.{◌≡◌, ◌≢◌, ◌↔◌, All, Contains, IfNone, IfOk, IfSome, IsTrue, slice_get};
ghost use Rattle.access_paths.specs.Terms as told;
ghost use Rattle.alias_cases.specs.{AreSteps, IsClosed, IsStepTo};

use access_paths::{Term, Var};
use std::alloc::{AllocError, Global};

/// The place of the term that is one field shorter, and the field that leads on from it.
#[derive(Clone, Copy, Debug)]
pub(crate) struct Step {
    pub(crate) shorter: usize,
    pub(crate) field: u32,
}

/// The step to each term; there is none to a variable.
pub(crate) fn steps_to(alloc: Global, terms: &[Term]) -> Result<Vec<Option<Step>>, AllocError>
    requires { IsClosed terms.now }
    ensures { IfOk result (λ steps. AreSteps terms.now steps.items) }
{
    let mut steps = Vec::new(alloc);
    'each: for term in terms {
        steps.push(step_to(terms, term))?;
    }
    Ok(steps)
}

fn step_to(terms: &[Term], term: &Term) -> Option<Step>
    requires closed { IsClosed terms.now }
    requires there { Contains terms.now term.now }
    ensures { IsStepTo terms.now term.now result }
{
    let (field, front) = term.fields.as_slice().split_last()?;
    let shorter = place_of(terms, term.var, front)?;
    Some(Step {
        shorter,
        field: *field,
    })
}

/// Where what the fields lead to stands.
fn place_of(terms: &[Term], variable: Var, fields: &[u32]) -> Option<usize>
    ensures at { IfSome result (λ k. slice_get terms.now k ≡ Some (told.term variable.0 fields.now)) }
    ensures none { IfNone result (All (λ t. t ≢ told.term variable.0 fields.now) terms.now) }
{
    terms
        .iter()
        .position(|term| is_reached(term, variable, fields))
}

/// Whether the term is what the fields lead to.
fn is_reached(term: &Term, variable: Var, fields: &[u32]) -> bool
    ensures { IsTrue result ↔ (term.now ≡ told.term variable.0 fields.now) }
{
    term.var.0 == variable.0 && term.fields.as_slice() == fields
}
