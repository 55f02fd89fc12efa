//! Checks clients.
ghost use Rattle.std.specs.Prelude.{IfOk, MatchResult};
ghost use Rattle.client_model.specs.Checked.{IsFitting};
ghost use Rattle.client_model.specs.Rules.{first_fault};
ghost use Rattle.client_model.specs.Trees.{client_of};
ghost use Rattle.client_types.specs.Answers.{IsCheckedAs, Tells};
ghost use Rattle.client_types.specs.Passing.{IsPassed};
ghost use Rattle.client_types.specs.Readable.{IsReadable};

use crate::client_fault::{ClientFault, told};
use client_bodies::first_in_bodies;
use client_headers::{first_header_fault, no_main_fault, procedures_of};
use client_model::{CheckedClient, Client};
use client_points::{Bodies, parts_of};
use easl_model::CheckedSpec;
use std::alloc::Global;

/// Checks a client that a reader can give against a specification. The answer is its checked form, or the first rule that it
/// breaks: that of the first pass that finds one, in that pass the first in text order, at one place that of the lowest number.
/// The passes go over headers, initialisers and bodies, and whether there is a `main`.
pub fn check_client(
    alloc: Global,
    spec: &CheckedSpec,
    client: Client,
) -> Result<CheckedClient, ClientFault>
    requires { IsReadable client }
    ensures answer { MatchResult result (IsCheckedAs spec.now (client_of client)) (Tells (first_fault spec.now (client_of client))) }
    ensures fits { IfOk result (IsFitting spec.now) }
{
    let bodies = bodies_of(alloc, spec, &client)?;
    let parts = parts_of(alloc, procedures_of(&client), bodies)?;
    spec.is_kept();
    Ok(CheckedClient::new(parts.statics, parts.procedures, parts.calls))
}

/// What is written of the items of a client that breaks no rule, or the first rule that it breaks.
fn bodies_of(alloc: Global, spec: &CheckedSpec, client: &Client) -> Result<Bodies, ClientFault>
    ensures { MatchResult result (IsPassed spec.now (client_of client.now)) (Tells (first_fault spec.now (client_of client.now))) }
{
    let headers = first_header_fault(alloc, spec, client)?;
    if let Some(fault) = headers {
        return Err(told(fault));
    }
    let (found, bodies) = first_in_bodies(alloc, spec, client)?;
    if let Some(fault) = found {
        return Err(told(fault));
    }
    match no_main_fault(client) {
        Some(fault) => Err(told(fault)),
        None => Ok(bodies),
    }
}
