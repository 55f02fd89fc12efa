//! Reads and checks the text of a client.
ghost use Rattle.std.specs.Prelude.{◌≡◌, ◌≤◌, MatchResult, length};
ghost use Rattle.canvas_cli.specs.Readings.{BreaksClient, IsRead, IsTaken, RefusesClient};
ghost use Rattle.client_model.specs.Trees.{client_of};
ghost use Rattle.client_types.specs.Readable.{IsReadable};

use crate::refusal::{NotTaken, Refusal, Rule, unread};
use client_model::{CheckedClient, Client};
use client_parser::read_client;
use client_types::{ClientFault, check_client};
use client_values::Rule as ClientRule;
use easl_model::{CheckedSpec, Place};
use std::alloc::Global;

/// The checked client that the text is for this specification.
#[tactic(auto, using(crate::proofs::Decided::readable, crate::proofs::Decided::is_read, crate::proofs::Decided::breaks_client, crate::proofs::Decided::reads_client))]
pub(crate) fn read_checked_client(
    alloc: Global,
    spec: &CheckedSpec,
    text: &[u8],
) -> Result<CheckedClient, NotTaken>
    requires { length text.now ≤ 1048576 }
    ensures { MatchResult result (IsRead spec.now text.now) (RefusesClient spec.now text.now) }
{
    match read_client(alloc, text) {
        Ok(tree) => check_tree(alloc, spec, tree),
        Err(fault) => Err(unread(fault)),
    }
}

/// Checks a tree that was read.
fn check_tree(alloc: Global, spec: &CheckedSpec, tree: Client) -> Result<CheckedClient, NotTaken>
    requires { IsReadable tree }
    ensures { MatchResult result (IsTaken spec.now (client_of tree)) (BreaksClient spec.now tree) }
{
    match check_client(alloc, spec, tree) {
        Ok(checked) => Ok(checked),
        Err(ClientFault::Duplicate(place)) => Err(broken(ClientRule::Duplicate, place)),
        Err(ClientFault::Unknown(place)) => Err(broken(ClientRule::Unknown, place)),
        Err(ClientFault::Mismatch(place)) => Err(broken(ClientRule::Mismatch, place)),
        Err(ClientFault::Unset(place)) => Err(broken(ClientRule::Unset, place)),
        Err(ClientFault::NoReturn(place)) => Err(broken(ClientRule::NoReturn, place)),
        Err(ClientFault::NoMain(place)) => Err(broken(ClientRule::NoMain, place)),
        Err(ClientFault::Unreachable(place)) => Err(broken(ClientRule::Unreachable, place)),
        Err(ClientFault::OutsideLoop(place)) => Err(broken(ClientRule::OutsideLoop, place)),
        Err(ClientFault::Memory) => Err(NotTaken::Memory),
    }
}

fn broken(rule: ClientRule, place: Place) -> NotTaken
    ensures { result ≡ NotTaken.Refused (Refusal.Broken (Rule.Client rule) place) }
{
    NotTaken::Refused(Refusal::Broken(Rule::Client(rule), place))
}
