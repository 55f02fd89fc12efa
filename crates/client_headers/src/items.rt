//! The items of a client by their kinds.
ghost use Rattle.std.specs.Prelude.{◌≡◌, map, not};
ghost use Rattle.std.specs.List.{count_by};
ghost use Rattle.client_model.specs.Trees.{client_of, procedure_of, procedures_in, statics_in};

use client_model::{Client, Proc, Static};

/// The statics that stand in the text.
#[tactic(auto, using(crate::proofs::InOrder::statics_listed))]
pub(crate) fn statics_of(client: &Client) -> &[Static]
    ensures { result.now ≡ statics_in (client_of client.now).items }
{
    let all = client.statics.as_slice();
    let count = static_count(client.order.as_slice()).min(all.len());
    &all[..count]
}

/// The procedures that stand in the text.
#[tactic(auto, using(crate::proofs::InOrder::procedures_listed))]
pub fn procedures_of(client: &Client) -> &[Proc]
    ensures { map procedure_of result.now ≡ procedures_in (client_of client.now).items }
{
    let all = client.procedures.as_slice();
    let count = procedure_count(client.order.as_slice()).min(all.len());
    &all[..count]
}

fn static_count(order: &[bool]) -> usize
    ensures { result ≡ count_by (λ is_static. is_static) order.now }
{
    order.iter().filter(|is_static| **is_static).count()
}

fn procedure_count(order: &[bool]) -> usize
    ensures { result ≡ count_by not order.now }
{
    order.iter().filter(|is_static| !**is_static).count()
}
