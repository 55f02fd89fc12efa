//! The first of what a client has beyond the stated limit.
ghost use Rattle.std.specs.Prelude.{◌≡◌, slice_get};
ghost use Rattle.client_model.specs.TreeLimits as limits;

use client_model::{Client, Proc};
use easl_model::{Excess, Which};

/// How many parameters a procedure may have.
const MOST_PARAMETERS: usize = 16;

/// The first parameter of the text that is one too many for its procedure.
#[tactic(auto, using(crate::proofs::Firsts::found_here, crate::proofs::Firsts::found_behind))]
pub(crate) fn first_excess(client: &Client) -> Option<Excess>
    ensures { result ≡ limits.first_excess client.now }
{
    'each: for procedure in client.procedures.as_slice() {
        if let Some(excess) = excess_of(procedure) {
            return Some(excess);
        }
    }
    None
}

/// The first parameter beyond the limit.
#[tactic(auto, using(crate::proofs::Firsts::some_beyond))]
fn excess_of(procedure: &Proc) -> Option<Excess>
    ensures { result ≡ slice_get (limits.excess_of_procedure procedure.now) 0 }
{
    match procedure.params.as_slice().get(MOST_PARAMETERS) {
        Some(param) => Some(Excess {
            which: Which::Parameters,
            place: param.place,
        }),
        None => None,
    }
}
