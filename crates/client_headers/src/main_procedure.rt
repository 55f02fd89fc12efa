//! The procedure `main`.
ghost use Rattle.std.specs.Prelude.{◌≡◌, option_map};
ghost use Rattle.std.specs.List.{list_any};
ghost use Rattle.client_model.specs.Faults.{first_of};
ghost use Rattle.client_model.specs.HeaderFaults as headers;
ghost use Rattle.client_model.specs.Rules as told;
ghost use Rattle.client_model.specs.Trees.{client_of, procedure_of};
ghost use Rattle.client_values.specs.ToldFaults.{fault_told};

use crate::items::procedures_of;
use client_model::{Client, Proc};
use client_values::{Fault, Rule, is_main, note_if};

/// The fault of a client without a procedure `main`.
pub fn no_main_fault(client: &Client) -> Option<Fault>
    ensures { option_map fault_told result ≡ first_of (told.no_main (client_of client.now)) }
{
    let is_there = has_main(procedures_of(client));
    note_if(None, !is_there, Rule::NoMain, client.end)
}

fn has_main(procedures: &[Proc]) -> bool
    ensures { result ≡ list_any (λ p. headers.is_main (procedure_of p)) procedures.now }
{
    'each: for procedure in procedures {
        if is_main(procedure) {
            return true;
        }
    }
    false
}
