//! The checked form of a whole client, of the parts that were written of it.
ghost use Rattle.std.specs.Prelude.{◌≡◌, [], IfOk, map};
ghost use Rattle.client_points.specs.Wholes.{AreBodies};
ghost use Rattle.client_model.specs.Checked.{seen};
ghost use Rattle.client_model.specs.CheckedForm.{form_of};
ghost use Rattle.client_model.specs.Rules.{faults_of_bodies};
ghost use Rattle.client_model.specs.Trees as trees;
ghost use Rattle.easl_model.specs.Form.{Form};

use crate::forms::start_form;
use client_model::{CallSite, Point, Proc, Procedure};
use sqlite_items::Items;
use std::alloc::{AllocError, Global};

/// What is written of a client's items: the classes of its statics, the points of its initialisers, its procedures, and its
/// calls.
#[derive(Debug, Drop)]
pub struct Bodies {
    pub statics: Items<Option<u32>>,
    pub initial: Items<Point>,
    pub procedures: Items<Procedure>,
    pub calls: Items<CallSite>,
}

/// The parts of a checked client: the classes of its statics, its procedures, the start first, and its calls by number.
#[derive(Debug, Drop)]
pub struct Parts {
    pub statics: Items<Option<u32>>,
    pub procedures: Items<Procedure>,
    pub calls: Items<CallSite>,
}

/// The parts of the client, which breaks no rule, whose procedures these are and whose items come to this.
pub fn parts_of(alloc: Global, procedures: &[Proc], bodies: Bodies) -> Result<Parts, AllocError>
    ensures { IfOk result (λ parts. (form : Form) (client : trees.Client) → map trees.procedure_of procedures.now ≡ trees.procedures_in client.items
        → AreBodies form client bodies → faults_of_bodies form client ≡ []
        → seen (record { statics = parts.statics; procedures = parts.procedures; calls = parts.calls }) ≡ form_of form client) }
{
    let start = start_form(alloc, procedures, bodies.initial)?;
    let mut all = Items::new(alloc);
    all.push(start)?;
    all.append(bodies.procedures)?;
    Ok(Parts {
        statics: bodies.statics,
        procedures: all,
        calls: bodies.calls,
    })
}
