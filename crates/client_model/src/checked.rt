//! Clients that were checked.
use crate::form::{CallSite, Procedure};
use sqlite_items::Items;
use std::marker::Model;

/// A checked client, which contracts see as its checked form: that of a client that is well-formed for some checked
/// specification.
#[derive(Debug, Drop)]
pub struct CheckedClient {
    statics: Items<Option<u32>>,
    procedures: Items<Procedure>,
    calls: Items<CallSite>,
}

impl Model for CheckedClient {
    ghost use Rattle.client_model.specs.Checked.{IsCheckedClient, IsInRange};
    ghost use Rattle.client_model.specs.Program.{ClientForm};
    ghost use Rattle.client_model.specs.contracts.form.Node as node;
    ghost use Rattle.std.specs.Coded.{codes};

    ghost Value = { ClientForm };

    ghost coded = { Prim.hlevel (codes, node.the_row.coded) };

    ghost view = { λ c. record { statics = c.statics; procedures = c.procedures; calls = c.calls } };

    ghost invariant = { λ c. IsCheckedClient (record { statics = c.statics; procedures = c.procedures; calls = c.calls })
        × IsInRange (record { statics = c.statics; procedures = c.procedures; calls = c.calls }) };
}

impl CheckedClient {
    ghost use Rattle.std.specs.Prelude.{◌≡◌, ◌<◌, ◌≤◌, Some, length, slice_get};
    ghost use Rattle.client_model.specs.Checked.{IsCheckedClient, IsInRange};

    /// A client of these parts: the classes of the statics, None for an opaque one, the procedures, the start first, and
    /// the calls by number. It takes no memory.
    pub fn new(
        statics: Items<Option<u32>>,
        procedures: Items<Procedure>,
        calls: Items<CallSite>,
    ) -> CheckedClient
        requires checked { IsCheckedClient (record { statics = statics; procedures = procedures; calls = calls }) }
        requires in_range { IsInRange (record { statics = statics; procedures = procedures; calls = calls }) }
        ensures { result ≡ record { statics = statics; procedures = procedures; calls = calls } }
    {
        CheckedClient {
            statics,
            procedures,
            calls,
        }
    }

    /// Does nothing: its contract says what every checked client keeps.
    pub fn is_kept(&self)
        ensures checked { IsCheckedClient self.now }
        ensures in_range { IsInRange self.now }
    {
        let _ = &self.statics;
    }

    pub fn static_count(&self) -> u32
        ensures { result ≡ length self.now.statics }
    {
        self.statics.len() as u32
    }

    /// The class of the static of this number, None for an opaque one.
    pub fn static_class(&self, number: u32) -> Option<u32>
        requires { number < length self.now.statics }
        ensures { slice_get self.now.statics number ≡ Some result }
    {
        self.statics.as_slice()[number as usize]
    }

    /// How many procedures there are, the start among them.
    pub fn procedure_count(&self) -> u32
        ensures { result ≡ length self.now.procedures }
    {
        self.procedures.len() as u32
    }

    /// The procedure of this number. The start is procedure 0, and those of the text follow in text order.
    pub fn procedure(&self, procedure: u32) -> &Procedure
        requires { procedure < length self.now.procedures }
        ensures { slice_get self.now.procedures procedure ≡ Some result.now }
    {
        &self.procedures.as_slice()[procedure as usize]
    }

    /// How many component calls and constructions there are.
    pub fn call_count(&self) -> u32
        ensures { result ≡ length self.now.calls }
    {
        self.calls.len() as u32
    }

    /// The component call or construction of this number, in text order.
    pub fn call(&self, call: u32) -> &CallSite
        requires { call < length self.now.calls }
        ensures { slice_get self.now.calls call ≡ Some result.now }
    {
        &self.calls.as_slice()[call as usize]
    }
}
