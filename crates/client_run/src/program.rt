//! A client with where its points go on.
ghost use Rattle.std.specs.Prelude.{◌≡◌, length, option_map, slice_get, IfOk};
ghost use Rattle.flow_graph.specs.Points.{ways_at};
ghost use Rattle.client_model.specs.Checked.{seen};
ghost use Rattle.client_steps.specs.States.{point_at, variable_count};

use client_model::{CallSite, CheckedClient, Point};
use cv_base::Memory;
use flow_graph::{Graph, graph};
use std::alloc::Global;
use std::marker::Model;

/// A client and its graph, which contracts see as the client.
#[derive(Debug, Drop)]
pub(crate) struct Program<'a> {
    client: &'a CheckedClient,
    graph: Graph,
}

impl<'a> Model for Program<'a> {
    ghost use Rattle.std.specs.Prelude.{◌≡◌};
    ghost use Rattle.flow_graph.specs.Points.{graph_of};
    ghost use Rattle.client_model.specs.Program.{ClientForm};
    ghost use Rattle.client_model.specs.contracts.form.Node as node;
    ghost use Rattle.client_model.specs.Checked.{seen};
    ghost use Rattle.std.specs.Coded.{codes};

    ghost Value = { ClientForm };

    ghost coded = { Prim.hlevel (codes, node.the_row.coded) };

    ghost view = { λ p. p.client.now };

    ghost invariant = { λ p. p.graph ≡ graph_of (seen p.client.now) };
}

impl<'a> Program<'a> {
    /// That of a client.
    pub(crate) fn of(alloc: Global, client: &'a CheckedClient) -> Result<Program<'a>, Memory>
        ensures { IfOk result (λ p. p ≡ client.now) }
    {
        let graph = graph(alloc, client)?;
        Ok(Program { client, graph })
    }

    /// Where this point of the procedure goes on; its exit goes nowhere.
    pub(crate) fn ways(&self, procedure: u32, point: u32) -> Option<(u32, u32)>
        ensures { result ≡ ways_at (seen self.now) procedure point }
    {
        self.graph.ways(procedure, point)
    }

    /// What is done at this point of the procedure.
    pub(crate) fn point(&self, procedure: u32, point: u32) -> Option<&'a Point>
        ensures { option_map (λ x. x.now) result ≡ point_at (seen self.now) procedure point }
    {
        if procedure >= self.client.procedure_count() {
            return None;
        }
        let points = self.client.procedure(procedure).points.as_slice();
        points.get(point as usize)
    }

    pub(crate) fn static_count(&self) -> usize
        ensures { result ≡ length self.now.statics }
    {
        self.client.static_count() as usize
    }

    /// How many variables the procedure has.
    pub(crate) fn variable_count(&self, procedure: u32) -> usize
        ensures { result ≡ variable_count (seen self.now) procedure }
    {
        if procedure >= self.client.procedure_count() {
            return 0;
        }
        self.client.procedure(procedure).variables.len()
    }

    /// The call of this number, if there is one.
    pub(crate) fn call(&self, number: u32) -> Option<&'a CallSite>
        ensures { option_map (λ site. site.now) result ≡ slice_get self.now.calls number }
    {
        if number < self.client.call_count() {
            Some(self.client.call(number))
        } else {
            None
        }
    }
}
