//! A client with its specification, what is derived from that, and where its points go on.
ghost use Rattle.std.specs.Prelude.{◌≡◌, ◌+◌, ◌==◌, [], length, slice_index_or};
ghost use Rattle.std.specs.List.{list_any};

use client_model::{CheckedClient, Point, Procedure};
use easl_model::CheckedSpec;
use flow_graph::Graph;
use method_abstraction::Abstraction;
use std::marker::Model;

/// A client that fits a specification, and an abstraction with exact entries for that. Procedures are numbered from 0, the start
/// first, and points from 0 in their procedure.
#[derive(Debug, Drop)]
pub struct Setting<'a> {
    spec: &'a CheckedSpec,
    client: &'a CheckedClient,
    abstraction: &'a Abstraction,
    graph: &'a Graph,
}

impl<'a> Model for Setting<'a> {
    ghost use Rattle.client_facts.specs.Held.{Held};
    ghost use Rattle.client_model.specs.Checked.{IsFitting, seen};
    ghost use Rattle.client_model.specs.contracts.form.Node as node;
    ghost use Rattle.easl_model.specs.contracts.form.Act as act;
    ghost use Rattle.easl_model.specs.contracts.form.Test as test;
    ghost use Rattle.flow_graph.specs.Points.{graph_of};
    ghost use Rattle.method_abstraction.specs.{HasExactEntries};
    ghost use Rattle.std.specs.Coded.{codes};
    ghost use Rattle.std.specs.Prelude.{◌≡◌};

    ghost Value = { Held };

    ghost coded = { Prim.hlevel (codes, act.the_row.coded, test.the_row.coded, node.the_row.coded) };

    ghost view = { λ s. record { form = s.spec.now; client = s.client.now; abstraction = s.abstraction.now } };

    ghost invariant = { λ s. IsFitting s.spec.now s.client.now × HasExactEntries s.spec.now s.abstraction.now
        × (s.graph.now ≡ graph_of (seen s.client.now)) };
}

impl<'a> Setting<'a> {
    ghost use Rattle.std.specs.Prelude.{◌≤◌, IfSome, slice_get};
    ghost use Rattle.std.specs.Option.{option_map};
    ghost use Rattle.client_facts.specs.Facts.{classes_of};
    ghost use Rattle.client_facts.specs.Held.{setting};
    ghost use Rattle.client_facts.specs.Setting.{exit_of, result_of, set_of, variables_of, ways_of};
    ghost use Rattle.client_model.specs.Checked.{IsFitting, procedure_seen, seen};
    ghost use Rattle.flow_graph.specs.Points.{graph_of};
    ghost use Rattle.client_steps.specs.States.{point_at, procedure_at};
    ghost use Rattle.method_abstraction.specs.{HasExactEntries};

    /// The setting of these.
    pub fn new(
        spec: &'a CheckedSpec,
        client: &'a CheckedClient,
        abstraction: &'a Abstraction,
        graph: &'a Graph,
    ) -> Setting<'a>
        requires fitting { IsFitting spec.now client.now }
        requires exact { HasExactEntries spec.now abstraction.now }
        requires graph { graph.now ≡ graph_of (seen client.now) }
        ensures { result ≡ record { form = spec.now; client = client.now; abstraction = abstraction.now } }
    {
        Setting {
            spec,
            client,
            abstraction,
            graph,
        }
    }

    /// Does nothing: its contract says what every setting keeps.
    pub fn is_kept(&self)
        ensures fitting { IsFitting self.now.form self.now.client }
        ensures exact { HasExactEntries self.now.form self.now.abstraction }
    {
        let _ = &self.spec;
    }

    /// The specification.
    pub fn spec(&self) -> &'a CheckedSpec
        ensures { result.now ≡ self.now.form }
    {
        self.spec
    }

    /// The client.
    pub fn client(&self) -> &'a CheckedClient
        ensures { result.now ≡ self.now.client }
    {
        self.client
    }

    /// What is derived.
    pub fn abstraction(&self) -> &'a Abstraction
        ensures { result.now ≡ self.now.abstraction }
    {
        self.abstraction
    }

    /// Where its points go on.
    pub fn graph(&self) -> &'a Graph
        ensures { result.now ≡ graph_of (seen self.now.client) }
    {
        self.graph
    }

    /// Where this point of the procedure goes on, on T and on F; its exit goes nowhere.
    pub fn ways(&self, procedure: u32, point: u32) -> Option<(u32, u32)>
        ensures { result ≡ ways_of (setting self.now) procedure point }
    {
        self.graph.ways(procedure, point)
    }

    /// What is done at this point of the procedure; None at its exit, and where there is no such point.
    pub fn point(&self, procedure: u32, point: u32) -> Option<&'a Point>
        ensures { option_map (λ x. x.now) result ≡ point_at (setting self.now).client procedure point }
    {
        if procedure >= self.client.procedure_count() {
            return None;
        }
        let points = self.client.procedure(procedure).points.as_slice();
        points.get(point as usize)
    }

    /// The procedure of this number; None where there is none.
    fn procedure(&self, procedure: u32) -> Option<&'a Procedure>
        ensures found { option_map (λ x. procedure_seen x.now) result
            ≡ procedure_at (setting self.now).client procedure }
        ensures few { IfSome result (λ x. length x.now.points ≤ 1048577) }
        ensures sets { IfSome result (λ x. length x.now.set ≡ length x.now.points + 1) }
    {
        if procedure >= self.client.procedure_count() {
            return None;
        }
        self.client.is_kept();
        Some(self.client.procedure(procedure))
    }

    /// The exit of the procedure, the number behind that of its last point; 0 where there is no such procedure.
    pub fn exit(&self, procedure: u32) -> u32
        ensures { result ≡ exit_of (setting self.now) procedure }
    {
        match self.procedure(procedure) {
            Some(found) => found.points.len() as u32,
            None => 0,
        }
    }

    /// The class of the static of this number, which an opaque one has not; None where there is no such static.
    pub fn static_class(&self, number: u32) -> Option<Option<u32>>
        ensures { result ≡ slice_get (setting self.now).client.statics number }
    {
        if number >= self.client.static_count() {
            return None;
        }
        Some(self.client.static_class(number))
    }

    /// The classes of the procedure's parameters and locals by number, None where one is opaque; none where there is no such
    /// procedure.
    pub fn variables(&self, procedure: u32) -> &'a [Option<u32>]
        ensures { result.now ≡ variables_of (setting self.now) procedure }
    {
        match self.procedure(procedure) {
            Some(found) => found.variables.as_slice(),
            None => &[],
        }
    }

    /// The class of the procedure's result; None where it gives none or an opaque one.
    pub fn result(&self, procedure: u32) -> Option<u32>
        ensures { result ≡ result_of (setting self.now) procedure }
    {
        match self.procedure(procedure) {
            Some(found) => found.result,
            None => None,
        }
    }

    /// Whether the name of this code is surely assigned at the point.
    pub fn is_set(&self, procedure: u32, point: u32, code: u32) -> bool
        ensures { result ≡ list_any (λ a. a == code) (set_of (setting self.now) procedure point) }
    {
        match self.procedure(procedure) {
            Some(found) => is_set_in(found, point, code),
            None => false,
        }
    }

    /// How many families there are.
    pub fn family_count(&self) -> usize
        ensures { result ≡ length (setting self.now).abstraction.families }
    {
        self.abstraction.families.as_slice().len()
    }

    /// The classes of the family's variables; none where there is no such family.
    pub fn classes(&self, family: u32) -> &'a [u32]
        ensures { result.now ≡ classes_of (setting self.now) family }
    {
        match self.abstraction.families.as_slice().get(family as usize) {
            Some(found) => found.classes.as_slice(),
            None => &[],
        }
    }
}

/// Whether the name of this code is surely assigned at the procedure's point.
fn is_set_in(procedure: &Procedure, point: u32, code: u32) -> bool
    requires { length procedure.now.set ≡ length procedure.now.points + 1 }
    ensures { result ≡ list_any (λ a. a == code) (slice_index_or procedure.now.set point []) }
{
    point as usize <= procedure.points.len() && procedure.set.is_set(point, code)
}
