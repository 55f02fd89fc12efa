//! A client with its facts, as the tabulation takes it.
ghost use Rattle.std.specs.Prelude.{◌≡◌, IfErr, IfOk};
ghost use Rattle.boolean_client.specs.Bounds.{HasFewFacts, IsBig};
ghost use Rattle.client_facts.specs.Held as held;
ghost use Rattle.client_model.specs.Checked.{IsFitting, seen};
ghost use Rattle.flow_graph.specs.Points.{graph_of};
ghost use Rattle.method_abstraction.specs.{HasExactEntries};

use crate::clause_table::clause_table;
use crate::counting::{BigFault, check_counts};
use call_flows::{entered, returned};
use client_facts::{Fact, Names, Setting};
use client_model::CheckedClient;
use cv_base::Memory;
use easl_model::CheckedSpec;
use flow_graph::Graph;
use method_abstraction::Abstraction;
use std::alloc::{AllocError, Global};
use std::marker::Model;
use step_flows::after;

/// What may be true in a client's procedures, and what follows from it over steps and procedure calls. It borrows the four values
/// that it was made from, which contracts see.
#[derive(Debug, Drop)]
pub struct BooleanClient<'a> {
    setting: Setting<'a>,
    names: Names,
    /// By call and clause.
    clauses: Vec<Vec<Vec<Fact>>>,
}

impl<'a> Model for BooleanClient<'a> {
    ghost use Rattle.boolean_client.specs.Bounds.{HasFewFacts};
    ghost use Rattle.boolean_client.specs.ClauseTables.{AreClauseFacts};
    ghost use Rattle.client_facts.specs.Held as held;
    ghost use Rattle.client_facts.specs.Held.{Held};
    ghost use Rattle.client_facts.specs.NameLists.{AreNamesOf};
    ghost use Rattle.client_model.specs.contracts.form.Node as node;
    ghost use Rattle.easl_model.specs.contracts.form.Act as act;
    ghost use Rattle.easl_model.specs.contracts.form.Test as test;
    ghost use Rattle.std.specs.Coded.{codes};
    ghost use Rattle.std.specs.Prelude.{length};

    ghost Value = { Held };

    ghost coded = { Prim.hlevel (codes, act.the_row.coded, test.the_row.coded, node.the_row.coded) };

    ghost view = { λ b. b.setting };

    ghost invariant = { λ b. AreNamesOf (held.setting b.setting) b.names
        × AreClauseFacts (held.setting b.setting) (length b.setting.client.calls) b.clauses.items
        × HasFewFacts (held.setting b.setting) };
}

/// The facts of a client, of the specification and the abstraction that it is checked by, and of its graph. `Facts` exactly where a
/// procedure has more than 65,536 facts, with the first one; it yields to `Memory`, where there is no memory left.
pub fn instantiate<'a>(
    alloc: Global,
    spec: &'a CheckedSpec,
    client: &'a CheckedClient,
    abstraction: &'a Abstraction,
    graph: &'a Graph,
) -> Result<BooleanClient<'a>, BigFault>
    requires fitting { IsFitting spec.now client.now }
    requires exact { HasExactEntries spec.now abstraction.now }
    requires graph { graph.now ≡ graph_of (seen client.now) }
    ensures made { IfOk result (λ b. b ≡ record { form = spec.now; client = client.now; abstraction = abstraction.now }) }
    ensures few { IfOk result (λ b. HasFewFacts (held.setting b)) }
    ensures big { IfErr result (IsBig (record { form = spec.now; client = seen client.now; abstraction = abstraction.now })) }
{
    let setting = Setting::new(spec, client, abstraction, graph);
    check_counts(&setting)?;
    whole(alloc, setting).map_err(|_| BigFault::Memory)
}

/// That of a setting.
fn whole<'a>(alloc: Global, setting: Setting<'a>) -> Result<BooleanClient<'a>, AllocError>
    requires { HasFewFacts (held.setting setting) }
    ensures { IfOk result (λ b. b ≡ setting.entry) }
{
    let Ok(names) = Names::of(alloc, &setting) else {
        return Err(AllocError);
    };
    let clauses = clause_table(alloc, &setting)?;
    Ok(BooleanClient {
        setting,
        names,
        clauses,
    })
}

impl<'a> BooleanClient<'a> {
    ghost use Rattle.std.specs.Prelude.{◌≡◌, ◌≢◌, ◌<◌, ◌≤◌, AllPairs, Contains, IfOk, length};
    ghost use Rattle.boolean_client.specs.ClauseTables.{AreFactsOf, clauses_at};
    ghost use Rattle.client_facts.specs.Facts.{IsFact};
    ghost use Rattle.client_facts.specs.Held as held;
    ghost use Rattle.client_facts.specs.Over.{IsAfter, IsEnteredFrom, IsReturnedFrom};
    ghost use Rattle.client_facts.specs.declared.fact.Fact as told;
    ghost use Rattle.client_model.specs.Checked.{seen};
    ghost use Rattle.flow_graph.specs.Points.{graph_of};

    /// The four values that it was made from.
    pub fn setting(&self) -> &Setting<'a>
        ensures { result.now ≡ self.now }
    {
        &self.setting
    }

    /// The specification.
    pub fn spec(&self) -> &'a CheckedSpec
        ensures { result.now ≡ self.now.form }
    {
        self.setting.spec()
    }

    /// The client.
    pub fn client(&self) -> &'a CheckedClient
        ensures { result.now ≡ self.now.client }
    {
        self.setting.client()
    }

    /// What is derived from the specification.
    pub fn abstraction(&self) -> &'a Abstraction
        ensures { result.now ≡ self.now.abstraction }
    {
        self.setting.abstraction()
    }

    /// Where the client's points go on.
    pub fn graph(&self) -> &'a Graph
        ensures { result.now ≡ graph_of (seen self.now.client) }
    {
        self.setting.graph()
    }

    /// The facts that make the clause of the call false, each once. Clauses are counted from 1. It takes no memory.
    pub fn clause_facts(&self, call: u32, clause: u32) -> &[Fact]
        requires call { call < length self.now.client.calls }
        requires first { 0 < clause }
        requires last { clause ≤ clauses_at (held.setting self.now) call }
        ensures { AreFactsOf (held.setting self.now) call clause result.now }
    {
        self.clauses[call as usize][clause as usize - 1].as_slice()
    }

    /// The facts that follow from this one over the step at the point, each once, at a test those of both points that come next. None
    /// where the point is a procedure call or the exit. `Memory` where there is no memory left.
    pub fn after(
        &self,
        alloc: Global,
        procedure: u32,
        point: u32,
        fact: &Fact,
    ) -> Result<Vec<Fact>, Memory>
        requires { IsFact (held.setting self.now) procedure point fact.now }
        ensures follow { IfOk result (λ facts. (f : told.Fact) → (Contains facts.items f → IsAfter (held.setting self.now) procedure point fact.now f)
            × (IsAfter (held.setting self.now) procedure point fact.now f → Contains facts.items f)) }
        ensures once { IfOk result (λ facts. AllPairs (λ x y. x ≢ y) facts.items) }
    {
        match after(alloc, &self.setting, &self.names, procedure, point, fact) {
            Ok(facts) => Ok(facts),
            Err(_) => Err(Memory),
        }
    }

    /// The entry facts of the called procedure that follow from this fact at the procedure call at the point under some slot choice,
    /// each once. None where the point is no procedure call. `Memory` where there is no memory left.
    pub fn entered(
        &self,
        alloc: Global,
        procedure: u32,
        point: u32,
        fact: &Fact,
    ) -> Result<Vec<Fact>, Memory>
        requires { IsFact (held.setting self.now) procedure point fact.now }
        ensures follow { IfOk result (λ facts. (f : told.Fact) →
            (Contains facts.items f → IsEnteredFrom (held.setting self.now) procedure point fact.now f)
            × (IsEnteredFrom (held.setting self.now) procedure point fact.now f → Contains facts.items f)) }
        ensures once { IfOk result (λ facts. AllPairs (λ x y. x ≢ y) facts.items) }
    {
        match entered(alloc, &self.setting, procedure, point, fact) {
            Ok(facts) => Ok(facts),
            Err(_) => Err(Memory),
        }
    }

    /// The facts behind the procedure call at the point that follow from the exit fact under a slot choice under which the entry fact
    /// follows from the one before the call, each once. None where the point is no procedure call. `Memory` where there is no memory left.
    pub fn returned(
        &self,
        alloc: Global,
        procedure: u32,
        point: u32,
        before: &Fact,
        entry: &Fact,
        exit: &Fact,
    ) -> Result<Vec<Fact>, Memory>
        ensures follow { IfOk result (λ facts. (h : told.Fact) →
            (Contains facts.items h → IsReturnedFrom (held.setting self.now) procedure point before.now entry.now exit.now h)
            × (IsReturnedFrom (held.setting self.now) procedure point before.now entry.now exit.now h → Contains facts.items h)) }
        ensures once { IfOk result (λ facts. AllPairs (λ x y. x ≢ y) facts.items) }
    {
        let returned = returned(
            alloc,
            &self.setting,
            &self.names,
            procedure,
            point,
            before,
            entry,
            exit,
        );
        match returned {
            Ok(facts) => Ok(facts),
            Err(_) => Err(Memory),
        }
    }
}
