//! The facts of all clauses, by call and clause.
ghost use Rattle.std.specs.Prelude.{◌≡◌, ◌<◌, IfOk, length};
ghost use Rattle.boolean_client.specs.ClauseTables.{AreClauseFacts, AreFirstFacts, clauses_at};
ghost use Rattle.client_facts.specs.Held as held;

use client_facts::{Fact, Setting};
use std::alloc::{AllocError, Global};
use step_flows::clause_facts;

/// The facts of each clause of each call.
pub(crate) fn clause_table(
    alloc: Global,
    setting: &Setting<'_>,
) -> Result<Vec<Vec<Vec<Fact>>>, AllocError>
    ensures { IfOk result (λ table. AreClauseFacts (held.setting setting.now) (length setting.now.client.calls) table.items) }
{
    let mut table = Vec::new(alloc);
    'each: for call in 0..setting.client().call_count() {
        let row = facts_of_call(alloc, setting, call)?;
        table.push(row)?;
    }
    Ok(table)
}

/// The facts of each clause of the call.
fn facts_of_call(
    alloc: Global,
    setting: &Setting<'_>,
    call: u32,
) -> Result<Vec<Vec<Fact>>, AllocError>
    requires { call < length setting.now.client.calls }
    ensures { IfOk result (λ row. AreFirstFacts (held.setting setting.now) call (clauses_at (held.setting setting.now) call) row.items) }
{
    let mut row = Vec::new(alloc);
    'each: for number in 0..clause_count(setting, call) {
        let facts = clause_facts(alloc, setting, call, number + 1)?;
        row.push(facts)?;
    }
    Ok(row)
}

/// How many clauses the method of the call has; none where there is no such method, which a client that fits never calls.
fn clause_count(setting: &Setting<'_>, call: u32) -> u32
    requires { call < length setting.now.client.calls }
    ensures { result ≡ clauses_at (held.setting setting.now) call }
{
    let method = setting.client().call(call).method;
    if method >= setting.spec().method_count() {
        return 0;
    }
    setting.spec().method(method).clauses.len() as u32
}
