//! The facts of clauses.
ghost use Rattle.std.specs.Prelude.{◌≡◌, [], Some, Contains, AllPairs, IfOk, MatchOption, OnOk, ◌≢◌, slice_get};
ghost use Rattle.client_facts.specs.Flows.{IsClauseFact, IsPut, names_of_update};
ghost use Rattle.client_facts.specs.Held as told;
ghost use Rattle.client_facts.specs.declared.fact.Fact.{Fact as FactForm};
ghost use Rattle.client_model.specs.declared.form.CallSite.{CallSite as SiteForm};
ghost use Rattle.easl_model.specs.declared.form.Method.{Method as MethodForm};
ghost use Rattle.step_flows.specs.Adding.{Adds, IsBySome};
ghost use Rattle.step_flows.specs.Asking.{IsCalledAt, IsGivenBy};

use crate::names::Asked;
use client_facts::{Fact, FactSet, Setting};
use method_abstraction::{ClauseFacts, Disjunct};
use std::alloc::{AllocError, Global};

/// The facts of this clause of the component call, counted from 1: those whose truth before the call makes the clause false.
/// None where there is no such call or no such clause. `AllocError` where there is no memory left.
pub fn clause_facts(
    alloc: Global,
    setting: &Setting<'_>,
    call: u32,
    clause: u32,
) -> Result<Vec<Fact>, AllocError>
    ensures facts { IfOk result (λ facts. (f : FactForm) → (Contains facts.items f → IsClauseFact (told.setting setting.now) call clause f)
        × (IsClauseFact (told.setting setting.now) call clause f → Contains facts.items f)) }
    ensures once { IfOk result (λ facts. AllPairs (λ x y. x ≢ y) facts.items) }
{
    let mut facts = FactSet::new(alloc);
    add_clause_facts(alloc, setting, call, clause, &mut facts)?;
    facts.into_facts(alloc)
}

/// Adds the facts of the clause.
fn add_clause_facts(
    alloc: Global,
    setting: &Setting<'_>,
    call: u32,
    clause: u32,
    facts: &mut FactSet,
) -> Result<(), AllocError>
    ensures { OnOk result (Adds (IsClauseFact (told.setting setting.now) call clause) facts.old facts.new) }
{
    let Some(asked) = asked_at(setting, call) else {
        return Ok(());
    };
    let entries = setting.abstraction().clauses.as_slice();
    asked.add_clauses(alloc, clause, entries, facts)?;
    Ok(())
}

/// The question on the method of the component call of this number, with its result nowhere, None where there is no such call.
pub(crate) fn asked_at<'a>(setting: &Setting<'a>, call: u32) -> Option<Asked<'a>>
    ensures { MatchOption result ((site : SiteForm) (method : MethodForm) → IsCalledAt (told.setting setting.now) call site method → ⊥)
        (λ asked. IsCalledAt (told.setting setting.now) call asked.site.now asked.method.now × (asked.results ≡ 0)) }
{
    if call >= setting.client().call_count() {
        return None;
    }
    let site = setting.client().call(call);
    if site.method >= setting.spec().method_count() {
        return None;
    }
    Some(Asked {
        site,
        method: setting.spec().method(site.method),
        results: 0,
    })
}

impl Asked<'_> {
    /// Adds the fact that the disjunct gives.
    fn add_put(
        &self,
        alloc: Global,
        disjunct: &Disjunct,
        facts: &mut FactSet,
    ) -> Result<(), AllocError>
        ensures { OnOk result (Adds (IsPut (names_of_update self.now.results [] self.now.method.now self.now.site.now) disjunct.now) facts.old facts.new) }
    {
        let given = self.put(alloc, &[], disjunct)?;
        let Some(fact) = given else {
            return Ok(());
        };
        facts.insert(fact)?;
        Ok(())
    }

    /// Adds the facts that the disjuncts give.
    fn add_puts(
        &self,
        alloc: Global,
        disjuncts: &[Disjunct],
        facts: &mut FactSet,
    ) -> Result<(), AllocError>
        ensures { OnOk result (Adds (IsBySome (IsPut (names_of_update self.now.results [] self.now.method.now self.now.site.now)) disjuncts.now) facts.old
            facts.new) }
    {
        'each: for disjunct in disjuncts {
            self.add_put(alloc, disjunct, facts)?;
        }
        Ok(())
    }

    /// Adds the facts of the entry, where it is one on the clause of the method.
    fn add_clause(
        &self,
        alloc: Global,
        clause: u32,
        entry: &ClauseFacts,
        facts: &mut FactSet,
    ) -> Result<(), AllocError>
        ensures { OnOk result (Adds (IsGivenBy (names_of_update self.now.results [] self.now.method.now self.now.site.now) self.now.site.now.method clause
            entry.now) facts.old facts.new) }
    {
        if entry.method != self.site.method {
            return Ok(());
        }
        if entry.clause != clause {
            return Ok(());
        }
        self.add_puts(alloc, entry.disjuncts.as_slice(), facts)?;
        Ok(())
    }

    /// Adds the facts of those entries that are on the clause of the method.
    fn add_clauses(
        &self,
        alloc: Global,
        clause: u32,
        entries: &[ClauseFacts],
        facts: &mut FactSet,
    ) -> Result<(), AllocError>
        ensures { OnOk result (Adds (IsBySome (IsGivenBy (names_of_update self.now.results [] self.now.method.now self.now.site.now)
            self.now.site.now.method clause) entries.now) facts.old facts.new) }
    {
        'each: for entry in entries {
            self.add_clause(alloc, clause, entry, facts)?;
        }
        Ok(())
    }
}
