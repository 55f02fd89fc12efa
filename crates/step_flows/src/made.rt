//! What follows over a component call.
ghost use Rattle.std.specs.Prelude.{◌≡◌, OnOk};
ghost use Rattle.client_facts.specs.Held as told;
ghost use Rattle.client_facts.specs.NameLists.{AreNamesOf};
ghost use Rattle.step_flows.specs.Adding.{Adds, IsBySome};
ghost use Rattle.step_flows.specs.Steps.{IsMade, IsMadeAt, IsMadeBy};

use crate::names::Asked;
use crate::next::Next;
use crate::positions::are_positions;
use client_facts::{Args, Fact, FactSet, Names};
use method_abstraction::{Disjunct, Update};
use std::alloc::AllocError;

/// A family that may follow from a fact over a component call whose result is assigned to a name: the question asks for it with
/// its result at some positions.
#[derive(Clone, Copy)]
pub(crate) struct Made<'a> {
    pub next: &'a Next<'a>,
    pub names: &'a Names,
    pub target: Option<u32>,
    pub asked: Asked<'a>,
    pub fact: &'a Fact,
    pub family: u32,
}

impl Made<'_> {
    /// Adds the family with these names, if it follows by the disjunct and is a fact of the point.
    fn add_one(
        &self,
        disjunct: &Disjunct,
        args: &Args,
        facts: &mut FactSet,
    ) -> Result<(), AllocError>
        ensures { OnOk result (Adds (IsMadeAt (told.setting self.now.next.now.setting.now) self.now.next.now.procedure self.now.next.now.point
            self.now.target self.now.asked.results self.now.asked.method.now self.now.asked.site.now
            self.now.fact.now self.now.family disjunct.now args.now) facts.old facts.new) }
    {
        if !are_positions(self.asked.results, self.target, args.as_slice()) {
            return Ok(());
        }
        if !self.asked.is_put(args.as_slice(), disjunct, self.fact) {
            return Ok(());
        }
        let args = args.twin(self.next.alloc)?;
        let family = self.family;
        self.next.add(Fact::Of { family, args }, facts)?;
        Ok(())
    }

    /// Adds the family with each of the lists for which it is so.
    fn add_each(
        &self,
        disjunct: &Disjunct,
        lists: &[Args],
        facts: &mut FactSet,
    ) -> Result<(), AllocError>
        ensures { OnOk result (Adds (IsBySome (IsMadeAt (told.setting self.now.next.now.setting.now) self.now.next.now.procedure self.now.next.now.point
            self.now.target self.now.asked.results self.now.asked.method.now self.now.asked.site.now
            self.now.fact.now self.now.family disjunct.now) lists.now) facts.old facts.new) }
    {
        'each: for args in lists {
            self.add_one(disjunct, args, facts)?;
        }
        Ok(())
    }

    /// Adds what follows by the disjunct.
    fn add_by(&self, disjunct: &Disjunct, facts: &mut FactSet) -> Result<(), AllocError>
        requires { AreNamesOf (told.setting self.now.next.now.setting.now) self.now.names.now }
        ensures { OnOk result (Adds (IsMade (told.setting self.now.next.now.setting.now) self.now.next.now.procedure self.now.next.now.point self.now.target
            self.now.asked.results self.now.asked.method.now self.now.asked.site.now
            self.now.fact.now self.now.family disjunct.now) facts.old facts.new) }
    {
        let lists = self.lists(disjunct)?;
        self.add_each(disjunct, lists.as_slice(), facts)?;
        Ok(())
    }

    /// Adds what follows by some of the disjuncts.
    fn add_by_some(&self, disjuncts: &[Disjunct], facts: &mut FactSet) -> Result<(), AllocError>
        requires { AreNamesOf (told.setting self.now.next.now.setting.now) self.now.names.now }
        ensures { OnOk result (Adds (IsBySome (IsMade (told.setting self.now.next.now.setting.now) self.now.next.now.procedure self.now.next.now.point
            self.now.target self.now.asked.results self.now.asked.method.now self.now.asked.site.now
            self.now.fact.now self.now.family) disjuncts.now) facts.old facts.new) }
    {
        'each: for disjunct in disjuncts {
            self.add_by(disjunct, facts)?;
        }
        Ok(())
    }
}

/// A component call, and a fact before it.
#[derive(Clone, Copy)]
pub(crate) struct Called<'a> {
    pub next: &'a Next<'a>,
    pub names: &'a Names,
    pub target: Option<u32>,
    pub asked: Asked<'a>,
    pub fact: &'a Fact,
}

impl Called<'_> {
    /// Adds what follows by the entry, if it is one on the method.
    fn add_update(&self, update: &Update, facts: &mut FactSet) -> Result<(), AllocError>
        requires { AreNamesOf (told.setting self.now.next.now.setting.now) self.now.names.now }
        ensures { OnOk result (Adds (IsMadeBy (told.setting self.now.next.now.setting.now) self.now.next.now.procedure self.now.next.now.point
            self.now.target self.now.asked.method.now self.now.asked.site.now
            self.now.fact.now update.now) facts.old facts.new) }
    {
        if update.method != self.asked.site.method {
            return Ok(());
        }
        let made = Made {
            next: self.next,
            names: self.names,
            target: self.target,
            asked: Asked {
                site: self.asked.site,
                method: self.asked.method,
                results: update.results,
            },
            fact: self.fact,
            family: update.family,
        };
        made.add_by_some(update.disjuncts.as_slice(), facts)?;
        Ok(())
    }

    /// Adds what follows by the entries on the method.
    pub fn add_updates(&self, updates: &[Update], facts: &mut FactSet) -> Result<(), AllocError>
        requires { AreNamesOf (told.setting self.now.next.now.setting.now) self.now.names.now }
        ensures { OnOk result (Adds (IsBySome (IsMadeBy (told.setting self.now.next.now.setting.now) self.now.next.now.procedure self.now.next.now.point
            self.now.target self.now.asked.method.now self.now.asked.site.now
            self.now.fact.now) updates.now) facts.old facts.new) }
    {
        'each: for update in updates {
            self.add_update(update, facts)?;
        }
        Ok(())
    }
}
