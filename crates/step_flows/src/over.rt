//! What follows over what is done at a point.
ghost use Rattle.std.specs.Prelude.{OnOk};
ghost use Rattle.client_facts.specs.Held as told;
ghost use Rattle.client_facts.specs.NameLists.{AreNamesOf};
ghost use Rattle.step_flows.specs.Adding.{Adds};
ghost use Rattle.client_model.specs.declared.form.Point.TheVariants as done;
ghost use Rattle.step_flows.specs.Steps.{ComesNext, IsAlwaysFrom, IsMadeAfter, IsThisAt};

use crate::clauses::asked_at;
use crate::made::Called;
use crate::next::Next;
use crate::put::is_always;
use client_facts::{Fact, FactSet, Names};
use cv_fix::Twin;
use std::alloc::AllocError;

impl Next<'_> {
    /// Adds the fact, if it is one of the point.
    pub fn add_same(&self, fact: &Fact, facts: &mut FactSet) -> Result<(), AllocError>
        ensures { OnOk result (Adds (IsThisAt (told.setting self.now.setting.now) self.now.procedure self.now.point fact.now) facts.old facts.new) }
    {
        let Ok(fact) = fact.twin(self.alloc) else {
            return Err(AllocError);
        };
        self.add(fact, facts)?;
        Ok(())
    }

    /// Adds what is always true, if the fact before is that.
    pub fn add_always(&self, fact: &Fact, facts: &mut FactSet) -> Result<(), AllocError>
        ensures { OnOk result (Adds (IsAlwaysFrom fact.now) facts.old facts.new) }
    {
        if !is_always(fact) {
            return Ok(());
        }
        facts.insert(Fact::Always)?;
        Ok(())
    }

    /// Adds what follows over a copy.
    pub fn add_after_copy(
        &self,
        target: Option<u32>,
        source: Option<u32>,
        fact: &Fact,
        facts: &mut FactSet,
    ) -> Result<(), AllocError>
        ensures { OnOk result (Adds (ComesNext (told.setting self.now.setting.now) self.now.procedure self.now.point (done.Copy target source) fact.now)
            facts.old facts.new) }
    {
        match fact {
            Fact::Always => {
                facts.insert(Fact::Always)?;
                Ok(())
            }
            Fact::Of { family, args } => {
                self.add_copied(target, source, *family, args.as_slice(), facts)?;
                Ok(())
            }
        }
    }

    /// Adds what follows over the component call of this number.
    pub fn add_after_call(
        &self,
        names: &Names,
        target: Option<u32>,
        call: u32,
        fact: &Fact,
        facts: &mut FactSet,
    ) -> Result<(), AllocError>
        requires { AreNamesOf (told.setting self.now.setting.now) names.now }
        ensures { OnOk result (Adds (ComesNext (told.setting self.now.setting.now) self.now.procedure self.now.point (done.Component target call) fact.now)
            facts.old facts.new) }
    {
        self.add_always(fact, facts)?;
        self.add_made(names, target, call, fact, facts)?;
        Ok(())
    }

    /// Adds what follows over a test, which makes the component call of this number first if there is one.
    pub fn add_after_test(
        &self,
        names: &Names,
        call: Option<u32>,
        fact: &Fact,
        facts: &mut FactSet,
    ) -> Result<(), AllocError>
        requires { AreNamesOf (told.setting self.now.setting.now) names.now }
        ensures { OnOk result (Adds (ComesNext (told.setting self.now.setting.now) self.now.procedure self.now.point (done.Branch call) fact.now) facts.old
            facts.new) }
    {
        match call {
            None => {
                self.add_same(fact, facts)?;
                Ok(())
            }
            Some(call) => {
                self.add_after_call(names, None, call, fact, facts)?;
                Ok(())
            }
        }
    }

    /// Adds the families that follow over the component call of this number.
    fn add_made(
        &self,
        names: &Names,
        target: Option<u32>,
        call: u32,
        fact: &Fact,
        facts: &mut FactSet,
    ) -> Result<(), AllocError>
        requires { AreNamesOf (told.setting self.now.setting.now) names.now }
        ensures { OnOk result (Adds (IsMadeAfter (told.setting self.now.setting.now) self.now.procedure self.now.point target call fact.now) facts.old
            facts.new) }
    {
        let Some(asked) = asked_at(self.setting, call) else {
            return Ok(());
        };
        let called = Called {
            next: self,
            names,
            target,
            asked,
            fact,
        };
        called.add_updates(self.setting.abstraction().updates.as_slice(), facts)?;
        Ok(())
    }
}
