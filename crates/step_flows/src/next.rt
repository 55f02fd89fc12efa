//! The point that a step leads to, and its facts.
ghost use Rattle.std.specs.Prelude.{OnOk};
ghost use Rattle.client_facts.specs.Held as told;
ghost use Rattle.step_flows.specs.Adding.{Adds, IsBySome};
ghost use Rattle.step_flows.specs.Steps.{IsCopied, IsCopyAt, IsThisAt};

use crate::copies::{are_copied, copied_lists};
use client_facts::{Args, Fact, FactSet, Setting, is_fact};
use std::alloc::{AllocError, Global};

/// The point of the procedure that a step leads to.
#[derive(Clone, Copy)]
pub(crate) struct Next<'a> {
    pub alloc: Global,
    pub setting: &'a Setting<'a>,
    pub procedure: u32,
    pub point: u32,
}

impl Next<'_> {
    /// Adds the fact if it is one of the point.
    pub fn add(&self, fact: Fact, facts: &mut FactSet) -> Result<(), AllocError>
        ensures { OnOk result (Adds (IsThisAt (told.setting self.now.setting.now) self.now.procedure self.now.point fact) facts.old facts.new) }
    {
        if !is_fact(self.setting, self.procedure, self.point, &fact) {
            return Ok(());
        }
        facts.insert(fact)?;
        Ok(())
    }

    /// Adds the family with these names, if it had the others before the copy and is a fact of the point.
    fn add_copy(
        &self,
        target: Option<u32>,
        source: Option<u32>,
        family: u32,
        before: &[u32],
        args: &Args,
        facts: &mut FactSet,
    ) -> Result<(), AllocError>
        ensures { OnOk result (Adds (IsCopyAt (told.setting self.now.setting.now) self.now.procedure self.now.point target source family before.now
            args.now) facts.old facts.new) }
    {
        if !are_copied(target, source, args.as_slice(), before) {
            return Ok(());
        }
        let args = args.twin(self.alloc)?;
        self.add(Fact::Of { family, args }, facts)?;
        Ok(())
    }

    /// Adds the family with each of these lists for which it is so.
    fn add_copies(
        &self,
        target: Option<u32>,
        source: Option<u32>,
        family: u32,
        before: &[u32],
        lists: &[Args],
        facts: &mut FactSet,
    ) -> Result<(), AllocError>
        ensures { OnOk result (Adds (IsBySome (IsCopyAt (told.setting self.now.setting.now) self.now.procedure self.now.point target source family
            before.now) lists.now) facts.old facts.new) }
    {
        'each: for args in lists {
            self.add_copy(target, source, family, before, args, facts)?;
        }
        Ok(())
    }

    /// Adds the facts of the point that are the family with these names before the copy.
    pub fn add_copied(
        &self,
        target: Option<u32>,
        source: Option<u32>,
        family: u32,
        before: &[u32],
        facts: &mut FactSet,
    ) -> Result<(), AllocError>
        ensures { OnOk result (Adds (IsCopied (told.setting self.now.setting.now) self.now.procedure self.now.point target source family before.now)
            facts.old facts.new) }
    {
        let lists = copied_lists(self.alloc, target, source, before)?;
        self.add_copies(target, source, family, before, lists.as_slice(), facts)?;
        Ok(())
    }
}
