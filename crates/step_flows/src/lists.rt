//! Lists of names among which are those of all facts that follow over a component call.
ghost use Rattle.std.specs.Prelude.{◌≡◌, ℕ, List, Some, All, Contains, IfOk, MatchOption, OnOk, slice_get};
ghost use Rattle.std.specs.List.{AllZip};
ghost use Rattle.client_facts.specs.Facts.{classes_of};
ghost use Rattle.client_facts.specs.Held as told;
ghost use Rattle.client_facts.specs.Names.{IsNameAt};
ghost use Rattle.client_facts.specs.NameLists.{AreNamesOf};
ghost use Rattle.client_facts.specs.declared.fact.Fact.{Fact as FactForm};
ghost use Rattle.step_flows.specs.Lists.{AreRight};
ghost use Rattle.step_flows.specs.Put.{IsKnownAs};
ghost use Rattle.step_flows.specs.Steps.{IsMadeAt};

use crate::fronts::{lengthened, no_names};
use crate::made::Made;
use crate::next::Next;
use crate::put::is_always;
use crate::vars::{known_name, takes_result};
use access_paths::Var;
use client_facts::{Args, Fact, Names, may_stand};
use method_abstraction::Disjunct;
use std::alloc::AllocError;

impl Next<'_> {
    /// Adds the name, if it may stand at a position of the class.
    fn add_name(&self, class: u32, code: u32, list: &mut Vec<u32>) -> Result<(), AllocError>
        ensures kept { OnOk result ((a : ℕ) → Contains list.old.items a → Contains list.new.items a) }
        ensures added { OnOk result (IsNameAt (told.setting self.now.setting.now) self.now.procedure self.now.point class code → Contains list.new.items code) }
    {
        if !may_stand(self.setting, self.procedure, self.point, class, code) {
            return Ok(());
        }
        list.push(code)?;
        Ok(())
    }

    /// Adds those of the names that may stand at a position of the class.
    fn add_names(&self, class: u32, codes: &[u32], list: &mut Vec<u32>) -> Result<(), AllocError>
        ensures kept { OnOk result ((a : ℕ) → Contains list.old.items a → Contains list.new.items a) }
        ensures added { OnOk result (All (λ code. IsNameAt (told.setting self.now.setting.now) self.now.procedure self.now.point class code
            → Contains list.new.items code) codes.now) }
    {
        'each: for code in codes {
            self.add_name(class, *code, list)?;
        }
        Ok(())
    }

    /// Names among which are all that may stand at a position of the class.
    fn all_names(&self, names: &Names, class: u32) -> Result<Vec<u32>, AllocError>
        requires { AreNamesOf (told.setting self.now.setting.now) names.now }
        ensures { IfOk result (λ v. (code : ℕ) → IsNameAt (told.setting self.now.setting.now) self.now.procedure self.now.point class code
            → Contains v.items code) }
    {
        let mut list = Vec::new(self.alloc);
        self.add_names(class, names.statics(class), &mut list)?;
        self.add_names(class, names.variables(self.procedure, class), &mut list)?;
        self.add_names(class, &[2, 6, 10, 3], &mut list)?;
        Ok(list)
    }

    /// The name, if there is one and it may stand at a position of the class.
    fn only_name(&self, class: u32, only: Option<u32>) -> Result<Vec<u32>, AllocError>
        ensures { IfOk result (λ v. (code : ℕ) → only ≡ Some code → IsNameAt (told.setting self.now.setting.now) self.now.procedure self.now.point class
            code → Contains v.items code) }
    {
        let Some(code) = only else {
            return Ok(Vec::new(self.alloc));
        };
        let mut list = Vec::new(self.alloc);
        self.add_name(class, code, &mut list)?;
        Ok(list)
    }
}

impl Made<'_> {
    /// What stands at this position after the call, if that is known; none may.
    fn known(&self, vars: &[Var], held: &[u32], position: usize) -> Option<Option<u32>>
        ensures { (args : List ℕ) (code : ℕ) → AreRight self.now.target self.now.asked.results self.now.asked.method.now self.now.asked.site.now vars.now
            held.now args
            → slice_get args position ≡ Some code → IsKnownAs result code }
    {
        if takes_result(self.asked.results, position) {
            return Some(self.target);
        }
        match known_name(vars, held, position) {
            Some(code) => Some(Some(code)),
            None => None,
        }
    }

    /// Names among which are all that may stand at this position, of the class, after the call.
    fn names_at(
        &self,
        vars: &[Var],
        held: &[u32],
        position: usize,
        class: u32,
    ) -> Result<Vec<u32>, AllocError>
        requires { AreNamesOf (told.setting self.now.next.now.setting.now) self.now.names.now }
        ensures { IfOk result (λ v. (args : List ℕ) (code : ℕ) → AreRight self.now.target self.now.asked.results self.now.asked.method.now
            self.now.asked.site.now vars.now held.now args
            → slice_get args position ≡ Some code → IsNameAt (told.setting self.now.next.now.setting.now) self.now.next.now.procedure
            self.now.next.now.point class code → Contains v.items code) }
    {
        match self.known(vars, held, position) {
            Some(only) => self.next.only_name(class, only),
            None => self.next.all_names(self.names, class),
        }
    }

    /// Lists among which are all names that facts may have after the call, where the variables have the held names before it.
    fn right_lists(
        &self,
        vars: &[Var],
        held: &[u32],
        classes: &[u32],
    ) -> Result<Vec<Args>, AllocError>
        requires { AreNamesOf (told.setting self.now.next.now.setting.now) self.now.names.now }
        ensures { IfOk result (λ v. (args : List ℕ) → AreRight self.now.target self.now.asked.results self.now.asked.method.now self.now.asked.site.now
            vars.now held.now args
            → AllZip (IsNameAt (told.setting self.now.next.now.setting.now) self.now.next.now.procedure self.now.next.now.point) classes.now args
            → Contains v.items args) }
    {
        let mut lists = no_names(self.next.alloc)?;
        'each: for (position, class) in classes.iter().enumerate() {
            let names = self.names_at(vars, held, position, *class)?;
            lists = lengthened(self.next.alloc, lists.as_slice(), names.as_slice())?;
        }
        Ok(lists)
    }

    /// The same for the variables of a disjunct with this family, where the fact is one with the held names.
    fn lists_of(
        &self,
        number: u32,
        vars: &[Var],
        family: u32,
        held: &[u32],
    ) -> Result<Vec<Args>, AllocError>
        requires { AreNamesOf (told.setting self.now.next.now.setting.now) self.now.names.now }
        ensures { IfOk result (λ v. (args : List ℕ) → number ≡ family → AreRight self.now.target self.now.asked.results self.now.asked.method.now
            self.now.asked.site.now vars.now held.now args
            → AllZip (IsNameAt (told.setting self.now.next.now.setting.now) self.now.next.now.procedure self.now.next.now.point)
            (classes_of (told.setting self.now.next.now.setting.now) self.now.family) args → Contains v.items args) }
    {
        if number != family {
            return Ok(Vec::new(self.next.alloc));
        }
        if !self.asked.may_be(vars, held) {
            return Ok(Vec::new(self.next.alloc));
        }
        self.right_lists(vars, held, self.next.setting.classes(self.family))
    }

    /// Lists among which are all names with which the family follows by the disjunct.
    pub fn lists(&self, disjunct: &Disjunct) -> Result<Vec<Args>, AllocError>
        requires { AreNamesOf (told.setting self.now.next.now.setting.now) self.now.names.now }
        ensures { IfOk result (λ v. (args : List ℕ) (f : FactForm)
            → IsMadeAt (told.setting self.now.next.now.setting.now) self.now.next.now.procedure self.now.next.now.point self.now.target
            self.now.asked.results self.now.asked.method.now self.now.asked.site.now
            self.now.fact.now self.now.family disjunct.now args f
            → Contains v.items args) }
    {
        match disjunct {
            Disjunct::Always => {
                if !is_always(self.fact) {
                    return Ok(Vec::new(self.next.alloc));
                }
                self.right_lists(&[], &[], self.next.setting.classes(self.family))
            }
            Disjunct::Of(number, vars) => match self.fact {
                Fact::Always => Ok(Vec::new(self.next.alloc)),
                Fact::Of { family, args } => {
                    self.lists_of(*number, vars.as_slice(), *family, args.as_slice())
                }
            },
        }
    }
}
