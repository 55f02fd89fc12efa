//! The way back from a called procedure.
ghost use Rattle.std.specs.Prelude.{◌≡◌, ℕ, Contains, IfOk, Some};
ghost use Rattle.call_flows.specs.Found.{AreAll};
ghost use Rattle.call_flows.specs.Offers.{AreGivers, AreReturnOffers, HasGivers, IsReturnOffer};
ghost use Rattle.call_flows.specs.Told.{call_told};
ghost use Rattle.client_facts.specs.Facts.{IsFact};
ghost use Rattle.client_facts.specs.Held.{setting as told};
ghost use Rattle.client_facts.specs.NameLists.{AreNamesOf};
ghost use Rattle.client_facts.specs.Over.{ReturnsAt};

use crate::entry::{one_code, slot_codes};
use crate::found::{found_always, found_listed};
use crate::given::given_by;
use crate::lists::{all_lists, no_codes, push_codes};
use crate::name::{Name, name_of};
use crate::search::Wanted;
use crate::site::Site;
use client_facts::{Args, Fact, FactSet, Names, Setting};
use std::alloc::{AllocError, Global};

/// The way back over a procedure call, with a fact before the call and an entry fact. The names are those of the setting.
#[derive(Clone, Copy)]
pub(crate) struct Back<'a> {
    pub(crate) alloc: Global,
    pub(crate) setting: &'a Setting<'a>,
    pub(crate) names: &'a Names,
    pub(crate) site: Site<'a>,
    pub(crate) before: &'a Fact,
    pub(crate) entry: &'a Fact,
}

impl Back<'_> {
    /// The names that may be given to a slot of the class.
    fn all_givers(&self, class: u32) -> Result<Args, AllocError>
        requires { AreNamesOf (told self.now.setting.now) self.now.names.now }
        ensures { IfOk result (AreGivers (told self.now.setting.now) self.now.site class) }
    {
        let mut codes = slot_codes(self.alloc)?;
        push_codes(&mut codes, self.names.variables(self.site.procedure, class))?;
        Ok(codes)
    }

    /// The names that the slot of the class, which has this code, may have been given: the one that the facts tell, else all.
    fn givers(&self, class: u32, code: u32) -> Result<Args, AllocError>
        requires { AreNamesOf (told self.now.setting.now) self.now.names.now }
        ensures { IfOk result (HasGivers (told self.now.setting.now) self.now.site self.now.before.now self.now.entry.now class code) }
    {
        match given_by(self.setting, self.before, self.entry, class, code) {
            Some(outer) => one_code(self.alloc, outer),
            None => self.all_givers(class),
        }
    }

    /// The name that takes the result, if one does.
    fn targets(&self) -> Result<Args, AllocError>
        ensures { IfOk result (λ offers. (a : ℕ) → self.now.site.target ≡ Some a → Contains offers a) }
    {
        match self.site.target {
            Some(target) => one_code(self.alloc, target),
            None => Ok(no_codes(self.alloc)),
        }
    }

    /// The names of the caller that may stand behind the call for the name of what was called, which has this code.
    fn offers(&self, class: u32, code: u32) -> Result<Args, AllocError>
        requires { AreNamesOf (told self.now.setting.now) self.now.names.now }
        ensures { IfOk result (IsReturnOffer (told self.now.setting.now) self.now.site self.now.before.now self.now.entry.now class code) }
    {
        match name_of(code) {
            Name::Static(_) => one_code(self.alloc, code),
            Name::Variable(_) => Ok(no_codes(self.alloc)),
            Name::Slot(_) => self.givers(class, code),
            Name::Result(_) => self.targets(),
        }
    }

    /// Those for each name at places of these classes; none where there is not one for each.
    fn all_offers(&self, classes: &[u32], codes: &[u32]) -> Result<Vec<Args>, AllocError>
        requires { AreNamesOf (told self.now.setting.now) self.now.names.now }
        ensures { IfOk result (λ places. AreReturnOffers (told self.now.setting.now) self.now.site self.now.before.now self.now.entry.now
            classes.now codes.now places.items) }
    {
        let mut places = Vec::new(self.alloc);
        if codes.len() != classes.len() {
            return Ok(places);
        }
        'each: for at in 0..classes.len() {
            let offers = self.offers(classes[at], codes[at])?;
            places.push(offers)?;
        }
        Ok(places)
    }

    /// All facts behind the call that follow where the entry fact leads to this exit fact.
    pub(crate) fn facts(&self, exit: &Fact) -> Result<FactSet, AllocError>
        requires { AreNamesOf (told self.now.setting.now) self.now.names.now }
        ensures { IfOk result (AreAll (λ f. ReturnsAt (told self.now.setting.now) self.now.site.procedure self.now.site.point
            (call_told self.now.site) self.now.before.now self.now.entry.now exit.now f
            × IsFact (told self.now.setting.now) self.now.site.procedure self.now.site.next f)) }
    {
        let wanted = Wanted::Return {
            before: self.before,
            entry: self.entry,
            exit,
        };
        match exit {
            Fact::Always => found_always(self.alloc, self.setting, &self.site, &wanted),
            Fact::Of { family, args } => {
                let classes = self.setting.classes(*family);
                let places = self.all_offers(classes, args.as_slice())?;
                let lists = all_lists(self.alloc, places.as_slice())?;
                found_listed(
                    self.alloc,
                    self.setting,
                    &self.site,
                    &wanted,
                    *family,
                    lists.as_slice(),
                )
            }
        }
    }
}
