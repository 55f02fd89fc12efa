//! What follows over a step.
ghost use Rattle.std.specs.Prelude.{◌≢◌, Contains, AllPairs, IfOk, OnOk};
ghost use Rattle.client_facts.specs.Held as told;
ghost use Rattle.client_facts.specs.Facts.{IsFact};
ghost use Rattle.client_facts.specs.NameLists.{AreNamesOf};
ghost use Rattle.client_facts.specs.Over.{IsAfter};
ghost use Rattle.client_facts.specs.declared.fact.Fact.{Fact as FactForm};
ghost use Rattle.step_flows.specs.Adding.{Adds};
ghost use Rattle.step_flows.specs.Steps.{ComesNext, ComesOn};

use crate::next::Next;
use client_facts::{Fact, FactSet, Names, Setting};
use client_model::Point;
use std::alloc::{AllocError, Global};

/// What follows from the fact over the step at this point of the procedure, if that is no procedure call: the facts of the points
/// that come next, at a test those of both. None behind a procedure call, and where there is no such point. `names` are those of
/// the setting. `AllocError` where there is no memory left.
pub fn after(
    alloc: Global,
    setting: &Setting<'_>,
    names: &Names,
    procedure: u32,
    point: u32,
    fact: &Fact,
) -> Result<Vec<Fact>, AllocError>
    requires names { AreNamesOf (told.setting setting.now) names.now }
    requires fact { IsFact (told.setting setting.now) procedure point fact.now }
    ensures follow { IfOk result (λ facts. (f : FactForm) → (Contains facts.items f → IsAfter (told.setting setting.now) procedure point fact.now f)
        × (IsAfter (told.setting setting.now) procedure point fact.now f → Contains facts.items f)) }
    ensures once { IfOk result (λ facts. AllPairs (λ x y. x ≢ y) facts.items) }
{
    let mut facts = FactSet::new(alloc);
    let steps = Steps {
        alloc,
        setting,
        names,
        procedure,
        fact,
    };
    steps.add_after(point, &mut facts)?;
    facts.into_facts(alloc)
}

/// The steps of a procedure, and a fact before one.
#[derive(Clone, Copy)]
struct Steps<'a> {
    alloc: Global,
    setting: &'a Setting<'a>,
    names: &'a Names,
    procedure: u32,
    fact: &'a Fact,
}

impl Steps<'_> {
    /// Adds what follows over the step at the point.
    fn add_after(&self, point: u32, facts: &mut FactSet) -> Result<(), AllocError>
        requires { AreNamesOf (told.setting self.now.setting.now) self.now.names.now }
        ensures { OnOk result (Adds (IsAfter (told.setting self.now.setting.now) self.now.procedure point self.now.fact.now) facts.old facts.new) }
    {
        let Some(here) = self.setting.point(self.procedure, point) else {
            return Ok(());
        };
        let Some(ways) = self.setting.ways(self.procedure, point) else {
            return Ok(());
        };
        self.add_on(here, ways, facts)?;
        Ok(())
    }

    /// Adds what follows over what is done here, on both ways at a test, and else on that of T.
    fn add_on(&self, here: &Point, ways: (u32, u32), facts: &mut FactSet) -> Result<(), AllocError>
        requires { AreNamesOf (told.setting self.now.setting.now) self.now.names.now }
        ensures { OnOk result (Adds (ComesOn (told.setting self.now.setting.now) self.now.procedure ways here.now self.now.fact.now) facts.old facts.new) }
    {
        match here {
            Point::Call(..) => Ok(()),
            Point::Branch(_) => {
                self.add_next(here, ways.0, facts)?;
                self.add_next(here, ways.1, facts)?;
                Ok(())
            }
            Point::Copy(..) => {
                self.add_next(here, ways.0, facts)?;
                Ok(())
            }
            Point::Component(..) => {
                self.add_next(here, ways.0, facts)?;
                Ok(())
            }
            Point::Nothing => {
                self.add_next(here, ways.0, facts)?;
                Ok(())
            }
        }
    }

    /// Adds what follows over what is done here, and is a fact of the point that comes next.
    fn add_next(&self, here: &Point, point: u32, facts: &mut FactSet) -> Result<(), AllocError>
        requires { AreNamesOf (told.setting self.now.setting.now) self.now.names.now }
        ensures { OnOk result (Adds (ComesNext (told.setting self.now.setting.now) self.now.procedure point here.now self.now.fact.now) facts.old facts.new) }
    {
        let next = Next {
            alloc: self.alloc,
            setting: self.setting,
            procedure: self.procedure,
            point,
        };
        match here {
            Point::Copy(target, source) => {
                next.add_after_copy(*target, *source, self.fact, facts)?;
                Ok(())
            }
            Point::Component(target, call) => {
                next.add_after_call(self.names, *target, *call, self.fact, facts)?;
                Ok(())
            }
            Point::Call(..) => {
                next.add_always(self.fact, facts)?;
                Ok(())
            }
            Point::Branch(call) => {
                next.add_after_test(self.names, *call, self.fact, facts)?;
                Ok(())
            }
            Point::Nothing => {
                next.add_same(self.fact, facts)?;
                Ok(())
            }
        }
    }
}
