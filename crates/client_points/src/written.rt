//! What is written of statements.
ghost use Rattle.std.specs.Prelude.{◌≡◌, ◌∷◌, ◌++◌, [], OnOk, option_to_list};
ghost use Rattle.client_model.specs.Statements.{Assign, statement_of};
ghost use Rattle.client_points.specs.Writing.{at, written_with};
ghost use Rattle.client_model.specs.Contexts as contexts;
ghost use Rattle.client_values.specs.Knowing.{Knows};

use crate::points::{assigned_point, declared_by, point_of};
use crate::sites::{site_of, site_of_value};
use client_model::{CallSite, Point, Rhs, Stmt};
use client_values::{Context, Setting};
use easl_model::Word;
use sqlite_items::Items;
use std::alloc::{AllocError, Global};

/// What is done at the points of a procedure so far, the classes of its variables, None for an opaque one, and the calls of
/// the client.
#[derive(Debug, Drop)]
pub struct Written {
    pub points: Items<Point>,
    pub variables: Items<Option<u32>>,
    pub calls: Items<CallSite>,
}

/// Adds this item, where there is one.
fn add<T: Drop>(items: &mut Items<T>, item: Option<T>) -> Result<(), AllocError>
    ensures { OnOk result (items.new ≡ items.old ++ option_to_list item) }
{
    match item {
        Some(item) => {
            items.push(item)?;
            Ok(())
        }
        None => Ok(()),
    }
}

impl Written {
    /// Writes a statement, what it holds aside.
    #[tactic(auto, using(crate::proofs::Adding::one_written))]
    pub fn note(
        &mut self,
        alloc: Global,
        setting: &Setting<'_>,
        context: &Context,
        item: &Stmt,
    ) -> Result<(), AllocError>
        ensures { OnOk result ((c : contexts.Context) → Knows c context.now → self.new ≡ written_with (at setting.now c (statement_of item.now) ∷ []) self.old) }
    {
        self.points.push(point_of(alloc, setting, context, item)?)?;
        add(&mut self.variables, declared_by(setting, item))?;
        add(&mut self.calls, site_of(alloc, setting, context, item)?)?;
        Ok(())
    }
    /// Writes the assignment of a value to the variable.
    pub fn note_assigned(
        &mut self,
        alloc: Global,
        setting: &Setting<'_>,
        context: &Context,
        word: &Word,
        value: &Rhs,
    ) -> Result<(), AllocError>
        ensures { OnOk result ((c : contexts.Context) → Knows c context.now
            → self.new ≡ written_with (at setting.now c (Assign word.now value.now) ∷ []) self.old) }
    {
        self.points
            .push(assigned_point(alloc, setting, context, word, value)?)?;
        add(
            &mut self.calls,
            site_of_value(alloc, setting, context, value)?,
        )?;
        Ok(())
    }
}
