//! What stands behind a block, where its names are no longer in scope, and behind both blocks of an `if`.
ghost use Rattle.std.specs.Prelude.{◌≡◌, ◌&&◌, ◌||◌, ℕ, IfOk, OnOk, drop, filter, length, not, take};
ghost use Rattle.client_bodies.specs.Walking.{AreWithin, is_among, is_one_of, is_own, outside_of, own_of, put_back};
ghost use Rattle.client_model.specs.Codes.{variable_code};
ghost use Rattle.set_names.specs.Names.{is_assigned, is_in};
ghost use Rattle.client_values.specs.Knowing.{is_marked};

use client_values::{Assigned, Context, Fault};
use set_names::NamesSoFar;
use sqlite_items::Items;
use std::alloc::{AllocError, Global};

/// What stood before a block: how many names were in scope and how many variables assigned, whether everything was assigned,
/// whether the block is reached, and whether a `while` holds it.
#[derive(Clone, Copy, Debug, PartialEq, Eq)]
pub(crate) struct Outside {
    pub(crate) scope: usize,
    pub(crate) trail: usize,
    pub(crate) everything: bool,
    pub(crate) reached: bool,
    pub(crate) looped: bool,
}

/// What a block assigns: these variables; or everything, where it does not go on.
#[derive(Drop)]
pub(crate) struct Own {
    pub(crate) numbers: Items<u32>,
    pub(crate) everything: bool,
}

/// What stands before a block that begins here.
pub(crate) fn outside_of(context: &Context) -> Outside
    ensures { result ≡ outside_of context.now }
{
    Outside {
        scope: context.scope.len(),
        trail: context.assigned.names.trail().len(),
        everything: context.assigned.everything,
        reached: context.reached,
        looped: context.looped,
    }
}

/// A copy of the numbers behind the first so many.
fn numbers_behind(alloc: Global, numbers: &[u32], first: usize) -> Result<Items<u32>, AllocError>
    ensures { IfOk result (λ copy. copy ≡ drop first numbers.now) }
{
    let mut copy = Items::new(alloc);
    'each: for at in first..numbers.len() {
        copy.push(numbers[at])?;
    }
    Ok(copy)
}

/// Those of these variables that are assigned at the end of a block; all, where it does not go on.
pub(crate) fn assigned_of(
    alloc: Global,
    assigned: &Assigned,
    goes_on: bool,
    numbers: &[u32],
) -> Result<Items<u32>, AllocError>
    ensures { IfOk result (λ both. both
        ≡ filter (λ k. (assigned.now.everything || not goes_on) || is_in assigned.now.names.trail k) numbers.now) }
{
    let mut both = Items::new(alloc);
    'each: for number in numbers {
        if (assigned.everything || !goes_on) || assigned.names.is_set(*number) {
            both.push(*number)?;
        }
    }
    Ok(both)
}

/// Goes behind a block, where this stood before it. The answer is what the block assigns, everything where it does not go on.
pub(crate) fn leave(
    alloc: Global,
    context: &mut Context,
    outside: Outside,
    goes_on: bool,
) -> Result<Own, AllocError>
    ensures context { OnOk result (context.new ≡ put_back outside context.old) }
    ensures own { IfOk result (λ own. own ≡ own_of outside context.old goes_on) }
    ensures within { AreWithin context.old.assigned.names.variables context.old.assigned.names.trail }
{
    let numbers = numbers_behind(alloc, context.assigned.names.trail(), outside.trail)?;
    let everything = context.assigned.everything || !goes_on;
    context.scope.truncate(outside.scope);
    context.assigned.names.cut(outside.trail)?;
    context.assigned.everything = outside.everything;
    context.reached = outside.reached;
    context.looped = outside.looped;
    Ok(Own {
        numbers,
        everything,
    })
}

/// Assigns these variables.
fn set_all(names: &mut NamesSoFar, numbers: &[u32]) -> Result<(), AllocError>
    ensures assigned { OnOk result (AreWithin names.old.variables numbers.now
        → (code : ℕ) → is_assigned names.new code ≡ (is_assigned names.old code || is_one_of numbers.now code)) }
    ensures grows { OnOk result (take (length names.old.trail) names.new.trail ≡ names.old.trail) }
    ensures others { OnOk result (names.new ≡ record names.old { trail = names.new.trail }) }
{
    'each: for number in numbers {
        names.set(*number)?;
    }
    Ok(())
}

/// The same, where they are wanted.
fn set_if(wanted: bool, names: &mut NamesSoFar, numbers: &[u32]) -> Result<(), AllocError>
    ensures assigned { OnOk result (AreWithin names.old.variables numbers.now
        → (code : ℕ) → is_assigned names.new code ≡ (is_assigned names.old code || (wanted && is_one_of numbers.now code))) }
    ensures grows { OnOk result (take (length names.old.trail) names.new.trail ≡ names.old.trail) }
    ensures others { OnOk result (names.new ≡ record names.old { trail = names.new.trail }) }
{
    if wanted {
        set_all(names, numbers)
    } else {
        Ok(())
    }
}

/// What is known behind a block: the first fault so far, whether the block goes on, what it assigns, and which of the variables
/// that were asked for are assigned at its end.
#[derive(Drop)]
pub(crate) struct Block {
    pub(crate) found: Option<Fault>,
    pub(crate) goes_on: bool,
    pub(crate) own: Own,
    pub(crate) both: Items<u32>,
}

/// Goes behind an `if` with these blocks, the second of which was asked for what the first assigns.
pub(crate) fn join(context: &mut Context, one: &Block, other: &Block) -> Result<(), AllocError>
    ensures context { OnOk result (context.new ≡ record context.old {
      assigned = context.new.assigned;
      reached = context.old.reached && (one.now.goes_on || other.now.goes_on);
    }) }
    ensures assigned { OnOk result (AreWithin context.old.assigned.names.variables one.now.own.numbers
        → AreWithin context.old.assigned.names.variables other.now.own.numbers
        → other.now.both ≡ filter (λ k. is_among context.old.assigned (variable_code k) || is_own other.now.own (variable_code k)) one.now.own.numbers
        → (code : ℕ) → is_marked context.new.assigned code
        ≡ ((is_among context.old.assigned code || is_own one.now.own code) && (is_among context.old.assigned code || is_own other.now.own code))) }
    ensures everything { OnOk result (context.new.assigned.everything ≡ (one.now.own.everything && other.now.own.everything)) }
    ensures names { OnOk result (context.new.assigned.names ≡ record context.old.assigned.names { trail = context.new.assigned.names.trail }) }
    ensures grows { OnOk result (take (length context.old.assigned.names.trail) context.new.assigned.names.trail ≡ context.old.assigned.names.trail) }
{
    set_all(&mut context.assigned.names, other.both.as_slice())?;
    set_if(
        one.own.everything,
        &mut context.assigned.names,
        other.own.numbers.as_slice(),
    )?;
    context.assigned.everything = one.own.everything && other.own.everything;
    context.reached = context.reached && (one.goes_on || other.goes_on);
    Ok(())
}
