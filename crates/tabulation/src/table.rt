//! Places of edges by context.
ghost use Rattle.std.specs.Prelude.{◌≡◌, ℕ, ◌<◌, OnOk, Some, length};
ghost use Rattle.client_facts.specs.NameLists.{IsListed, at_class, lists_in};

use client_facts::Fact;
use indexmap::IndexSet;
use std::alloc::{AllocError, Global};
use std::marker::Model;

/// A procedure and one of its entry facts.
#[derive(Debug, Drop, PartialEq, Eq, Hash)]
pub(crate) struct Context {
    pub(crate) procedure: u32,
    pub(crate) entry: Fact,
}

/// Lists of places, one for each context. Contexts are numbered in the order in which they came.
#[derive(Debug, Drop)]
pub(crate) struct Table {
    contexts: IndexSet<Context>,
    /// By number; a context behind the last list has no place.
    lists: Vec<Vec<usize>>,
}

impl Model for Table {
    ghost use Rattle.std.specs.Prelude.{◌≢◌, AllPairs};
    ghost use Rattle.client_facts.specs.NameLists.{lists_in};
    ghost use Rattle.tabulation.specs.Tables.{PlaceLists};

    ghost Value = { PlaceLists };

    ghost view = { λ t. record { contexts = t.contexts.keys; lists = lists_in t.lists.items } };

    ghost invariant = { λ t. AllPairs (λ c d. c ≢ d) t.contexts.keys };
}

impl Table {
    ghost use Rattle.std.specs.Prelude.{ℕ, Contains, OnOk};
    ghost use Rattle.tabulation.specs.Tables.{HasNone, HasPlace, IsPlaced, IsWithPlace};

    /// A table without places. It takes no memory.
    #[tactic(auto, using(crate::proofs::Tabled::has_none))]
    pub(crate) fn new(alloc: Global) -> Table
        ensures { HasNone result }
    {
        Table {
            contexts: IndexSet::new(alloc),
            lists: Vec::new(alloc),
        }
    }

    /// Puts the place in the list of the context.
    #[tactic(auto, using(crate::proofs::Tabled::once))]
    pub(crate) fn add(
        &mut self,
        alloc: Global,
        context: Context,
        place: usize,
    ) -> Result<(), AllocError>
        ensures { OnOk result (IsWithPlace self.old context place self.new) }
    {
        let Ok((number, _)) = self.contexts.insert_full(context) else {
            return Err(AllocError);
        };
        reach(alloc, &mut self.lists, number)?;
        put(&mut self.lists, number, place)?;
        Ok(())
    }

    /// The places of the context.
    pub(crate) fn places(&self, context: &Context) -> &[usize]
        ensures all { (p : ℕ) → IsPlaced self.now context.now p → Contains result.now p }
        ensures only { (p : ℕ) → Contains result.now p → HasPlace self.now p }
    {
        match self.contexts.get_index_of(context) {
            Some(number) => list_at(self.lists.as_slice(), number),
            None => &[],
        }
    }
}

/// The list of this number; an empty one behind the last.
fn list_at(lists: &[Vec<usize>], number: usize) -> &[usize]
    ensures { result.now ≡ at_class (lists_in lists.now) number }
{
    match lists.get(number) {
        Some(places) => places.as_slice(),
        None => &[],
    }
}

/// Puts empty lists behind the others until there is one of this number.
fn reach(alloc: Global, lists: &mut Vec<Vec<usize>>, number: usize) -> Result<(), AllocError>
    ensures there { OnOk result (number < length lists.new.items) }
    ensures same { OnOk result ((other : ℕ) →
        at_class (lists_in lists.new.items) other ≡ at_class (lists_in lists.old.items) other) }
{
    'each: while lists.len() <= number {
        lists.push(Vec::new(alloc))?;
    }
    Ok(())
}

/// Puts the place at the end of the list of this number.
fn put(lists: &mut Vec<Vec<usize>>, number: usize, place: usize) -> Result<(), AllocError>
    requires { number < length lists.old.items }
    ensures { OnOk result (IsListed (Some number) place (lists_in lists.old.items) (lists_in lists.new.items)) }
{
    lists[number].push(place)?;
    Ok(())
}
