//! The items that are known so far.
ghost use Rattle.std.specs.Prelude.{◌≡◌, ◌<◌, ◌≤◌, [], length, IfOk, OnOk};
ghost use Rattle.indexmap.specs.IndexSet.{insert_key, insert_all};
ghost use Rattle.cv_fix.specs.Faults.{OnFull};
ghost use Rattle.cv_fix.specs.Known.{filled};

use crate::closure::Closed;
use cv_base::Memory;
use indexmap::IndexSet;
use std::alloc::Global;
use std::hash::Hash;

/// Why an item was not added.
#[derive(Clone, Copy, Debug, PartialEq, Eq)]
pub(crate) enum AddFault {
    /// There are as many items as there may be.
    Full,
    /// Memory was wanted and not found.
    Memory,
}

/// Items in the order in which they were found, each once, with their causes.
#[derive(Drop)]
pub(crate) struct Known<T: Eq + Hash> {
    pub(crate) items: IndexSet<T>,
    pub(crate) causes: Vec<Option<u64>>,
}

impl<T: Eq + Hash + Drop> Known<T> {
    /// No items. It takes no memory.
    pub(crate) fn new(alloc: Global) -> Known<T>
        ensures items { result.items.keys ≡ [] }
        ensures causes { result.causes.items ≡ [] }
    {
        Known {
            items: IndexSet::new(alloc),
            causes: Vec::new(alloc),
        }
    }

    /// Puts the item at the end with its cause, unless it is known. `Full` where it is one too many.
    #[tactic(auto, using(crate::proofs::Filled::filled_steps))]
    fn add(&mut self, item: T, cause: Option<u64>, limit: u64) -> Result<(), AddFault>
        requires room { length self.old.items.keys ≤ limit }
        requires as_many { length self.old.causes.items ≡ length self.old.items.keys }
        ensures items { OnOk result
            (self.new.items.keys ≡ insert_key T.eq self.old.items.keys item) }
        ensures causes { OnOk result (self.new.causes.items
            ≡ filled cause (length self.new.items.keys) self.old.causes.items) }
        ensures room { OnOk result (length self.new.items.keys ≤ limit) }
        ensures full { OnFull result (limit < length (insert_key T.eq self.old.items.keys item)) }
    {
        let Ok(new) = self.items.insert(item) else {
            return Err(AddFault::Memory);
        };
        if !new {
            return Ok(());
        }
        if self.items.len() as u64 > limit {
            return Err(AddFault::Full);
        }
        self.causes.push(cause).map_err(|_| AddFault::Memory)
    }

    /// Puts each new item at the end with this cause. `Full` where one would be one too many.
    pub(crate) fn add_all(
        &mut self,
        found: Vec<T>,
        cause: Option<u64>,
        limit: u64,
    ) -> Result<(), AddFault>
        requires room { length self.old.items.keys ≤ limit }
        requires as_many { length self.old.causes.items ≡ length self.old.items.keys }
        ensures items { OnOk result
            (self.new.items.keys ≡ insert_all T.eq self.old.items.keys found.items) }
        ensures causes { OnOk result (self.new.causes.items
            ≡ filled cause (length self.new.items.keys) self.old.causes.items) }
        ensures room { OnOk result (length self.new.items.keys ≤ limit) }
        ensures full { OnFull result
            (limit < length (insert_all T.eq self.old.items.keys found.items)) }
    {
        for item in found {
            self.add(item, cause, limit)?;
        }
        Ok(())
    }

    /// The items and their causes as lists. `Memory` where there is no room for the list of items.
    pub(crate) fn into_closed(self, alloc: Global) -> Result<Closed<T>, Memory>
        ensures items { IfOk result (λ closed. closed.items.items ≡ self.items.keys) }
        ensures causes { IfOk result (λ closed. closed.causes.items ≡ self.causes.items) }
    {
        match self.items.into_iter().collect(alloc) {
            Ok(items) => Ok(Closed {
                items,
                causes: self.causes,
            }),
            Err(_) => Err(Memory),
        }
    }
}
