//! A shelf in memory, for tests.
ghost use Rattle.std.specs.Prelude.{◌≡◌, ◌≢◌, ℕ, ◌+◌, ◌<◌, ◌≤◌, ◌==◌, List, length, take, None, IsSome, is_none, IfOk, IsErrOf, MatchResult, if◌then◌else◌};
ghost use Rattle.std.specs.List.{list_any};
ghost use Rattle.std.specs.Option.{option_copied};
ghost use Rattle.cv_base.specs.Causes.{Rose, Begins, last_count, next_count};
ghost use Rattle.cv_base.specs.Memory.{text_under, count_under, raised, missing_after};

use crate::bytes::Bytes;
use crate::shelf::{LoadFault, Shelf};
use std::alloc::Global;
use std::marker::Model;

/// A text on a shelf in memory.
#[derive(Debug, Drop, PartialEq, Eq)]
pub struct Held {
    /// The UTF-8 bytes of its name.
    pub name: Bytes,
    /// What is held under the name.
    pub text: Bytes,
    /// How many loads of the name failed, handed in as 0.
    pub faults: u64,
}

/// A shelf in memory, which tells what it holds and whose loads fail by number.
/// Of several entries of one name the first counts; all names that have none share one count of faults.
#[derive(Debug, Drop)]
pub struct MemShelf {
    files: Vec<Held>,
    missing: u64,
    fails: Vec<u64>,
    loads: u64,
}

impl Model for MemShelf {
    ghost use Rattle.cv_base.specs.Memory.{Files};

    ghost Value = { Files };

    ghost view = { λ s. record { files = s.files.items; missing = s.missing; fails = s.fails.items; loads = s.loads } };
}

impl MemShelf {
    /// A shelf of these entries, whose load number n, counted from 0, fails where n is in `fails`.
    pub fn new(files: Vec<Held>, fails: Vec<u64>) -> MemShelf
        ensures { result ≡ record { files = files.items; missing = 0; fails = fails.items; loads = 0 } }
    {
        MemShelf {
            files,
            missing: 0,
            fails,
            loads: 0,
        }
    }
}

impl Shelf for MemShelf {
    ghost use Rattle.cv_base.specs.Memory.{Loads, held, faults};

    ghost held = { held };

    ghost faults = { faults };

    fn load(&mut self, alloc: Global, name: &str, max: usize) -> Result<Vec<u8>, LoadFault>
        requires { max < usize.MAX }
        ensures bytes { IfOk result (λ v. Begins (held self.old name.now) max v.items) }
        ensures most { IfOk result (λ v. length v.items ≤ max + 1) }
        ensures failed { IsErrOf result LoadFault.Failed → Rose (faults self.old name.now) (faults self.new name.now) }

        ensures held { (other : List ℕ) → held self.new other ≡ held self.old other }
        ensures later { (other : List ℕ) → faults self.old other ≤ faults self.new other }
        ensures others { (other : List ℕ) → IsSome (held self.old other) → other ≢ name.now → faults self.new other ≡ faults self.old other }

        ensures exact { Loads self.old self.new name.now max result }
    {
        let number = self.loads;
        self.loads = next(number);
        let name = name.as_bytes();
        let Some(text) = text_of_load(&self.files, &self.fails, number, name) else {
            count_fault(&mut self.files, &mut self.missing, name);
            return Err(LoadFault::Failed);
        };
        match Vec::from_slice(alloc, beginning(text, max)) {
            Ok(bytes) => Ok(bytes),
            Err(_) => Err(LoadFault::Memory),
        }
    }
}

/// What load number `number` finds under this name, where it does not fail.
fn text_of_load<'a>(files: &'a [Held], fails: &[u64], number: u64, name: &[u8]) -> Option<&'a [u8]>
    ensures { option_copied result
        ≡ (if list_any (λ n. n == number) fails.now then None else text_under files.now name.now) }
{
    if fails.contains(&number) {
        return None;
    }
    text_of(files, name)
}

/// A counter's next value.
fn next(count: u64) -> u64
    ensures { result ≡ next_count count }
{
    count.saturating_add(1)
}

/// What the first entry of this name holds.
fn text_of<'a>(files: &'a [Held], name: &[u8]) -> Option<&'a [u8]>
    ensures { option_copied result ≡ text_under files.now name.now }
{
    for entry in files {
        if entry.name.0.as_slice() == name {
            return Some(entry.text.0.as_slice());
        }
    }
    None
}

/// Counts a fault at the first entry of this name, or where there is none at what all missing names share.
fn count_fault(files: &mut [Held], missing: &mut u64, name: &[u8])
    // the name's count is one that a counter can have
    ensures within { count_under files.old missing.old name.now ≤ last_count }
    ensures files { files.new ≡ raised files.old name.now }
    ensures missing { missing.new ≡ missing_after files.old missing.old name.now }
{
    for entry in files.iter_mut() {
        if entry.name.0.as_slice() == name {
            entry.faults = next(entry.faults);
            return;
        }
    }
    *missing = next(*missing);
}

/// The first `max + 1` bytes of a text, or all of it where it is not longer.
fn beginning(text: &[u8], max: usize) -> &[u8]
    requires { max < usize.MAX }
    ensures { result.now ≡ take (max + 1) text.now }
{
    &text[..text.len().min(max + 1)]
}
