//! A sink in memory, for tests.
ghost use Rattle.std.specs.Prelude.{◌≡◌, ℕ, ◌+◌, ◌<◌, ◌≤◌, ◌++◌, [], length, take, IfOk, OnErr, vec_len, vec_capacity};
ghost use Rattle.cv_base.specs.Causes.{Rose, Appends};

use crate::push::Memory;
use crate::sink::{Sink, SinkFault};
use std::alloc::Global;
use std::marker::Model;

/// A sink in memory, which tells what it took and whose writes fail by number.
#[derive(Debug, Drop)]
pub struct MemSink {
    taken: Vec<u8>,
    room: usize,
    fails: Vec<u64>,
    writes: u64,
    faults: u64,
}

impl Model for MemSink {
    ghost use Rattle.std.specs.Prelude.{◌≤◌, vec_len, vec_capacity};
    ghost use Rattle.cv_base.specs.Memory.{Filled};

    ghost Value = { Filled };

    ghost view = { λ s. record { taken = s.taken.items; room = s.room; fails = s.fails.items; writes = s.writes; faults = s.faults } };

    ghost invariant = { λ s. (s.room ≤ vec_capacity s.taken) × (vec_len s.taken ≤ s.room) };
}

impl MemSink {
    /// An empty sink that takes at most `room` bytes, whose write number n, counted from 0, fails where n
    /// is in `fails`.
    pub fn new(alloc: Global, room: usize, fails: Vec<u64>) -> Result<MemSink, Memory>
        ensures { IfOk result (λ s. s ≡ record { taken = []; room = room; fails = fails.items; writes = 0; faults = 0 }) }
    {
        match Vec::with_capacity(alloc, room) {
            Ok(taken) => Ok(MemSink {
                taken,
                room,
                fails,
                writes: 0,
                faults: 0,
            }),
            Err(_) => Err(Memory),
        }
    }

    /// The bytes that were taken.
    pub fn taken(&self) -> &[u8]
        ensures { result.now ≡ self.now.taken }
    {
        self.taken.as_slice()
    }
}

impl Sink for MemSink {
    ghost use Rattle.cv_base.specs.Memory.{Writes, told, count};

    ghost taken = { told };

    ghost faults = { count };

    fn write(&mut self, piece: &[u8]) -> Result<usize, SinkFault>
        requires { 0 < length piece.now }
        ensures some { IfOk result (λ n. (1 ≤ n) × (n ≤ length piece.now)) }
        ensures took { IfOk result (λ n. Appends (told self.old) (told self.new) (take n piece.now)) }
        ensures err { OnErr result (told self.new ≡ told self.old) }
        ensures failed { OnErr result (Rose (count self.old) (count self.new)) }
        ensures later { count self.old ≤ count self.new }

        ensures exact { Writes self.old self.new piece.now result }
    {
        let number = self.writes;
        self.writes = number.saturating_add(1);
        let left = self.room - self.taken.len();
        if left == 0 || self.fails.contains(&number) {
            self.faults = self.faults.saturating_add(1);
            return Err(SinkFault);
        }
        let count = piece.len().min(left);
        append(&mut self.taken, &piece[..count]);
        Ok(count)
    }
}

/// Appends a piece for which there is room.
fn append(taken: &mut Vec<u8>, piece: &[u8])
    requires { vec_len taken.old + length piece.now ≤ vec_capacity taken.old }
    ensures items { taken.new.items ≡ taken.old.items ++ piece.now }
    ensures len { vec_len taken.new ≡ vec_len taken.old + length piece.now }
    ensures capacity { vec_capacity taken.old ≤ vec_capacity taken.new }
{
    taken.extend_from_slice(piece).unwrap();
}
