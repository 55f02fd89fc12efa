//! The shelf of files.
ghost use Rattle.std.specs.Prelude.{◌≡◌, ◌+◌, ◌<◌, ◌≤◌, length, vec_len, IfOk};
ghost use Rattle.std.specs.Io.KnownBytes.{IsAtEnd};
ghost use Rattle.cv_base.specs.Causes.{Begins, next_count};
ghost use Rattle.canvas_cli.specs.Files.{Moves};

use cv_base::{LoadFault, Shelf};
use std::alloc::Global;
use std::fs;
use std::io::Read;
use std::rt::Files;

/// The files of the system. It tells no content, and one count of faults is that of every name.
#[derive(Drop)]
pub struct DiskShelf<'a, R: Files> {
    files: &'a R,
    faults: u64,
}

impl<'a, R: Files> DiskShelf<'a, R> {
    pub fn new(files: &'a R) -> DiskShelf<'a, R>
        ensures { result.faults ≡ 0 }
    {
        DiskShelf { files, faults: 0 }
    }
}

impl<R: Files> Shelf for DiskShelf<'_, R> {
    ghost use Rattle.std.specs.Prelude.{None};

    ghost held = { λ _ _. None };

    ghost faults = { λ s _. s.faults };

    fn load(&mut self, alloc: Global, name: &str, max: usize) -> Result<Vec<u8>, LoadFault> {
        let loaded = match fs::open(self.files, name) {
            Ok(mut file) => read_most(alloc, &mut file, max),
            Err(_) => Err(LoadFault::Failed),
        };
        if loaded == Err(LoadFault::Failed) {
            self.faults = self.faults.saturating_add(1);
        }
        loaded
    }
}

/// Reads the first `max + 1` bytes of what is left, or all of it where that is not longer. It fails where a read does.
#[tactic(auto, using(crate::proofs::Moved::nothing, crate::proofs::Moved::further, crate::proofs::Moved::all, crate::proofs::Moved::most))]
fn read_most<F: Read>(alloc: Global, file: &mut F, max: usize) -> Result<Vec<u8>, LoadFault>
    requires { max < usize.MAX }
    ensures most { IfOk result (λ v. length v.items ≤ max + 1) }
    ensures bytes { IfOk result (λ v. Begins (F.remaining file.old) max v.items) }
{
    let mut bytes = Vec::new(alloc);
    'each: while bytes.len() <= max {
        let room = max + 1 - bytes.len();
        let count = read_once(file, &mut bytes, room)?;
        if count == 0 {
            break;
        }
    }
    Ok(bytes)
}

/// Reads once, at most so many bytes, and puts them behind the others. None come only at the end.
fn read_once<F: Read>(file: &mut F, bytes: &mut Vec<u8>, room: usize) -> Result<usize, LoadFault>
    requires { 0 < room }
    ensures count { IfOk result (λ n. (n ≤ room) × (vec_len bytes.new ≡ vec_len bytes.old + n)) }
    ensures moves { IfOk result (λ n. Moves (F.remaining file.old) (F.remaining file.new) bytes.old.items bytes.new.items) }
    ensures end { IfOk result (λ n. n ≡ 0 → IsAtEnd (F.remaining file.new)) }
{
    let mut buffer = [0u8; 4096];
    let Ok(count) = file.read(&mut buffer[..room.min(4096)]) else {
        return Err(LoadFault::Failed);
    };
    match bytes.extend_from_slice(&buffer[..count]) {
        Ok(()) => Ok(count),
        Err(_) => Err(LoadFault::Memory),
    }
}
