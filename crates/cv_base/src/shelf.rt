//! What texts are loaded from.
ghost use Rattle.std.specs.Prelude.{◌≡◌, ◌≢◌, ℕ, ◌+◌, ◌<◌, ◌≤◌, List, length, Option, IsSome, IfOk, IsErrOf};
ghost use Rattle.cv_base.specs.Causes.{Rose, Begins};

use std::alloc::Global;

/// Why a load gave no text.
#[derive(Clone, Copy, Debug, PartialEq, Eq)]
pub enum LoadFault {
    /// The text could not be read, or there is none of this name.
    Failed,
    /// Memory was wanted and not found.
    Memory,
}

/// What texts are loaded from, by their names.
pub trait Shelf {
    /// What it tells that it holds under a name, where it tells.
    ghost held: { Self → List ℕ → Option (List ℕ) };

    /// How many faults it has counted for a name. The count stands still at the last value of a `u64`.
    ghost faults: { Self → List ℕ → ℕ };

    /// Loads the first `max + 1` bytes of what is held under `name`, or all of it where it is not longer.
    /// `Failed` comes only where the name's count of faults rose.
    fn load(&mut self, alloc: Global, name: &str, max: usize) -> Result<Vec<u8>, LoadFault>
        requires { max < usize.MAX }
        ensures bytes { IfOk result (λ v. Begins (held self.old name.now) max v.items) }
        ensures most { IfOk result (λ v. length v.items ≤ max + 1) }
        ensures failed { IsErrOf result LoadFault.Failed → Rose (faults self.old name.now) (faults self.new name.now) }

        ensures held { (other : List ℕ) → held self.new other ≡ held self.old other }
        ensures later { (other : List ℕ) → faults self.old other ≤ faults self.new other }
        ensures others { (other : List ℕ) → IsSome (held self.old other) → other ≢ name.now → faults self.new other ≡ faults self.old other };
}
