//! What answers are written to.
ghost use Rattle.std.specs.Prelude.{◌≡◌, ℕ, ◌<◌, ◌≤◌, List, length, take, Option, IfOk, OnErr};
ghost use Rattle.cv_base.specs.Causes.{Rose, Appends};

/// A write failed, and took nothing.
#[derive(Clone, Copy, Debug, PartialEq, Eq)]
pub struct SinkFault;

/// What bytes are written to.
pub trait Sink {
    /// The bytes that it tells that it took, where it tells.
    ghost taken: { Self → Option (List ℕ) };

    /// How many faults it has counted. The count stands still at the last value of a `u64`.
    ghost faults: { Self → ℕ };

    /// Takes some bytes from the beginning of `piece`, and answers how many, at least one.
    /// A fault takes nothing, and comes only where the count of faults rose.
    fn write(&mut self, piece: &[u8]) -> Result<usize, SinkFault>
        requires { 0 < length piece.now }
        ensures some { IfOk result (λ n. (1 ≤ n) × (n ≤ length piece.now)) }
        ensures took { IfOk result (λ n. Appends (taken self.old) (taken self.new) (take n piece.now)) }
        ensures err { OnErr result (taken self.new ≡ taken self.old) }
        ensures failed { OnErr result (Rose (faults self.old) (faults self.new)) }
        ensures later { faults self.old ≤ faults self.new };
}
