//! Standard output as a sink.
ghost use Rattle.std.specs.Prelude.{◌≡◌, ◌<◌, ◌≤◌, IfOk, length, take};
ghost use Rattle.std.specs.Io.KnownBytes.{Appends};

use cv_base::{Sink, SinkFault};
use std::io;
use std::io::Write;

/// Standard output, flushed behind each write. It tells no content.
#[derive(Drop)]
pub struct StdSink<'a, R: Print> {
    to: &'a R,
    faults: u64,
}

impl<'a, R: Print> StdSink<'a, R> {
    pub fn new(to: &'a R) -> StdSink<'a, R>
        ensures { result.faults ≡ 0 }
    {
        StdSink { to, faults: 0 }
    }
}

impl<R: Print> Sink for StdSink<'_, R> {
    ghost use Rattle.std.specs.Prelude.{None};

    ghost taken = { λ _. None };

    ghost faults = { λ s. s.faults };

    fn write(&mut self, piece: &[u8]) -> Result<usize, SinkFault> {
        let mut out = io::writer(self.to);
        let written = write_once(&mut out, piece);
        if written.is_err() {
            self.faults = self.faults.saturating_add(1);
        }
        written
    }
}

/// Writes once, and flushes. What is taken is a beginning of the piece that is not empty.
fn write_once<W: Write>(out: &mut W, piece: &[u8]) -> Result<usize, SinkFault>
    ensures some { IfOk result (λ n. (0 < n) × (n ≤ length piece.now)) }
    ensures took { IfOk result (λ n. Appends (W.contents out.old) (W.contents out.new) (take n piece.now)) }
{
    let Ok(count) = out.write(piece) else {
        return Err(SinkFault);
    };
    if count > 0 && out.flush().is_ok() {
        Ok(count)
    } else {
        Err(SinkFault)
    }
}
