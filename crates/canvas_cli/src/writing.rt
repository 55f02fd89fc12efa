//! Writes an answer whole, or up to where the sink fails.
ghost use Rattle.std.specs.Prelude.{◌≡◌, ℕ, ◌<◌, ◌≤◌, length, take, drop, OnOk, OnErr};
ghost use Rattle.cv_base.specs.Causes.{Rose, Appends};
ghost use Rattle.canvas_cli.specs.Answers.{IsWritten};

use crate::answer::Answer;
use cv_base::{Sink, SinkFault, Status};

/// Writes the answer's text, and gives its status, or `WriteFault` where not the whole text was taken.
pub(crate) fn write<W: Sink>(out: &mut W, answer: &Answer) -> Status
    ensures { IsWritten (W.taken out.old) (W.taken out.new) (Rose (W.faults out.old) (W.faults out.new)) answer.now result }
{
    match write_all(out, answer.text()) {
        Ok(()) => answer.status(),
        Err(_) => Status::WriteFault,
    }
}

/// Writes the whole text, unless the sink fails.

fn write_all<W: Sink>(out: &mut W, text: &[u8]) -> Result<(), SinkFault>
    ensures ok { OnOk result (Appends (W.taken out.old) (W.taken out.new) text.now) }
    ensures err { OnErr result ((n : ℕ) × (n < length text.now) × Appends (W.taken out.old) (W.taken out.new) (take n text.now)) }
    ensures failed { OnErr result (Rose (W.faults out.old) (W.faults out.new)) }
{
    let mut done = 0;
    'each: while done < text.len() {
        let count = out.write(after(text, done))?;
        done += count;
    }
    Ok(())
}

/// The bytes from this one on.
fn after(text: &[u8], at: usize) -> &[u8]
    requires { at ≤ length text.now }
    ensures { result.now ≡ drop at text.now }
{
    &text[at..]
}
