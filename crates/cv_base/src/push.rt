//! Text that grows at its end.
ghost use Rattle.std.specs.Prelude.{◌≡◌, ◌++◌, OnOk, OnErr, decimal};

/// Memory was wanted and not found.
#[derive(Clone, Copy, Debug, PartialEq, Eq)]
pub struct Memory;

/// Appends the bytes of `piece`. `Memory` leaves `out` as it was.
pub fn push_bytes(out: &mut Vec<u8>, piece: &[u8]) -> Result<(), Memory>
    ensures ok { OnOk result (out.new.items ≡ out.old.items ++ piece.now) }
    ensures err { OnErr result (out.new.items ≡ out.old.items) }
{
    match out.extend_from_slice(piece) {
        Ok(()) => Ok(()),
        Err(_) => Err(Memory),
    }
}

/// Appends the decimal digits of `number`. `Memory` leaves `out` as it was.
pub fn push_number(out: &mut Vec<u8>, number: u64) -> Result<(), Memory>
    ensures ok { OnOk result (out.new.items ≡ out.old.items ++ decimal number) }
    ensures err { OnErr result (out.new.items ≡ out.old.items) }
{
    match number.to_string(*out.allocator()) {
        Ok(text) => push_bytes(out, text.as_bytes()),
        Err(_) => Err(Memory),
    }
}
