//! What takes bytes.

// Bytes that go out.
ghost use Rattle.std.specs.Prelude.{◌≡◌, ◌<◌, ◌≤◌, ℕ, List, length, take, IfOk, OnErr, OnOk};
ghost use Rattle.std.specs.declared.option.Option.{Option};
ghost use Rattle.outside.specs.Outside.{Grew, HasCause, Puts};

use crate::Failed;

/// Bytes that go out.
pub trait Sink {
    /// The bytes that it holds, where they are told.
    ghost held: { Self → Option (List ℕ) };

    /// How many calls failed.
    ghost faults: { Self → ℕ };

    /// Takes a front of the piece, and gives how many bytes that is: never 0 for a piece that isn't empty.
    fn put(&mut self, piece: &[u8]) -> Result<usize, Failed>
        ensures bound { IfOk result (λ n. n ≤ length piece.now) }
        ensures some { IfOk result (λ n. 0 < length piece.now → 0 < n) }
        ensures told { Puts (held self.old) (held self.new) result piece.now }
        ensures cause { HasCause (faults self.old) (faults self.new) result };

    /// How many calls failed. At `u64::MAX` the count stands still, and counts as risen.
    fn faults(&self) -> u64
        ensures { result ≡ faults self.now };
}

/// Puts every byte. After `Failed` the sink took a front of them that isn't all of them.
pub fn put_all<O: Sink>(sink: &mut O, bytes: &[u8]) -> Result<(), Failed>
    ensures all { OnOk result (Grew (O.held sink.old) (O.held sink.new) bytes.now) }
    ensures front { OnErr result ((n : ℕ) × (n < length bytes.now)
        × Grew (O.held sink.old) (O.held sink.new) (take n bytes.now)) }
    ensures cause { HasCause (O.faults sink.old) (O.faults sink.new) result }
{
    let mut at = 0;
    while at < bytes.len() {
        at += sink.put(&bytes[at..])?;
    }
    Ok(())
}
