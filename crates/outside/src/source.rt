//! What gives bytes.

// Bytes that come in.
ghost use Rattle.std.specs.Prelude.{◌≡◌, ◌≤◌, ℕ, List, length, IfOk};
ghost use Rattle.std.specs.declared.option.Option.{Option};
ghost use Rattle.outside.specs.Outside.{HasCause, Takes};

use crate::Failed;

/// Bytes that come in.
pub trait Source {
    /// The bytes that are left, where they are told.
    ghost left: { Self → Option (List ℕ) };

    /// How many calls failed.
    ghost faults: { Self → ℕ };

    /// Fills a front of the piece with the next bytes, and gives how many they are. 0 for a piece that isn't
    /// empty is the end.
    fn take(&mut self, piece: &mut [u8]) -> Result<usize, Failed>
        ensures bound { IfOk result (λ n. n ≤ length piece.new) }
        ensures told { Takes (left self.old) (left self.new) result piece.new }
        ensures cause { HasCause (faults self.old) (faults self.new) result };

    /// How many calls failed. At `u64::MAX` the count stands still, and counts as risen.
    fn faults(&self) -> u64
        ensures { result ≡ faults self.now };
}
