//! Files, sources and sinks in memory, that tell their bytes, and whose calls fail as they are told.

ghost use Rattle.std.specs.Prelude.{◌≡◌, ◌↔◌, ◌≤◌, length, take, min, Some, Contains, IsErr};
ghost use Rattle.outside.specs.Outside.{ReadAt};
ghost use Rattle.outside.specs.Memory.{next_call};

mod failing;
mod files;
mod sink;
mod source;

use crate::Failed;
pub use files::{MemFiles, SureFiles};
pub use sink::{MemSink, SureSink};
pub use source::{MemSource, SureSource};

/// Counts a call, which fails where its number is listed.
fn count_call(failing: &[u64], calls: &mut u64) -> Result<(), Failed>
    ensures listed { IsErr result ↔ Contains failing.now calls.old }
    ensures counted { calls.new ≡ next_call calls.old }
{
    let call = *calls;
    *calls = call.saturating_add(1);
    if failing.contains(&call) {
        Err(Failed)
    } else {
        Ok(())
    }
}

/// Copies a front of the bytes into a front of the piece, as long as both allow, and gives its length.
fn fill(piece: &mut [u8], from: &[u8]) -> usize
    ensures count { result ≡ min (length piece.old) (length from.now) }
    ensures front { take result piece.new ≡ take result from.now }
{
    let count = piece.len().min(from.len());
    piece[..count].copy_from_slice(&from[..count]);
    count
}

/// Copies the bytes from a place on into a front of the piece, and gives its length.
fn read_at(bytes: &[u8], place: u64, piece: &mut [u8]) -> usize
    ensures bound { result ≤ length piece.new }
    ensures read { ReadAt (Some bytes.now) place result piece.new }
{
    let from = (place as usize).min(bytes.len());
    fill(piece, &bytes[from..])
}
