//! The instructions of a code (JVM Specification SE 8, 4.7.3).
ghost use Rattle.std.specs.Prelude.{◌≡◌, ◌≤◌, ◌↔◌, ℕ, Some, length};
ghost use Rattle.base.specs.Sizes.{longest_file};
ghost use Rattle.opcodes.specs.Start.{IsByteOf};

use opcodes::laws::{instructions_end_within, starts_follow_one_another};
use opcodes::length;

/// The place at which the instruction begins that has the byte at a place of a code, if one does.
pub fn instruction_with(code: &[u8], place: u32) -> Option<u32>
    requires { length code.now ≤ longest_file }
    ensures { (pc : ℕ) → (result ≡ Some pc) ↔ IsByteOf code.now place pc }
{
    // The laws are for the proof.
    instructions_end_within();
    starts_follow_one_another();
    let end = code.len() as u32;
    let mut start = 0;
    while start <= place && start < end {
        let Some(bytes) = length(code, start) else {
            return None;
        };
        if place < start + bytes {
            return Some(start);
        }
        start += bytes;
    }
    None
}
