//! The bytes of the method and the words of the ROM that the circuit reads ahead, wire by wire: the byte that a microinstruction
//! takes, branches of bytecodes and of the microcode, and where the next byte and the next word lie.
#![tactic(auto)]

mod branches;
mod bytes;
mod flags;
mod rom;

pub use branches::next_jpc;
pub use bytes::{byte, byte_place, ring_place, takes_at_a};
pub use flags::{next_halt, next_opcode, next_operand};
pub use rom::{is_taken, next_a_taken, next_mpc, next_refill, next_word, rom_place};
