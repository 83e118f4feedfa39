//! The opcodes of the Java virtual machine and the forms of its instructions
//! (JVM Specification SE 8, chapter 6).
#![tactic(auto)]

ghost use Rattle.std.specs.Prelude.{◌≡◌};
ghost use Rattle.opcodes.specs.Row.{row_of};

mod decoder;
mod instruction;
pub mod laws;
pub mod mnemonics;
mod place;
mod table;

pub use decoder::{decode, length};
pub use instruction::{Case, DecodeFault, Instr};
pub use place::{case, starts, target};
pub use table::Kind;
use table::entry_of;

/// The mnemonic of an opcode, and `none` for a byte that is no opcode.
#[tactic(auto, unfolding(crate::specs::Entry::entry_row))]
pub fn name(op: u8) -> &'static str
    ensures { result.now ≡ (row_of op).mnemonic }
{
    entry_of(op).name
}

/// Where control goes after an opcode, and [`Kind::Plain`] for a byte that is no opcode.
#[tactic(auto, unfolding(crate::specs::Entry::entry_row))]
pub fn kind(op: u8) -> Kind
    ensures { result ≡ (row_of op).kind }
{
    entry_of(op).kind
}

/// Whether an opcode may raise. A byte that is no opcode does not.
#[tactic(auto, unfolding(crate::specs::Entry::entry_row))]
pub fn raises(op: u8) -> bool
    ensures { result ≡ (row_of op).raises }
{
    entry_of(op).raises
}

/// Whether this machine runs an opcode. It runs no byte that is no opcode, and not `wide` alone, which is the beginning of
/// an instruction with another opcode. It runs `impdep1` and `impdep2` in `jop/Io` only.
#[tactic(auto, unfolding(crate::specs::Entry::entry_row))]
pub fn supported(op: u8) -> bool
    ensures { result ≡ (row_of op).supported }
{
    entry_of(op).supported
}
