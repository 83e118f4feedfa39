//! Opcodes that this machine doesn't support (JVM Specification SE 8, chapter 6).
ghost use Rattle.std.specs.Prelude.{◌≡◌, ◌≢◌, false};
ghost use Rattle.class_checks.specs.Causes.{refused_opcode, HasNoItems};

use opcodes::mnemonics::{IMPDEP1, IMPDEP2};
use opcodes::supported;
use program_tables::may_name;

/// Makes an array of numbers (6.5.newarray).
const NEWARRAY: u8 = 188;

/// Whether the opcode isn't supported in a class; `in_io` says whether the class is the one that reads and writes bytes.
#[tactic(auto, unfolding(crate::specs::Causes::refused_opcode))]
pub(crate) fn is_refused_opcode(in_io: bool, op: u8) -> bool
    ensures { result ≡ refused_opcode in_io op }
{
    !supported(op) || ((op == IMPDEP1 || op == IMPDEP2) && !in_io)
}

/// Whether an instruction that begins with the opcode may have what isn't supported: the opcode, an array of numbers that it makes,
/// or what it names.
#[inline(always)]
#[tactic(auto, using(crate::proofs::OpcodeLemmas::no_items, crate::proofs::OpcodeLemmas::not_wide))]
pub(crate) fn may_have_items(op: u8) -> bool
    ensures none { result ≡ false → HasNoItems op }
    ensures wide { result ≡ false → op ≢ 196 }
{
    is_refused_opcode(false, op) || op == NEWARRAY || may_name(op)
}
