//! Which instructions may name an entry of the pool (JVM Specification SE 8, 4.9.1 and 6.5).
ghost use Rattle.std.specs.Prelude.{◌≡◌, ◌<◌, ◌≤◌, None, Ok, IfSome, false, length};
ghost use Rattle.base.specs.Sizes.{longest_file};
ghost use Rattle.opcodes.specs.Bytes.{u1};
ghost use Rattle.opcodes.specs.Instruction.{decoded};
ghost use Rattle.program_tables.specs.Naming.{may_name, NamesNothing, NamesNothingAt, IsOpcodeAt};

use crate::named::{is_class_use, is_field_access, is_ldc, takes_method};
use opcodes::laws::instructions_are_read;
use opcodes::mnemonics::{INVOKEINTERFACE, LDC2_W};
use opcodes::{Instr, decode};

/// The opcode in front of one whose operands are wider (6.5.wide).
const WIDE: u8 = 196;

/// The byte at a place of a code, which is the opcode of the instruction there, unless it is `wide`.
#[inline(always)]
#[tactic(auto, using(crate::proofs::NamingLemmas::opcode_at))]
pub fn opcode_at(code: &[u8], pc: u32) -> u8
    requires { pc < length code.now }
    ensures byte { result ≡ u1 code.now pc }
    ensures opcode { IsOpcodeAt code.now pc result }
{
    instructions_are_read();
    code[pc as usize]
}

/// Whether an instruction of the opcode may name an entry of the pool.
#[inline(always)]
#[tactic(auto, using(crate::proofs::NamingLemmas::names_nothing), unfolding(crate::specs::Naming::may_name))]
pub fn may_name(op: u8) -> bool
    ensures exact { result ≡ may_name op }
    ensures others { result ≡ false → NamesNothing op }
{
    is_ldc(op)
        || op == LDC2_W
        || is_field_access(op)
        || takes_method(op)
        || op == INVOKEINTERFACE
        || is_class_use(op)
}

/// The instruction at a place of a code, where it may name an entry of the pool; it isn't read where its opcode tells that it
/// names none.
#[inline(always)]
pub fn naming_at(code: &[u8], pc: u32) -> Option<Instr>
    requires inside { pc < length code.now }
    requires small { length code.now ≤ longest_file }
    ensures there { IfSome result (λ instr. decoded code.now pc ≡ Ok instr) }
    ensures none { result ≡ None → NamesNothingAt code.now pc }
{
    let op = opcode_at(code, pc);
    if may_name(op) || op == WIDE {
        decode(code, pc).ok()
    } else {
        None
    }
}
