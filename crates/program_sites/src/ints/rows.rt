//! What an instruction pushes, reads and writes, as far as constants go (JVM Specification SE 8, 6.5).

ghost use Rattle.std.specs.Prelude.{◌≡◌, ◌<◌, length};
ghost use Rattle.std.specs.Option.{IsSomeAnd};
ghost use Rattle.bytecode_model.specs.Program.{body_of};
ghost use Rattle.program_tables.specs.Meanings.{operand_seen};
ghost use Rattle.program_tables.specs.Numbers.{methods_by_number};
ghost use Rattle.program_tables.specs.Resolved.{resolved};
ghost use Rattle.program_sites.specs.Ints.Rows.{int_named, pushed_as, pushed_at, put_as, put_at, read_as, read_at, static_named};

use opcodes::Instr;
use opcodes::mnemonics::{GETSTATIC, LDC_W, PUTSTATIC};
use program_tables::Operand;
use resolved_program::Program;

/// The int that an instruction names.
fn int_named(operand: Operand) -> Option<i32>
    ensures { result ≡ int_named (operand_seen operand) }
{
    match operand {
        Operand::Int(value) => Some(value),
        _ => None,
    }
}

/// The static field that an instruction names.
fn static_named(operand: Operand) -> Option<u32>
    ensures { result ≡ static_named (operand_seen operand) }
{
    match operand {
        Operand::Static(field) => Some(field),
        _ => None,
    }
}

/// The int constant that an instruction pushes which names this int.
fn pushed_as(instr: &Instr, named: Option<i32>) -> Option<i32>
    ensures { result ≡ pushed_as instr.now.op instr.now.first named }
{
    let op = instr.op;
    if 2 <= op && op <= 8 {
        Some(i32::from(op) - 3)
    } else if op == 16 || op == 17 {
        Some(instr.first)
    } else if op == 18 || op == 19 {
        named
    } else {
        None
    }
}

/// The static field that an instruction reads which names this one.
fn read_as(op: u8, named: Option<u32>) -> Option<u32>
    ensures { result ≡ read_as op named }
{
    if op == GETSTATIC { named } else { None }
}

/// The static field that an instruction writes which names this one.
fn put_as(op: u8, named: Option<u32>) -> Option<u32>
    ensures { result ≡ put_as op named }
{
    if op == PUTSTATIC { named } else { None }
}

/// The int constant that the instruction at a place of a method of this code pushes.
pub(crate) fn pushed_at(program: &Program, method: u32, code: &[u8], place: u32) -> Option<i32>
    requires method { method < length (methods_by_number program.now) }
    requires code { IsSomeAnd (body_of (resolved program.now) method) (λ b. b.code ≡ code.now) }
    requires inside { place < length code.now }
    ensures { result ≡ pushed_at (resolved program.now) method place }
{
    // None of greater opcodes does, so most instructions needn't be read.
    if code[place as usize] > LDC_W {
        return None;
    }
    let x = program.instruction(method, place)?;
    pushed_as(&x.instr, int_named(x.operand))
}

/// The static field that the instruction at a place of a method of this code reads.
pub(crate) fn read_at(program: &Program, method: u32, code: &[u8], place: u32) -> Option<u32>
    requires method { method < length (methods_by_number program.now) }
    requires code { IsSomeAnd (body_of (resolved program.now) method) (λ b. b.code ≡ code.now) }
    requires inside { place < length code.now }
    ensures { result ≡ read_at (resolved program.now) method place }
{
    if code[place as usize] != GETSTATIC {
        return None;
    }
    let x = program.instruction(method, place)?;
    read_as(x.instr.op, static_named(x.operand))
}

/// The static field that the instruction at a place of a method of this code writes.
pub(crate) fn put_at(program: &Program, method: u32, code: &[u8], place: u32) -> Option<u32>
    requires method { method < length (methods_by_number program.now) }
    requires code { IsSomeAnd (body_of (resolved program.now) method) (λ b. b.code ≡ code.now) }
    requires inside { place < length code.now }
    ensures { result ≡ put_at (resolved program.now) method place }
{
    if code[place as usize] != PUTSTATIC {
        return None;
    }
    let x = program.instruction(method, place)?;
    put_as(x.instr.op, static_named(x.operand))
}
