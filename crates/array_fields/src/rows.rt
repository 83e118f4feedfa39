//! What fields an instruction reads and writes (JVM Specification SE 8, 6.5).

ghost use Rattle.std.specs.Prelude.{◌≡◌, ◌<◌, length};
ghost use Rattle.std.specs.Option.{IsSomeAnd};
ghost use Rattle.bytecode_model.specs.Program.{body_of};
ghost use Rattle.program_tables.specs.Meanings.{operand_seen};
ghost use Rattle.program_tables.specs.Numbers.{methods_by_number};
ghost use Rattle.program_tables.specs.Resolved.{resolved};
ghost use Rattle.array_fields.specs.Rows.{put_as, put_at, read_as, read_at};

use opcodes::mnemonics::{GETFIELD, GETSTATIC, PUTFIELD, PUTSTATIC};
use program_tables::Operand;
use resolved_program::Program;

/// A field that an instruction names.
#[derive(Clone, Copy)]
pub(crate) enum Field {
    /// A static one, by its number.
    Static(u32),
    /// One of objects: the class that declares it, and its index among the fields of the class's instances.
    Instance(u32, u32),
}

/// The field that an instruction reads which names this.
fn read_as(op: u8, operand: Operand) -> Option<Field>
    ensures { result ≡ read_as op (operand_seen operand) }
{
    match operand {
        Operand::Static(field) => {
            if op == GETSTATIC {
                Some(Field::Static(field))
            } else {
                None
            }
        }
        Operand::Field(_, owner, index) => {
            if op == GETFIELD {
                Some(Field::Instance(owner, index))
            } else {
                None
            }
        }
        _ => None,
    }
}

/// The field that an instruction writes which names this.
fn put_as(op: u8, operand: Operand) -> Option<Field>
    ensures { result ≡ put_as op (operand_seen operand) }
{
    match operand {
        Operand::Static(field) => {
            if op == PUTSTATIC {
                Some(Field::Static(field))
            } else {
                None
            }
        }
        Operand::Field(_, owner, index) => {
            if op == PUTFIELD {
                Some(Field::Instance(owner, index))
            } else {
                None
            }
        }
        _ => None,
    }
}

/// The field that the instruction at a place of a method of this code reads.
pub(crate) fn read_at(program: &Program, method: u32, code: &[u8], place: u32) -> Option<Field>
    requires method { method < length (methods_by_number program.now) }
    requires code { IsSomeAnd (body_of (resolved program.now) method) (λ b. b.code ≡ code.now) }
    requires inside { place < length code.now }
    ensures { result ≡ read_at (resolved program.now) method place }
{
    // Most instructions needn't be read.
    let byte = code[place as usize];
    if byte != GETSTATIC && byte != GETFIELD {
        return None;
    }
    let x = program.instruction(method, place)?;
    read_as(x.instr.op, x.operand)
}

/// The field that the instruction at a place of a method of this code writes.
pub(crate) fn put_at(program: &Program, method: u32, code: &[u8], place: u32) -> Option<Field>
    requires method { method < length (methods_by_number program.now) }
    requires code { IsSomeAnd (body_of (resolved program.now) method) (λ b. b.code ≡ code.now) }
    requires inside { place < length code.now }
    ensures { result ≡ put_at (resolved program.now) method place }
{
    let byte = code[place as usize];
    if byte != PUTSTATIC && byte != PUTFIELD {
        return None;
    }
    let x = program.instruction(method, place)?;
    put_as(x.instr.op, x.operand)
}
