//! What single instructions make and push.
ghost use Rattle.std.specs.Prelude.{◌≡◌, ◌<◌, ℕ, List, length, pos, Some};
ghost use Rattle.bytecode_model.specs.Rows.{Row};
ghost use Rattle.bytecode_model.specs.Table.{row_of};
ghost use Rattle.code_lines.specs.Lines.{IsLine};
ghost use Rattle.memory_rules.specs.Heap.{made_by};
ghost use Rattle.program_tables.specs.Meanings.{operand_seen};
ghost use Rattle.program_tables.specs.Numbers.{methods_by_number};
ghost use Rattle.program_tables.specs.Resolved.{resolved};
ghost use Rattle.program_sites.specs.Made.Making.{IsClassOf, IsNewBy, IsPushBy, int_of, made_seen, pushed_or};

use super::objects::object_words;
use class_lookup::laws::superclasses_stand_above;
use code_lines::laws::lines_are_read;
use code_scan::{IntRow, int_row};
use opcodes::Instr;
use program_tables::{Base, ObjectKind, Operand};
use resolved_program::Program;

/// What an instruction makes.
#[derive(Clone, Copy)]
pub(crate) enum MadeWords {
    /// An object of so many words.
    Object(u64),
    /// An array, each element of which takes so many words.
    Array(u8),
}

/// The class that an operand is.
fn class_of(operand: Operand) -> Option<u32>
    ensures { IsClassOf operand result }
{
    match operand {
        Operand::Type(
            ObjectKind {
                dimensions: 0,
                base: Base::Class(class),
            },
        ) => Some(class),
        _ => None,
    }
}

/// What `new` makes. A class that isn't there has no fields.
fn new_words(program: &Program, operand: Operand) -> Option<MadeWords>
    ensures { IsNewBy program.now operand result }
{
    // The laws are for the proof.
    program.hierarchy().is_without_cycle();
    superclasses_stand_above();
    let class = class_of(operand)?;
    if class < program.class_count() {
        Some(MadeWords::Object(object_words(program, class)))
    } else {
        Some(MadeWords::Object(1))
    }
}

/// The words of an element of an array of numbers of this array type code (6.5.newarray): two of longs.
fn element_words(code: i32) -> u8
    ensures long { code ≡ pos 11 → result ≡ 2 }
    ensures other { (code ≡ pos 11 → ⊥) → result ≡ 1 }
{
    if code == 11 { 2 } else { 1 }
}

/// What an instruction makes that names this.
fn words_by(program: &Program, instr: &Instr, operand: Operand) -> Option<MadeWords>
    ensures { (code : List ℕ) (r : Row) → row_of code instr.now (operand_seen operand) ≡ Some r → made_seen result ≡ made_by (resolved program.now) r }
{
    let op = instr.op;
    if op == 187 {
        new_words(program, operand)
    } else if op == 188 {
        Some(MadeWords::Array(element_words(instr.first)))
    } else if op == 189 {
        Some(MadeWords::Array(1))
    } else {
        None
    }
}

/// The int that an operand is.
fn int_of(operand: Operand) -> Option<i32>
    ensures { result ≡ int_of operand }
{
    match operand {
        Operand::Int(value) => Some(value),
        _ => None,
    }
}

/// The int that an instruction pushes of which this is told, where its pool entry is this.
fn pushed_or(row: IntRow, entry: Option<i32>) -> Option<i32>
    ensures { result ≡ pushed_or row entry }
{
    match row {
        IntRow::Push(value) => Some(value),
        IntRow::PushEntry => entry,
        _ => None,
    }
}

/// The int that an instruction pushes that names this.
fn pushed_by(instr: &Instr, operand: Operand) -> Option<i32>
    ensures { (code : List ℕ) (r : Row) → row_of code instr.now (operand_seen operand) ≡ Some r → IsPushBy r result }
{
    pushed_or(int_row(instr), int_of(operand))
}

/// What the instruction at a place of the method `m` makes.
pub(crate) fn made_at(program: &Program, m: u32, place: u32) -> Option<MadeWords>
    requires { m < length (methods_by_number program.now) }
    ensures { (next : ℕ) (r : Row) → IsLine (resolved program.now) m place next r → made_seen result ≡ made_by (resolved program.now) r }
{
    lines_are_read();
    let instruction = program.instruction(m, place)?;
    words_by(program, &instruction.instr, instruction.operand)
}

/// The int that the instruction at a place of the method `m` pushes.
pub(crate) fn pushed_at(program: &Program, m: u32, place: u32) -> Option<i32>
    requires { m < length (methods_by_number program.now) }
    ensures { (next : ℕ) (r : Row) → IsLine (resolved program.now) m place next r → IsPushBy r result }
{
    lines_are_read();
    let instruction = program.instruction(m, place)?;
    pushed_by(&instruction.instr, instruction.operand)
}
