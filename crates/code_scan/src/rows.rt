//! What an instruction does with ints, as far as code alone tells it (JVM Specification SE 8, 6.5).

ghost use Rattle.std.specs.Prelude.{◌≡◌, ℕ, ◌<◌, ◌≤◌, List, Some};
ghost use Rattle.bytecode_model.specs.Program.{Operand};
ghost use Rattle.bytecode_model.specs.Rows.{Row};
ghost use Rattle.bytecode_model.specs.Table.{constant, row_of};
ghost use Rattle.code_scan.specs.Rows.{Tells};
ghost use Rattle.code_scan.specs.Told.{branched_by, comparison_of, int_stored_by, loaded_by, pushed_by, stored_by, told_by};

use opcodes::Instr;

/// How an int is compared with another.
#[derive(Clone, Copy)]
pub enum Comparison {
    Equal,
    Unequal,
    Less,
    AtLeast,
    Greater,
    AtMost,
}

/// What an instruction does with ints on the operand stack and with local variables, as far as code alone tells it. Offsets
/// count from the instruction's own place.
#[derive(Clone, Copy)]
pub enum IntRow {
    /// It pushes this int.
    Push(i32),
    /// It pushes the constant of its pool entry, an int or another one.
    PushEntry,
    /// It pushes the int of this local variable.
    Load(u32),
    /// It stores an int into this local variable.
    Store(u32),
    /// It stores a long into this local variable and the next one.
    StoreLong(u32),
    /// It stores a reference into this local variable.
    StoreReference(u32),
    /// It adds this number to the int of this local variable.
    Increment(u32, i32),
    /// It branches by this offset where an int compares so with 0.
    BranchZero(Comparison, i32),
    /// It branches by this offset where an int compares so with the one above it.
    BranchInts(Comparison, i32),
    /// None of these.
    Other,
}

/// Constants.
fn pushed(op: u8, first: i32) -> IntRow
    ensures { result ≡ pushed_by op first }
{
    if 2 <= op && op <= 8 {
        IntRow::Push(i32::from(op) - 3)
    } else if op == 16 || op == 17 {
        IntRow::Push(first)
    } else if op == 18 || op == 19 {
        IntRow::PushEntry
    } else {
        IntRow::Other
    }
}

/// Loads of ints, and `iinc`.
fn loaded(op: u8, first: i32, second: i32) -> IntRow
    ensures { result ≡ loaded_by op first second }
{
    if op == 21 {
        IntRow::Load(first.unsigned_abs())
    } else if 26 <= op && op <= 29 {
        IntRow::Load(u32::from(op - 26))
    } else if op == 132 {
        IntRow::Increment(first.unsigned_abs(), second)
    } else {
        IntRow::Other
    }
}

/// Stores of ints.
fn int_stored(op: u8, first: i32) -> IntRow
    ensures { result ≡ int_stored_by op first }
{
    if op == 54 {
        IntRow::Store(first.unsigned_abs())
    } else if 59 <= op && op <= 62 {
        IntRow::Store(u32::from(op - 59))
    } else {
        IntRow::Other
    }
}

/// Stores.
fn stored(op: u8, first: i32) -> IntRow
    ensures { result ≡ stored_by op first }
{
    if op == 55 {
        IntRow::StoreLong(first.unsigned_abs())
    } else if 63 <= op && op <= 66 {
        IntRow::StoreLong(u32::from(op - 63))
    } else if op == 58 {
        IntRow::StoreReference(first.unsigned_abs())
    } else if 75 <= op && op <= 78 {
        IntRow::StoreReference(u32::from(op - 75))
    } else {
        int_stored(op, first)
    }
}

/// The comparisons in the order of the opcodes.
fn compared_by(number: u8) -> Comparison
    ensures { result ≡ comparison_of number }
{
    match number {
        0 => Comparison::Equal,
        1 => Comparison::Unequal,
        2 => Comparison::Less,
        3 => Comparison::AtLeast,
        4 => Comparison::Greater,
        _ => Comparison::AtMost,
    }
}

/// Branches on ints.
fn branched(op: u8, first: i32) -> IntRow
    ensures { result ≡ branched_by op first }
{
    if 153 <= op && op <= 158 {
        IntRow::BranchZero(compared_by(op - 153), first)
    } else if 159 <= op && op <= 164 {
        IntRow::BranchInts(compared_by(op - 159), first)
    } else {
        IntRow::Other
    }
}

/// The same by the opcode and the operands.
fn row_by(op: u8, first: i32, second: i32) -> IntRow
    ensures { result ≡ told_by op first second }
{
    if op < 21 {
        pushed(op, first)
    } else if op < 54 {
        loaded(op, first, second)
    } else if op < 79 {
        stored(op, first)
    } else if op < 133 {
        loaded(op, first, second)
    } else {
        branched(op, first)
    }
}

/// What the instruction does with ints.
pub fn int_row(instr: &Instr) -> IntRow
    ensures tells { (code : List ℕ) (o : Operand) (r : Row) → row_of code instr.now o ≡ Some r → Tells result r }
    ensures constant { result ≡ IntRow.PushEntry → (code : List ℕ) (o : Operand) → row_of code instr.now o ≡ constant code instr.now o }
{
    row_by(instr.op, instr.first, instr.second)
}
