//! What an instruction does with arrays and with ints that are computed, as far as code alone tells it (JVM Specification SE 8, 6.5).

ghost use Rattle.std.specs.Prelude.{◌≡◌, ℕ, List, Some};
ghost use Rattle.bytecode_model.specs.Program.{Operand};
ghost use Rattle.bytecode_model.specs.Rows.{Row};
ghost use Rattle.bytecode_model.specs.Table.{row_of};
ghost use Rattle.known_ints.specs.Rows.{TellsValue};
ghost use Rattle.known_ints.specs.Told.{array_by, bits_by, computed_by, loaded_by, read_by, value_by};

use opcodes::Instr;

/// How an int is computed of two.
#[derive(Clone, Copy)]
pub enum Arithmetic {
    Sum,
    Difference,
    Product,
    Quotient,
    Remainder,
    ShiftLeft,
    ShiftRight,
    ShiftRightUnsigned,
    And,
    Or,
    ExclusiveOr,
}

/// What an instruction does with arrays and with ints that are computed, as far as code alone tells it.
#[derive(Clone, Copy)]
pub enum ValueRow {
    /// It pushes a constant, an int or another one.
    Push,
    /// It pushes the reference of this local variable.
    LoadReference(u32),
    /// It pushes what a static field holds.
    ReadStatic,
    /// It pushes what a field of an object holds.
    ReadField,
    /// It copies the topmost word.
    Copy,
    /// It pushes what it computes of two ints.
    Compute(Arithmetic),
    /// It pushes an array that it makes, as long as an int says.
    NewArray,
    /// It pushes the length of an array.
    Length,
    /// It stores a number into an array.
    StoreNumber,
    /// None of these.
    Other,
}

/// Loads of references.
fn loaded(op: u8, first: i32) -> ValueRow
    ensures { result ≡ loaded_by op first }
{
    if op == 25 {
        ValueRow::LoadReference(first.unsigned_abs())
    } else if 42 <= op && op <= 45 {
        ValueRow::LoadReference(u32::from(op - 42))
    } else {
        ValueRow::Other
    }
}

/// Sums, differences, products and quotients of ints.
fn computed(op: u8) -> ValueRow
    ensures { result ≡ computed_by op }
{
    match op {
        96 => ValueRow::Compute(Arithmetic::Sum),
        100 => ValueRow::Compute(Arithmetic::Difference),
        104 => ValueRow::Compute(Arithmetic::Product),
        108 => ValueRow::Compute(Arithmetic::Quotient),
        112 => ValueRow::Compute(Arithmetic::Remainder),
        _ => ValueRow::Other,
    }
}

/// Shifts of ints, and what is computed bit by bit.
fn of_bits(op: u8) -> ValueRow
    ensures { result ≡ bits_by op }
{
    match op {
        120 => ValueRow::Compute(Arithmetic::ShiftLeft),
        122 => ValueRow::Compute(Arithmetic::ShiftRight),
        124 => ValueRow::Compute(Arithmetic::ShiftRightUnsigned),
        126 => ValueRow::Compute(Arithmetic::And),
        128 => ValueRow::Compute(Arithmetic::Or),
        130 => ValueRow::Compute(Arithmetic::ExclusiveOr),
        _ => ValueRow::Other,
    }
}

/// Reads of fields.
fn read(op: u8) -> ValueRow
    ensures { result ≡ read_by op }
{
    match op {
        178 => ValueRow::ReadStatic,
        180 => ValueRow::ReadField,
        _ => ValueRow::Other,
    }
}

/// Arrays that are made, their lengths, and stores of numbers into them.
fn of_array(op: u8) -> ValueRow
    ensures { result ≡ array_by op }
{
    if op == 188 || op == 189 {
        ValueRow::NewArray
    } else if op == 190 {
        ValueRow::Length
    } else if op == 79 || op == 80 || 84 <= op && op <= 86 {
        ValueRow::StoreNumber
    } else {
        ValueRow::Other
    }
}

/// The same by the opcode and the operand.
fn row_by(op: u8, first: i32) -> ValueRow
    ensures { result ≡ value_by op first }
{
    if 1 <= op && op <= 20 {
        ValueRow::Push
    } else if op < 46 {
        loaded(op, first)
    } else if op == 89 {
        ValueRow::Copy
    } else if 96 <= op && op <= 112 {
        computed(op)
    } else if 120 <= op && op <= 130 {
        of_bits(op)
    } else if 178 <= op && op <= 180 {
        read(op)
    } else {
        of_array(op)
    }
}

/// What the instruction does with arrays and with ints that are computed.
pub fn value_row(instr: &Instr) -> ValueRow
    ensures { (code : List ℕ) (o : Operand) (r : Row) → row_of code instr.now o ≡ Some r → TellsValue result r }
{
    row_by(instr.op, instr.first)
}
