//! What the instructions of a method do with ints and arrays is read off its code.

ghost use Rattle.std.specs.Prelude.{◌≡◌, ◌↔◌, ℕ, ◌<◌, length, Contains, IfOk, IsTrue};
ghost use Rattle.opcodes.specs.Start.{IsStart};
ghost use Rattle.bytecode_model.specs.Program.{Program};
ghost use Rattle.method_flow.specs.Flow.{IsCodedOf};
ghost use Rattle.loop_rules.specs.Sites.{AreSitesOf};
ghost use Rattle.loop_rules.specs.Further.Arrays.{AreArraysRead, length_at};
ghost use Rattle.loop_rules.specs.Further.Known.{Known};
ghost use Rattle.known_ints.specs.Lines.{IsValueLine, field_part, part_by, part_of, part_told, static_part};
ghost use Rattle.known_ints.specs.Parts.{AreParts, IsPart, part_at, written};

use crate::rows::{Arithmetic, ValueRow, value_row};
use base::NoMemory;
use code_scan::{IntRow, int_line};
use loop_rules::MethodSites;
use method_flow::FlowMethod;
use opcodes::{decode, starts};
use std::alloc::Global;

/// What an instruction does with ints and arrays, as far as it tells what is pushed.
#[derive(Clone, Copy)]
pub enum Part {
    /// It pushes this int constant.
    Int(i32),
    /// It pushes a constant that is no int.
    Constant,
    /// It pushes this constant of a static final int.
    Field(i32),
    /// It pushes what a static field holds: null or an array of this length.
    StaticArray(i32),
    /// It pushes what a field of an object holds: null or an array of this length.
    FieldArray(i32),
    /// It pushes the int of a local variable.
    Load(u32),
    /// It pushes the reference of a local variable.
    LoadReference(u32),
    /// It stores an int into a local variable.
    Store(u32),
    /// It stores a reference into a local variable.
    StoreReference(u32),
    /// It stores a long into a local variable and the next one.
    StoreLong(u32),
    /// It adds to the int of a local variable.
    Increment(u32),
    /// It copies the topmost word.
    Copy,
    /// It pushes what it computes of two ints.
    Compute(Arithmetic),
    /// It pushes an array that it makes, as long as an int says.
    NewArray,
    /// It pushes the length of an array.
    Length,
    /// It stores a number into an array.
    StoreNumber,
    /// None of these.
    Other,
}

/// What the instruction at a place of the method's code does with arrays and with ints that are computed.
fn value_at(method: &FlowMethod, place: u32) -> ValueRow
    requires { IsStart method.now.code place }
    ensures { (P : Program) (m : ℕ) → IsCodedOf P m method.now → IsValueLine P m place result }
{
    opcodes::laws::starts_follow_one_another();
    code_lines::laws::lines_are_read();
    code_lines::laws::lines_follow_one_another();
    match decode(method.code(), place) {
        Ok(instr) => value_row(&instr),
        Err(_) => ValueRow::Other,
    }
}

/// What a read of a static field does, where the length of the arrays that the field holds is told.
fn static_part(array: Option<i32>) -> Part
    ensures { result ≡ static_part array }
{
    match array {
        Some(length) => Part::StaticArray(length),
        None => Part::Other,
    }
}

/// The same of a field of an object.
fn field_part(array: Option<i32>) -> Part
    ensures { result ≡ field_part array }
{
    match array {
        Some(length) => Part::FieldArray(length),
        None => Part::Other,
    }
}

/// What an instruction does of which this is told, and which is neither a local variable's nor pushes a constant.
fn part_of_value(array: Option<i32>, value: ValueRow) -> Part
    ensures { result ≡ part_of array value }
{
    match value {
        ValueRow::Push => Part::Constant,
        ValueRow::LoadReference(local) => Part::LoadReference(local),
        ValueRow::ReadStatic => static_part(array),
        ValueRow::ReadField => field_part(array),
        ValueRow::Copy => Part::Copy,
        ValueRow::Compute(arithmetic) => Part::Compute(arithmetic),
        ValueRow::NewArray => Part::NewArray,
        ValueRow::Length => Part::Length,
        ValueRow::StoreNumber => Part::StoreNumber,
        ValueRow::Other => Part::Other,
    }
}

/// What an instruction does of which this is told.
fn part_told(array: Option<i32>, row: IntRow, value: ValueRow) -> Part
    ensures { result ≡ part_told array row value }
{
    match row {
        IntRow::Load(local) => Part::Load(local),
        IntRow::Store(local) => Part::Store(local),
        IntRow::StoreLong(local) => Part::StoreLong(local),
        IntRow::StoreReference(local) => Part::StoreReference(local),
        IntRow::Increment(local, _) => Part::Increment(local),
        _ => part_of_value(array, value),
    }
}

/// The same where the int constant that it pushes is told, or the constant of the static final int that it reads.
fn part_by(
    pushed: Option<i32>,
    field: Option<i32>,
    array: Option<i32>,
    row: IntRow,
    value: ValueRow,
) -> Part
    ensures { result ≡ part_by pushed field array row value }
{
    match pushed {
        Some(number) => Part::Int(number),
        None => match field {
            Some(number) => Part::Field(number),
            None => part_told(array, row, value),
        },
    }
}

/// The length of the arrays of the field that the instruction at a place reads, where it is told.
fn length_at(arrays: &[Option<i32>], place: u32) -> Option<i32>
    ensures { result ≡ length_at arrays.now place }
{
    let index = place as usize;
    if index < arrays.len() {
        arrays[index]
    } else {
        None
    }
}

/// What the instruction at a place of the method's code does.
fn part_of(method: &FlowMethod, sites: &MethodSites, arrays: &[Option<i32>], place: u32) -> Part
    requires { IsStart method.now.code place }
    ensures { (P : Program) (known : Known) (m : ℕ) → IsCodedOf P m method.now → AreSitesOf P known.constants m sites.now
        → AreArraysRead P known m arrays.now → IsPart P known m place result }
{
    code_lines::laws::lines_follow_one_another();
    let line = int_line(method, place);
    let value = value_at(method, place);
    let array = length_at(arrays, place);
    part_by(
        sites.pushed(place),
        sites.field(place),
        array,
        line.row,
        value,
    )
}

/// What the instructions of the method do, by place.
pub fn parts(
    alloc: Global,
    method: &FlowMethod,
    sites: &MethodSites,
    arrays: &[Option<i32>],
) -> Result<Vec<Part>, NoMemory>
    ensures long { IfOk result (λ parts. length parts.items ≡ length method.now.code) }
    ensures parts { IfOk result (λ parts. (P : Program) (known : Known) (m : ℕ) → IsCodedOf P m method.now → AreSitesOf P known.constants m sites.now
        → AreArraysRead P known m arrays.now → AreParts P known m parts.items) }
{
    opcodes::laws::starts_follow_one_another();
    code_lines::laws::lines_are_read();
    let code = method.code();
    let mut parts = vec![in alloc; Part::Other; code.len()]?;
    let starts = starts(alloc, code)?;
    for place in &starts {
        parts[*place as usize] = part_of(method, sites, arrays, *place);
    }
    Ok(parts)
}

/// What the instruction at a place does.
pub fn part_at(parts: &[Part], place: u32) -> Part
    ensures { result ≡ part_at parts.now place }
{
    let index = place as usize;
    if index < parts.len() {
        parts[index]
    } else {
        Part::Other
    }
}

/// Whether an instruction that does so writes the local variable.
pub fn writes(part: Part, local: u32) -> bool
    ensures { IsTrue result ↔ Contains (written part) local }
{
    match part {
        Part::Store(k) | Part::StoreReference(k) | Part::Increment(k) => k == local,
        Part::StoreLong(k) => k == local || u64::from(k) + 1 == u64::from(local),
        _ => false,
    }
}
