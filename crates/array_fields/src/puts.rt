//! The puts to fields of a program's instructions.

ghost use Rattle.std.specs.Prelude.{◌≡◌, ℕ, ◌<◌, length, Contains, IfOk, OnOk};
ghost use Rattle.std.specs.Option.{IsSomeAnd, option_map};
ghost use Rattle.loop_rules.specs.Further.Found.{known_at};
ghost use Rattle.bytecode_model.specs.Program.{body_of};
ghost use Rattle.opcodes.specs.Start.{starts_of};
ghost use Rattle.program_tables.specs.Numbers.{methods_by_number};
ghost use Rattle.program_tables.specs.Resolved.{resolved};
ghost use Rattle.array_fields.specs.Puts.{ArePuts, HasPutsAt, length_put, with_put};

use crate::rows::{Field, put_at};
use base::NoMemory;
use loop_rules::further::{KnownTable, known_at};
use opcodes::laws::starts_follow_one_another;
use opcodes::starts;
use program_tables::laws::methods_stand_by_number;
use resolved_program::Program;
use std::alloc::Global;

/// A put to a field: of null or an array of so many elements, or of what isn't known.
#[derive(Clone, Copy)]
pub(crate) struct Put {
    pub(crate) field: Field,
    pub(crate) length: Option<i32>,
}

/// The length of the array that lines push which end at a place, as the table of a method tells it.
fn length_in(table: &KnownTable, place: u32) -> Option<i32>
    ensures { result ≡ option_map (λ x. x.value) (known_at table.now.lengths place) }
{
    Some(known_at(&table.lengths, place)?.value)
}

/// The length of the array that lines push which end at a place of a method, as the tables tell it.
fn length_put(tables: &[KnownTable], method: u32, place: u32) -> Option<i32>
    ensures { result ≡ length_put tables.now method place }
{
    let index = method as usize;
    if index < tables.len() {
        length_in(&tables[index], place)
    } else {
        None
    }
}

/// Puts a put of this length behind others, where there is a field.
fn add_put(puts: &mut Vec<Put>, field: Option<Field>, length: Option<i32>) -> Result<(), NoMemory>
    ensures { OnOk result (puts.new.items ≡ with_put puts.old.items field length) }
{
    if let Some(field) = field {
        puts.push(Put { field, length })?;
    }
    Ok(())
}

/// Puts the puts of instructions at these places of a method of this code behind others.
fn add_puts(
    puts: &mut Vec<Put>,
    program: &Program,
    tables: &[KnownTable],
    method: u32,
    code: &[u8],
    starts: &[u32],
) -> Result<(), NoMemory>
    requires method { method < length (methods_by_number program.now) }
    requires code { IsSomeAnd (body_of (resolved program.now) method) (λ b. b.code ≡ code.now) }
    requires within { (p : ℕ) → Contains starts.now p → p < length code.now }
    ensures { OnOk result (HasPutsAt (resolved program.now) tables.now method starts.now puts.old.items puts.new.items) }
{
    for place in starts {
        let field = put_at(program, method, code, *place);
        add_put(puts, field, length_put(tables, method, *place))?;
    }
    Ok(())
}

/// Puts the puts of a method of this code behind others.
fn add_puts_in(
    alloc: Global,
    puts: &mut Vec<Put>,
    program: &Program,
    tables: &[KnownTable],
    method: u32,
    code: &[u8],
) -> Result<(), NoMemory>
    requires method { method < length (methods_by_number program.now) }
    requires code { IsSomeAnd (body_of (resolved program.now) method) (λ b. b.code ≡ code.now) }
    requires short { length code.now < 65536 }
    ensures { OnOk result (HasPutsAt (resolved program.now) tables.now method (starts_of code.now) puts.old.items puts.new.items) }
{
    starts_follow_one_another();
    let starts = starts(alloc, code)?;
    add_puts(puts, program, tables, method, code, &starts)
}

/// The puts of a program's instructions, with the lengths of what they put as the tables of its methods tell them.
pub(crate) fn puts_of(
    alloc: Global,
    program: &Program,
    tables: &[KnownTable],
) -> Result<Vec<Put>, NoMemory>
    ensures { IfOk result (λ puts. ArePuts (resolved program.now) tables.now puts.items) }
{
    methods_stand_by_number();
    let mut puts = Vec::new(alloc);
    for number in 0..program.method_count() {
        // Those without code come last.
        let Some(code) = program.code(number) else {
            return Ok(puts);
        };
        add_puts_in(
            alloc,
            &mut puts,
            program,
            tables,
            number,
            code.code.as_slice(),
        )?;
    }
    Ok(puts)
}
