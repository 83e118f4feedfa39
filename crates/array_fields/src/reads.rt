//! Which instructions read fields that hold null or arrays of one length.

ghost use Rattle.std.specs.Prelude.{◌≡◌, ℕ, ℤ, ◌<◌, Option, length, Contains, IfOk};
ghost use Rattle.std.specs.Option.{IsSomeAnd};
ghost use Rattle.bytecode_model.specs.Program.{body_of};
ghost use Rattle.loop_rules.specs.Further.Arrays.{AreArraysRead, AreMethodArrays};
ghost use Rattle.lists.specs.Lists.{onto};
ghost use Rattle.program_tables.specs.Numbers.{methods_by_number};
ghost use Rattle.program_tables.specs.Resolved.{resolved};
ghost use Rattle.array_fields.specs.Lengths.{AreIntsOf, array_of, array_read, known_by};

use crate::fields::FieldArrays;
use crate::rows::{Field, read_at};
use base::{Items, NoMemory};
use opcodes::laws::starts_follow_one_another;
use opcodes::starts;
use program_tables::laws::methods_stand_by_number;
use resolved_program::Program;
use std::alloc::Global;

/// The length of the arrays that a field holds, where there is one.
fn array_of(arrays: &FieldArrays, field: Option<Field>) -> Option<i32>
    ensures { result ≡ onto field (array_of arrays.now) }
{
    arrays.of(field?)
}

/// The lengths of the arrays of the fields that instructions at these places of a method read, by place.
fn arrays_at(
    alloc: Global,
    program: &Program,
    arrays: &FieldArrays,
    method: u32,
    code: &[u8],
    starts: &[u32],
) -> Result<Vec<Option<i32>>, NoMemory>
    requires method { method < length (methods_by_number program.now) }
    requires code { IsSomeAnd (body_of (resolved program.now) method) (λ b. b.code ≡ code.now) }
    requires within { (p : ℕ) → Contains starts.now p → p < length code.now }
    ensures { IfOk result (λ lengths. AreIntsOf (array_read (resolved program.now) arrays.now method) starts.now lengths.items) }
{
    let mut lengths = vec![in alloc; None; code.len()]?;
    for place in starts {
        lengths[*place as usize] = array_of(arrays, read_at(program, method, code, *place));
    }
    Ok(lengths)
}

/// The lengths of the arrays of the fields that a method of this code reads, by place.
fn arrays_in(
    alloc: Global,
    program: &Program,
    arrays: &FieldArrays,
    method: u32,
    code: &[u8],
) -> Result<Items<Option<i32>>, NoMemory>
    requires method { method < length (methods_by_number program.now) }
    requires code { IsSomeAnd (body_of (resolved program.now) method) (λ b. b.code ≡ code.now) }
    requires short { length code.now < 65536 }
    ensures { IfOk result (λ lengths. (constants : ℕ → Option ℤ) → AreArraysRead (resolved program.now) (known_by constants arrays.now) method lengths) }
{
    starts_follow_one_another();
    let starts = starts(alloc, code)?;
    let lengths = arrays_at(alloc, program, arrays, method, code, &starts)?;
    Ok(Items::new(lengths))
}

/// By method with code and place, the lengths of the arrays of the fields that instructions read.
pub fn arrays_read(
    alloc: Global,
    program: &Program,
    arrays: &FieldArrays,
) -> Result<Vec<Items<Option<i32>>>, NoMemory>
    ensures { IfOk result (λ xss. (constants : ℕ → Option ℤ) → AreMethodArrays (resolved program.now) (known_by constants arrays.now) xss.items) }
{
    methods_stand_by_number();
    let mut methods = Vec::new(alloc);
    for number in 0..program.method_count() {
        // Those without code come last.
        let Some(code) = program.code(number) else {
            return Ok(methods);
        };
        methods.push(arrays_in(alloc, program, arrays, number, code.code.as_slice())?)?;
    }
    Ok(methods)
}
