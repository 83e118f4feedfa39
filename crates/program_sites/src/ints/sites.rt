//! The ints that methods push, by method and place.

ghost use Rattle.std.specs.Prelude.{◌≡◌, ℕ, ◌<◌, length, Contains, IfOk, OnOk};
ghost use Rattle.std.specs.Option.{IsSomeAnd};
ghost use Rattle.bytecode_model.specs.Program.{body_of};
ghost use Rattle.lists.specs.Lists.{onto};
ghost use Rattle.loop_rules.specs.Sites.{AreIntSites, AreSitesOf, int_at};
ghost use Rattle.opcodes.specs.Start.{starts_of};
ghost use Rattle.program_tables.specs.Numbers.{methods_by_number};
ghost use Rattle.program_tables.specs.Resolved.{resolved};
ghost use Rattle.program_sites.specs.Ints.Constants.{AreConstants, AreMethodSites};
ghost use Rattle.program_sites.specs.Ints.Places.{AreIntsOf, AreLeft, constant_read, without};
ghost use Rattle.program_sites.specs.Ints.Rows.{pushed_at, put_at};

use crate::ints::constants::constants;
use crate::ints::rows::{pushed_at, put_at, read_at};
use base::NoMemory;
use loop_rules::{IntSites, MethodSites};
use opcodes::laws::starts_follow_one_another;
use opcodes::starts;
use program_tables::laws::methods_stand_by_number;
use resolved_program::Program;
use std::alloc::Global;

/// Takes away the constant of a field.
fn take_away(constants: &mut Vec<Option<i32>>, field: Option<u32>)
    ensures { constants.new.items ≡ without constants.old.items field }
{
    if let Some(field) = field {
        let index = field as usize;
        if index < constants.len() {
            constants[index] = None;
        }
    }
}

/// Takes away the constants of the fields that instructions at these places of a method write.
fn take_written(
    program: &Program,
    method: u32,
    code: &[u8],
    starts: &[u32],
    constants: &mut Vec<Option<i32>>,
)
    requires method { method < length (methods_by_number program.now) }
    requires code { IsSomeAnd (body_of (resolved program.now) method) (λ b. b.code ≡ code.now) }
    requires within { (p : ℕ) → Contains starts.now p → p < length code.now }
    ensures { AreLeft (put_at (resolved program.now) method) starts.now constants.old.items constants.new.items }
{
    for place in starts {
        take_away(constants, put_at(program, method, code, *place));
    }
}

/// Takes away the constants of the fields that instructions of a method of this code write.
fn take_written_in(
    alloc: Global,
    program: &Program,
    method: u32,
    code: &[u8],
    constants: &mut Vec<Option<i32>>,
) -> Result<(), NoMemory>
    requires method { method < length (methods_by_number program.now) }
    requires code { IsSomeAnd (body_of (resolved program.now) method) (λ b. b.code ≡ code.now) }
    requires short { length code.now < 65536 }
    ensures { OnOk result (AreLeft (put_at (resolved program.now) method) (starts_of code.now) constants.old.items constants.new.items) }
{
    starts_follow_one_another();
    let starts = starts(alloc, code)?;
    take_written(program, method, code, &starts, constants);
    Ok(())
}

/// The constants of static final ints that no instruction writes, by number of the static field.
fn constants_left(alloc: Global, program: &Program) -> Result<Vec<Option<i32>>, NoMemory>
    ensures { IfOk result (λ left. AreConstants program.now left.items) }
{
    methods_stand_by_number();
    let mut left = constants(alloc, program)?;
    for number in 0..program.method_count() {
        if let Some(code) = program.code(number) {
            take_written_in(alloc, program, number, code.code.as_slice(), &mut left)?;
        }
    }
    Ok(left)
}

/// The constant of a field, where it has one.
fn constant_of(constants: &[Option<i32>], field: Option<u32>) -> Option<i32>
    ensures { result ≡ onto field (int_at constants.now) }
{
    let index = field? as usize;
    if index < constants.len() {
        constants[index]
    } else {
        None
    }
}

/// The ints that instructions at these places of a method push, by place.
fn ints_pushed(
    alloc: Global,
    program: &Program,
    method: u32,
    code: &[u8],
    starts: &[u32],
) -> Result<Vec<Option<i32>>, NoMemory>
    requires method { method < length (methods_by_number program.now) }
    requires code { IsSomeAnd (body_of (resolved program.now) method) (λ b. b.code ≡ code.now) }
    requires within { (p : ℕ) → Contains starts.now p → p < length code.now }
    ensures { IfOk result (λ ints. AreIntsOf (pushed_at (resolved program.now) method) starts.now ints.items) }
{
    let mut ints = vec![in alloc; None; code.len()]?;
    for place in starts {
        ints[*place as usize] = pushed_at(program, method, code, *place);
    }
    Ok(ints)
}

/// The constants of the static fields that instructions at these places of a method read, by place.
fn constants_read(
    alloc: Global,
    program: &Program,
    constants: &[Option<i32>],
    method: u32,
    code: &[u8],
    starts: &[u32],
) -> Result<Vec<Option<i32>>, NoMemory>
    requires method { method < length (methods_by_number program.now) }
    requires code { IsSomeAnd (body_of (resolved program.now) method) (λ b. b.code ≡ code.now) }
    requires within { (p : ℕ) → Contains starts.now p → p < length code.now }
    ensures { IfOk result (λ ints. AreIntsOf (constant_read (resolved program.now) (int_at constants.now) method) starts.now ints.items) }
{
    let mut ints = vec![in alloc; None; code.len()]?;
    for place in starts {
        ints[*place as usize] = constant_of(constants, read_at(program, method, code, *place));
    }
    Ok(ints)
}

/// The sites of a method of this code.
fn sites_of(
    alloc: Global,
    program: &Program,
    constants: &[Option<i32>],
    method: u32,
    code: &[u8],
) -> Result<MethodSites, NoMemory>
    requires method { method < length (methods_by_number program.now) }
    requires code { IsSomeAnd (body_of (resolved program.now) method) (λ b. b.code ≡ code.now) }
    requires short { length code.now < 65536 }
    ensures { IfOk result (λ sites. AreSitesOf (resolved program.now) (int_at constants.now) method sites) }
{
    starts_follow_one_another();
    let starts = starts(alloc, code)?;
    let pushed = ints_pushed(alloc, program, method, code, &starts)?;
    let fields = constants_read(alloc, program, constants, method, code, &starts)?;
    Ok(MethodSites::new(pushed, fields))
}

/// The sites of the methods with code, by number.
fn method_sites(
    alloc: Global,
    program: &Program,
    constants: &[Option<i32>],
) -> Result<Vec<MethodSites>, NoMemory>
    ensures { IfOk result (λ methods. AreMethodSites (resolved program.now) (int_at constants.now) methods.items) }
{
    methods_stand_by_number();
    let mut methods = Vec::new(alloc);
    for number in 0..program.method_count() {
        // Those without code come last.
        let Some(code) = program.code(number) else {
            return Ok(methods);
        };
        methods.push(sites_of(alloc, program, constants, number, code.code.as_slice())?)?;
    }
    Ok(methods)
}

/// The ints that the methods of a program push, and the constants of the static final ints that no instruction of the program, reached
/// or not, writes.
pub fn int_sites(alloc: Global, program: &Program) -> Result<IntSites, NoMemory>
    ensures sites { IfOk result (AreIntSites (resolved program.now)) }
    ensures constants { IfOk result (λ sites. AreConstants program.now sites.constants) }
{
    let constants = constants_left(alloc, program)?;
    let methods = method_sites(alloc, program, &constants)?;
    Ok(IntSites::new(methods, constants))
}
