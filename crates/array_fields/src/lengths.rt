//! The lengths of the arrays that fields hold, by the puts of a program.

ghost use Rattle.std.specs.Prelude.{◌≡◌, ◌<◌, false, length, IfOk};
ghost use Rattle.program_tables.specs.Resolved.{resolved};
ghost use Rattle.array_fields.specs.First.{has_first_object};
ghost use Rattle.array_fields.specs.Lengths.{AreClassLengths, AreFieldLengths, AreLengthsKept, AreStaticLengths, length_kept};

use crate::contents::{Content, field_contents, static_contents};
use crate::first::{has_first_object, nulls, references};
use crate::puts::Put;
use crate::sharing::sharing;
use base::{Items, NoMemory};
use class_lookup::laws::classes_extend_what_is_above;
use resolved_program::Program;
use std::alloc::Global;

/// The length of the arrays that a field holds, where it is kept.
fn length_kept(kept: bool, content: Content) -> Option<i32>
    ensures { result ≡ length_kept kept content }
{
    match content {
        Content::Arrays(length) if kept => Some(length),
        _ => None,
    }
}

/// The lengths of the contents whose index is flagged.
fn lengths_kept(
    alloc: Global,
    flags: &[bool],
    contents: &[Content],
) -> Result<Vec<Option<i32>>, NoMemory>
    requires { length contents.now ≡ length flags.now }
    ensures { IfOk result (λ lengths. AreLengthsKept flags.now contents.now lengths.items) }
{
    let mut lengths = Vec::new(alloc);
    for index in 0..flags.len() {
        lengths.push(length_kept(flags[index], contents[index]))?;
    }
    Ok(lengths)
}

/// The lengths of the arrays that static fields hold, by number.
pub(crate) fn static_lengths(
    alloc: Global,
    program: &Program,
    puts: &[Put],
) -> Result<Vec<Option<i32>>, NoMemory>
    ensures { IfOk result (λ lengths. AreStaticLengths (resolved program.now) puts.now lengths.items) }
{
    let nulls = nulls(alloc, program)?;
    let contents = static_contents(alloc, puts, nulls.len())?;
    lengths_kept(alloc, &nulls, &contents)
}

/// The lengths of the arrays that the fields of a class's instances hold, by index, where no object of it is there at the start.
fn lengths_put(
    alloc: Global,
    program: &Program,
    puts: &[Put],
    class: u32,
) -> Result<Vec<Option<i32>>, NoMemory>
    requires class { class < length program.now }
    requires first { has_first_object program.now class ≡ false }
    ensures { IfOk result (λ lengths. AreFieldLengths (resolved program.now) puts.now class lengths.items) }
{
    program.is_resolved();
    classes_extend_what_is_above();
    let references = references(alloc, program, class)?;
    let flags = sharing(alloc, program, class)?;
    let contents = field_contents(alloc, puts, &flags, references.len())?;
    lengths_kept(alloc, &references, &contents)
}

/// The lengths of the arrays that the fields of a class's instances hold, by index.
fn field_lengths(
    alloc: Global,
    program: &Program,
    puts: &[Put],
    class: u32,
) -> Result<Vec<Option<i32>>, NoMemory>
    requires { class < length program.now }
    ensures { IfOk result (λ lengths. AreFieldLengths (resolved program.now) puts.now class lengths.items) }
{
    program.is_resolved();
    if has_first_object(program, class) {
        return Ok(Vec::new(alloc));
    }
    lengths_put(alloc, program, puts, class)
}

/// The lengths of the arrays that the fields of each class's instances hold.
pub(crate) fn class_lengths(
    alloc: Global,
    program: &Program,
    puts: &[Put],
) -> Result<Vec<Items<Option<i32>>>, NoMemory>
    ensures { IfOk result (λ lengths. AreClassLengths (resolved program.now) puts.now (length program.now) lengths.items) }
{
    let mut lengths = Vec::new(alloc);
    for class in 0..program.class_count() {
        lengths.push(Items::new(field_lengths(alloc, program, puts, class)?))?;
    }
    Ok(lengths)
}
