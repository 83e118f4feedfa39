//! The file and the lines that the places of a method were compiled from.
ghost use Rattle.std.specs.Prelude.{◌≡◌, ℕ, ◌<◌, ◌≤◌, length, IfOk, option_map};
ghost use Rattle.std.specs.List.{filter_map};
ghost use Rattle.std.specs.Option.{option_copied};
ghost use Rattle.class_lookup.specs.Lookup.{method_at};
ghost use Rattle.bytecode_model.specs.Lists.{onto};
ghost use Rattle.source_places.specs.Tables.Lines.{line_of};
ghost use Rattle.program_tables.specs.Numbers.{methods_by_number};
ghost use Rattle.source_places.specs.Methods.Sources.{class_of, file_of};
ghost use Rattle.source_places.specs.Methods.Told.{line_at, source_by, IsSourceOf};

use crate::tables::{lines_of, source_file};
use base::NoMemory;
use class_pool::{ClassFile, Code};
use name_laws::write_name;
use resolved_program::Program;
use std::alloc::Global;

/// The file of a method's class, as its name is written, and the lines of the places of its code.
#[derive(Drop)]
pub struct MethodSource {
    pub file: Vec<u8>,
    pub lines: Vec<Option<u16>>,
}

/// The file of a class, as its name is written.
pub fn file_of(alloc: Global, class: &ClassFile) -> Result<Option<Vec<u8>>, NoMemory>
    ensures { IfOk result (λ file. option_map (λ bytes. bytes.items) file ≡ file_of class.now) }
{
    match source_file(alloc, class)? {
        Some(file) => Ok(Some(write_name(alloc, file)?)),
        None => Ok(None),
    }
}

/// The class of a method.
fn class_of(program: &Program, number: u32) -> Option<&ClassFile>
    requires { number < length (methods_by_number program.now) }
    ensures { option_copied result ≡ class_of program.now number }
{
    let place = program.method(number);
    if place.class < program.class_count() {
        Some(program.class(place.class))
    } else {
        None
    }
}

/// The file of a class, and the lines of a code of it.
fn source_in(
    alloc: Global,
    class: &ClassFile,
    code: &Code,
) -> Result<Option<MethodSource>, NoMemory>
    ensures file { IfOk result (λ source. (s : MethodSource) → source ≡ Some s → file_of class.now ≡ Some s.file.items) }
    ensures lines { IfOk result (λ source. (p : ℕ) → p < length code.now.code
        → source_by source p ≡ onto (file_of class.now) (λ file. option_map (λ line. (file, line)) (line_of class.now.pool code.now p))) }
    ensures beyond { IfOk result (λ source. (p : ℕ) → length code.now.code ≤ p → source_by source p ≡ None) }
{
    let Some(file) = file_of(alloc, class)? else {
        return Ok(None);
    };
    let lines = lines_of(alloc, &class.pool, code)?;
    Ok(Some(MethodSource { file, lines }))
}

/// The file of a method's class, and the lines of its code.
pub fn source_of(
    alloc: Global,
    program: &Program,
    number: u32,
) -> Result<Option<MethodSource>, NoMemory>
    requires { number < length (methods_by_number program.now) }
    ensures { IfOk result (IsSourceOf program.now number) }
{
    let Some(class) = class_of(program, number) else {
        return Ok(None);
    };
    match program.code(number) {
        Some(code) => source_in(alloc, class, code),
        None => Ok(None),
    }
}

/// The line of a place, where these are the lines of all.
fn line_at(lines: &[Option<u16>], place: u32) -> Option<u32>
    ensures { result ≡ line_at lines.now place }
{
    let index = place as usize;
    if index < lines.len() {
        lines[index].map(u32::from)
    } else {
        None
    }
}

/// The file and the line of a place.
pub fn source_at(source: &Option<MethodSource>, place: u32) -> Option<(&[u8], u32)>
    ensures { option_map (λ s. (s.0.now, s.1)) result ≡ source_by source.now place }
{
    match source {
        Some(source) => match line_at(&source.lines, place) {
            Some(line) => Some((source.file.as_slice(), line)),
            None => None,
        },
        None => None,
    }
}

/// The lines of all places that have one.
pub fn all_lines(alloc: Global, lines: &[Option<u16>]) -> Result<Vec<u32>, NoMemory>
    ensures { IfOk result (λ found. found.items ≡ filter_map (λ line. line) lines.now) }
{
    let mut found = Vec::new(alloc);
    for line in lines {
        if let Some(line) = line {
            found.push(u32::from(*line))?;
        }
    }
    Ok(found)
}

/// The lines of these places, of those that have one.
pub fn lines_at(alloc: Global, lines: &[Option<u16>], places: &[u32]) -> Result<Vec<u32>, NoMemory>
    ensures { IfOk result (λ found. found.items ≡ filter_map (line_at lines.now) places.now) }
{
    let mut found = Vec::new(alloc);
    for place in places {
        if let Some(line) = line_at(lines, *place) {
            found.push(line)?;
        }
    }
    Ok(found)
}
