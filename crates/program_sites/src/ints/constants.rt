//! The constants of static final ints (JVM Specification SE 8, 4.7.2).

ghost use Rattle.std.specs.Prelude.{◌≡◌, map, IfOk};
ghost use Rattle.program_tables.specs.Numbers.{static_fields};
ghost use Rattle.program_sites.specs.Ints.Constants.{constant_in, constant_int, int_constant, int_of_entry, is_final_int};

use base::{NoMemory, is_text};
use class_lookup::Place;
use class_lookup::parts::{has_flags, text_at};
use class_pool::{ClassFile, Entry, Member};
use class_rules::flags::ACC_FINAL;
use program_tables::{entry_of, field_at};
use resolved_program::Program;
use std::alloc::Global;

/// The int of an entry.
fn int_of(entry: &Entry) -> Option<i32>
    ensures { result ≡ int_of_entry entry.now }
{
    match entry {
        Entry::Integer(value) => Some(value.cast_signed()),
        _ => None,
    }
}

/// Whether the field is final and of type int.
fn is_final_int(class: &ClassFile, field: &Member) -> bool
    ensures { result ≡ is_final_int class.now field.now }
{
    has_flags(field.flags, ACC_FINAL) && is_text(text_at(&class.pool, field.descriptor), b"I")
}

/// The int that the constant of the field is, where it has one.
fn int_constant(class: &ClassFile, field: &Member) -> Option<i32>
    ensures { result ≡ int_constant class.now field.now }
{
    let index = field.constant_value()?;
    int_of(entry_of(&class.pool, u32::from(index))?)
}

/// The same where it is a final int.
fn constant_in(class: &ClassFile, field: &Member) -> Option<i32>
    ensures { result ≡ constant_in class.now field.now }
{
    if is_final_int(class, field) {
        int_constant(class, field)
    } else {
        None
    }
}

/// The constant of the field at a place of a class's list of fields, where it is a final int.
fn constant_at(program: &Program, place: Place) -> Option<i32>
    ensures { result ≡ constant_int program.now place }
{
    if place.class >= program.class_count() {
        return None;
    }
    let field = field_at(program.hierarchy().classes(), place)?;
    constant_in(program.class(place.class), field)
}

/// The constants of the static fields, by number.
pub(crate) fn constants(alloc: Global, program: &Program) -> Result<Vec<Option<i32>>, NoMemory>
    ensures { IfOk result (λ found. found.items ≡ map (constant_int program.now) (static_fields program.now)) }
{
    let mut found = Vec::new(alloc);
    for index in 0..program.static_count() {
        found.push(constant_at(program, program.static_field(index)))?;
    }
    Ok(found)
}
