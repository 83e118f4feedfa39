//! With what fields begin, and of which classes objects are there at the start (JVM Specification SE 8, 2.3, 2.4 and 5.5).

ghost use Rattle.std.specs.Prelude.{◌≡◌, ◌++◌, ◌<◌, All, is_some, length, map, IfOk, OnOk, Some, slice_get};
ghost use Rattle.std.specs.List.{list_any};
ghost use Rattle.std.specs.Option.{option_to_list};
ghost use Rattle.class_pool.specs.declared.class.ClassFile.{ClassFile};
ghost use Rattle.class_pool.specs.Grammar.{entry_at};
ghost use Rattle.lists.specs.Lists.{onto};
ghost use Rattle.program_tables.specs.Core.{raised_classes};
ghost use Rattle.program_tables.specs.Meanings.{declared_seen};
ghost use Rattle.program_tables.specs.Resolved.{constant_of, constant_at, declared_at, first_value, resolved};
ghost use Rattle.array_fields.specs.First.{has_first_object, is_null, is_reference};

use base::NoMemory;
use class_lookup::Place;
use class_pool::Entry;
use program_tables::{Declared, entry_of, field_at};
use resolved_program::Program;
use std::alloc::Global;

/// The class that each class extends.
const OBJECT: u32 = 0;

/// The class of string literals.
const STRING: u32 = 3;

/// Whether the first class is the second or has it above.
pub(crate) fn extends(program: &Program, class: u32, other: u32) -> bool
    requires { class < length program.now }
    ensures { result ≡ (resolved program.now).extends class other }
{
    other == OBJECT || program.extends(class, other)
}

/// Whether a type is one of references.
fn is_reference(declared: Declared) -> bool
    ensures { result ≡ is_reference (declared_seen declared) }
{
    match declared {
        Declared::Reference(_) => true,
        _ => false,
    }
}

/// Whether the entry of a class is a constant with which a field may begin.
fn is_constant(program: &Program, class: u32, index: u16) -> bool
    requires { class < length program.now }
    ensures { (c : ClassFile) → slice_get program.now class ≡ Some c
        → result ≡ is_some (onto (entry_at c.pool index) (constant_of program.now c.pool)) }
{
    match entry_of(&program.class(class).pool, u32::from(index)) {
        Some(Entry::Integer(_)) | Some(Entry::Long(_)) => true,
        Some(Entry::Text(_)) => program.string_object(class, index).is_some(),
        _ => false,
    }
}

/// Whether a field begins with a constant.
fn has_constant(program: &Program, place: Place) -> bool
    ensures { result ≡ is_some (constant_at program.now place) }
{
    let Some(field) = field_at(program.hierarchy().classes(), place) else {
        return false;
    };
    let Some(index) = field.constant_value() else {
        return false;
    };
    if place.class >= program.class_count() {
        return false;
    }
    is_constant(program, place.class, index)
}

/// Says of a static field, behind others, whether it begins with null.
fn add_null(nulls: &mut Vec<bool>, program: &Program, place: Place) -> Result<(), NoMemory>
    ensures { OnOk result (nulls.new.items ≡ nulls.old.items ++ map is_null (option_to_list (first_value program.now place))) }
{
    if let Some(declared) = program.field_type(place) {
        nulls.push(is_reference(declared) && !has_constant(program, place))?;
    }
    Ok(())
}

/// By number, which static fields begin with null.
pub(crate) fn nulls(alloc: Global, program: &Program) -> Result<Vec<bool>, NoMemory>
    ensures { IfOk result (λ nulls. nulls.items ≡ map is_null (resolved program.now).first_statics) }
{
    let mut nulls = Vec::new(alloc);
    for index in 0..program.static_count() {
        add_null(&mut nulls, program, program.static_field(index))?;
    }
    Ok(nulls)
}

/// Says of a field, behind others, whether it is a reference.
fn add_reference(
    references: &mut Vec<bool>,
    program: &Program,
    place: Place,
) -> Result<(), NoMemory>
    ensures { OnOk result (references.new.items ≡ references.old.items ++ map is_reference (option_to_list (declared_at program.now place))) }
{
    if let Some(declared) = program.field_type(place) {
        references.push(is_reference(declared))?;
    }
    Ok(())
}

/// By index, which fields of a class's instances are references.
pub(crate) fn references(
    alloc: Global,
    program: &Program,
    class: u32,
) -> Result<Vec<bool>, NoMemory>
    requires { class < length program.now }
    ensures { IfOk result (λ references. references.items ≡ map is_reference ((resolved program.now).fields class)) }
{
    let mut references = Vec::new(alloc);
    for index in 0..program.instance_field_count(class) {
        add_reference(
            &mut references,
            program,
            program.instance_field(class, index),
        )?;
    }
    Ok(references)
}

/// The classes of the errors that instructions raise, of each of which an object is there at the start.
fn raised_classes() -> [u32; 9]
    ensures { result ≡ raised_classes }
{
    [8, 14, 9, 10, 18, 15, 16, 20, 21]
}

/// Whether one of these classes is the class or has it above.
fn are_below(program: &Program, classes: &[u32], class: u32) -> bool
    requires { All (λ c. c < length program.now) classes.now }
    ensures { result ≡ list_any (λ c. (resolved program.now).extends c class) classes.now }
{
    classes.iter().any(|lower| extends(program, *lower, class))
}

/// Whether an error that instructions raise has the class.
fn is_raised(program: &Program, class: u32) -> bool
    ensures { result ≡ list_any (λ c. (resolved program.now).extends c class) raised_classes }
{
    program.is_resolved();
    are_below(program, &raised_classes(), class)
}

/// Whether an object that is there at the start has the class: an error that instructions raise, or a string literal.
pub(crate) fn has_first_object(program: &Program, class: u32) -> bool
    ensures { result ≡ has_first_object program.now class }
{
    program.is_resolved();
    is_raised(program, class) || program.strings().count() > 0 && extends(program, STRING, class)
}
