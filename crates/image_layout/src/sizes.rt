//! How many words fields and the records of methods take.
ghost use Rattle.std.specs.Prelude.{◌≡◌, ◌+◌, ◌++◌, ◌∷◌, ◌<◌, [], length, map, Some, IfOk, OnOk, slice_get};
ghost use Rattle.std.specs.List.{cons_option};
ghost use Rattle.std.specs.Option.{option_map};
ghost use Rattle.image_builder.specs.Runs.{IsRun};
ghost use Rattle.image_facts.specs.Words.{declared_words};
ghost use Rattle.image_words.specs.Layout.{method_size};
ghost use Rattle.image_words.specs.Outline.{AreInstances};
ghost use Rattle.program_tables.specs.Meanings.{declared_seen};
ghost use Rattle.program_tables.specs.Numbers.{methods_by_number};
ghost use Rattle.program_tables.specs.Resolved.{resolved};

use base::NoMemory;
use image_builder::{Run, add, count, run_from, times};
use image_words::declared_words;
use program_tables::Declared;
use program_tables::laws::{members_are_there, methods_stand_by_number};
use resolved_program::Program;
use std::alloc::Global;

/// Puts so many words behind others.
fn push_size(sizes: &mut Vec<u32>, words: u32) -> Result<(), NoMemory>
    ensures { OnOk result (sizes.new.items ≡ sizes.old.items ++ words ∷ []) }
{
    sizes.push(words)?;
    Ok(())
}

/// Puts the words of a declared type behind others, if there is one.
fn push_words(sizes: &mut Vec<u32>, declared: Option<Declared>) -> Result<(), NoMemory>
    ensures { OnOk result (sizes.new.items ≡ sizes.old.items ++ map declared_words (cons_option (option_map declared_seen declared) [])) }
{
    match declared {
        Some(declared) => push_size(sizes, declared_words(declared)),
        None => Ok(()),
    }
}

/// The words of the static fields, by their indexes.
pub(crate) fn static_sizes(alloc: Global, program: &Program) -> Result<Vec<u32>, NoMemory>
    ensures { IfOk result (λ sizes. sizes.items ≡ map declared_words (resolved program.now).statics) }
{
    let mut sizes = Vec::new(alloc);
    for index in 0..program.static_count() {
        let place = program.static_field(index);
        push_words(&mut sizes, program.field_type(place))?;
    }
    Ok(sizes)
}

/// The words of the instance fields of a class, by their indexes.
fn field_sizes(alloc: Global, program: &Program, class: u32) -> Result<Vec<u32>, NoMemory>
    requires { class < length program.now }
    ensures { IfOk result (λ sizes. sizes.items ≡ map declared_words ((resolved program.now).fields class)) }
{
    let mut sizes = Vec::new(alloc);
    for index in 0..program.instance_field_count(class) {
        let place = program.instance_field(class, index);
        push_words(&mut sizes, program.field_type(place))?;
    }
    Ok(sizes)
}

/// The words of the instance fields of a class, in its objects.
fn instance_of(alloc: Global, program: &Program, class: u32) -> Result<Run, NoMemory>
    requires { class < length program.now }
    ensures { IfOk result (IsRun 1 (map declared_words ((resolved program.now).fields class))) }
{
    let sizes = field_sizes(alloc, program, class)?;
    run_from(alloc, 1, &sizes)
}

/// The words of the instance fields of each class, in the objects of the class.
pub(crate) fn instances_of(alloc: Global, program: &Program) -> Result<Vec<Run>, NoMemory>
    ensures { IfOk result (λ runs. AreInstances program.now runs.items) }
{
    let mut runs = Vec::new(alloc);
    for class in 0..program.class_count() {
        runs.push(instance_of(alloc, program, class)?)?;
    }
    Ok(runs)
}

/// The words of a method's record; it has none without code.
fn method_size(program: &Program, method: u32) -> Result<u32, NoMemory>
    requires { method < length (methods_by_number program.now) }
    ensures { IfOk result (λ size. slice_get (map method_size (resolved program.now).methods) method ≡ Some size) }
{
    methods_stand_by_number();
    members_are_there();
    let place = program.method(method);
    // The contract alone speaks of it.
    let _ = place;
    match program.code(method) {
        Some(code) => {
            let entries = times(3, count(code.handlers.as_slice().len())?)?;
            let words = count(code.code.as_slice().len().div_ceil(4))?;
            add(4, add(entries, words)?)
        }
        None => Ok(0),
    }
}

/// The words of the methods' records, by number.
pub(crate) fn method_sizes(alloc: Global, program: &Program) -> Result<Vec<u32>, NoMemory>
    ensures { IfOk result (λ sizes. sizes.items ≡ map method_size (resolved program.now).methods) }
{
    methods_stand_by_number();
    let mut sizes = Vec::new(alloc);
    for method in 0..program.method_count() {
        sizes.push(method_size(program, method)?)?;
    }
    Ok(sizes)
}
