//! The static fields with their first values (JVM Specification SE 8, 4.7.2 and 5.5).
ghost use Rattle.std.specs.Prelude.{◌≡◌, ◌++◌, ◌∷◌, [], ◌/◌, ◌%◌, ◌^◌, ◌<◌, ℕ, is_some, length, true, Some, IfOk, OnOk, slice_get};
ghost use Rattle.std.specs.Option.{option_to_list};
ghost use Rattle.std.specs.List.{flat_map};
ghost use Rattle.std.specs.Int.{w64, cast_signed};
ghost use Rattle.bytecode_model.specs.Types.{default};
ghost use Rattle.bytecode_model.specs.declared.Value.TheVariants.{Long};
ghost use Rattle.class_pool.specs.declared.class.ClassFile.{ClassFile};
ghost use Rattle.class_pool.specs.Grammar.{entry_at};
ghost use Rattle.image_facts.specs.Words.{words_of};
ghost use Rattle.lists.specs.Lists.{onto};
ghost use Rattle.program_tables.specs.Resolved.{constant_of, constant_at, first_value};
ghost use Rattle.image_words.specs.Layout.{outline_of};
ghost use Rattle.image_words.specs.Regions.{first_place, statics_region};
ghost use Rattle.image_words.specs.Outline.{IsOutline};
ghost use Rattle.program_tables.specs.Meanings.{declared_seen};

use base::NoMemory;
use class_lookup::Place;
use class_pool::Entry;
use image_words::Outline;
use program_tables::{Declared, entry_of, field_at};
use resolved_program::Program;

/// The two words of a long, the upper one first.
pub(crate) fn long_words(number: u64) -> [u32; 2]
    ensures halves { result ≡ number / 2 ^ 32 ∷ number % 2 ^ 32 ∷ [] }
    ensures long { (place : ℕ → ℕ) → result ≡ words_of place (Long (cast_signed w64 number)) }
{
    [(number >> 32) as u32, (number & 0xffff_ffff) as u32]
}

/// Puts the words of a constant behind others, and says that there is one.
fn add_known(words: &mut Vec<u32>, constant: &[u32]) -> Result<bool, NoMemory>
    ensures words { OnOk result (words.new.items ≡ words.old.items ++ constant.now) }
    ensures is { IfOk result (λ is. is ≡ true) }
{
    words.extend_from_slice(constant)?;
    Ok(true)
}

/// The words of a constant of a class, put behind others; whether the entry is one.
fn add_constant(
    words: &mut Vec<u32>,
    program: &Program,
    outline: &Outline,
    class: u32,
    index: u16,
) -> Result<bool, NoMemory>
    requires outline { IsOutline program.now outline.now }
    requires class { class < length program.now }
    ensures words { OnOk result ((c : ClassFile) → slice_get program.now class ≡ Some c
        → words.new.items ≡ words.old.items ++ flat_map (words_of (first_place program.now (outline_of program.now)))
        (option_to_list (onto (entry_at c.pool index) (constant_of program.now c.pool)))) }
    ensures is { IfOk result (λ is. (c : ClassFile) → slice_get program.now class ≡ Some c
        → is ≡ is_some (onto (entry_at c.pool index) (constant_of program.now c.pool))) }
{
    match entry_of(&program.class(class).pool, u32::from(index)) {
        Some(Entry::Integer(n)) => add_known(words, &[*n]),
        Some(Entry::Long(n)) => add_known(words, &long_words(*n)),
        Some(Entry::Text(_)) => match program.string_object(class, index) {
            Some(object) => add_known(words, &[outline.object_place(object)]),
            None => Ok(false),
        },
        _ => Ok(false),
    }
}

/// The words of the constant of a field, put behind others; whether it has one.
fn add_constant_of(
    words: &mut Vec<u32>,
    program: &Program,
    outline: &Outline,
    place: Place,
) -> Result<bool, NoMemory>
    requires { IsOutline program.now outline.now }
    ensures words { OnOk result (words.new.items ≡ words.old.items
        ++ flat_map (words_of (first_place program.now (outline_of program.now))) (option_to_list (constant_at program.now place))) }
    ensures is { IfOk result (λ is. is ≡ is_some (constant_at program.now place)) }
{
    let Some(field) = field_at(program.hierarchy().classes(), place) else {
        return Ok(false);
    };
    let Some(index) = field.constant_value() else {
        return Ok(false);
    };
    if place.class >= program.class_count() {
        return Ok(false);
    }
    add_constant(words, program, outline, place.class, index)
}

/// The words of the default value of a type.
fn add_default(words: &mut Vec<u32>, declared: Declared) -> Result<(), NoMemory>
    ensures { OnOk result ((place : ℕ → ℕ) → words.new.items ≡ words.old.items ++ words_of place (default (declared_seen declared))) }
{
    words.push(0)?;
    if let Declared::Long = declared {
        words.push(0)?;
    }
    Ok(())
}

/// The first value of a static field: its constant, or else its type's default.
fn add_first_value(
    words: &mut Vec<u32>,
    program: &Program,
    outline: &Outline,
    place: Place,
) -> Result<(), NoMemory>
    requires { IsOutline program.now outline.now }
    ensures { OnOk result (words.new.items ≡ words.old.items
        ++ flat_map (words_of (first_place program.now (outline_of program.now))) (option_to_list (first_value program.now place))) }
{
    let Some(declared) = program.field_type(place) else {
        return Ok(());
    };
    if !add_constant_of(words, program, outline, place)? {
        add_default(words, declared)?;
    }
    Ok(())
}

/// The static fields.
pub(crate) fn add_statics(
    words: &mut Vec<u32>,
    program: &Program,
    outline: &Outline,
) -> Result<(), NoMemory>
    requires { IsOutline program.now outline.now }
    ensures { OnOk result (words.new.items ≡ words.old.items ++ statics_region program.now (outline_of program.now)) }
{
    for index in 0..program.static_count() {
        let place = program.static_field(index);
        add_first_value(words, program, outline, place)?;
    }
    Ok(())
}
