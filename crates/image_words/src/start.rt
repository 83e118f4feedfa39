//! The words of the objects that are there at the start: those that instructions raise, and the strings.
ghost use Rattle.std.specs.Prelude.{◌≡◌, ◌++◌, ◌<◌, ℕ, List, length, Some, OnOk, slice_get};
ghost use Rattle.std.specs.List.{flat_map};
ghost use Rattle.class_pool.specs.declared.class.ClassFile.{ClassFile};
ghost use Rattle.image_facts.specs.Words.{object_image};
ghost use Rattle.program_tables.specs.Numbers.{strings_of};
ghost use Rattle.program_tables.specs.Resolved.{raised_object, string_objects, resolved};
ghost use Rattle.program_tables.specs.Resolving.{IsResolved};
ghost use Rattle.image_words.specs.Layout.{type_place, outline_of};
ghost use Rattle.image_words.specs.Outline.{IsOutline};
ghost use Rattle.image_words.specs.Regions.{first_place, raised_region, strings_region};

use crate::item_sizes::class_words;
use crate::objects::raised_classes;
use crate::outline::Outline;
use base::NoMemory;
use image_builder::{add, add_units, add_zeros, count};
use program_tables::Strings;

/// Before the classes stand the eight arrays of numbers, of which the second are those of char.
const FIRST_CLASS: u32 = 8;

const CHARS: u32 = 1;

const STRING: u32 = 8 + 3;

/// The object of a class of errors, without values.
fn add_raised_object(words: &mut Vec<u32>, outline: &Outline, class: u32) -> Result<(), NoMemory>
    ensures { (cs : List ClassFile) → IsOutline cs outline.now → class < length cs
        → OnOk result (words.new.items ≡ words.old.items ++ object_image (resolved cs) (type_place cs) (first_place cs (outline_of cs))
        (raised_object cs class)) }
{
    let fields = class_words(&outline.instances, class).saturating_sub(1);
    words.push(outline.type_place(add(FIRST_CLASS, class)?)?)?;
    add_zeros(words, fields as usize)?;
    Ok(())
}

/// The objects that instructions raise, put behind other words.
pub fn add_raised(words: &mut Vec<u32>, outline: &Outline) -> Result<(), NoMemory>
    ensures { (cs : List ClassFile) → IsResolved cs → IsOutline cs outline.now
        → OnOk result (words.new.items ≡ words.old.items ++ raised_region cs (outline_of cs)) }
{
    let classes = raised_classes();
    for class in &classes {
        add_raised_object(words, outline, *class)?;
    }
    Ok(())
}

/// A string, with its array before it.
fn add_string(
    words: &mut Vec<u32>,
    strings: &Strings,
    outline: &Outline,
    string: u32,
) -> Result<(), NoMemory>
    requires { string < length strings.now }
    ensures { (cs : List ClassFile) → IsResolved cs → IsOutline cs outline.now → OnOk result ((units : List ℕ) → slice_get strings.now string ≡ Some units
        → words.new.items ≡ words.old.items ++ flat_map (object_image (resolved cs) (type_place cs) (first_place cs (outline_of cs)))
        (string_objects (string, units))) }
{
    let units = strings.at(string);
    let many = strings.count();
    let chars = outline.type_place(CHARS)?;
    words.extend_from_slice(&[chars, count(units.len())?])?;
    add_units(words, units)?;
    let array = outline.object_place(9 + 2 * string);
    let type_of_string = outline.type_place(STRING)?;
    words.extend_from_slice(&[type_of_string, array])?;
    // The contract alone speaks of it.
    let _ = many;
    Ok(())
}

/// The strings of resolved classes, by number, put behind other words.
pub fn add_strings(
    words: &mut Vec<u32>,
    strings: &Strings,
    outline: &Outline,
) -> Result<(), NoMemory>
    ensures { (cs : List ClassFile) → IsResolved cs → strings.now ≡ strings_of cs → IsOutline cs outline.now
        → OnOk result (words.new.items ≡ words.old.items ++ strings_region cs (outline_of cs)) }
{
    for string in 0..strings.count() {
        add_string(words, strings, outline, string)?;
    }
    Ok(())
}
