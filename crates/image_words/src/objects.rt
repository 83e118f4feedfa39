//! How many words the objects that are there at the start take: those that instructions raise, and the strings.
ghost use Rattle.std.specs.Prelude.{◌≡◌, ◌++◌, ◌<◌, List, length, map, IfOk, OnOk};
ghost use Rattle.std.specs.List.{flat_map, enumerate_from};
ghost use Rattle.class_pool.specs.declared.class.ClassFile.{ClassFile};
ghost use Rattle.bytecode_model.specs.Sizes.{object_words};
ghost use Rattle.program_tables.specs.Core.{raised_classes};
ghost use Rattle.program_tables.specs.Numbers.{strings_of};
ghost use Rattle.program_tables.specs.Resolved.{raised_object, string_objects, resolved};
ghost use Rattle.program_tables.specs.Resolving.{IsResolved};
ghost use Rattle.image_words.specs.Outline.{AreInstances};

use crate::item_sizes::class_words;
use base::NoMemory;
use image_builder::{Run, add, count};
use program_tables::Strings;
use std::alloc::Global;

/// The classes of the objects that instructions raise, in their order.
pub(crate) fn raised_classes() -> [u32; 9]
    ensures { result ≡ raised_classes }
{
    [8, 14, 9, 10, 18, 15, 16, 20, 21]
}

/// Puts the words of the objects of these classes behind others.
fn add_raised_sizes(
    sizes: &mut Vec<u32>,
    instances: &[Run],
    classes: &[u32],
) -> Result<(), NoMemory>
    requires { classes.now ≡ raised_classes }
    ensures { (cs : List ClassFile) → IsResolved cs → AreInstances cs instances.now
        → OnOk result (sizes.new.items ≡ sizes.old.items ++ map (object_words (resolved cs)) (map (raised_object cs) raised_classes)) }
{
    for class in classes {
        sizes.push(class_words(instances, *class))?;
    }
    Ok(())
}

/// Puts the words of the strings, each with its array before it, behind others.
fn add_string_sizes(sizes: &mut Vec<u32>, strings: &Strings) -> Result<(), NoMemory>
    ensures { (cs : List ClassFile) → IsResolved cs → OnOk result
        (sizes.new.items ≡ sizes.old.items ++ map (object_words (resolved cs)) (flat_map string_objects (enumerate_from 0 strings.now))) }
{
    for string in 0..strings.count() {
        let units = strings.at(string);
        sizes.push(add(2, count(units.len())?)?)?;
        sizes.push(2)?;
    }
    Ok(())
}

/// The words of the objects of resolved classes, by their numbers.
pub fn object_sizes(
    alloc: Global,
    strings: &Strings,
    instances: &[Run],
) -> Result<Vec<u32>, NoMemory>
    ensures { (cs : List ClassFile) → IsResolved cs → strings.now ≡ strings_of cs → AreInstances cs instances.now
        → IfOk result (λ sizes. sizes.items ≡ map (object_words (resolved cs)) (resolved cs).first_objects) }
{
    let mut sizes = Vec::new(alloc);
    add_raised_sizes(&mut sizes, instances, &raised_classes())?;
    add_string_sizes(&mut sizes, strings)?;
    Ok(sizes)
}
