//! How many words items of an image take.
ghost use Rattle.std.specs.Prelude.{◌≡◌, ◌+◌, ◌<◌, List, length, map, sum_by, IfOk};
ghost use Rattle.class_pool.specs.declared.class.ClassFile.{ClassFile};
ghost use Rattle.image_facts.specs.Words.{declared_words};
ghost use Rattle.image_words.specs.Layout.{pool_words, table_words, interface_words, type_words, classes_of};
ghost use Rattle.image_words.specs.Outline.{AreInstances};
ghost use Rattle.image_words.specs.Slots.{interface_methods};
ghost use Rattle.image_words.specs.Tables.{AreSlots};
ghost use Rattle.program_tables.specs.Meanings.{declared_seen};
ghost use Rattle.program_tables.specs.Numbers.{types_of};
ghost use Rattle.program_tables.specs.Resolved.{resolved};
ghost use Rattle.program_tables.specs.Tables.{kind_seen};

use crate::members::is_interface;
use crate::slots::Slots;
use base::NoMemory;
use class_hierarchy::Hierarchy;
use class_lookup::{ClassFile, Classes};
use image_builder::{Run, add, count, times};
use program_tables::{Declared, Types};
use std::alloc::Global;

/// A value of type long takes two words.
pub fn declared_words(declared: Declared) -> u32
    ensures { result ≡ declared_words (declared_seen declared) }
{
    match declared {
        Declared::Long => 2,
        Declared::Int | Declared::Reference(_) => 1,
    }
}

/// The words of an instance of a class: the place of its type, and its fields.
pub fn class_words(instances: &[Run], class: u32) -> u32
    ensures { (cs : List ClassFile) → AreInstances cs instances.now → result ≡ 1 + sum_by declared_words ((resolved cs).fields class) }
{
    let class = class as usize;
    if class < instances.len() {
        instances[class].end
    } else {
        1
    }
}

/// The words of a type's record.
pub fn type_words(types: &Types) -> u32
    ensures { (cs : List ClassFile) → map kind_seen types.now ≡ types_of cs → result ≡ type_words cs }
{
    5 + types.count().div_ceil(32)
}

/// The words of the method table of a class.
fn table_size(classes: &Hierarchy, slots: &Slots, class: u32) -> Result<u32, NoMemory>
    requires slots { AreSlots classes.now slots.now }
    requires class { class < length classes.now }
    ensures { IfOk result (λ size. size ≡ table_words classes.now class) }
{
    if is_interface(classes.classes(), class) {
        Ok(0)
    } else {
        count(slots.count(class))
    }
}

/// The words of the method tables, by class.
pub fn table_sizes(alloc: Global, classes: &Hierarchy, slots: &Slots) -> Result<Vec<u32>, NoMemory>
    requires { AreSlots classes.now slots.now }
    ensures { IfOk result (λ sizes. sizes.items ≡ map (table_words classes.now) (classes_of classes.now)) }
{
    let mut sizes = Vec::new(alloc);
    for class in 0..classes.classes().class_count() {
        sizes.push(table_size(classes, slots, class)?)?;
    }
    Ok(sizes)
}

/// The words of a class's table of interface methods, of which there are so many.
fn interface_size(classes: &Classes, methods: u32, class: u32) -> u32
    requires { methods ≡ length (interface_methods classes.now) }
    ensures { result ≡ interface_words classes.now class }
{
    if is_interface(classes, class) {
        0
    } else {
        methods
    }
}

/// The words of the tables of interface methods, by class, where there are so many methods of interfaces.
pub fn interface_sizes(alloc: Global, classes: &Classes, methods: u32) -> Result<Vec<u32>, NoMemory>
    requires { methods ≡ length (interface_methods classes.now) }
    ensures { IfOk result (λ sizes. sizes.items ≡ map (interface_words classes.now) (classes_of classes.now)) }
{
    let mut sizes = Vec::new(alloc);
    for class in 0..classes.class_count() {
        sizes.push(interface_size(classes, methods, class))?;
    }
    Ok(sizes)
}

/// The words of a class's pool.
fn pool_size(class: &ClassFile) -> Result<u32, NoMemory>
    ensures { IfOk result (λ size. size ≡ pool_words class.now) }
{
    times(2, add(1, count(class.pool.entries().len())?)?)
}

/// The words of the pools, by class.
pub fn pool_sizes(alloc: Global, classes: &Classes) -> Result<Vec<u32>, NoMemory>
    ensures { IfOk result (λ sizes. sizes.items ≡ map pool_words classes.now) }
{
    let mut sizes = Vec::new(alloc);
    for number in 0..classes.class_count() {
        let class = classes.class(number);
        sizes.push(pool_size(class)?)?;
    }
    Ok(sizes)
}
