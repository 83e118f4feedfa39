//! All classes: which of them leave no abstract method without code.

ghost use Rattle.std.specs.Prelude.{◌≡◌, ℕ, ◌<◌, ◌&&◌, ◌||◌, not, false, length, slice_get, slice_index_or, IfOk, OnOk};
ghost use Rattle.std.specs.List.{list_all, list_any, range_with_len};
ghost use Rattle.std.specs.Option.{option_map_or};
ghost use Rattle.class_lookup.specs.Hierarchy.{extends, is_among, is_concrete};
ghost use Rattle.class_lookup.specs.Parts.{is_abstract};
ghost use Rattle.class_lookup.specs.Selection.{is_method_with};
ghost use Rattle.program_tables.specs.Unresolved.{abstract_methods_in, implements_all, is_implemented};
ghost use Rattle.class_checks.specs.Marks.{AreKept};

use crate::marks::{is_abstract, mark_method};
use base::NoMemory;
use class_hierarchy::{Hierarchy, Place};
use class_lookup::Classes;
use class_lookup::parts::has_flags;
use class_rules::flags::ACC_ABSTRACT;
use std::alloc::Global;

/// Whether the class is neither an abstract class nor an interface.
fn is_concrete(classes: &Classes, class: u32) -> bool
    requires { class < length classes.now }
    ensures { result ≡ is_concrete classes.now class }
{
    !has_flags(classes.class(class).flags, ACC_ABSTRACT)
}

/// The classes that are neither abstract classes nor interfaces and have this one as themselves, a superclass or a superinterface.
fn concrete_below(alloc: Global, classes: &Hierarchy, upper: u32) -> Result<Vec<u32>, NoMemory>
    ensures { IfOk result (λ found. (c : ℕ) → is_among found.items c ≡ (is_concrete classes.now c && extends classes.now c upper)) }
{
    let mut found = Vec::new(alloc);
    for class in 0..classes.classes().class_count() {
        if is_concrete(classes.classes(), class) && classes.extends(class, upper) {
            found.push(class)?;
        }
    }
    Ok(found)
}

/// How many methods the class declares.
fn method_count(classes: &Classes, class: u32) -> usize
    ensures { result ≡ option_map_or (λ k. length k.methods) (slice_get classes.now class) 0 }
{
    if class < classes.class_count() {
        classes.class(class).methods.as_slice().len()
    } else {
        0
    }
}

/// Whether one of so many methods of the class is abstract.
fn has_abstract(classes: &Classes, class: u32, count: usize) -> bool
    ensures { result ≡ list_any (λ i. is_method_with is_abstract classes.now (class, i)) (range_with_len 0 count) }
{
    (0..count).any(|index| is_abstract(classes, Place { class, index }))
}

/// Takes the mark from the classes that leave one of so many methods of a class without code.
fn mark_methods(
    alloc: Global,
    classes: &Hierarchy,
    upper: u32,
    count: usize,
    marks: &mut Vec<bool>,
) -> Result<(), NoMemory>
    requires { length marks.old.items ≡ length classes.now }
    ensures { OnOk result (AreKept (λ c. not (is_concrete classes.now c && extends classes.now c upper) || list_all
        (λ i. not (is_method_with is_abstract classes.now (upper, i)) || is_implemented classes.now c
        (upper, i)) (range_with_len 0 count)) marks.old.items marks.new.items) }
{
    let lower = concrete_below(alloc, classes, upper)?;
    for index in 0..count {
        let method = Place {
            class: upper,
            index,
        };
        mark_method(alloc, classes, &lower, method, marks)?;
    }
    Ok(())
}

/// Takes the mark from the classes that leave an abstract method of a class without code.
fn mark_class(
    alloc: Global,
    classes: &Hierarchy,
    upper: u32,
    marks: &mut Vec<bool>,
) -> Result<(), NoMemory>
    requires { length marks.old.items ≡ length classes.now }
    ensures { OnOk result (AreKept (λ c. not (is_concrete classes.now c && extends classes.now c upper) || list_all (is_implemented classes.now c)
        (abstract_methods_in classes.now upper)) marks.old.items marks.new.items) }
{
    let count = method_count(classes.classes(), upper);
    if has_abstract(classes.classes(), upper, count) {
        mark_methods(alloc, classes, upper, count, marks)
    } else {
        Ok(())
    }
}

/// For each class whether each abstract method of it, of its superclasses and of its superinterfaces has code, or the class is
/// itself abstract. The time is at most a step for each abstract method and class below it.
pub fn implementing_classes(alloc: Global, classes: &Hierarchy) -> Result<Vec<bool>, NoMemory>
    ensures long { IfOk result (λ marks. length marks.items ≡ length classes.now) }
    ensures each { IfOk result (λ marks. (c : ℕ) → c < length classes.now → slice_index_or marks.items c false ≡ implements_all classes.now c) }
{
    let count = classes.classes().class_count();
    let mut marks = vec![in alloc; true; count as usize]?;
    for upper in 0..count {
        mark_class(alloc, classes, upper, &mut marks)?;
    }
    Ok(marks)
}
