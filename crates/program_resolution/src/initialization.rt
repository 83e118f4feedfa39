//! Which initialization methods are called, and in which order (JVM Specification SE 8, 5.5).
ghost use Rattle.std.specs.Prelude.{◌≡◌, ◌&&◌, ◌++◌, [], nat_eq, nat_le, not, if◌then◌else◌, reverse, slice_get, is_some, Some, None, IfOk, OnOk};
ghost use Rattle.std.specs.Option.{option_to_list};
ghost use Rattle.lists.specs.Lists.{onto};
ghost use Rattle.class_lookup.specs.Parts.{name_of};
ghost use Rattle.program_tables.specs.Lists.{with_items};
ghost use Rattle.program_resolution.specs.Linked.{most_files, is_initialized, initialization_order, initialized, first_on_cycle};

use base::NoMemory;
use class_checks::{class_at, superclasses};
use class_hierarchy::first_on_cycle;
use class_lookup::Classes;
use class_lookup::parts::{has_flags, has_signature, name_of};
use class_making::parts::text;
use class_pool::{ClassFile, Units};
use class_rules::flags::ACC_STATIC;
use number_sets::NumberSet;
use std::alloc::Global;

/// Whether the class has an initialization method.
fn is_initialized(alloc: Global, class: &ClassFile) -> Result<bool, NoMemory>
    ensures { IfOk result (λ b. b ≡ is_initialized class.now) }
{
    let name = text(alloc, "<clinit>")?;
    let descriptor = text(alloc, "()V")?;
    Ok(
        class.methods.as_slice().iter().any(|method| {
            has_flags(method.flags, ACC_STATIC)
                && has_signature(class, method, name.as_slice(), descriptor.as_slice())
        }),
    )
}

/// Adds the classes of the list that the order doesn't have, from the last on.
fn insert_from_last(order: &mut NumberSet, chain: &[u32]) -> Result<(), NoMemory>
    ensures { OnOk result (order.new ≡ with_items nat_eq order.old (reverse chain.now)) }
{
    let mut i = chain.len();
    while i > 0 {
        i -= 1;
        order.insert(chain[i])?;
    }
    Ok(())
}

/// The classes in the order in which they are initialized.
fn initialization_order(alloc: Global, classes: &Classes) -> Result<NumberSet, NoMemory>
    ensures { IfOk result (λ order. order ≡ initialization_order classes.now) }
{
    let mut order = NumberSet::new(alloc);
    let count = classes.class_count();
    for class in 0..count {
        let chain = superclasses(alloc, classes, class)?;
        insert_from_last(&mut order, &chain)?;
    }
    Ok(order)
}

/// The name of the class, if its initialization method is called.
fn initialized_name(alloc: Global, classes: &Classes, class: u32) -> Result<Option<Units>, NoMemory>
    ensures { IfOk result (λ name. name ≡ onto (slice_get classes.now class) (λ k. if is_initialized k then Some (name_of k) else None)) }
{
    let Some(file) = class_at(classes, class) else {
        return Ok(None);
    };
    if is_initialized(alloc, file)? {
        Ok(Some(Units::new(Vec::from_slice(alloc, name_of(file))?)))
    } else {
        Ok(None)
    }
}

/// Puts the name last, if there is one.
fn put_name(names: &mut Vec<Units>, name: Option<Units>) -> Result<(), NoMemory>
    ensures { OnOk result (names.new.items ≡ names.old.items ++ option_to_list name) }
{
    if let Some(name) = name {
        names.push(name)?;
    }
    Ok(())
}

/// The names of the classes whose initialization methods are called, in order.
fn initialized(alloc: Global, classes: &Classes) -> Result<Vec<Units>, NoMemory>
    ensures { IfOk result (λ names. names.items ≡ initialized classes.now) }
{
    let order = initialization_order(alloc, classes)?;
    let mut names = Vec::new(alloc);
    for class in order.as_slice() {
        let name = initialized_name(alloc, classes, *class)?;
        put_name(&mut names, name)?;
    }
    Ok(names)
}

/// The most files of a program.
pub(crate) const MOST_FILES: u32 = 1024;

/// What the class that is run calls, of these classes behind the core classes, of which so many are files'.
pub(crate) fn calls_of(
    alloc: Global,
    files: usize,
    classes: &Classes,
) -> Result<Vec<Units>, NoMemory>
    ensures { IfOk result (λ calls. calls.items ≡ (if nat_le files most_files
        && not (is_some (first_on_cycle classes.now)) then initialized classes.now else [])) }
{
    if files > MOST_FILES as usize || first_on_cycle(alloc, classes)?.is_some() {
        return Ok(Vec::new(alloc));
    }
    initialized(alloc, classes)
}
