//! The classes of which there are objects, below each class (JVM Specification SE 8, 4.10 and 6.5.invokevirtual).
ghost use Rattle.std.specs.Prelude.{◌≡◌, ◌<◌, [], length, replicate, IfOk, OnOk};
ghost use Rattle.class_lookup.specs.Hierarchy.{is_concrete};
ghost use Rattle.flow_table.specs.Receivers.{lists_of, AreBelow, IsPut};

use base::NoMemory;
use class_hierarchy::Hierarchy;
use class_lookup::Classes;
use class_lookup::parts::has_flags;
use std::alloc::Global;

/// Whether the class is neither an abstract class nor an interface.
fn is_concrete(classes: &Classes, class: u32) -> bool
    requires { class < length classes.now }
    ensures { result ≡ is_concrete classes.now class }
{
    !has_flags(classes.class(class).flags, 0x0400)
}

/// So many empty lists.
fn empty_lists(alloc: Global, count: u32) -> Result<Vec<Vec<u32>>, NoMemory>
    ensures { IfOk result (λ lists. lists_of lists.items ≡ replicate count []) }
{
    let mut lists = Vec::new(alloc);
    for _index in 0..count {
        lists.push(Vec::new(alloc))?;
    }
    Ok(lists)
}

/// Puts a class last into the lists of these.
fn put_below(below: &mut Vec<Vec<u32>>, uppers: &[u32], class: u32) -> Result<(), NoMemory>
    ensures { OnOk result (IsPut class uppers.now (lists_of below.old.items) (lists_of below.new.items)) }
{
    for upper in uppers {
        let index = *upper as usize;
        if index < below.len() {
            below[index].push(class)?;
        }
    }
    Ok(())
}

/// For each class the classes of which there are instances that are it or have it as a superclass or a superinterface, rising.
pub(crate) fn receivers_of(alloc: Global, hierarchy: &Hierarchy) -> Result<Vec<Vec<u32>>, NoMemory>
    ensures { IfOk result (λ below. AreBelow hierarchy.now (length hierarchy.now) (lists_of below.items)) }
{
    let classes = hierarchy.classes();
    let count = classes.class_count();
    let mut below = empty_lists(alloc, count)?;
    for class in 0..count {
        if is_concrete(classes, class) {
            put_below(&mut below, hierarchy.supertypes(class), class)?;
        }
    }
    Ok(below)
}
