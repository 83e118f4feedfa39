//! What is selected for the slots of each class, by what is selected for those of its superclass.
ghost use Rattle.std.specs.Prelude.{◌≡◌, ◌<◌, ℕ, [], length, Some, slice_get, slice_index_or, IfOk};
ghost use Rattle.class_lookup.specs.Hierarchy.{superclass};
ghost use Rattle.class_lookup.specs.Lookup.{Place as APlace};
ghost use Rattle.class_selection.specs.Selecting.{IsSelectedAbove};
ghost use Rattle.image_words.specs.Order.{IsSuperclassFirst};
ghost use Rattle.image_words.specs.Slots as numbered;
ghost use Rattle.image_words.specs.Tables.{AreSlots};
ghost use Rattle.image_layout.specs.Rows.{AreSelected, AreSelectedAbove, AreRows, AreAllRows, table_methods};

use base::{Items, NoMemory};
use class_hierarchy::Hierarchy;
use class_lookup::Place;
use class_lookup::laws::superclasses_stand_above;
use class_selection::{Selected, selected_above, selected_with};
use image_words::{Slots, superclass_order};
use std::alloc::Global;

/// No rows yet, for so many classes.
fn empty_rows(alloc: Global, count: u32) -> Result<Vec<Items<Selected>>, NoMemory>
    ensures { IfOk result (λ rows. length rows.items ≡ count) }
{
    let mut rows = Vec::new(alloc);
    for _class in 0..count {
        rows.push(Items::new(Vec::new(alloc)))?;
    }
    Ok(rows)
}

/// What is selected for receivers of the superclass of a class, for one of these methods.
fn above_at(
    hierarchy: &Hierarchy,
    above: &[Selected],
    methods: &[Place],
    class: u32,
    index: usize,
) -> Selected
    requires class { class < length hierarchy.now }
    requires above { AreSelectedAbove hierarchy.now class methods.now above.now }
    requires index { index < length methods.now }
    ensures { (a : APlace) → slice_get methods.now index ≡ Some a → IsSelectedAbove hierarchy.now class a result }
{
    if index < above.len() {
        above[index]
    } else {
        selected_above(hierarchy, class, methods[index])
    }
}

/// What is selected for receivers of a class, for each of these methods, where it is known for the first of them what is selected
/// for receivers of its superclass.
fn row_of(
    alloc: Global,
    hierarchy: &Hierarchy,
    above: &[Selected],
    methods: &[Place],
    class: u32,
) -> Result<Items<Selected>, NoMemory>
    requires class { class < length hierarchy.now }
    requires above { AreSelectedAbove hierarchy.now class methods.now above.now }
    ensures { IfOk result (λ row. AreSelected hierarchy.now class methods.now row) }
{
    let mut row = Vec::new(alloc);
    for (i, method) in methods.iter().enumerate() {
        let before = above_at(hierarchy, above, methods, class, i);
        row.push(selected_with(hierarchy, &before, class, *method))?;
    }
    Ok(Items::new(row))
}

/// The row of a class, where these rows have that of its superclass.
fn slot_row(
    alloc: Global,
    hierarchy: &Hierarchy,
    slots: &Slots,
    rows: &[Items<Selected>],
    class: u32,
) -> Result<Items<Selected>, NoMemory>
    requires class { class < length hierarchy.now }
    requires slots { AreSlots hierarchy.now slots.now }
    requires long { length rows.now ≡ length hierarchy.now }
    requires above { (d : ℕ) → superclass hierarchy.now class ≡ Some d
        → AreSelected hierarchy.now d (numbered.slots hierarchy.now d) (slice_index_or rows.now d []) }
    ensures { IfOk result (λ row. AreSelected hierarchy.now class (numbered.slots hierarchy.now class) row) }
{
    hierarchy.is_without_cycle();
    superclasses_stand_above();
    let mut methods = Vec::new(alloc);
    slots.add_to(&mut methods, hierarchy, class)?;
    match hierarchy.classes().superclass(class) {
        Some(upper) => row_of(
            alloc,
            hierarchy,
            rows[upper as usize].as_slice(),
            &methods,
            class,
        ),
        None => row_of(alloc, hierarchy, &[], &methods, class),
    }
}

/// The rows of the classes, where each class stands behind its superclass in this order.
fn rows_by_class(
    alloc: Global,
    hierarchy: &Hierarchy,
    slots: &Slots,
    order: &[u32],
) -> Result<Vec<Items<Selected>>, NoMemory>
    requires slots { AreSlots hierarchy.now slots.now }
    requires order { IsSuperclassFirst hierarchy.now order.now }
    ensures { IfOk result (λ rows. AreRows hierarchy.now (numbered.slots hierarchy.now) order.now rows.items) }
{
    let mut rows = empty_rows(alloc, hierarchy.classes().class_count())?;
    for class in order {
        let row = slot_row(alloc, hierarchy, slots, &rows, *class)?;
        rows[*class as usize] = row;
    }
    Ok(rows)
}

/// The rows of all classes.
pub(crate) fn slot_rows(
    alloc: Global,
    hierarchy: &Hierarchy,
    slots: &Slots,
) -> Result<Vec<Items<Selected>>, NoMemory>
    requires { AreSlots hierarchy.now slots.now }
    ensures { IfOk result (λ rows. AreAllRows hierarchy.now (numbered.slots hierarchy.now) rows.items) }
{
    let order = superclass_order(alloc, hierarchy)?;
    rows_by_class(alloc, hierarchy, slots, order.as_slice())
}

/// The row of a class for the methods of interfaces, where these rows have that of its superclass; an interface has none.
fn interface_row(
    alloc: Global,
    hierarchy: &Hierarchy,
    methods: &[Place],
    rows: &[Items<Selected>],
    class: u32,
) -> Result<Items<Selected>, NoMemory>
    requires class { class < length hierarchy.now }
    requires methods { methods.now ≡ numbered.interface_methods hierarchy.now }
    requires long { length rows.now ≡ length hierarchy.now }
    requires above { (d : ℕ) → superclass hierarchy.now class ≡ Some d
        → AreSelected hierarchy.now d (table_methods hierarchy.now d) (slice_index_or rows.now d []) }
    ensures { IfOk result (λ row. AreSelected hierarchy.now class (table_methods hierarchy.now class) row) }
{
    if hierarchy.classes().is_interface(class) {
        return Ok(Items::new(Vec::new(alloc)));
    }
    match hierarchy.classes().superclass(class) {
        Some(upper) => row_of(
            alloc,
            hierarchy,
            rows[upper as usize].as_slice(),
            methods,
            class,
        ),
        None => row_of(alloc, hierarchy, &[], methods, class),
    }
}

/// The rows of the classes for the methods of interfaces, where each class stands behind its superclass in this order.
fn interface_rows_by_class(
    alloc: Global,
    hierarchy: &Hierarchy,
    methods: &[Place],
    order: &[u32],
) -> Result<Vec<Items<Selected>>, NoMemory>
    requires methods { methods.now ≡ numbered.interface_methods hierarchy.now }
    requires order { IsSuperclassFirst hierarchy.now order.now }
    ensures { IfOk result (λ rows. AreRows hierarchy.now (table_methods hierarchy.now) order.now rows.items) }
{
    let mut rows = empty_rows(alloc, hierarchy.classes().class_count())?;
    for class in order {
        let row = interface_row(alloc, hierarchy, methods, &rows, *class)?;
        rows[*class as usize] = row;
    }
    Ok(rows)
}

/// The rows of all classes for the methods of interfaces.
pub(crate) fn interface_rows(
    alloc: Global,
    hierarchy: &Hierarchy,
    methods: &[Place],
) -> Result<Vec<Items<Selected>>, NoMemory>
    requires { methods.now ≡ numbered.interface_methods hierarchy.now }
    ensures { IfOk result (λ rows. AreAllRows hierarchy.now (table_methods hierarchy.now) rows.items) }
{
    let order = superclass_order(alloc, hierarchy)?;
    interface_rows_by_class(alloc, hierarchy, methods, order.as_slice())
}
