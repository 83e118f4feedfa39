//! The slots of a class, by those of its superclass.
ghost use Rattle.std.specs.Prelude.{◌≡◌, ℕ, ◌+◌, ◌++◌, ◌<◌, List, [], ◌∷◌, length, None, true, is_some, replicate, slice_index_or, IfOk, OnOk};
ghost use Rattle.std.specs.Option.{option_map_or};
ghost use Rattle.class_pool.specs.declared.class.ClassFile.{ClassFile};
ghost use Rattle.lists.specs.Lists.{onto};
ghost use Rattle.class_lookup.specs.Hierarchy.{is_interface};
ghost use Rattle.class_lookup.specs.Lookup.{Place as APlace};
ghost use Rattle.program_tables.specs.Lists.{with_item, with_items};
ghost use Rattle.image_words.specs.Signatures.{symbols_at, number_of, HasSignatures, AreFirst};
ghost use Rattle.image_words.specs.Slots.{are_named_alike, interface_methods, inherited_methods, own_slots};
ghost use Rattle.image_words.specs.Tables.{above_slots, own_slot, AreSoFar, AreClassSlots, AreAbove};

use crate::members::{has_slot, method_count};
use crate::signatures::{Signatures, symbols_at};
use base::NoMemory;
use class_hierarchy::Hierarchy;
use class_lookup::laws::{members_have_symbols, superclasses_stand_above, symbols_stand_for_texts};
use class_lookup::{Classes, Place};
use image_builder::{add, count};
use std::alloc::Global;

/// The slots of a class.
#[derive(Drop)]
pub(crate) struct ClassSlots {
    /// How many stand before those that the class adds: those of its superclass.
    pub(crate) start: u32,
    /// Those that the class adds, in order.
    pub(crate) added: Vec<Place>,
    /// For each method of the class, by index, the slot that is made for it.
    pub(crate) own: Vec<Option<u32>>,
    /// For the name and the descriptor of each method of an interface, by number, the first slot of such a method.
    pub(crate) first: Vec<Option<u32>>,
}

/// Puts down a slot for a name and a descriptor, unless one is there.
fn put_first(first: &mut Vec<Option<u32>>, number: Option<usize>, slot: u32)
    ensures { (cs : List ClassFile) (signatures : List (ℕ × ℕ)) (places : List APlace) (place : APlace)
        → number ≡ onto (symbols_at cs place) (number_of signatures) → slot ≡ length places → AreFirst cs signatures first.old.items places
        → AreFirst cs signatures first.new.items (places ++ place ∷ []) }
{
    if let Some(number) = number {
        if number < first.len() && first[number].is_none() {
            first[number] = Some(slot);
        }
    }
}

/// Whether a slot is put down for a name and a descriptor.
fn has_first(first: &[Option<u32>], number: Option<usize>) -> bool
    ensures { result ≡ is_some (option_map_or (λ n. slice_index_or first.now n None) number None) }
{
    match number {
        Some(number) => number < first.len() && first[number].is_some(),
        None => false,
    }
}

impl ClassSlots {
    /// No slots, where there are so many names with descriptors.
    pub(crate) fn new(alloc: Global, signatures: usize) -> Result<Self, NoMemory>
        ensures start { IfOk result (λ slots. slots.start ≡ 0) }
        ensures added { IfOk result (λ slots. slots.added.items ≡ []) }
        ensures own { IfOk result (λ slots. slots.own.items ≡ []) }
        ensures first { IfOk result (λ slots. slots.first.items ≡ replicate signatures None) }
    {
        let first = vec![in alloc; None; signatures]?;
        Ok(ClassSlots {
            start: 0,
            added: Vec::new(alloc),
            own: Vec::new(alloc),
            first,
        })
    }

    /// How many there are.
    fn count(&self) -> Result<u32, NoMemory>
        ensures { IfOk result (λ slots. slots ≡ self.now.start + length self.now.added.items) }
    {
        add(self.start, count(self.added.len())?)
    }

    /// Those with which a class directly below this one begins.
    fn below(&self, alloc: Global) -> Result<Self, NoMemory>
        ensures start { IfOk result (λ slots. slots.start ≡ self.now.start + length self.now.added.items) }
        ensures added { IfOk result (λ slots. slots.added.items ≡ []) }
        ensures own { IfOk result (λ slots. slots.own.items ≡ []) }
        ensures first { IfOk result (λ slots. slots.first.items ≡ self.now.first.items) }
    {
        let start = self.count()?;
        let first = Vec::from_slice(alloc, &self.first)?;
        Ok(ClassSlots {
            start,
            added: Vec::new(alloc),
            own: Vec::new(alloc),
            first,
        })
    }

    /// Adds a slot that is made for a method, and answers which it is. `number` is that of the method's name and descriptor.
    fn push(&mut self, place: Place, number: Option<usize>) -> Result<u32, NoMemory>
        ensures slot { IfOk result (λ slot. slot ≡ self.old.start + length self.old.added.items) }
        ensures start { OnOk result (self.new.start ≡ self.old.start) }
        ensures added { OnOk result (self.new.added.items ≡ self.old.added.items ++ place ∷ []) }
        ensures own { OnOk result (self.new.own.items ≡ self.old.own.items) }
        ensures first { OnOk result ((cs : List ClassFile) (signatures : List (ℕ × ℕ)) (above : List APlace)
            → number ≡ onto (symbols_at cs place) (number_of signatures) → AreSoFar cs signatures above self.old → AreSoFar cs signatures above self.new) }
    {
        let slot = self.count()?;
        self.added.push(place)?;
        put_first(&mut self.first, number, slot);
        Ok(slot)
    }
}

/// The number of the name and the descriptor of a method.
pub(crate) fn number_at(classes: &Classes, signatures: &Signatures, place: Place) -> Option<usize>
    ensures { result ≡ onto (symbols_at classes.now place) (number_of signatures.now) }
{
    signatures.number(symbols_at(classes, place)?)
}

/// The slots with which a class begins: those of its superclass.
fn begun(
    alloc: Global,
    classes: &Classes,
    signatures: &Signatures,
    table: &[ClassSlots],
    class: u32,
) -> Result<ClassSlots, NoMemory>
    requires class { class < length classes.now }
    requires above { AreAbove classes.now signatures.now class table.now }
    ensures added { IfOk result (λ slots. slots.added.items ≡ []) }
    ensures own { IfOk result (λ slots. slots.own.items ≡ []) }
    ensures so_far { IfOk result (λ slots. AreSoFar classes.now signatures.now (above_slots classes.now class) slots) }
{
    match classes.superclass(class) {
        Some(upper) => table[upper as usize].below(alloc),
        None => ClassSlots::new(alloc, signatures.count()),
    }
}

/// Adds the slots that are made for the methods of the class.
fn add_own(
    slots: &mut ClassSlots,
    classes: &Classes,
    signatures: &Signatures,
    class: u32,
) -> Result<(), NoMemory>
    requires added { slots.old.added.items ≡ [] }
    requires own { slots.old.own.items ≡ [] }
    requires so_far { AreSoFar classes.now signatures.now (above_slots classes.now class) slots.old }
    ensures added { OnOk result (slots.new.added.items ≡ own_slots classes.now class) }
    ensures own { OnOk result ((i : ℕ) → slice_index_or slots.new.own.items i None ≡ own_slot classes.now (class, i)) }
    ensures so_far { OnOk result (AreSoFar classes.now signatures.now (above_slots classes.now class) slots.new) }
{
    for index in 0..method_count(classes, class) {
        let place = Place { class, index };
        if has_slot(classes, place) {
            let slot = slots.push(place, number_at(classes, signatures, place))?;
            slots.own.push(Some(slot))?;
        } else {
            slots.own.push(None)?;
        }
    }
    Ok(())
}

/// Adds a slot that is made for a method of an interface, unless one is there for a method of its name and descriptor.
fn add_method(
    slots: &mut ClassSlots,
    classes: &Classes,
    signatures: &Signatures,
    method: Place,
) -> Result<(), NoMemory>
    requires interface { is_interface classes.now method.0 ≡ true }
    requires signatures { HasSignatures classes.now signatures.now }
    ensures own { OnOk result (slots.new.own.items ≡ slots.old.own.items) }
    ensures slots { OnOk result ((above : List APlace) → AreSoFar classes.now signatures.now above slots.old
        → above ++ slots.new.added.items ≡ with_item (are_named_alike classes.now) (above ++ slots.old.added.items) method) }
    ensures so_far { OnOk result ((above : List APlace) → AreSoFar classes.now signatures.now above slots.old
        → AreSoFar classes.now signatures.now above slots.new) }
{
    symbols_stand_for_texts();
    members_have_symbols();
    let number = number_at(classes, signatures, method);
    if has_first(&slots.first, number) {
        return Ok(());
    }
    slots.push(method, number)?;
    Ok(())
}

/// Adds the slots that are made for the methods of the superinterfaces of the class.
fn add_inherited(
    slots: &mut ClassSlots,
    classes: &Hierarchy,
    signatures: &Signatures,
    numbered: &[Place],
    class: u32,
) -> Result<(), NoMemory>
    requires class { class < length classes.now }
    requires methods { numbered.now ≡ interface_methods classes.now }
    requires signatures { HasSignatures classes.now signatures.now }
    requires so_far { AreSoFar classes.now signatures.now (above_slots classes.now class) slots.old }
    ensures own { OnOk result (slots.new.own.items ≡ slots.old.own.items) }
    ensures slots { OnOk result (above_slots classes.now class
        ++ slots.new.added.items ≡ with_items (are_named_alike classes.now) (above_slots classes.now class
        ++ slots.old.added.items) (inherited_methods classes.now class)) }
    ensures so_far { OnOk result (AreSoFar classes.now signatures.now (above_slots classes.now class) slots.new) }
{
    for method in numbered {
        if classes.extends(class, method.class) {
            add_method(slots, classes.classes(), signatures, *method)?;
        }
    }
    Ok(())
}

/// The slots of a class, where the table has those of its superclass.
pub(crate) fn class_slots(
    alloc: Global,
    classes: &Hierarchy,
    signatures: &Signatures,
    numbered: &[Place],
    table: &[ClassSlots],
    class: u32,
) -> Result<ClassSlots, NoMemory>
    requires class { class < length classes.now }
    requires methods { numbered.now ≡ interface_methods classes.now }
    requires signatures { HasSignatures classes.now signatures.now }
    requires above { AreAbove classes.now signatures.now class table.now }
    ensures { IfOk result (λ slots. AreClassSlots classes.now signatures.now class slots) }
{
    classes.is_without_cycle();
    superclasses_stand_above();
    let mut slots = begun(alloc, classes.classes(), signatures, table, class)?;
    add_own(&mut slots, classes.classes(), signatures, class)?;
    add_inherited(&mut slots, classes, signatures, numbered, class)?;
    Ok(slots)
}
