//! The methods of interfaces by number, and the slots of method tables (JVM Specification SE 8, 5.4.5 and 6.5).
ghost use Rattle.std.specs.Prelude.{◌≡◌, ◌++◌, ◌<◌, ◌==◌, ◌||◌, List, length, None, true, slice_index_or, IfOk, OnOk};
ghost use Rattle.class_pool.specs.declared.class.ClassFile.{ClassFile};
ghost use Rattle.lists.specs.Lists.{index_of};
ghost use Rattle.class_lookup.specs.Hierarchy.{is_interface, is_subclass};
ghost use Rattle.class_lookup.specs.Lookup.{same_place};
ghost use Rattle.image_words.specs.Order.{IsSuperclassFirst};
ghost use Rattle.image_words.specs.Signatures.{HasSignatures};
ghost use Rattle.image_words.specs.Slots.{are_named_alike, interface_methods, slots, slot_of};
ghost use Rattle.image_words.specs.Tables.{own_slot, AreMade, AreSlots};

use crate::class_order::{superclass_chain, superclass_order};
use crate::class_slots::{ClassSlots, class_slots, number_at};
use crate::members::{add_methods, is_interface};
use crate::signatures::{Signatures, interface_signatures};
use base::NoMemory;
use class_hierarchy::Hierarchy;
use class_lookup::laws::{members_have_symbols, superclasses_stand_above, symbols_stand_for_texts};
use class_lookup::{Classes, Place};
use std::alloc::Global;

/// The methods of interfaces by number: by class, and then as they stand there.
pub fn interface_methods(alloc: Global, classes: &Classes) -> Result<Vec<Place>, NoMemory>
    ensures { IfOk result (λ made. made.items ≡ interface_methods classes.now) }
{
    let mut places = Vec::new(alloc);
    for class in 0..classes.class_count() {
        if is_interface(classes, class) {
            add_methods(&mut places, classes, class)?;
        }
    }
    Ok(places)
}

/// The slots of the classes.
#[derive(Drop)]
pub struct Slots {
    /// The names and the descriptors of the methods of interfaces.
    signatures: Signatures,
    /// The slots of each class, by those of its superclass.
    classes: Vec<ClassSlots>,
}

/// No slots, for each class.
fn no_slots(alloc: Global, count: u32) -> Result<Vec<ClassSlots>, NoMemory>
    ensures { IfOk result (λ table. length table.items ≡ count) }
{
    let mut table = Vec::new(alloc);
    for _class in 0..count {
        table.push(ClassSlots::new(alloc, 0)?)?;
    }
    Ok(table)
}

/// The slots of each class, where each class stands behind its superclass in this order.
fn slots_by_class(
    alloc: Global,
    classes: &Hierarchy,
    signatures: &Signatures,
    numbered: &[Place],
    order: &[u32],
) -> Result<Vec<ClassSlots>, NoMemory>
    requires methods { numbered.now ≡ interface_methods classes.now }
    requires signatures { HasSignatures classes.now signatures.now }
    requires order { IsSuperclassFirst classes.now order.now }
    ensures { IfOk result (λ table. AreMade classes.now signatures.now order.now table.items) }
{
    let mut table = no_slots(alloc, classes.classes().class_count())?;
    for class in order {
        let slots = class_slots(alloc, classes, signatures, numbered, &table, *class)?;
        table[*class as usize] = slots;
    }
    Ok(table)
}

/// The slot in a cell of a list; none past its end.
fn slot_at(cells: &[Option<u32>], index: usize) -> Option<usize>
    ensures { result ≡ slice_index_or cells.now index None }
{
    match cells.get(index) {
        Some(Some(slot)) => Some(*slot as usize),
        _ => None,
    }
}

/// Whether the second class is the first or a superclass of it.
fn is_upward(classes: &Hierarchy, class: u32, other: u32) -> bool
    requires { class < length classes.now }
    ensures { result ≡ (class == other || is_subclass classes.now class other) }
{
    class == other || classes.is_subclass(class, other)
}

impl Slots {
    /// The slots of each class; `numbered` has the methods of interfaces by number. The time and the memory are linear in what
    /// the classes declare, and in how many classes there are for each method of an interface.
    pub fn new(alloc: Global, classes: &Hierarchy, numbered: &[Place]) -> Result<Self, NoMemory>
        requires { numbered.now ≡ interface_methods classes.now }
        ensures { IfOk result (λ made. AreSlots classes.now made) }
    {
        let signatures = interface_signatures(alloc, classes.classes())?;
        let order = superclass_order(alloc, classes)?;
        let table = slots_by_class(alloc, classes, &signatures, numbered, order.as_slice())?;
        Ok(Slots {
            signatures,
            classes: table,
        })
    }

    /// How many slots a class has.
    pub fn count(&self, class: u32) -> usize
        ensures { (cs : List ClassFile) → AreSlots cs self.now → class < length cs → result ≡ length (slots cs class) }
    {
        let class = class as usize;
        if class < self.classes.len() {
            let slots = &self.classes[class];
            slots.start as usize + slots.added.len()
        } else {
            0
        }
    }

    /// The slots of a class, put behind other places.
    pub fn add_to(
        &self,
        places: &mut Vec<Place>,
        classes: &Hierarchy,
        class: u32,
    ) -> Result<(), NoMemory>
        requires slots { AreSlots classes.now self.now }
        requires class { class < length classes.now }
        ensures { OnOk result (places.new.items ≡ places.old.items ++ slots classes.now class) }
    {
        classes.is_without_cycle();
        superclasses_stand_above();
        let chain = superclass_chain(*places.allocator(), classes, class)?;
        let mut i = chain.len();
        while i > 0 {
            i -= 1;
            let slots = &self.classes[chain[i] as usize];
            places.extend_from_slice(&slots.added)?;
        }
        Ok(())
    }

    /// The first slot of a method of the name and the descriptor of this one, which belongs to an interface.
    fn first_alike(&self, classes: &Classes, named: u32, method: Place) -> Option<usize>
        requires slots { AreSlots classes.now self.now }
        requires class { named < length classes.now }
        requires interface { is_interface classes.now method.0 ≡ true }
        ensures { result ≡ index_of (are_named_alike classes.now method) (slots classes.now named) }
    {
        symbols_stand_for_texts();
        members_have_symbols();
        match number_at(classes, &self.signatures, method) {
            Some(number) => slot_at(&self.classes[named as usize].first, number),
            None => None,
        }
    }

    /// The slot that is made for a method of a class.
    fn own_slot(&self, method: Place) -> Option<usize>
        ensures { (cs : List ClassFile) → AreSlots cs self.now → result ≡ own_slot cs method }
    {
        let class = method.class as usize;
        if class < self.classes.len() {
            slot_at(&self.classes[class].own, method.index)
        } else {
            None
        }
    }

    /// The slot of a method that is named through a class: the one that is made for it, or for a method of an interface the
    /// first of its name and descriptor.
    pub fn slot(&self, classes: &Hierarchy, named: u32, method: Place) -> Option<usize>
        requires slots { AreSlots classes.now self.now }
        requires class { named < length classes.now }
        ensures { result ≡ slot_of classes.now named method }
    {
        classes.is_without_cycle();
        superclasses_stand_above();
        let listed = classes.classes();
        if is_interface(listed, named) {
            None
        } else if is_interface(listed, method.class) {
            self.first_alike(listed, named, method)
        } else if is_upward(classes, named, method.class) {
            self.own_slot(method)
        } else {
            None
        }
    }
}

/// The index of a method among these.
#[tactic(auto, using(crate::proofs::ListLemmas::index_here, crate::proofs::ListLemmas::index_more))]
pub fn index_of_place(slots: &[Place], method: Place) -> Option<usize>
    ensures { result ≡ index_of (same_place method) slots.now }
{
    for (i, slot) in slots.iter().enumerate() {
        if method.class == slot.class && method.index == slot.index {
            return Some(i);
        }
    }
    None
}
