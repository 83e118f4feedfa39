//! The instance fields of each class.
ghost use Rattle.std.specs.Prelude.{◌≡◌, ◌+◌, ◌^◌, ◌<◌, length, Some, IfOk, slice_get};
ghost use Rattle.program_tables.specs.Numbers.{own_instance_fields, instance_fields, instance_number};
ghost use Rattle.resolved_program.specs.Instances.{own_lists, instance_counts, fields_above};

use base::NoMemory;
use class_hierarchy::Hierarchy;
use class_lookup::laws::{classes_extend_what_is_above, superclasses_stand_above};
use class_lookup::{Classes, Place};
use program_tables::{Places, instance_fields_of};
use std::alloc::Global;

/// The instance fields that each class declares, and how many an object of it has.
#[derive(Drop)]
pub(crate) struct Instances {
    pub(crate) own: Vec<Places>,
    pub(crate) counts: Vec<u32>,
}

/// The instance fields that each class declares.
fn own_fields(alloc: Global, classes: &Classes) -> Result<Vec<Places>, NoMemory>
    ensures { IfOk result (λ own. own.items ≡ own_lists classes.now) }
{
    let mut own = Vec::new(alloc);
    for class in 0..classes.class_count() {
        own.push(instance_fields_of(alloc, classes, class)?)?;
    }
    Ok(own)
}

/// How many instance fields an object of the class has: those that the class and its superclasses declare.
fn instance_count(classes: &Hierarchy, own: &[Places], class: u32) -> Result<u32, NoMemory>
    requires own { own.now ≡ own_lists classes.now }
    requires class { class < length classes.now }
    ensures { IfOk result (λ count. count ≡ length (instance_fields classes.now class)) }
{
    classes.is_without_cycle();
    superclasses_stand_above();
    let mut count = 0u32;
    let mut next = Some(class);
    while let Some(at) = next {
        let more = own[at as usize].count();
        if more > u32::MAX - count {
            return Err(NoMemory);
        }
        count += more;
        next = classes.classes().superclass(at);
    }
    Ok(count)
}

/// The tables of these classes.
pub(crate) fn instances_of(alloc: Global, classes: &Hierarchy) -> Result<Instances, NoMemory>
    ensures own { IfOk result (λ made. made.own.items ≡ own_lists classes.now) }
    ensures counts { IfOk result (λ made. made.counts.items ≡ instance_counts classes.now) }
{
    let own = own_fields(alloc, classes.classes())?;
    let mut counts = Vec::new(alloc);
    for class in 0..classes.classes().class_count() {
        counts.push(instance_count(classes, &own, class)?)?;
    }
    Ok(Instances { own, counts })
}

impl Instances {
    /// How many instance fields an object of the class has.
    pub(crate) fn count(&self, classes: &Hierarchy, class: u32) -> u32
        requires counts { self.now.counts.items ≡ instance_counts classes.now }
        requires class { class < length classes.now }
        ensures { result ≡ length (instance_fields classes.now class) }
    {
        // The contract alone speaks of it.
        let _ = classes;
        self.counts[class as usize]
    }

    /// How many instance fields the superclasses of a class declare.
    fn above(&self, classes: &Hierarchy, class: u32) -> u32
        requires own { self.now.own.items ≡ own_lists classes.now }
        requires counts { self.now.counts.items ≡ instance_counts classes.now }
        requires class { class < length classes.now }
        ensures above { result ≡ length (fields_above classes.now class) }
        ensures small { result + length (own_instance_fields classes.now class) < 2 ^ 32 }
    {
        classes.is_without_cycle();
        superclasses_stand_above();
        self.counts[class as usize] - self.own[class as usize].count()
    }

    /// The index of an instance field among those of its class, which begin with those of its superclass.
    pub(crate) fn number(&self, classes: &Hierarchy, place: Place) -> Option<u32>
        requires own { self.now.own.items ≡ own_lists classes.now }
        requires counts { self.now.counts.items ≡ instance_counts classes.now }
        ensures { result ≡ instance_number classes.now place }
    {
        classes.is_without_cycle();
        superclasses_stand_above();
        classes_extend_what_is_above();
        if place.class < classes.classes().class_count() {
            match self.own[place.class as usize].number(place) {
                Some(number) => Some(self.above(classes, place.class) + number),
                None => None,
            }
        } else {
            None
        }
    }

    /// The instance field of this index among those of a class, which begin with those of its superclass.
    pub(crate) fn at(&self, classes: &Hierarchy, class: u32, index: u32) -> Place
        requires own { self.now.own.items ≡ own_lists classes.now }
        requires counts { self.now.counts.items ≡ instance_counts classes.now }
        requires class { class < length classes.now }
        requires index { index < length (instance_fields classes.now class) }
        ensures { slice_get (instance_fields classes.now class) index ≡ Some result }
    {
        classes.is_without_cycle();
        superclasses_stand_above();
        let mut at = class;
        loop {
            let above = self.above(classes, at);
            if index >= above {
                return self.own[at as usize].at(index - above);
            }
            match classes.classes().superclass(at) {
                Some(upper) => at = upper,
                None => unreachable!(),
            }
        }
    }
}
