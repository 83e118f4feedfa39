//! The methods of classes by their places.
ghost use Rattle.std.specs.Prelude.{◌≡◌, ◌++◌, length, OnOk, slice_get};
ghost use Rattle.std.specs.Option.{option_copied};
ghost use Rattle.class_lookup.specs.Hierarchy.{is_interface};
ghost use Rattle.image_words.specs.Slots.{own_methods, has_slot};

use base::NoMemory;
use class_lookup::parts::{has_flags, text_at};
use class_lookup::{ClassFile, Classes, Place};
use class_rules::flags::{ACC_INTERFACE, ACC_PRIVATE, ACC_STATIC};
use descriptors::names::is_instance_initializer;

/// The class of this number, if there is one.
pub(crate) fn class_at(classes: &Classes, number: u32) -> Option<&ClassFile>
    ensures { option_copied result ≡ slice_get classes.now number }
{
    if number < classes.class_count() {
        Some(classes.class(number))
    } else {
        None
    }
}

/// Whether the class of this number is an interface.
pub fn is_interface(classes: &Classes, number: u32) -> bool
    ensures { result ≡ is_interface classes.now number }
{
    match class_at(classes, number) {
        Some(class) => has_flags(class.flags, ACC_INTERFACE),
        None => false,
    }
}

/// Whether the method is an instance method that isn't private and no instance initialization method.
pub(crate) fn has_slot(classes: &Classes, place: Place) -> bool
    ensures { result ≡ has_slot classes.now place }
{
    match class_at(classes, place.class) {
        Some(class) => match class.methods.as_slice().get(place.index) {
            Some(method) => {
                !has_flags(method.flags, ACC_STATIC)
                    && !has_flags(method.flags, ACC_PRIVATE)
                    && !is_instance_initializer(text_at(&class.pool, method.name))
            }
            None => false,
        },
        None => false,
    }
}

/// How many methods the class declares.
pub(crate) fn method_count(classes: &Classes, class: u32) -> usize
    ensures { length (own_methods classes.now class) ≡ result }
{
    match class_at(classes, class) {
        Some(class) => class.methods.as_slice().len(),
        None => 0,
    }
}

/// The methods that the class declares, put behind others.
pub(crate) fn add_methods(
    places: &mut Vec<Place>,
    classes: &Classes,
    class: u32,
) -> Result<(), NoMemory>
    ensures { OnOk result (places.new.items ≡ places.old.items ++ own_methods classes.now class) }
{
    for index in 0..method_count(classes, class) {
        places.push(Place { class, index })?;
    }
    Ok(())
}
