//! What the methods of the classes are, by their places.

ghost use Rattle.std.specs.Prelude.{◌≡◌};
ghost use Rattle.class_lookup.specs.Lookup.{method_at};
ghost use Rattle.class_lookup.specs.Selection.{is_virtual, is_public_instance, is_instance};
ghost use Rattle.class_hierarchy.specs.Selecting.{is_open, is_near, is_joining};

use class_lookup::parts::has_flags;
use class_lookup::{Classes, Place, method_at};
use class_rules::flags::{ACC_ACCESS, ACC_PRIVATE, ACC_PROTECTED, ACC_PUBLIC, ACC_STATIC};

/// Whether there is such a method, and it is public and isn't static.
pub fn is_public_instance(classes: &Classes, place: Place) -> bool
    ensures { result ≡ is_public_instance classes.now place }
{
    match method_at(classes, place) {
        Some(method) => has_flags(method.flags, ACC_PUBLIC) && !has_flags(method.flags, ACC_STATIC),
        None => false,
    }
}

/// Whether there is such a method, and it isn't static.
pub(crate) fn is_instance(classes: &Classes, place: Place) -> bool
    ensures { result ≡ is_instance classes.now place }
{
    match method_at(classes, place) {
        Some(method) => !has_flags(method.flags, ACC_STATIC),
        None => false,
    }
}

/// Whether there is such a method, and it is neither static nor private.
pub(crate) fn is_virtual(classes: &Classes, place: Place) -> bool
    ensures { result ≡ is_virtual classes.now place }
{
    match method_at(classes, place) {
        Some(method) => !(has_flags(method.flags, ACC_STATIC)
            || has_flags(method.flags, ACC_PRIVATE)),
        None => false,
    }
}

/// Whether each class below may override the method.
pub fn is_open(classes: &Classes, place: Place) -> bool
    ensures { result ≡ is_open classes.now place }
{
    match method_at(classes, place) {
        Some(method) => {
            is_virtual(classes, place)
                && (has_flags(method.flags, ACC_PUBLIC) || has_flags(method.flags, ACC_PROTECTED))
        }
        None => false,
    }
}

/// Whether the second method is package-private, and the first belongs to its package.
fn is_near(classes: &Classes, place: Place, resolved: Place) -> bool
    ensures { result ≡ is_near classes.now place resolved }
{
    match method_at(classes, resolved) {
        Some(method) => {
            !has_flags(method.flags, ACC_ACCESS)
                && classes.are_in_one_package(place.class, resolved.class)
        }
        None => false,
    }
}

/// Whether a method of the resolved one's name and descriptor is it or overrides it, where `found` says whether it or one that
/// overrides it stands above, and `free` whether one of these may be overridden by each class below.
pub fn is_joining(classes: &Classes, resolved: Place, found: bool, free: bool, place: Place) -> bool
    ensures { result ≡ is_joining classes.now resolved found free place }
{
    place == resolved
        || (found
            && is_virtual(classes, place)
            && is_virtual(classes, resolved)
            && (free || is_near(classes, place, resolved)))
}
