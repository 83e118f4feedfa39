//! Methods selected from a class upwards (JVM Specification SE 8, 6.5.invokevirtual, invokeinterface and invokespecial).

ghost use Rattle.std.specs.Prelude.{◌≡◌};
ghost use Rattle.std.specs.List.{filter_map, find};
ghost use Rattle.class_lookup.specs.Selection.{overriding, head, is_public_instance, is_instance};
ghost use Rattle.class_hierarchy.specs.Marks.{AreMarked};
ghost use Rattle.class_hierarchy.specs.Members.{declared_as, HasSymbols};

use crate::members::{Named, marked_as};
use crate::methods::{is_instance, is_joining, is_open, is_public_instance};
use class_lookup::{Classes, Place};
use number_sets::bits::BitRows;

/// The first public instance method of this one's name and descriptor that the classes of a list declare.
pub(crate) fn first_public(
    classes: &Classes,
    marks: &BitRows,
    list: &[u32],
    method: &Named,
) -> Option<Place>
    requires named { HasSymbols classes.now method.now }
    requires marks { AreMarked (λ k. k.methods) classes.now marks.now }
    ensures { result ≡ find (is_public_instance classes.now) (filter_map (declared_as classes.now method.now.place) list.now) }
{
    let row = marks.row((method.name, method.descriptor))?;
    for class in list {
        if let Some(place) = marked_as(classes, row, method, *class) {
            if is_public_instance(classes, place) {
                return Some(place);
            }
        }
    }
    None
}

/// The first instance method of this one's name and descriptor that the classes of a list declare.
pub(crate) fn first_instance(
    classes: &Classes,
    marks: &BitRows,
    list: &[u32],
    method: &Named,
) -> Option<Place>
    requires named { HasSymbols classes.now method.now }
    requires marks { AreMarked (λ k. k.methods) classes.now marks.now }
    ensures { result ≡ find (is_instance classes.now) (filter_map (declared_as classes.now method.now.place) list.now) }
{
    let row = marks.row((method.name, method.descriptor))?;
    for class in list {
        if let Some(place) = marked_as(classes, row, method, *class) {
            if is_instance(classes, place) {
                return Some(place);
            }
        }
    }
    None
}

/// The first method in the classes of a list, from a class upwards, that is the resolved one or overrides it.
pub(crate) fn first_overriding(
    classes: &Classes,
    marks: &BitRows,
    list: &[u32],
    resolved: &Named,
) -> Option<Place>
    requires named { HasSymbols classes.now resolved.now }
    requires marks { AreMarked (λ k. k.methods) classes.now marks.now }
    ensures { result ≡ head (overriding classes.now resolved.now.place (filter_map (declared_as classes.now resolved.now.place) list.now)) }
{
    let row = marks.row((resolved.name, resolved.descriptor))?;
    let mut found = None;
    let mut free = false;
    // From the uppermost class downwards, since a method overrides by way of those between.
    let mut i = list.len();
    while i > 0 {
        i -= 1;
        if let Some(place) = marked_as(classes, row, resolved, list[i]) {
            if is_joining(classes, resolved.place, found.is_some(), free, place) {
                found = Some(place);
                free = free || is_open(classes, place);
            }
        }
    }
    found
}
