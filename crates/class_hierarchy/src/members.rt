//! Fields and methods by the symbols of their names and descriptors.

ghost use Rattle.std.specs.Prelude.{◌≡◌, Some, map};
ghost use Rattle.class_hierarchy.specs.Marks.{AreMarked, Tells};
ghost use Rattle.class_lookup.specs.Lists.{first_some};
ghost use Rattle.class_lookup.specs.Lookup.{declared_field, declared_method};
ghost use Rattle.class_lookup.specs.Parts.{Signature};
ghost use Rattle.class_lookup.specs.Symbols.{symbol};
ghost use Rattle.class_hierarchy.specs.Members.{declared_as, HasSymbols, IsNamedAt};

use class_lookup::{Classes, Place, method_at};
use number_sets::bits::{BitRows, Row};

/// A method with the symbols of its name and of its descriptor.
#[derive(Clone, Copy)]
pub(crate) struct Named {
    pub(crate) place: Place,
    pub(crate) name: u32,
    pub(crate) descriptor: u32,
}

/// The method of this place with its symbols.
pub(crate) fn named_at(classes: &Classes, place: Place) -> Option<Named>
    ensures { IsNamedAt classes.now place result }
{
    let method = method_at(classes, place)?;
    Some(Named {
        place,
        name: classes.symbol(place.class, method.name),
        descriptor: classes.symbol(place.class, method.descriptor),
    })
}

/// The method of the same name and descriptor that a class declares.
pub(crate) fn declared_as(classes: &Classes, method: &Named, class: u32) -> Option<Place>
    requires { HasSymbols classes.now method.now }
    ensures { result ≡ declared_as classes.now method.now.place class }
{
    classes.declared_method(class, method.name, method.descriptor)
}

/// The same, where a row of bits tells which classes declare one.
pub(crate) fn marked_as(
    classes: &Classes,
    row: Row<'_>,
    method: &Named,
    class: u32,
) -> Option<Place>
    requires named { HasSymbols classes.now method.now }
    requires row { Tells (λ k. k.methods) classes.now method.now.name method.now.descriptor row }
    ensures { result ≡ declared_as classes.now method.now.place class }
{
    if row.has(class) {
        declared_as(classes, method, class)
    } else {
        None
    }
}

/// The field of these symbols that a class declares, where a row of bits tells which classes declare one.
fn marked_field(
    classes: &Classes,
    row: Row<'_>,
    class: u32,
    name: u32,
    descriptor: u32,
) -> Option<Place>
    requires { Tells (λ k. k.fields) classes.now name descriptor row }
    ensures { (s : Signature) → symbol classes.now s.name ≡ Some name → symbol classes.now s.descriptor ≡ Some descriptor
        → result ≡ declared_field classes.now s class }
{
    if row.has(class) {
        classes.declared_field(class, name, descriptor)
    } else {
        None
    }
}

/// The method of these symbols that a class declares, where a row of bits tells which classes declare one.
fn marked_method(
    classes: &Classes,
    row: Row<'_>,
    class: u32,
    name: u32,
    descriptor: u32,
) -> Option<Place>
    requires { Tells (λ k. k.methods) classes.now name descriptor row }
    ensures { (s : Signature) → symbol classes.now s.name ≡ Some name → symbol classes.now s.descriptor ≡ Some descriptor
        → result ≡ declared_method classes.now s class }
{
    if row.has(class) {
        classes.declared_method(class, name, descriptor)
    } else {
        None
    }
}

/// The first field of this name and descriptor that the classes of a list declare.
pub(crate) fn first_field(
    classes: &Classes,
    marks: &BitRows,
    list: &[u32],
    name: u32,
    descriptor: u32,
) -> Option<Place>
    requires { AreMarked (λ k. k.fields) classes.now marks.now }
    ensures { (s : Signature) → symbol classes.now s.name ≡ Some name → symbol classes.now s.descriptor ≡ Some descriptor
        → result ≡ first_some (map (declared_field classes.now s) list.now) }
{
    let row = marks.row((name, descriptor))?;
    for class in list {
        if let Some(place) = marked_field(classes, row, *class, name, descriptor) {
            return Some(place);
        }
    }
    None
}

/// The first method of this name and descriptor that the classes of a list declare.
pub(crate) fn first_method(
    classes: &Classes,
    marks: &BitRows,
    list: &[u32],
    name: u32,
    descriptor: u32,
) -> Option<Place>
    requires { AreMarked (λ k. k.methods) classes.now marks.now }
    ensures { (s : Signature) → symbol classes.now s.name ≡ Some name → symbol classes.now s.descriptor ≡ Some descriptor
        → result ≡ first_some (map (declared_method classes.now s) list.now) }
{
    let row = marks.row((name, descriptor))?;
    for class in list {
        if let Some(place) = marked_method(classes, row, *class, name, descriptor) {
            return Some(place);
        }
    }
    None
}
