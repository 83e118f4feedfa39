//! What is selected for receivers of a class, with one look at the class.

ghost use Rattle.std.specs.Prelude.{◌≡◌, ◌∷◌, ◌<◌, List, length, true, false};
ghost use Rattle.class_lookup.specs.Hierarchy.{is_interface};
ghost use Rattle.class_lookup.specs.Lookup.{Place as APlace};
ghost use Rattle.class_selection.specs.Selecting.{IsSelected, IsSelectedAbove, IsSelectedOf};

use crate::named::declared_as;
use class_hierarchy::{Hierarchy, is_joining, is_open, is_public_instance};
use class_lookup::{Classes, Place};

/// What is selected for receivers of a class and a resolved method.
#[derive(Clone, Copy)]
pub struct Selected {
    /// The method, if one is selected.
    pub place: Option<Place>,
    /// Whether the method, or one through which it overrides the resolved one, may be overridden by each class below; of an
    /// interface's method always false.
    pub free: bool,
}

/// Nothing.
fn nothing() -> Selected
    ensures place { result.place ≡ None }
    ensures free { result.free ≡ false }
{
    Selected {
        place: None,
        free: false,
    }
}

/// What is selected where a class declares this method, by what is selected for its superclass, where the resolved method belongs
/// to an interface.
fn with_public(classes: &Classes, above: &Selected, place: Place) -> Selected
    ensures { (a : APlace) (ms : List APlace) → is_interface classes.now a.0 ≡ true → IsSelectedOf classes.now a ms above.now
        → IsSelectedOf classes.now a (place ∷ ms) result }
{
    if is_public_instance(classes, place) {
        Selected {
            place: Some(place),
            free: false,
        }
    } else {
        *above
    }
}

/// The same where it belongs to a class.
fn with_joining(classes: &Classes, above: &Selected, method: Place, place: Place) -> Selected
    ensures { (ms : List APlace) → is_interface classes.now method.0 ≡ false → IsSelectedOf classes.now method ms above.now
        → IsSelectedOf classes.now method (place ∷ ms) result }
{
    if is_joining(classes, method, above.place.is_some(), above.free, place) {
        Selected {
            place: Some(place),
            free: above.free || is_open(classes, place),
        }
    } else {
        *above
    }
}

/// What is selected where a class declares this method, by what is selected for its superclass.
fn with_method(hierarchy: &Hierarchy, above: &Selected, method: Place, place: Place) -> Selected
    ensures { (ms : List APlace) → IsSelectedOf hierarchy.now method ms above.now → IsSelectedOf hierarchy.now method (place ∷ ms) result }
{
    let classes = hierarchy.classes();
    if is_of_interface(classes, method) {
        with_public(classes, above, place)
    } else {
        with_joining(classes, above, method, place)
    }
}

/// Whether the method belongs to an interface.
fn is_of_interface(classes: &Classes, method: Place) -> bool
    ensures { result ≡ is_interface classes.now method.0 }
{
    method.class < classes.class_count() && classes.is_interface(method.class)
}

/// What is selected for receivers of a class, where it is known what is selected for receivers of its direct superclass.
pub fn selected_with(hierarchy: &Hierarchy, above: &Selected, class: u32, method: Place) -> Selected
    requires { IsSelectedAbove hierarchy.now class method above.now }
    ensures { IsSelected hierarchy.now class method result }
{
    hierarchy.is_without_cycle();
    match declared_as(hierarchy.classes(), method, class) {
        Some(place) => with_method(hierarchy, above, method, place),
        None => *above,
    }
}

/// What is selected for receivers of the direct superclass of a class, where the method is the class's own or an interface's.
pub fn selected_above(hierarchy: &Hierarchy, class: u32, method: Place) -> Selected
    requires class { class < length hierarchy.now }
    requires method { is_interface hierarchy.now method.0 ≡ false → method.0 ≡ class }
    ensures { IsSelectedAbove hierarchy.now class method result }
{
    hierarchy.is_without_cycle();
    if !is_of_interface(hierarchy.classes(), method) {
        return nothing();
    }
    match hierarchy.classes().superclass(class) {
        Some(upper) => Selected {
            place: hierarchy.select(upper, method),
            free: false,
        },
        None => nothing(),
    }
}
