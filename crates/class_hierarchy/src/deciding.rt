//! Methods that are selected for the class that declares them, whatever else stands above it (JVM Specification SE 8,
//! 6.5.invokevirtual).

ghost use Rattle.std.specs.Prelude.{◌≡◌, ◌<◌, length, IsTrue};
ghost use Rattle.class_lookup.specs.Hierarchy.{is_among};
ghost use Rattle.number_sets.specs.Numbers.{entry};
ghost use Rattle.class_hierarchy.specs.Deciding.{is_overridable};
ghost use Rattle.class_hierarchy.specs.Members.{HasSymbols};

use crate::members::{Named, declared_as};
use crate::methods::is_open;
use base::Items;
use class_lookup::Classes;

/// Whether the method is the one of its name and descriptor that its class declares, and each class below may override it.
pub(crate) fn is_overridable(classes: &Classes, method: &Named) -> bool
    requires { HasSymbols classes.now method.now }
    ensures { result ≡ is_overridable classes.now method.now.place }
{
    match declared_as(classes, method, method.place.class) {
        Some(place) => place == method.place && is_open(classes, place),
        None => false,
    }
}

/// Whether a class is this one or has it as a superclass, by the lists of each class with its superclasses: where it has, its list
/// ends as the other's does.
pub(crate) fn is_at_or_below(superclasses: &[Items<u32>], class: u32, upper: u32) -> bool
    requires { class < length superclasses.now }
    ensures { IsTrue result → IsTrue (is_among (entry superclasses.now class) upper) }
{
    let list = superclasses[class as usize].as_slice();
    let left = match superclasses.get(upper as usize) {
        Some(above) => above.as_slice().len(),
        None => 0,
    };
    0 < left && left <= list.len() && list[list.len() - left] == upper
}
