//! Methods by their places.

ghost use Rattle.std.specs.Prelude.{◌≡◌};
ghost use Rattle.std.specs.Option.{option_copied};
ghost use Rattle.class_lookup.specs.Lookup.{method_at};

use crate::{Classes, Place};
use class_pool::Member;

/// The method of this place, if there is one.
pub fn method_at(classes: &Classes, place: Place) -> Option<&Member>
    ensures { option_copied result ≡ method_at classes.now place }
{
    if place.class < classes.class_count() {
        classes
            .class(place.class)
            .methods
            .as_slice()
            .get(place.index)
    } else {
        None
    }
}
