//! The method that a class declares of the name and the descriptor of another.

ghost use Rattle.std.specs.Prelude.{◌≡◌};
ghost use Rattle.class_hierarchy.specs.Members.{declared_as};

use class_lookup::{Classes, Place, method_at};

/// The method of the same name and descriptor that a class declares.
pub(crate) fn declared_as(classes: &Classes, method: Place, class: u32) -> Option<Place>
    ensures { result ≡ declared_as classes.now method class }
{
    let member = method_at(classes, method)?;
    let name = classes.symbol(method.class, member.name);
    let descriptor = classes.symbol(method.class, member.descriptor);
    classes.declared_method(class, name, descriptor)
}
