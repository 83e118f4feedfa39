//! The classes and members that references mean.
ghost use Rattle.std.specs.Prelude.{◌≡◌, ◌<◌, length, IfSome};
ghost use Rattle.std.specs.Option.{option_copied};
ghost use Rattle.class_lookup.specs.Lookup.{field_at, find_field, find_method};
ghost use Rattle.program_tables.specs.Operands.{class_named};
ghost use Rattle.unresolved_names.specs.Causes.{signature_at};

use crate::caller::{Caller, Namer};
use class_lookup::{Classes, Place};
use class_pool::Member;

/// The class that a Class entry names.
#[tactic(auto, using(crate::proofs::PartLemmas::found_below))]
pub(crate) fn class_named(namer: &Namer<'_>, index: u16) -> Option<u32>
    ensures named { result ≡ class_named namer.now.texts.now namer.now.class.now index }
    ensures below { IfSome result (λ n. n < length namer.now.texts.now) }
{
    namer.texts.classes().class_named(namer.number, index)
}

/// The field of the name and descriptor at these indexes of the caller's pool, looked up from a class.
pub(crate) fn field_found(
    caller: &Caller<'_>,
    class: u32,
    name: u16,
    descriptor: u16,
) -> Option<Place>
    requires { class < length caller.now.classes.now }
    ensures { result ≡ find_field caller.now.classes.now class (signature_at caller.now.namer.class.now.pool name descriptor) }
{
    let number = caller.namer.number;
    let texts = caller.classes.classes();
    let name = texts.symbol(number, name);
    caller
        .classes
        .find_field_by(class, name, texts.symbol(number, descriptor))
}

/// The method of the name and descriptor at these indexes of the caller's pool, looked up from a class.
pub(crate) fn method_found(
    caller: &Caller<'_>,
    class: u32,
    name: u16,
    descriptor: u16,
) -> Option<Place>
    requires { class < length caller.now.classes.now }
    ensures { result ≡ find_method caller.now.classes.now class (signature_at caller.now.namer.class.now.pool name descriptor) }
{
    let number = caller.namer.number;
    let texts = caller.classes.classes();
    let name = texts.symbol(number, name);
    caller
        .classes
        .find_method_by(class, name, texts.symbol(number, descriptor))
}

/// The field of this place.
pub(crate) fn field_at(classes: &Classes, place: Place) -> Option<&Member>
    ensures { option_copied result ≡ field_at classes.now place }
{
    if place.class < classes.class_count() {
        classes
            .class(place.class)
            .fields
            .as_slice()
            .get(place.index)
    } else {
        None
    }
}
