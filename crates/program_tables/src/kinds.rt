//! What objects of the types are that Class entries and descriptors name (JVM Specification SE 8, 4.3.2, 4.4.1).
ghost use Rattle.std.specs.Prelude.{◌≡◌, ◌<◌, option_map, IfSome};
ghost use Rattle.program_tables.specs.Kinds.{array_code, kind_of_type};
ghost use Rattle.program_tables.specs.Tables.{kind_seen};

use crate::text_type::{entry_type, field_type_in};
use base::NoMemory;
use class_lookup::Classes;
use descriptors::{Element, FieldType};
use std::alloc::Global;

/// What an object is: an instance of a class or an array of numbers, or an array of so many dimensions whose innermost elements are
/// references to these.
#[derive(Clone, Copy, PartialEq, Eq, Hash)]
pub struct ObjectKind {
    pub dimensions: u16,
    pub base: Base,
}

/// A class, by its number; or arrays of numbers, by their array type code (6.5.newarray).
#[derive(Clone, Copy, PartialEq, Eq, Hash)]
pub enum Base {
    Class(u32),
    Numbers(u8),
}

/// The array type code of an array with such elements.
fn array_code(element: &Element) -> u8
    ensures { result ≡ array_code element.now }
{
    match element {
        Element::Class(_) => 0,
        Element::Boolean => 4,
        Element::Char => 5,
        Element::Float => 6,
        Element::Double => 7,
        Element::Byte => 8,
        Element::Short => 9,
        Element::Int => 10,
        Element::Long => 11,
    }
}

/// What an object of a reference type is, where the type's class is there.
pub(crate) fn kind_of_type(classes: &Classes, of: &FieldType) -> Option<ObjectKind>
    ensures kind { option_map kind_seen result ≡ kind_of_type classes.now of.now }
    ensures within { IfSome result (λ kind. kind.dimensions < 256) }
{
    if let Element::Class(name) = &of.element {
        let class = classes.find_class(name.as_slice())?;
        return Some(ObjectKind {
            dimensions: u16::from(of.dimensions),
            base: Base::Class(class),
        });
    }
    Some(ObjectKind {
        dimensions: u16::from(of.dimensions.checked_sub(1)?),
        base: Base::Numbers(array_code(&of.element)),
    })
}
