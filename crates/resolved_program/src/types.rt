//! Types by the numbers of what they are made of.
ghost use Rattle.std.specs.Prelude.{◌≡◌, ◌<◌, List, length, map, Some, slice_get};
ghost use Rattle.bytecode_model.specs.Lists.{onto};
ghost use Rattle.bytecode_model.specs.Types.{Kind};
ghost use Rattle.program_tables.specs.Tables.{base_kind, kind_seen};
ghost use Rattle.resolved_program.specs.Types.{name_among, HaveComponents};

use program_tables::{Base, ObjectKind, Types};

/// A type of objects.
#[derive(Clone, Copy)]
pub enum TypeName {
    /// Arrays of numbers, by their array type code (6.5.newarray).
    Primitive(u8),
    /// The class of this number.
    Class(u32),
    /// Arrays of references, by the number of their component's type.
    Array(u32),
}

/// The name of a class or of arrays of numbers.
fn base_name(base: Base) -> TypeName
    ensures { (types : List Kind) → name_among types (base_kind base) ≡ Some result }
{
    match base {
        Base::Class(class) => TypeName::Class(class),
        Base::Numbers(code) => TypeName::Primitive(code),
    }
}

/// The name of the type of this number.
pub(crate) fn name_at(types: &Types, number: u32) -> TypeName
    requires number { number < length types.now }
    requires components { HaveComponents (map kind_seen types.now) }
    ensures { Some result ≡ onto (slice_get (map kind_seen types.now) number) (name_among (map kind_seen types.now)) }
{
    let kind = types.at(number);
    if kind.dimensions == 0 {
        return base_name(kind.base);
    }
    let component = ObjectKind {
        dimensions: kind.dimensions - 1,
        base: kind.base,
    };
    match types.number(component) {
        Some(number) => TypeName::Array(number),
        None => unreachable!(),
    }
}
