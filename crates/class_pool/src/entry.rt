//! Entries of a constant pool (4.4).

use crate::units::Units;

/// An entry of a pool, or the second place of one that takes two (JVM Specification SE 8, 4.4).
/// An index is that of another entry of the pool.
#[derive(Drop)]
pub enum Entry {
    /// A text.
    Utf8(Units),
    /// The 32 bits of an `int`.
    Integer(u32),
    /// The 32 bits of a `float`.
    Float(u32),
    /// The 64 bits of a `long`.
    Long(u64),
    /// The 64 bits of a `double`.
    Double(u64),
    /// A class or an array class: the index of its name.
    Class(u16),
    /// A string: the index of its text.
    Text(u16),
    /// A field: the indexes of its class, and of its name and type.
    Field(u16, u16),
    /// A method of a class: the indexes of the class, and of its name and type.
    Method(u16, u16),
    /// A method of an interface: the indexes of the interface, and of its name and type.
    InterfaceMethod(u16, u16),
    /// A name and a type: the indexes of the name and of the descriptor.
    NameAndType(u16, u16),
    /// A method handle: its kind, and the index of what it refers to.
    Handle(u8, u16),
    /// A method type: the index of its descriptor.
    MethodType(u16),
    /// A dynamic call site: the place of its bootstrap method, and the index of its name and type.
    Dynamic(u16, u16),
    /// The second place of a `Long` or a `Double`.
    Second,
}
