//! A class file as a value (4.1 and 4.5 to 4.7).

use crate::pool::Pool;
use base::Items;

/// A class file (JVM Specification SE 8, 4.1). The indexes are those of entries of the pool.
#[derive(Drop)]
pub struct ClassFile {
    pub minor: u16,
    pub major: u16,
    pub pool: Pool,
    pub flags: u16,
    /// The class.
    pub this_class: u16,
    /// The superclass, or 0.
    pub super_class: u16,
    /// The direct superinterfaces.
    pub interfaces: Items<u16>,
    pub fields: Items<Member>,
    pub methods: Items<Member>,
    pub attributes: Items<Attribute>,
}

/// A field or a method (JVM Specification SE 8, 4.5 and 4.6).
#[derive(Drop)]
pub struct Member {
    pub flags: u16,
    pub name: u16,
    pub descriptor: u16,
    pub attributes: Items<Attribute>,
}

/// An attribute (JVM Specification SE 8, 4.7).
#[derive(Drop)]
pub struct Attribute {
    pub name: u16,
    pub body: Body,
}

/// What an attribute says behind its name and length.
#[derive(Drop)]
pub enum Body {
    /// The code of a method.
    Code(Code),
    /// The index of a field's constant.
    ConstantValue(u16),
    /// The bytes of any other attribute.
    Bytes(Items<u8>),
}

/// The code of a method (JVM Specification SE 8, 4.7.3).
#[derive(Drop)]
pub struct Code {
    /// In words.
    pub max_stack: u16,
    /// In words.
    pub max_locals: u16,
    pub code: Items<u8>,
    /// The exception table: start, end and handler as places in the code, and the index of the caught class or 0.
    pub handlers: Items<(u16, u16, u16, u16)>,
    /// The names and the bytes of the code's own attributes.
    pub attributes: Items<(u16, Items<u8>)>,
}
