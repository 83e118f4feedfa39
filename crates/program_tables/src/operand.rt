//! What resolved classes give to instructions and handlers, and what their members are (JVM Specification SE 8, 4.3, 4.4, 4.7.3 and 5.4.3).

use crate::kinds::ObjectKind;
use base::Items;
use opcodes::Instr;

/// What the pool entry means that an instruction names.
#[derive(Clone, Copy)]
pub enum Operand {
    /// The instruction names none, or nothing that it could take.
    Nothing,
    Int(i32),
    Long(i64),
    /// A string literal, by the number of its object.
    Text(u32),
    /// A static field, by its index among the static fields.
    Static(u32),
    /// An instance field: the class through which it is named, the class that declares it, and its index among the instance fields
    /// of that class.
    Field(u32, u32, u32),
    /// A method: the class through which it is named, and its number; at `invokespecial`, that of the method that is run.
    Method(u32, u32),
    /// A class or an array type.
    Type(ObjectKind),
}

/// An instruction of a method.
#[derive(Clone, Copy)]
pub struct Instruction {
    pub instr: Instr,
    /// What it names.
    pub operand: Operand,
    /// Whether that is a protected member of a superclass in another package (4.10.1.8).
    pub guarded: bool,
}

/// An entry of an exception table: the instructions from `start` up to `end`, the handler's place, and what it catches, `None`
/// for anything.
#[derive(Clone, Copy)]
pub struct Handler {
    pub start: u16,
    pub end: u16,
    pub target: u16,
    pub caught: Option<ObjectKind>,
}

/// The declared type of a field, of a parameter or of a result.
#[derive(Clone, Copy)]
pub enum Declared {
    /// boolean, byte, char, short or int.
    Int,
    Long,
    Reference(ObjectKind),
}

/// What a method is apart from its code.
#[derive(Drop)]
pub struct MethodShape {
    /// The number of its class.
    pub owner: u32,
    /// Whether it isn't static.
    pub has_this: bool,
    /// Whether it is an instance initialization method.
    pub is_init: bool,
    /// The types of its parameters in order, `this` apart.
    pub parameters: Items<Declared>,
    pub result: Option<Declared>,
}
