//! Types and frames that a StackMapTable names (4.7.4).

use base::{FormatFault, Items, NoMemory};
use std::alloc::{AllocError, AllocFailed};

/// A verification type (JVM Specification SE 8, 4.10.1.2). Of the numbers, `int` and `long`.
#[derive(Drop)]
pub enum VarType {
    /// Any value.
    Top,
    Integer,
    Null,
    /// `this` in an `<init>` that has called no other yet.
    UninitializedThis,
    /// A reference to a class, an interface or an array, by the name that a Class entry gives.
    Object(Items<u16>),
    /// What the `new` at this place made.
    Uninitialized(u32),
    /// Among local variables it is followed by `Top`; on the operand stack it is one item.
    Long,
}

/// What is known before an instruction (JVM Specification SE 8, 4.10.1.4).
#[derive(Drop)]
pub struct TypeFrame {
    /// As many as the method has.
    pub locals: Items<VarType>,
    /// The operand stack, from its bottom to its top.
    pub stack: Items<VarType>,
    /// Whether `this` isn't initialised yet.
    pub flag: bool,
}

/// The frames of a method.
#[derive(Drop)]
pub struct Frames {
    /// The one with which it begins.
    pub first: TypeFrame,
    /// Those of its StackMapTable by their places, which rise.
    pub at: Items<(u32, TypeFrame)>,
}

/// Why a method has no frames.
#[derive(Clone, Copy)]
pub enum MapFault {
    /// The place at which the StackMapTable breaks the rules first.
    Bad(u32),
    /// There was no memory.
    NoMemory,
}

impl From<AllocError> for MapFault {
    ghost use Rattle.std.specs.Prelude.{◌≡◌};
    ghost use Rattle.frame_types.specs.declared.types.MapFault.TheVariants.{NoMemory};

    ghost from_gives = { λ _ fault. fault ≡ NoMemory };

    fn from(_: AllocError) -> Self {
        MapFault::NoMemory
    }
}

impl<T: Drop> From<AllocFailed<T>> for MapFault {
    ghost use Rattle.std.specs.Prelude.{◌≡◌};
    ghost use Rattle.frame_types.specs.declared.types.MapFault.TheVariants.{NoMemory};

    ghost from_gives = { λ _ fault. fault ≡ NoMemory };

    fn from(_: AllocFailed<T>) -> Self {
        MapFault::NoMemory
    }
}

impl From<NoMemory> for MapFault {
    ghost use Rattle.std.specs.Prelude.{◌≡◌};
    ghost use Rattle.frame_types.specs.declared.types.MapFault.TheVariants.{NoMemory};

    ghost from_gives = { λ _ fault. fault ≡ NoMemory };

    fn from(_: NoMemory) -> Self {
        MapFault::NoMemory
    }
}

// What isn't of the format breaks the rules at place 0.
impl From<FormatFault> for MapFault {
    ghost use Rattle.std.specs.Prelude.{◌≡◌};
    ghost use Rattle.frame_types.specs.Fault.{fault_at_start};

    ghost from_gives = { λ format fault. fault ≡ fault_at_start format };

    fn from(fault: FormatFault) -> Self {
        match fault {
            FormatFault::Bad => MapFault::Bad(0),
            FormatFault::NoMemory => MapFault::NoMemory,
        }
    }
}
