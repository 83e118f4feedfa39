//! The frames of a method as what each entry of its StackMapTable changes (JVM Specification SE 8, 4.7.4).
ghost use Rattle.std.specs.Prelude.{◌≡◌};
ghost use Rattle.frame_types.specs.Types.{words_of, is_this};
ghost use Rattle.frame_types.specs.Extents.{shape};

use base::Items;

/// A verification type as a StackMapTable has it: a class is an index of the constant pool.
#[derive(Clone, Copy)]
pub enum EntryType {
    Top,
    Integer,
    Long,
    Null,
    UninitializedThis,
    /// The index of a Class entry.
    Object(u16),
    /// What the `new` at this place made.
    Uninitialized(u32),
}

/// What an entry changes of the frame before it. The operand stack is empty where nothing is said of it.
#[derive(Drop)]
pub enum StepChange {
    /// same_frame and same_frame_extended: the same local variables.
    Same,
    /// same_locals_1_stack_item_frame and its extended form: the same local variables, and one item on the operand stack.
    OneItem(EntryType),
    /// chop_frame: so many of the last local variables are absent.
    Chop(u8),
    /// append_frame: these local variables follow.
    Append(Items<EntryType>),
    /// full_frame: all local variables, and the operand stack from its bottom to its top.
    Full(Items<EntryType>, Items<EntryType>),
}

/// A frame as the change of the one before it.
#[derive(Drop)]
pub struct MapStep {
    /// The place in the code.
    pub place: u32,
    pub change: StepChange,
    /// Whether `this` isn't initialised yet.
    pub flag: bool,
}

/// A local variable with which a method begins, a long one being one: what the rules on frames ask of its type.
#[derive(Clone, Copy)]
pub struct FirstLocal {
    /// The words that a value takes.
    pub words: u16,
    /// Whether it is an uninitialised `this`.
    pub this: bool,
}

impl EntryType {
    /// The words that a value takes.
    pub(crate) fn words(&self) -> u16
        ensures { result ≡ words_of (shape self.now) }
    {
        match self {
            EntryType::Long => 2,
            _ => 1,
        }
    }

    /// Whether it is that of an uninitialised `this`.
    pub(crate) fn is_this(&self) -> bool
        ensures { result ≡ is_this (shape self.now) }
    {
        matches!(self, EntryType::UninitializedThis)
    }
}
