//! Verification types (JVM Specification SE 8, 4.10.1.2).
ghost use Rattle.std.specs.Prelude.{◌≡◌, ◌+◌, ◌&&◌, nat_le};
ghost use Rattle.bytecode_typing.specs.Types.{is_long_type, is_reference_type, is_initialized, is_this, number_type, type_words, moves, moved_words};
ghost use Rattle.bytecode_typing.specs.Types.{substituted};
ghost use Rattle.bytecode_typing.specs.Rules.{is_number_type};
ghost use Rattle.verifier_types.specs.Seen.{number_seen, moved_seen, type_seen};
ghost use Rattle.verifier_types.specs.Taken.{is_made};

use program_tables::ObjectKind;

/// The types of numbers that are computed with.
#[derive(Clone, Copy)]
pub enum NumberType {
    Int,
    Long,
}

impl NumberType {
    /// As a verification type.
    pub fn as_type(self) -> VarType
        ensures { type_seen result ≡ number_type (number_seen self) }
    {
        match self {
            NumberType::Int => VarType::Integer,
            NumberType::Long => VarType::LongInteger,
        }
    }
}

/// Which values a load, a store or a return moves.
#[derive(Clone, Copy)]
pub enum Moved {
    Ints,
    Longs,
    References,
}

impl Moved {
    /// Whether what it moves has room in a local variable of this index, of so many.
    pub fn is_within(self, index: u32, max_locals: u16) -> bool
        ensures { result ≡ nat_le (index + moved_words (moved_seen self)) max_locals }
    {
        let words = match self {
            Moved::Longs => 2,
            Moved::Ints | Moved::References => 1,
        };
        u64::from(index) + words <= u64::from(max_locals)
    }
}

/// What is known of a value. Of the numbers, `int` and `long`.
#[derive(Clone, Copy, PartialEq, Eq, Hash)]
pub enum VarType {
    /// Any value.
    Top,
    Integer,
    /// Among local variables it is followed by `Top`; on the operand stack it is one item.
    LongInteger,
    Null,
    /// `this` in an `<init>` that has called no other yet.
    UninitializedThis,
    /// What the `new` at this place made.
    Uninitialized(u32),
    Reference(ObjectKind),
}

impl VarType {
    /// Whether it is `long`, which takes two words.
    pub fn is_long(self) -> bool
        ensures { result ≡ is_long_type (type_seen self) }
    {
        matches!(self, VarType::LongInteger)
    }

    /// How many words it takes on the operand stack.
    pub fn words(self) -> usize
        ensures { result ≡ type_words (type_seen self) }
    {
        if self.is_long() { 2 } else { 1 }
    }

    /// Whether it is a reference, null or what isn't initialised.
    pub fn is_reference(self) -> bool
        ensures { result ≡ is_reference_type (type_seen self) }
    {
        !matches!(self, VarType::Top | VarType::Integer | VarType::LongInteger)
    }

    /// Whether it isn't the type of what isn't initialised.
    pub fn is_initialized(self) -> bool
        ensures { result ≡ is_initialized (type_seen self) }
    {
        !matches!(self, VarType::UninitializedThis | VarType::Uninitialized(_))
    }

    /// Whether it is the type of an uninitialised `this`.
    pub fn is_this(self) -> bool
        ensures { result ≡ is_this (type_seen self) }
    {
        matches!(self, VarType::UninitializedThis)
    }

    /// Whether it is that of such numbers.
    pub fn is_number(self, number: NumberType) -> bool
        ensures { result ≡ is_number_type (number_seen number) (type_seen self) }
    {
        match number {
            NumberType::Int => matches!(self, VarType::Integer),
            NumberType::Long => matches!(self, VarType::LongInteger),
        }
    }

    /// Whether such a load, store or return moves it.
    pub fn is_moved(self, sort: Moved) -> bool
        ensures { result ≡ moves (moved_seen sort) (type_seen self) }
    {
        match sort {
            Moved::Ints => matches!(self, VarType::Integer),
            Moved::Longs => matches!(self, VarType::LongInteger),
            Moved::References => self.is_reference(),
        }
    }

    /// Itself where it isn't the uninitialised type `old`, and else `new`.
    pub fn substituted(self, old: VarType, new: VarType) -> VarType
        ensures { type_seen result ≡ substituted (type_seen old) (type_seen new) (type_seen self) }
    {
        match (old, self) {
            (VarType::Uninitialized(place), VarType::Uninitialized(other)) if place == other => new,
            (VarType::UninitializedThis, VarType::UninitializedThis) => new,
            _ => self,
        }
    }

    /// Whether it is the type of what the `new` at this place made.
    pub fn is_made(self, at: u32) -> bool
        ensures { result ≡ is_made at (type_seen self) }
    {
        match self {
            VarType::Uninitialized(place) => at == place,
            _ => false,
        }
    }
}

/// Whether neither is the type of what isn't initialised.
pub fn are_initialized(first: VarType, second: VarType) -> bool
    ensures { result ≡ (is_initialized (type_seen first) && is_initialized (type_seen second)) }
{
    first.is_initialized() && second.is_initialized()
}
