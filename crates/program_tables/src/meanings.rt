//! What entries of a pool mean (JVM Specification SE 8, 4.4 and 5.4.3), as far as no lookup of members is needed.
ghost use Rattle.std.specs.Prelude.{◌≡◌, ℕ, ◌<◌, List, length, Some, false, slice_get};
ghost use Rattle.std.specs.Option.{option_copied};
ghost use Rattle.class_pool.specs.declared.class.ClassFile.{ClassFile};
ghost use Rattle.class_pool.specs.Grammar.{entry_at};
ghost use Rattle.class_lookup.specs.Lookup.{field_at};
ghost use Rattle.program_tables.specs.Entries.{meaning_at, meanings_in, meaning_seen, meanings_seen, type_meaning, kind_in};
ghost use Rattle.program_tables.specs.Meanings.{operand_seen};
ghost use Rattle.program_tables.specs.Numbers.{is_static_field, strings_of};
ghost use Rattle.program_tables.specs.Operands.{constant_operand};
ghost use Rattle.program_tables.specs.Tables.{numbers_among};

use crate::kinds::ObjectKind;
use crate::operand::Operand;
use crate::strings::StringNumbers;
use crate::texts::TextTypes;
use class_lookup::parts::has_flags;
use class_lookup::{Classes, Place};
use class_pool::{Entry, Member, Pool};
use class_rules::flags::ACC_STATIC;

/// What an entry means to the instructions that may name it.
#[derive(Clone, Copy)]
pub struct Meaning {
    /// To any but `invokespecial`.
    pub usual: Operand,
    /// To `invokespecial`.
    pub special: Operand,
    /// Whether it gives a protected member of a superclass in another package.
    pub guarded: bool,
}

/// What the same means to each instruction.
pub fn plain(operand: Operand) -> Meaning
    ensures { meaning_seen result ≡ record { usual = operand_seen operand; special = operand_seen operand; guarded = false } }
{
    Meaning {
        usual: operand,
        special: operand,
        guarded: false,
    }
}

/// What a constant of a class means.
pub fn constant_operand(
    classes: &Classes,
    numbers: &StringNumbers,
    class: u32,
    entry: &Entry,
) -> Operand
    requires { class < length classes.now }
    ensures { (c : ClassFile) → slice_get classes.now class ≡ Some c → numbers.now ≡ numbers_among (strings_of classes.now) classes.now
        → operand_seen result ≡ constant_operand classes.now c.pool entry.now }
{
    match entry {
        Entry::Integer(n) => Operand::Int(n.cast_signed()),
        Entry::Long(n) => Operand::Long(n.cast_signed()),
        Entry::Text(units) => match numbers.number(classes.symbol(class, *units)) {
            // The objects of errors come first, and each string has its array before it.
            Some(number) => Operand::Text(9 + 2 * number + 1),
            None => Operand::Nothing,
        },
        Entry::Utf8(_)
        | Entry::Float(_)
        | Entry::Double(_)
        | Entry::Class(_)
        | Entry::Field(_, _)
        | Entry::Method(_, _)
        | Entry::InterfaceMethod(_, _)
        | Entry::NameAndType(_, _)
        | Entry::Handle(_, _)
        | Entry::MethodType(_)
        | Entry::Dynamic(_, _)
        | Entry::Second => Operand::Nothing,
    }
}

/// What a class or an array type means that an entry of a class names.
pub fn class_meaning(texts: &TextTypes<'_>, class: u32, index: u16) -> Meaning
    requires { class < length texts.now }
    ensures { (c : ClassFile) → slice_get texts.now class ≡ Some c → meaning_seen result ≡ type_meaning texts.now c.pool index }
{
    match texts.kind_of_entry(class, index) {
        Some(kind) => plain(Operand::Type(kind)),
        None => plain(Operand::Nothing),
    }
}

/// What the entry of an index means, by the table of its class; nothing where there is none.
pub fn meaning_at(made: &[Meaning], index: u32) -> Meaning
    ensures { (cs : List ClassFile) (current : ℕ) (c : ClassFile) → meanings_seen made.now ≡ meanings_in cs current c
        → meaning_seen result ≡ meaning_at cs current c index }
{
    if index == 0 {
        return plain(Operand::Nothing);
    }
    match made.get(index as usize - 1) {
        Some(meaning) => *meaning,
        None => plain(Operand::Nothing),
    }
}

/// The type that an operand is, if it is one.
pub fn kind_in(operand: Operand) -> Option<ObjectKind>
    ensures { result ≡ kind_in operand }
{
    match operand {
        Operand::Type(kind) => Some(kind),
        Operand::Nothing
        | Operand::Int(_)
        | Operand::Long(_)
        | Operand::Text(_)
        | Operand::Static(_)
        | Operand::Field(_, _, _)
        | Operand::Method(_, _) => None,
    }
}

/// The entry of an index.
pub fn entry_of(pool: &Pool, index: u32) -> Option<&Entry>
    ensures { option_copied result ≡ entry_at pool.now index }
{
    let place = index.checked_sub(1)? as usize;
    pool.entries().get(place)
}

/// The field of this place.
pub fn field_at(classes: &Classes, place: Place) -> Option<&Member>
    ensures { option_copied result ≡ field_at classes.now place }
{
    if place.class < classes.class_count() {
        classes
            .class(place.class)
            .fields
            .as_slice()
            .get(place.index)
    } else {
        None
    }
}

/// Whether there is such a field, and it is static.
pub fn is_static_field(classes: &Classes, place: Place) -> bool
    ensures { result ≡ is_static_field classes.now place }
{
    match field_at(classes, place) {
        Some(field) => has_flags(field.flags, ACC_STATIC),
        None => false,
    }
}
