//! What an instruction names in the pool (JVM Specification SE 8, 4.4, 4.9.1 and 6.5).
ghost use Rattle.std.specs.Prelude.{◌≡◌, ◌<◌, ◌^◌, length, Some};
ghost use Rattle.std.specs.Option.{option_copied};
ghost use Rattle.bytecode_model.specs.Lists.{onto};
ghost use Rattle.class_pool.specs.Grammar.{entry_at};
ghost use Rattle.program_tables.specs.Instructions.{is_ldc, is_field_access, is_class_use, takes_method, takes_interface_method, named_by, named_in};
ghost use Rattle.program_tables.specs.Tables.{seen_in};
ghost use Rattle.program_tables.specs.Taken.{takes_entry};

use class_pool::{ClassFile, Entry, Pool};
use opcodes::Instr;
use opcodes::mnemonics::{
    ANEWARRAY, CHECKCAST, GETSTATIC, INSTANCEOF, INVOKEINTERFACE, INVOKESPECIAL, INVOKESTATIC,
    INVOKEVIRTUAL, LDC, LDC_W, LDC2_W, NEW, PUTFIELD,
};

/// What a pool entry gives to an instruction, by indexes of the pool: a constant; a class; a field or a method, by the Class entry
/// through which it is named and its NameAndType entry.
#[derive(Clone, Copy)]
pub enum Named {
    Constant(u16),
    Class(u16),
    Field(u16, u16),
    /// A method that is named as one of a class.
    Method(u16, u16),
    /// A method that is named as one of an interface.
    InterfaceMethod(u16, u16),
}

/// The entry of an index.
pub(crate) fn entry_at(pool: &Pool, index: u16) -> Option<&Entry>
    ensures { option_copied result ≡ entry_at pool.now index }
{
    let place = usize::from(index.checked_sub(1)?);
    pool.entries().get(place)
}

/// Whether the opcode is ldc or ldc_w.
pub(crate) fn is_ldc(op: u8) -> bool
    ensures { result ≡ is_ldc op }
{
    op == LDC || op == LDC_W
}

/// Whether the opcode reads or writes a field.
pub(crate) fn is_field_access(op: u8) -> bool
    ensures { result ≡ is_field_access op }
{
    op >= GETSTATIC && op <= PUTFIELD
}

/// Whether the opcode names a class.
pub(crate) fn is_class_use(op: u8) -> bool
    ensures { result ≡ is_class_use op }
{
    op == NEW || op == ANEWARRAY || op == CHECKCAST || op == INSTANCEOF
}

/// Whether the opcode takes a method of a class.
pub(crate) fn takes_method(op: u8) -> bool
    ensures { result ≡ takes_method op }
{
    op >= INVOKEVIRTUAL && op <= INVOKESTATIC
}

/// Whether the opcode takes a method of an interface, in a class file of this version.
fn takes_interface_method(major: u16, op: u8) -> bool
    ensures { result ≡ takes_interface_method major op }
{
    op == INVOKEINTERFACE || (major >= 52 && (op == INVOKESPECIAL || op == INVOKESTATIC))
}

/// Whether an opcode takes what an entry gives, in a class file of this version; `ldc` takes no class.
pub fn takes_entry(major: u16, op: u8, entry: &Entry) -> bool
    ensures { result ≡ takes_entry major op entry.now }
{
    match entry {
        Entry::Integer(_)
        | Entry::Float(_)
        | Entry::Text(_)
        | Entry::Handle(_, _)
        | Entry::MethodType(_) => is_ldc(op),
        Entry::Long(_) | Entry::Double(_) => op == LDC2_W,
        Entry::Class(_) => !is_ldc(op) && is_class_use(op),
        Entry::Field(_, _) => is_field_access(op),
        Entry::Method(_, _) => takes_method(op),
        Entry::InterfaceMethod(_, _) => takes_interface_method(major, op),
        Entry::Utf8(_) | Entry::NameAndType(_, _) | Entry::Dynamic(_, _) | Entry::Second => false,
    }
}

/// What an entry gives to an opcode.
fn named_by(pool: &Pool, major: u16, op: u8, index: u16, entry: &Entry) -> Option<Named>
    requires { entry_at pool.now index ≡ Some entry.now }
    ensures { onto result (seen_in pool.now) ≡ named_by pool.now major op index entry.now }
{
    match entry {
        Entry::Integer(_)
        | Entry::Float(_)
        | Entry::Text(_)
        | Entry::Handle(_, _)
        | Entry::MethodType(_) => is_ldc(op).then_some(Named::Constant(index)),
        Entry::Long(_) | Entry::Double(_) => (op == LDC2_W).then_some(Named::Constant(index)),
        Entry::Class(_) if is_ldc(op) => Some(Named::Constant(index)),
        Entry::Class(_) => is_class_use(op).then_some(Named::Class(index)),
        Entry::Field(class, member) => {
            is_field_access(op).then_some(Named::Field(*class, *member))
        }
        Entry::Method(class, member) => takes_method(op).then_some(Named::Method(*class, *member)),
        Entry::InterfaceMethod(class, member) => takes_interface_method(major, op).then_some(
            Named::InterfaceMethod(*class, *member),
        ),
        Entry::Utf8(_) | Entry::NameAndType(_, _) | Entry::Dynamic(_, _) | Entry::Second => None,
    }
}

/// What an instruction of a class names.
pub fn named_in(class: &ClassFile, instr: &Instr) -> Option<Named>
    requires { length class.now.pool < 2 ^ 16 }
    ensures { onto result (seen_in class.now.pool) ≡ named_in class.now instr.now }
{
    let index = u16::try_from(instr.first.unsigned_abs()).ok()?;
    let entry = entry_at(&class.pool, index)?;
    named_by(&class.pool, class.major, instr.op, index, entry)
}
