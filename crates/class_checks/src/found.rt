//! What isn't supported at a field, a method or an instruction.
ghost use Rattle.std.specs.Prelude.{◌≡◌, ◌<◌, ◌^◌, [], ◌∷◌, ◌++◌, length, option_map, IfOk};
ghost use Rattle.std.specs.Option.{option_map_or};
ghost use Rattle.std.specs.List.{list_any};
ghost use Rattle.bytecode_model.specs.Lists.{onto};
ghost use Rattle.program_tables.specs.declared.refusal.Item.TheVariants.{DescriptorFloat, DescriptorDouble};
ghost use Rattle.program_tables.specs.Tables.{seen_in};
ghost use Rattle.program_tables.specs.Unsupported.{is_float, is_double, types_in_field, types_in_method, types_of_method, items_where, items_of_types};
ghost use Rattle.program_tables.specs.Unsupported.{items_of_constant, items_of_named, items_of_newarray, items_at_field, has_interface_code};
ghost use Rattle.program_tables.specs.Core.{is_io};
ghost use Rattle.lists.specs.Lists.{first};
ghost use Rattle.class_checks.specs.Descriptors.{AreItems};
ghost use Rattle.class_checks.specs.Causes.{instruction_items, method_items};

use crate::instructions::is_refused_opcode;
use crate::parts::{descriptor_in, entry_at};
use crate::tables::DescriptorItems;
use base::{FormatFault, NoMemory};
use class_lookup::parts::{has_flags, name_of, text_at};
use class_pool::{ClassFile, Entry, Member, Pool};
use class_rules::flags::{ACC_INTERFACE, ACC_NATIVE, ACC_STATIC};
use descriptors::names::is_class_initializer;
use descriptors::{Element, FieldType, MethodType, field_type, method_type};
use opcodes::Instr;
use program_tables::{Item, Named, named_in};
use std::alloc::Global;

fn is_float(element: &Element) -> bool
    ensures { result ≡ is_float element.now }
{
    match element {
        Element::Float => true,
        _ => false,
    }
}

fn is_double(element: &Element) -> bool
    ensures { result ≡ is_double element.now }
{
    match element {
        Element::Double => true,
        _ => false,
    }
}

/// Whether float is among the types.
fn has_float(types: &[FieldType]) -> bool
    ensures { result ≡ list_any (λ t. is_float t.element) types.now }
{
    types.iter().any(|t| is_float(&t.element))
}

/// Whether double is among the types.
fn has_double(types: &[FieldType]) -> bool
    ensures { result ≡ list_any (λ t. is_double t.element) types.now }
{
    types.iter().any(|t| is_double(&t.element))
}

/// Float comes before double.
fn first_of_types(float: bool, double: bool) -> Option<Item>
    ensures { result ≡ first (items_where float DescriptorFloat ++ items_where double DescriptorDouble) }
{
    if float {
        Some(Item::DescriptorFloat)
    } else if double {
        Some(Item::DescriptorDouble)
    } else {
        None
    }
}

fn item_of_type(of: &FieldType) -> Option<Item>
    ensures { result ≡ first (items_of_types (of.now ∷ [])) }
{
    first_of_types(is_float(&of.element), is_double(&of.element))
}

fn result_is_float(of: &MethodType) -> bool
    ensures { result ≡ list_any (λ t. is_float t.element) (option_map_or (λ t. t ∷ []) of.now.result []) }
{
    match &of.result {
        Some(t) => is_float(&t.element),
        None => false,
    }
}

fn result_is_double(of: &MethodType) -> bool
    ensures { result ≡ list_any (λ t. is_double t.element) (option_map_or (λ t. t ∷ []) of.now.result []) }
{
    match &of.result {
        Some(t) => is_double(&t.element),
        None => false,
    }
}

#[tactic(auto, using(crate::proofs::ItemLemmas::any_of_both))]
fn item_of_types(of: &MethodType) -> Option<Item>
    ensures { result ≡ first (items_of_types (types_of_method of.now)) }
{
    let float = has_float(of.parameters.as_slice()) || result_is_float(of);
    let double = has_double(of.parameters.as_slice()) || result_is_double(of);
    first_of_types(float, double)
}

/// What isn't supported of the type in a field's descriptor.
pub(crate) fn item_of_field(alloc: Global, descriptor: &[u16]) -> Result<Option<Item>, NoMemory>
    ensures { IfOk result (λ item. item ≡ first (items_of_types (types_in_field descriptor.now))) }
{
    match field_type(alloc, descriptor) {
        Ok(of) => Ok(item_of_type(&of)),
        Err(FormatFault::Bad) => Ok(None),
        Err(FormatFault::NoMemory) => Err(NoMemory),
    }
}

/// What isn't supported of the types in a method's descriptor.
pub(crate) fn item_of_method(alloc: Global, descriptor: &[u16]) -> Result<Option<Item>, NoMemory>
    ensures { IfOk result (λ item. item ≡ first (items_of_types (types_in_method descriptor.now))) }
{
    match method_type(alloc, descriptor) {
        Ok(of) => Ok(item_of_types(&of)),
        Err(FormatFault::Bad) => Ok(None),
        Err(FormatFault::NoMemory) => Err(NoMemory),
    }
}

/// What isn't supported of a constant that is loaded.
fn item_of_constant(entry: &Entry) -> Option<Item>
    ensures { result ≡ first (items_of_constant entry.now) }
{
    match entry {
        Entry::Float(_) => Some(Item::LdcFloat),
        Entry::Class(_) => Some(Item::LdcClass),
        Entry::Handle(_, _) | Entry::MethodType(_) => Some(Item::LdcMethod),
        Entry::Double(_) => Some(Item::LdcDouble),
        _ => None,
    }
}

/// What isn't supported of what an instruction names.
fn item_of_named(pool: &Pool, descriptors: &DescriptorItems, named: Option<Named>) -> Option<Item>
    requires { AreItems pool.now descriptors.now }
    ensures { result ≡ first (items_of_named (onto named (seen_in pool.now))) }
{
    match named {
        None | Some(Named::Class(_)) => None,
        Some(Named::Constant(index)) => match entry_at(pool, index) {
            Some(entry) => item_of_constant(entry),
            None => None,
        },
        Some(Named::Field(_, member)) => match descriptor_in(pool, member) {
            Some(descriptor) => descriptors.of_field(pool, descriptor),
            None => None,
        },
        Some(Named::Method(_, member)) | Some(Named::InterfaceMethod(_, member)) => {
            match descriptor_in(pool, member) {
                Some(descriptor) => descriptors.of_method(pool, descriptor),
                None => None,
            }
        }
    }
}

/// What isn't supported of an array of numbers that is made.
fn item_of_newarray(instr: &Instr) -> Option<Item>
    ensures { result ≡ first (items_of_newarray instr.now) }
{
    if instr.op != 188 {
        return None;
    }
    match instr.first.unsigned_abs() {
        6 => Some(Item::NewarrayFloat),
        7 => Some(Item::NewarrayDouble),
        _ => None,
    }
}

/// Whether the class is the one that reads and writes bytes.
fn is_io(class: &ClassFile) -> bool
    ensures { result ≡ is_io class.now }
{
    base::is_text(name_of(class), b"jop/Io")
}

/// The first of what isn't supported at an instruction.
#[tactic(auto, unfolding(crate::specs::Causes::instruction_items, crate::specs::Causes::refused_opcode))]
pub(crate) fn item_at_instruction(
    class: &ClassFile,
    descriptors: &DescriptorItems,
    instr: &Instr,
) -> Option<Item>
    requires pool { length class.now.pool < 2 ^ 16 }
    requires descriptors { AreItems class.now.pool descriptors.now }
    ensures { result ≡ first (instruction_items class.now instr.now) }
{
    if is_refused_opcode(is_io(class), instr.op) {
        return Some(Item::Opcode(instr.op));
    }
    match item_of_newarray(instr) {
        Some(item) => Some(item),
        None => item_of_named(&class.pool, descriptors, named_in(class, instr)),
    }
}

/// The first of what isn't supported at a field.
pub(crate) fn item_at_field(
    class: &ClassFile,
    descriptors: &DescriptorItems,
    field: &Member,
) -> Option<Item>
    requires { AreItems class.now.pool descriptors.now }
    ensures { result ≡ first (items_at_field class.now field.now) }
{
    descriptors.of_field(&class.pool, field.descriptor)
}

/// Whether the method is one of an interface, and has code, and isn't the interface's initialization method.
fn has_interface_code(class: &ClassFile, method: &Member) -> bool
    ensures { result ≡ has_interface_code class.now method.now }
{
    has_flags(class.flags, ACC_INTERFACE)
        && method.code().is_some()
        && !(is_class_initializer(text_at(&class.pool, method.name))
            && has_flags(method.flags, ACC_STATIC))
}

/// The first of what isn't supported at a method, without its instructions.
#[tactic(auto, unfolding(crate::specs::Causes::method_items))]
pub(crate) fn item_at_method(
    class: &ClassFile,
    descriptors: &DescriptorItems,
    method: &Member,
) -> Option<Item>
    requires { AreItems class.now.pool descriptors.now }
    ensures { result ≡ first (method_items class.now method.now) }
{
    if let Some(item) = descriptors.of_method(&class.pool, method.descriptor) {
        return Some(item);
    }
    if has_flags(method.flags, ACC_NATIVE) {
        return Some(Item::Native);
    }
    if has_interface_code(class, method) {
        return Some(Item::InterfaceCode);
    }
    None
}
