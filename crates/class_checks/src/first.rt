//! The first of what a class file has that isn't supported.
ghost use Rattle.std.specs.Prelude.{◌≡◌, ◌≤◌, ◌<◌, ◌^◌, [], length, IfOk, IfSome};
ghost use Rattle.std.specs.Option.{option_map_or};
ghost use Rattle.std.specs.List.{flat_map, enumerate_from};
ghost use Rattle.base.specs.Sizes.{longest_file};
ghost use Rattle.class_pool.specs.Found.{code_of};
ghost use Rattle.class_rules.specs.Grammar.{IsClass};
ghost use Rattle.program_tables.specs.Instructions.{placed_at, instructions_in};
ghost use Rattle.program_tables.specs.Tables.{HasFileLimits};
ghost use Rattle.program_tables.specs.Unsupported.{unsupported_in};
ghost use Rattle.lists.specs.Lists.{first};
ghost use Rattle.class_checks.specs.Descriptors.{AreItems};
ghost use Rattle.class_checks.specs.Causes.{unsupported_at_field, unsupported_at, unsupported_in_method};

use crate::found::{item_at_field, item_at_instruction, item_at_method};
use crate::instructions::may_have_items;
use crate::tables::DescriptorItems;
use base::NoMemory;
use class_pool::{ClassFile, Member};
use class_rules::laws::methods_have_code;
use opcodes::laws::starts_follow_one_another;
use opcodes::{decode, starts};
use program_tables::{Item, Site, opcode_at};
use std::alloc::Global;

/// The first at a place of a code.
#[tactic(auto, using(crate::proofs::FirstLemmas::of_sited, crate::proofs::OpcodeLemmas::nothing_at), unfolding(crate::specs::Causes::unsupported_at, crate::specs::Causes::instruction_items))]
fn first_at_place(
    class: &ClassFile,
    descriptors: &DescriptorItems,
    method: u32,
    code: &[u8],
    pc: u32,
) -> Option<(Site, Item)>
    requires pool { length class.now.pool < 2 ^ 16 }
    requires descriptors { AreItems class.now.pool descriptors.now }
    requires inside { pc < length code.now }
    requires small { length code.now ≤ longest_file }
    ensures { result ≡ first (option_map_or (unsupported_at class.now method) (placed_at code.now pc) []) }
{
    if !may_have_items(opcode_at(code, pc)) {
        return None;
    }
    match decode(code, pc) {
        Ok(instr) => match item_at_instruction(class, descriptors, &instr) {
            Some(item) => Some((Site::Code(method, pc), item)),
            None => None,
        },
        Err(_) => None,
    }
}

/// The first in a code.
fn first_in_code(
    alloc: Global,
    class: &ClassFile,
    descriptors: &DescriptorItems,
    method: u32,
    code: &[u8],
) -> Result<Option<(Site, Item)>, NoMemory>
    requires pool { length class.now.pool < 2 ^ 16 }
    requires descriptors { AreItems class.now.pool descriptors.now }
    requires small { length code.now ≤ longest_file }
    ensures { IfOk result (λ found. found ≡ first (flat_map (unsupported_at class.now method) (instructions_in code.now))) }
{
    starts_follow_one_another();
    let starts = starts(alloc, code)?;
    for pc in &starts {
        if let Some(found) = first_at_place(class, descriptors, method, code, *pc) {
            return Ok(Some(found));
        }
    }
    Ok(None)
}

/// The first in a method.
fn first_in_method(
    alloc: Global,
    class: &ClassFile,
    descriptors: &DescriptorItems,
    number: u32,
    method: &Member,
) -> Result<Option<(Site, Item)>, NoMemory>
    requires pool { length class.now.pool < 2 ^ 16 }
    requires descriptors { AreItems class.now.pool descriptors.now }
    requires small { IfSome (code_of method.now) (λ k. length k.code ≤ longest_file) }
    ensures { IfOk result (λ found. found ≡ first (unsupported_in_method class.now (number, method.now))) }
{
    if let Some(item) = item_at_method(class, descriptors, method) {
        return Ok(Some((Site::Method(number), item)));
    }
    match method.code() {
        Some(code) => first_in_code(alloc, class, descriptors, number, code.code.as_slice()),
        None => Ok(None),
    }
}

/// The first in the methods.
fn first_in_methods(
    alloc: Global,
    class: &ClassFile,
    descriptors: &DescriptorItems,
) -> Result<Option<(Site, Item)>, NoMemory>
    requires bounds { HasFileLimits class.now }
    requires descriptors { AreItems class.now.pool descriptors.now }
    requires few { length class.now.methods < 2 ^ 16 }
    ensures { IfOk result (λ found. found ≡ first (flat_map (unsupported_in_method class.now) (enumerate_from 0 class.now.methods))) }
{
    let mut number = 0u32;
    for method in class.methods.as_slice() {
        if let Some(found) = first_in_method(alloc, class, descriptors, number, method)? {
            return Ok(Some(found));
        }
        number += 1;
    }
    Ok(None)
}

/// The first at a field.
#[tactic(auto, using(crate::proofs::FirstLemmas::of_sited), unfolding(crate::specs::Causes::unsupported_at_field))]
fn first_at_field(
    class: &ClassFile,
    descriptors: &DescriptorItems,
    number: u32,
    field: &Member,
) -> Option<(Site, Item)>
    requires { AreItems class.now.pool descriptors.now }
    ensures { result ≡ first (unsupported_at_field class.now (number, field.now)) }
{
    match item_at_field(class, descriptors, field) {
        Some(item) => Some((Site::Field(number), item)),
        None => None,
    }
}

/// The first in the fields.
fn first_in_fields(class: &ClassFile, descriptors: &DescriptorItems) -> Option<(Site, Item)>
    requires few { length class.now.fields < 2 ^ 16 }
    requires descriptors { AreItems class.now.pool descriptors.now }
    ensures { result ≡ first (flat_map (unsupported_at_field class.now) (enumerate_from 0 class.now.fields)) }
{
    let mut number = 0u32;
    for field in class.fields.as_slice() {
        if let Some(found) = first_at_field(class, descriptors, number, field) {
            return Some(found);
        }
        number += 1;
    }
    None
}

/// The first of what the class file has that this machine doesn't support, and where it stands: in its fields, then in its
/// methods; of a method what stands at it, then its instructions by place. The time is linear in the bytes of the file.
pub fn first_unsupported(alloc: Global, class: &ClassFile) -> Result<Option<(Site, Item)>, NoMemory>
    requires { IsClass class.now }
    ensures { IfOk result (λ found. found ≡ first (unsupported_in class.now)) }
{
    methods_have_code();
    let descriptors = DescriptorItems::new(alloc, &class.pool)?;
    if let Some(found) = first_in_fields(class, &descriptors) {
        return Ok(Some(found));
    }
    first_in_methods(alloc, class, &descriptors)
}
