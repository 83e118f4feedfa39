//! The two words of each entry of a class's pool (JVM Specification SE 8, 4.4).
ghost use Rattle.std.specs.Prelude.{◌≡◌, ◌++◌, ◌<◌, ◌+◌, ◌*◌, ◌^◌, ℕ, length, map, is_some, Some, IfOk, IsTrue, OnOk, option_map, unwrap_or, slice_get};
ghost use Rattle.std.specs.Option.{option_map_or};
ghost use Rattle.std.specs.List.{range_with_len};
ghost use Rattle.class_pool.specs.declared.class.ClassFile.{ClassFile};
ghost use Rattle.class_pool.specs.Grammar.{entry_at, text_at};
ghost use Rattle.class_lookup.specs.Lookup.{method_at};
ghost use Rattle.image_facts.specs.Says.{bit_of, argument_words_of};
ghost use Rattle.image_facts.specs.Words.{is_long_type};
ghost use Rattle.lists.specs.Lists.{onto};
ghost use Rattle.program_tables.specs.Instructions.{signature_in};
ghost use Rattle.program_tables.specs.Operands.{class_named, field_named, method_named};
ghost use Rattle.program_tables.specs.Resolved.{declared_at, resolved_method};
ghost use Rattle.program_tables.specs.Tables.{kind_seen};
ghost use Rattle.image_words.specs.Layout.{outline_of};
ghost use Rattle.image_words.specs.Pools.{no_words, string_words, class_words, static_word, instance_word, field_words, method_word, interface_word};
ghost use Rattle.image_words.specs.Pools.{taken_place, words_of_entry, entry_words, pool_image, instructions_in};
ghost use Rattle.image_words.specs.Regions.{pools_region};
ghost use Rattle.image_words.specs.Slots.{slot_of};
ghost use Rattle.image_words.specs.Outline.{IsOutline};
ghost use Rattle.image_layout.specs.Uses.{instr_of, use_of};

use crate::methods::argument_words;
use crate::statics::long_words;
use crate::uses::{Use, uses_of};
use base::NoMemory;
use class_lookup::Place;
use class_pool::Entry;
use image_builder::{add, count, times};
use image_words::{Outline, index_of_place};
use program_tables::laws::{members_are_there, methods_stand_by_number};
use program_tables::{Declared, ObjectKind, is_static_field};
use resolved_program::Program;
use std::alloc::Global;

/// The words of the arguments stand above a number of 24 bits.
const ARGUMENTS: u32 = 1 << 24;

/// The words of a String entry: the place of its object.
fn string_words(program: &Program, outline: &Outline, class: u32, index: u16) -> [u32; 2]
    requires outline { IsOutline program.now outline.now }
    requires class { class < length program.now }
    ensures { (k : ClassFile) (units : ℕ) → slice_get program.now class ≡ Some k → entry_at k.pool index ≡ Some (Entry.Text units)
        → result ≡ string_words program.now (outline_of program.now) (text_at k.pool units) }
{
    match program.string_object(class, index) {
        Some(object) => [outline.object_place(object), 0],
        None => [0, 0],
    }
}

/// The words of a Class entry: the places of the type and of that of its arrays.
fn class_words(
    program: &Program,
    outline: &Outline,
    kind: Option<ObjectKind>,
) -> Result<[u32; 2], NoMemory>
    requires { IsOutline program.now outline.now }
    ensures { IfOk result (λ words. words ≡ class_words program.now (outline_of program.now) (option_map kind_seen kind)) }
{
    let Some(of) = kind else {
        return Ok([0, 0]);
    };
    // No type of a class file has so many dimensions (4.4.1).
    if of.dimensions == u16::MAX {
        return Err(NoMemory);
    }
    let array = ObjectKind {
        dimensions: of.dimensions + 1,
        base: of.base,
    };
    let place = outline.kind_place(program.kinds(), kind)?;
    let array = outline.kind_place(program.kinds(), Some(array))?;
    Ok([place, array])
}

/// The word of an instance field in the objects of the class that declares it.
fn instance_word(program: &Program, outline: &Outline, field: Place) -> u32
    requires { IsOutline program.now outline.now }
    ensures { result ≡ instance_word program.now field }
{
    match program.instance_index(field) {
        Some(index) => outline.field_place(field.class, index),
        None => 0,
    }
}

/// The place of a static field; 0 for any other.
pub(crate) fn static_word(program: &Program, outline: &Outline, field: Place) -> u32
    requires { IsOutline program.now outline.now }
    ensures { result ≡ static_word program.now (outline_of program.now) field }
{
    match program.static_index(field) {
        Some(index) => outline.static_place(index),
        None => 0,
    }
}

/// 1 for a field of type long.
fn long_bit(program: &Program, field: Place) -> u32
    ensures { result ≡ option_map_or (λ d. bit_of (is_long_type d)) (declared_at program.now field) 0 }
{
    match program.field_type(field) {
        Some(Declared::Long) => 1,
        _ => 0,
    }
}

/// The words of a field.
fn field_words(program: &Program, outline: &Outline, field: Place) -> [u32; 2]
    requires { IsOutline program.now outline.now }
    ensures { result ≡ field_words program.now (outline_of program.now) field }
{
    let is_long = long_bit(program, field);
    if is_static_field(program.hierarchy().classes(), field) {
        [static_word(program, outline, field), is_long]
    } else {
        [instance_word(program, outline, field), is_long]
    }
}

/// The words of the arguments of a method above a number.
fn call_word(program: &Program, method: Place, number: usize) -> Result<u32, NoMemory>
    requires { IsTrue (is_some (method_at program.now method)) }
    ensures { IfOk result (λ word. word ≡ option_map_or argument_words_of (resolved_method program.now method) 0 * 2 ^ 24 + number) }
{
    methods_stand_by_number();
    members_are_there();
    let of = program.method_number(method).unwrap();
    let arguments = times(argument_words(program, of)?, ARGUMENTS)?;
    let word = add(arguments, count(number)?)?;
    Ok(word)
}

/// The slot of a method that is named through a class, or 0.
fn slot_number(program: &Program, outline: &Outline, named: u32, method: Place) -> usize
    requires outline { IsOutline program.now outline.now }
    requires class { named < length program.now }
    ensures { result ≡ unwrap_or (slot_of program.now named method) 0 }
{
    let slot = outline.slots.slot(program.hierarchy(), named, method);
    slot.unwrap_or(0)
}

/// The second word of a method: the words of its arguments, and its slot in the class through which it is named.
fn method_word(
    program: &Program,
    outline: &Outline,
    class: u32,
    owner: u16,
    member: u16,
) -> Result<u32, NoMemory>
    requires outline { IsOutline program.now outline.now }
    requires class { class < length program.now }
    ensures { IfOk result (λ word. (k : ClassFile) → slice_get program.now class ≡ Some k
        → word ≡ method_word program.now (class_named program.now k owner) (onto (signature_in k.pool member) (method_named program.now k owner))) }
{
    match program.method_found(class, owner, member) {
        Some(found) => {
            let slot = slot_number(program, outline, found.0, found.1);
            let word = call_word(program, found.1, slot)?;
            Ok(word)
        }
        None => Ok(0),
    }
}

/// The second word of a method of an interface: the words of its arguments, and its number among those methods.
fn interface_word(
    program: &Program,
    outline: &Outline,
    class: u32,
    owner: u16,
    member: u16,
) -> Result<u32, NoMemory>
    requires outline { IsOutline program.now outline.now }
    requires class { class < length program.now }
    ensures { IfOk result (λ word. (k : ClassFile) → slice_get program.now class ≡ Some k
        → word ≡ interface_word program.now (onto (signature_in k.pool member) (method_named program.now k owner))) }
{
    match program.method_found(class, owner, member) {
        Some(found) => {
            let number = index_of_place(&outline.interface_methods, found.1);
            let word = call_word(program, found.1, number.unwrap_or(0))?;
            Ok(word)
        }
        None => Ok(0),
    }
}

/// The words of the field that an entry names.
fn field_entry(
    program: &Program,
    outline: &Outline,
    class: u32,
    owner: u16,
    member: u16,
) -> [u32; 2]
    requires outline { IsOutline program.now outline.now }
    requires class { class < length program.now }
    ensures { (k : ClassFile) → slice_get program.now class ≡ Some k
        → result ≡ option_map_or (field_words program.now (outline_of program.now)) (onto (signature_in k.pool member)
        (field_named program.now k owner)) no_words }
{
    match program.field_found(class, owner, member) {
        Some(found) => field_words(program, outline, found.1),
        None => [0, 0],
    }
}

/// The words of an entry that an instruction names.
fn words_of_entry(
    program: &Program,
    outline: &Outline,
    number: u32,
    index: u16,
    entry: &Entry,
    taken: u32,
) -> Result<[u32; 2], NoMemory>
    requires outline { IsOutline program.now outline.now }
    requires class { number < length program.now }
    ensures { IfOk result (λ words. (k : ClassFile) → slice_get program.now number ≡ Some k → entry_at k.pool index ≡ Some entry.now
        → taken ≡ taken_place program.now (outline_of program.now) number k index
        → words ≡ words_of_entry program.now (outline_of program.now) number k index (Some entry.now)) }
{
    match entry {
        Entry::Integer(n) => Ok([*n, 0]),
        Entry::Long(n) => Ok(long_words(*n)),
        Entry::Text(_) => Ok(string_words(program, outline, number, index)),
        Entry::Class(_) => class_words(program, outline, program.kind_of_entry(number, index)),
        Entry::Field(owner, member) => Ok(field_entry(program, outline, number, *owner, *member)),
        Entry::Method(owner, member) => {
            let word = method_word(program, outline, number, *owner, *member)?;
            Ok([taken, word])
        }
        Entry::InterfaceMethod(owner, member) => {
            let word = interface_word(program, outline, number, *owner, *member)?;
            Ok([taken, word])
        }
        Entry::Utf8(_)
        | Entry::Float(_)
        | Entry::Double(_)
        | Entry::NameAndType(_, _)
        | Entry::Handle(_, _)
        | Entry::MethodType(_)
        | Entry::Dynamic(_, _)
        | Entry::Second => Ok([0, 0]),
    }
}

/// The words of an entry; both are 0 where no instruction of the class names it.
fn entry_words(
    program: &Program,
    outline: &Outline,
    number: u32,
    index: u16,
    entry: &Entry,
    used: Use,
) -> Result<[u32; 2], NoMemory>
    requires outline { IsOutline program.now outline.now }
    requires class { number < length program.now }
    ensures { IfOk result (λ words. (k : ClassFile) → slice_get program.now number ≡ Some k → entry_at k.pool index ≡ Some entry.now
        → used ≡ use_of program.now number k (map instr_of (instructions_in k)) index
        → words ≡ entry_words program.now (outline_of program.now) number k index) }
{
    if used.named {
        let taken = used.taken.unwrap_or(0);
        let words = words_of_entry(program, outline, number, index, entry, taken)?;
        Ok(words)
    } else {
        Ok([0, 0])
    }
}

/// The words of a class's pool, put behind others, by how instructions use its entries: two for each index, 0 among them.
fn add_entries(
    words: &mut Vec<u32>,
    program: &Program,
    outline: &Outline,
    number: u32,
    uses: &[Use],
) -> Result<(), NoMemory>
    requires outline { IsOutline program.now outline.now }
    requires class { number < length program.now }
    requires uses { (k : ClassFile) → slice_get program.now number ≡ Some k
        → uses.now ≡ map (use_of program.now number k (map instr_of (instructions_in k))) (range_with_len 0 (1 + length k.pool)) }
    ensures { OnOk result ((k : ClassFile) → slice_get program.now number ≡ Some k
        → words.new.items ≡ words.old.items ++ pool_image program.now (outline_of program.now) number k) }
{
    program.is_within_bounds();
    words.extend_from_slice(&[0, 0])?;
    let entries = program.class(number).pool.entries();
    for place in 0..entries.len() {
        let index = (place + 1) as u16;
        let entry = &entries[place];
        let pair = entry_words(program, outline, number, index, entry, uses[place + 1])?;
        words.extend_from_slice(&pair)?;
    }
    Ok(())
}

/// The words of a class's pool, put behind others.
fn add_pool(
    words: &mut Vec<u32>,
    alloc: Global,
    program: &Program,
    outline: &Outline,
    number: u32,
) -> Result<(), NoMemory>
    requires outline { IsOutline program.now outline.now }
    requires class { number < length program.now }
    ensures { OnOk result ((k : ClassFile) → slice_get program.now number ≡ Some k
        → words.new.items ≡ words.old.items ++ pool_image program.now (outline_of program.now) number k) }
{
    let uses = uses_of(alloc, program, outline, number)?;
    add_entries(words, program, outline, number, &uses)
}

/// The pools.
pub(crate) fn add_pools(
    words: &mut Vec<u32>,
    alloc: Global,
    program: &Program,
    outline: &Outline,
) -> Result<(), NoMemory>
    requires { IsOutline program.now outline.now }
    ensures { OnOk result (words.new.items ≡ words.old.items ++ pools_region program.now (outline_of program.now)) }
{
    for class in 0..program.class_count() {
        add_pool(words, alloc, program, outline, class)?;
    }
    Ok(())
}
