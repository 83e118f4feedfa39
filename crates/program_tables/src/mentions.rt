//! The array types and the strings that classes mention, in the order of first mention.
ghost use Rattle.std.specs.Prelude.{◌≡◌, ℕ, ◌≤◌, ◌<◌, ◌^◌, List, [], ◌∷◌, length, map, Some, slice_get, IfOk, OnOk};
ghost use Rattle.std.specs.List.{flat_map, AllByRecursion};
ghost use Rattle.base.specs.Sizes.{longest_file};
ghost use Rattle.bytecode_model.specs.Types.{Kind, OfReferences, same_kind};
ghost use Rattle.class_pool.specs.declared.class.ClassFile.{ClassFile};
ghost use Rattle.class_pool.specs.Grammar.{entry_at};
ghost use Rattle.class_lookup.specs.Parts.{same_text};
ghost use Rattle.program_tables.specs.Lists.{with_item, with_items};
ghost use Rattle.program_tables.specs.Instructions.{instructions_in, instructions_of, named_in};
ghost use Rattle.program_tables.specs.Kinds.{kind_of_entry};
ghost use Rattle.program_tables.specs.Marks.{AreAdded, AreArrays, AreLiterals, AreMentions};
ghost use Rattle.program_tables.specs.Numbers.{reference_arrays, used_by, class_kind, arrays_mentioned_by, arrays_mentioned_in, first_types, types_of};
ghost use Rattle.program_tables.specs.Numbers.{strings_of, string_in, constant_named, constant_entry, strings_in};
ghost use Rattle.program_tables.specs.Tables.{kind_seen, kinds_of, HasFileLimits};

use crate::kinds::{Base, ObjectKind};
use crate::named::{Named, entry_at, named_in};
use crate::naming::naming_at;
use crate::strings::Strings;
use crate::texts::TextTypes;
use crate::types::Types;
use base::NoMemory;
use class_lookup::{ClassFile, Classes};
use class_pool::Entry;
use indexmap::IndexSet;
use opcodes::laws::starts_follow_one_another;
use opcodes::{Instr, starts};
use std::alloc::Global;

/// The array type codes of the arrays of numbers (6.5.newarray).
const FIRST_CODE: u8 = 4;

const LAST_CODE: u8 = 11;

/// The types, each once, in order; and which symbols give types whose arrays of references are there.
#[derive(Drop)]
struct Arrays {
    types: IndexSet<ObjectKind>,
    added: Vec<bool>,
}

/// The strings that were mentioned, each once, in order; and the symbols whose texts are there.
#[derive(Drop)]
struct Literals {
    strings: Strings,
    added: Vec<bool>,
}

/// The types and the strings that were mentioned.
#[derive(Drop)]
struct Mentions {
    arrays: Arrays,
    literals: Literals,
}

/// Puts the text of a symbol last, unless it is there.
fn add_literal(
    alloc: Global,
    literals: &mut Literals,
    number: u32,
    units: &[u16],
) -> Result<(), NoMemory>
    requires { number < length literals.now.added.items }
    ensures put { OnOk result ((items : ℕ → List (List ℕ)) → AreAdded same_text items literals.old.strings literals.old.added.items
        → items number ≡ units.now ∷ []
        → (literals.new.strings ≡ with_item same_text literals.old.strings units.now)
        × AreAdded same_text items literals.new.strings literals.new.added.items) }
    ensures long { OnOk result (length literals.new.added.items ≡ length literals.old.added.items) }
{
    if literals.added[number as usize] {
        return Ok(());
    }
    literals.strings.insert(alloc, units)?;
    literals.added[number as usize] = true;
    Ok(())
}

/// Puts the string of a String entry of a class last, unless it is there.
fn add_constant(
    alloc: Global,
    literals: &mut Literals,
    classes: &Classes,
    number: u32,
    class: &ClassFile,
    index: u16,
) -> Result<(), NoMemory>
    requires number { number < length classes.now }
    requires class { slice_get classes.now number ≡ Some class.now }
    requires added { AreLiterals classes.now literals.now }
    ensures strings { OnOk result (literals.new.strings ≡ with_items same_text literals.old.strings
        (string_in class.now.pool (entry_at class.now.pool index))) }
    ensures added { OnOk result (AreLiterals classes.now literals.new) }
{
    match entry_at(&class.pool, index) {
        Some(Entry::Text(units)) => {
            let symbol = classes.symbol(number, *units);
            add_literal(alloc, literals, symbol, classes.text(symbol))?;
            Ok(())
        }
        _ => Ok(()),
    }
}

/// Puts the strings last that are constants of fields, unless they are there.
fn add_fields(
    alloc: Global,
    literals: &mut Literals,
    classes: &Classes,
    number: u32,
    class: &ClassFile,
) -> Result<(), NoMemory>
    requires number { number < length classes.now }
    requires class { slice_get classes.now number ≡ Some class.now }
    requires added { AreLiterals classes.now literals.now }
    ensures strings { OnOk result (literals.new.strings ≡ with_items same_text literals.old.strings
        (flat_map (λ f. string_in class.now.pool (constant_entry class.now f)) class.now.fields)) }
    ensures added { OnOk result (AreLiterals classes.now literals.new) }
{
    for field in class.fields.as_slice() {
        if let Some(index) = field.constant_value() {
            add_constant(alloc, literals, classes, number, class, index)?;
        }
    }
    Ok(())
}

/// Puts the types of arrays of references within a type last, a component before its array, unless they are there.
fn add_arrays(types: &mut IndexSet<ObjectKind>, kind: ObjectKind) -> Result<(), NoMemory>
    ensures { OnOk result (kinds_of types.new ≡ with_items same_kind (kinds_of types.old) (reference_arrays (kind_seen kind))) }
{
    for below in 0..kind.dimensions {
        let array = ObjectKind {
            dimensions: below + 1,
            base: kind.base,
        };
        types.insert(array)?;
    }
    Ok(())
}

/// Puts the array of objects of a type last, unless it is there.
fn add_array_of(types: &mut IndexSet<ObjectKind>, kind: ObjectKind) -> Result<(), NoMemory>
    requires { kind.dimensions < 256 }
    ensures { OnOk result (kinds_of types.new ≡ with_item same_kind (kinds_of types.old) (OfReferences (kind_seen kind))) }
{
    types.insert(ObjectKind {
        dimensions: kind.dimensions + 1,
        base: kind.base,
    })?;
    Ok(())
}

/// Puts the types of arrays of references within the type of a symbol last, unless they are there.
fn add_type(arrays: &mut Arrays, number: u32, kind: ObjectKind) -> Result<(), NoMemory>
    requires { number < length arrays.now.added.items }
    ensures put { OnOk result ((items : ℕ → List Kind) → AreAdded same_kind items (kinds_of arrays.old.types) arrays.old.added.items
        → items number ≡ reference_arrays (kind_seen kind)
        → (kinds_of arrays.new.types ≡ with_items same_kind (kinds_of arrays.old.types) (reference_arrays (kind_seen kind)))
        × AreAdded same_kind items (kinds_of arrays.new.types) arrays.new.added.items) }
    ensures long { OnOk result (length arrays.new.added.items ≡ length arrays.old.added.items) }
{
    if arrays.added[number as usize] {
        return Ok(());
    }
    add_arrays(&mut arrays.types, kind)?;
    arrays.added[number as usize] = true;
    Ok(())
}

/// Puts the array types last that an opcode mentions by a type of a symbol, unless they are there.
fn add_used(arrays: &mut Arrays, number: u32, op: u8, kind: ObjectKind) -> Result<(), NoMemory>
    requires number { number < length arrays.now.added.items }
    requires within { kind.dimensions < 256 }
    ensures put { OnOk result ((items : ℕ → List Kind) → AreAdded same_kind items (kinds_of arrays.old.types) arrays.old.added.items
        → items number ≡ reference_arrays (kind_seen kind)
        → (kinds_of arrays.new.types ≡ with_items same_kind (kinds_of arrays.old.types) (used_by op (Some (kind_seen kind))))
        × AreAdded same_kind items (kinds_of arrays.new.types) arrays.new.added.items) }
    ensures long { OnOk result (length arrays.new.added.items ≡ length arrays.old.added.items) }
{
    match op {
        189 => {
            add_type(arrays, number, kind)?;
            add_array_of(&mut arrays.types, kind)?;
            Ok(())
        }
        192 | 193 => add_type(arrays, number, kind),
        _ => Ok(()),
    }
}

/// Puts the array types of a Class entry of a class last that an opcode mentions, unless they are there.
fn add_class(
    arrays: &mut Arrays,
    texts: &TextTypes<'_>,
    number: u32,
    class: &ClassFile,
    op: u8,
    index: u16,
) -> Result<(), NoMemory>
    requires number { number < length texts.now }
    requires class { slice_get texts.now number ≡ Some class.now }
    requires added { AreArrays texts.now arrays.now }
    ensures types { OnOk result (kinds_of arrays.new.types ≡ with_items same_kind (kinds_of arrays.old.types)
        (used_by op (kind_of_entry texts.now class.now.pool index))) }
    ensures added { OnOk result (AreArrays texts.now arrays.new) }
{
    // The contract alone speaks of it.
    let _ = class;
    let symbol = texts.class_symbol(number, index);
    if let Some(kind) = texts.kind(symbol) {
        add_used(arrays, symbol, op, kind)?;
    }
    Ok(())
}

impl Mentions {
    /// Puts what an instruction mentions last, unless it is there.
    fn add_instruction(
        &mut self,
        alloc: Global,
        texts: &TextTypes<'_>,
        number: u32,
        class: &ClassFile,
        instr: &Instr,
    ) -> Result<(), NoMemory>
        requires pool { length class.now.pool < 2 ^ 16 }
        requires number { number < length texts.now }
        requires class { slice_get texts.now number ≡ Some class.now }
        requires added { AreMentions texts.now self.now }
        ensures types { OnOk result (kinds_of self.new.arrays.types ≡ with_items same_kind (kinds_of self.old.arrays.types)
            (used_by instr.now.op (class_kind texts.now class.now (named_in class.now instr.now)))) }
        ensures strings { OnOk result (self.new.literals.strings ≡ with_items same_text self.old.literals.strings
            (string_in class.now.pool (constant_named (named_in class.now instr.now)))) }
        ensures added { OnOk result (AreMentions texts.now self.new) }
    {
        match named_in(class, instr) {
            Some(Named::Class(index)) => {
                add_class(&mut self.arrays, texts, number, class, instr.op, index)
            }
            Some(Named::Constant(index)) => {
                add_constant(
                    alloc,
                    &mut self.literals,
                    texts.classes(),
                    number,
                    class,
                    index,
                )
            }
            _ => Ok(()),
        }
    }

    /// Puts what the instructions of a code mention last, unless it is there.
    fn add_code(
        &mut self,
        alloc: Global,
        texts: &TextTypes<'_>,
        number: u32,
        class: &ClassFile,
        code: &[u8],
    ) -> Result<(), NoMemory>
        requires pool { length class.now.pool < 2 ^ 16 }
        requires small { length code.now ≤ longest_file }
        requires number { number < length texts.now }
        requires class { slice_get texts.now number ≡ Some class.now }
        requires added { AreMentions texts.now self.now }
        ensures types { OnOk result (kinds_of self.new.arrays.types ≡ with_items same_kind (kinds_of self.old.arrays.types)
            (flat_map (arrays_mentioned_by texts.now class.now) (instructions_in code.now))) }
        ensures strings { OnOk result (self.new.literals.strings ≡ with_items same_text self.old.literals.strings
            (flat_map (λ p. string_in class.now.pool (constant_named (named_in class.now p.instr))) (instructions_in code.now))) }
        ensures added { OnOk result (AreMentions texts.now self.new) }
    {
        starts_follow_one_another();
        let starts = starts(alloc, code)?;
        for pc in &starts {
            if let Some(instr) = naming_at(code, *pc) {
                self.add_instruction(alloc, texts, number, class, &instr)?;
            }
        }
        Ok(())
    }

    /// Puts what the methods of a class mention last, unless it is there.
    fn add_methods(
        &mut self,
        alloc: Global,
        texts: &TextTypes<'_>,
        number: u32,
        class: &ClassFile,
    ) -> Result<(), NoMemory>
        requires bounds { HasFileLimits class.now }
        requires number { number < length texts.now }
        requires class { slice_get texts.now number ≡ Some class.now }
        requires added { AreMentions texts.now self.now }
        ensures types { OnOk result (kinds_of self.new.arrays.types ≡ with_items same_kind (kinds_of self.old.arrays.types)
            (arrays_mentioned_in texts.now class.now)) }
        ensures strings { OnOk result (self.new.literals.strings ≡ with_items same_text self.old.literals.strings
            (flat_map (λ m. flat_map (λ p. string_in class.now.pool (constant_named (named_in class.now p.instr))) (instructions_of m)) class.now.methods)) }
        ensures added { OnOk result (AreMentions texts.now self.new) }
    {
        for method in class.methods.as_slice() {
            if let Some(code) = method.code() {
                self.add_code(alloc, texts, number, class, code.code.as_slice())?;
            }
        }
        Ok(())
    }

    /// Puts what a class mentions last, unless it is there.
    fn add_class_file(
        &mut self,
        alloc: Global,
        texts: &TextTypes<'_>,
        number: u32,
        class: &ClassFile,
    ) -> Result<(), NoMemory>
        requires bounds { HasFileLimits class.now }
        requires number { number < length texts.now }
        requires class { slice_get texts.now number ≡ Some class.now }
        requires added { AreMentions texts.now self.now }
        ensures types { OnOk result (kinds_of self.new.arrays.types ≡ with_items same_kind (kinds_of self.old.arrays.types)
            (arrays_mentioned_in texts.now class.now)) }
        ensures strings { OnOk result (self.new.literals.strings ≡ with_items same_text self.old.literals.strings (strings_in class.now)) }
        ensures added { OnOk result (AreMentions texts.now self.new) }
    {
        add_fields(alloc, &mut self.literals, texts.classes(), number, class)?;
        self.add_methods(alloc, texts, number, class)?;
        Ok(())
    }
}

/// The types that every program has of so many classes: the arrays of numbers, and the classes.
fn first_types(alloc: Global, class_count: u32) -> Result<IndexSet<ObjectKind>, NoMemory>
    ensures { IfOk result (λ kinds. kinds_of kinds ≡ first_types class_count) }
{
    let mut kinds = IndexSet::new(alloc);
    for code in FIRST_CODE..LAST_CODE + 1 {
        kinds.insert(ObjectKind {
            dimensions: 0,
            base: Base::Numbers(code),
        })?;
    }
    for class in 0..class_count {
        kinds.insert(ObjectKind {
            dimensions: 0,
            base: Base::Class(class),
        })?;
    }
    Ok(kinds)
}

/// Nothing but the types that every program has of these classes.
fn no_mentions(alloc: Global, classes: &Classes) -> Result<Mentions, NoMemory>
    ensures types { IfOk result (λ m. kinds_of m.arrays.types ≡ first_types (length classes.now)) }
    ensures strings { IfOk result (λ m. m.literals.strings ≡ []) }
    ensures added { IfOk result (AreMentions classes.now) }
{
    let symbols = classes.symbol_count() as usize;
    Ok(Mentions {
        arrays: Arrays {
            types: first_types(alloc, classes.class_count())?,
            added: vec![in alloc; false; symbols]?,
        },
        literals: Literals {
            strings: Strings::new(alloc),
            added: vec![in alloc; false; symbols]?,
        },
    })
}

/// The types and the strings of all classes.
fn mentions_of(alloc: Global, texts: &TextTypes<'_>) -> Result<Mentions, NoMemory>
    requires { AllByRecursion HasFileLimits texts.now }
    ensures types { IfOk result (λ m. kinds_of m.arrays.types ≡ types_of texts.now) }
    ensures strings { IfOk result (λ m. m.literals.strings ≡ strings_of texts.now) }
{
    let classes = texts.classes();
    let mut mentions = no_mentions(alloc, classes)?;
    for number in 0..classes.class_count() {
        mentions.add_class_file(alloc, texts, number, classes.class(number))?;
    }
    Ok(mentions)
}

/// The types and the strings of classes, by number.
#[derive(Drop)]
pub struct Mentioned {
    pub types: Types,
    pub strings: Strings,
}

/// The types and the string literals of these classes, by number.
pub fn mentioned_by(alloc: Global, texts: &TextTypes<'_>) -> Result<Mentioned, NoMemory>
    requires { AllByRecursion HasFileLimits texts.now }
    ensures types { IfOk result (λ m. map kind_seen m.types ≡ types_of texts.now) }
    ensures strings { IfOk result (λ m. m.strings ≡ strings_of texts.now) }
{
    let Mentions { arrays, literals } = mentions_of(alloc, texts)?;
    let types = Types::new(arrays.types)?;
    Ok(Mentioned {
        types,
        strings: literals.strings,
    })
}
