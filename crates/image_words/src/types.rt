//! The records of types (JVM Specification SE 8, 4.10.1.2 and 6.5.checkcast).
ghost use Rattle.std.specs.Prelude.{◌≡◌, ◌++◌, ◌*◌, ◌<◌, ◌≤◌, ◌==◌, ◌||◌, ℕ, List, length, map, min, drop, take, Some, IfOk, OnOk, slice_get};
ghost use Rattle.std.specs.Option.{option_map};
ghost use Rattle.class_pool.specs.declared.class.ClassFile.{ClassFile};
ghost use Rattle.bytecode_model.specs.Effects.{component_of};
ghost use Rattle.bytecode_model.specs.Program.{is_of, object_class, serializable_class, cloneable_class};
ghost use Rattle.bytecode_model.specs.Types.{Kind};
ghost use Rattle.image_facts.specs.Says.{counted_type, instance_words};
ghost use Rattle.program_tables.specs.Kinds.{arrays_of};
ghost use Rattle.program_tables.specs.Numbers.{types_of};
ghost use Rattle.program_tables.specs.Resolved.{resolved};
ghost use Rattle.program_tables.specs.Resolving.{IsResolved};
ghost use Rattle.program_tables.specs.Tables.{base_kind, kind_seen};
ghost use Rattle.image_words.specs.Layout.{table_of, interface_table_of, outline_of};
ghost use Rattle.image_words.specs.Outline.{IsOutline};
ghost use Rattle.image_words.specs.Regions.{number_of_bits, supertype_words, type_image, types_region};

use crate::item_sizes::class_words;
use crate::members::is_interface;
use crate::outline::Outline;
use base::NoMemory;
use class_hierarchy::Hierarchy;
use image_builder::add;
use program_tables::{Base, ObjectKind, Types};

/// The classes that arrays are.
const OBJECT: u32 = 0;

const SERIALIZABLE: u32 = 1;

const CLONEABLE: u32 = 2;

/// Whether the first class is the second or has it above; each class is an Object, and what is no class is itself alone.
fn extends(classes: &Hierarchy, class: u32, above: u32) -> bool
    requires { IsResolved classes.now }
    ensures { result ≡ (resolved classes.now).extends class above }
{
    if above == OBJECT {
        return true;
    }
    if class < classes.classes().class_count() {
        classes.extends(class, above)
    } else {
        class == above
    }
}

/// Whether arrays are of the class or implement it.
fn is_above_arrays(class: u32) -> bool
    ensures { result ≡ (class == object_class || class == serializable_class || class == cloneable_class) }
{
    class == OBJECT || class == SERIALIZABLE || class == CLONEABLE
}

/// Whether arrays of so many dimensions over a base are of a kind without dimensions.
fn is_of_base(classes: &Hierarchy, dimensions: u16, base: Base, other: Base) -> bool
    requires { IsResolved classes.now }
    ensures { result ≡ is_of (resolved classes.now) (arrays_of dimensions (base_kind base)) (base_kind other) }
{
    match other {
        Base::Class(above) => match base {
            Base::Class(class) if dimensions == 0 => extends(classes, class, above),
            _ => is_above_arrays(above),
        },
        Base::Numbers(code) => match base {
            Base::Numbers(same) if dimensions == 0 => same == code,
            _ => false,
        },
    }
}

/// Whether an object of the first kind is one of the second.
fn is_of(classes: &Hierarchy, kind: ObjectKind, other: ObjectKind) -> bool
    requires { IsResolved classes.now }
    ensures { result ≡ is_of (resolved classes.now) (kind_seen kind) (kind_seen other) }
{
    if kind.dimensions < other.dimensions {
        return false;
    }
    is_of_base(
        classes,
        kind.dimensions - other.dimensions,
        kind.base,
        other.base,
    )
}

/// How many of so many types one word tells of.
fn told_by_word(types: u32) -> u32
    ensures { result ≡ min 32 types }
{
    if types < 32 { types } else { 32 }
}

/// Which of 32 types, from a number on, are the type or its supertypes, the low bit first.
fn supertype_bits(classes: &Hierarchy, types: &Types, kind: ObjectKind, first: u32) -> u32
    requires resolved { IsResolved classes.now }
    requires types { map kind_seen types.now ≡ types_of classes.now }
    requires first { first ≤ length types.now }
    ensures { result ≡ number_of_bits (map (is_of (resolved classes.now) (kind_seen kind)) (take 32 (drop first (types_of classes.now)))) }
{
    let many = told_by_word(types.count() - first);
    let mut word = 0u32;
    for bit in 0..many {
        if is_of(classes, kind, types.at(first + bit)) {
            word += 1 << bit;
        }
    }
    word
}

/// The words that say which types are the type or its supertypes.
fn add_supertypes(
    words: &mut Vec<u32>,
    classes: &Hierarchy,
    types: &Types,
    kind: ObjectKind,
) -> Result<(), NoMemory>
    requires resolved { IsResolved classes.now }
    requires types { map kind_seen types.now ≡ types_of classes.now }
    ensures { OnOk result (words.new.items ≡ words.old.items ++ supertype_words classes.now (kind_seen kind)) }
{
    for word in 0..types.count().div_ceil(32) {
        words.push(supertype_bits(classes, types, kind, 32 * word))?;
    }
    Ok(())
}

/// The type of the components of an array of references.
fn component_of(kind: ObjectKind) -> Option<ObjectKind>
    ensures { option_map kind_seen result ≡ component_of (Some (kind_seen kind)) }
{
    if kind.dimensions == 0 {
        None
    } else {
        Some(ObjectKind {
            dimensions: kind.dimensions - 1,
            base: kind.base,
        })
    }
}

/// The number of a type and one, or 0 for none.
pub fn counted_type(types: &Types, kind: Option<ObjectKind>) -> Result<u32, NoMemory>
    ensures { (cs : List ClassFile) → map kind_seen types.now ≡ types_of cs
        → IfOk result (λ word. word ≡ counted_type (resolved cs) (option_map kind_seen kind)) }
{
    match kind {
        Some(kind) => match types.number(kind) {
            Some(number) => add(number, 1),
            None => Ok(0),
        },
        None => Ok(0),
    }
}

/// The words of an instance; an interface and an array have none.
fn instance_words(classes: &Hierarchy, outline: &Outline, kind: ObjectKind) -> u32
    requires { IsOutline classes.now outline.now }
    ensures { result ≡ instance_words (resolved classes.now) (kind_seen kind) }
{
    match kind.base {
        Base::Class(class) if kind.dimensions == 0 => {
            if is_interface(classes.classes(), class) {
                0
            } else {
                class_words(&outline.instances, class)
            }
        }
        _ => 0,
    }
}

/// The place of the method table: that of a class, or of Object for an array; an interface has none.
fn method_table(classes: &Hierarchy, outline: &Outline, kind: ObjectKind) -> u32
    requires { IsOutline classes.now outline.now }
    ensures { result ≡ table_of classes.now (kind_seen kind) }
{
    match kind.base {
        Base::Class(class) if kind.dimensions == 0 => {
            if is_interface(classes.classes(), class) {
                0
            } else {
                outline.table_place(class)
            }
        }
        _ => outline.table_place(OBJECT),
    }
}

/// The place of the table of interface methods: that of a class, or that of zeros.
fn interface_table(classes: &Hierarchy, outline: &Outline, kind: ObjectKind) -> u32
    requires { IsOutline classes.now outline.now }
    ensures { result ≡ interface_table_of classes.now (kind_seen kind) }
{
    match kind.base {
        Base::Class(class) if kind.dimensions == 0 => {
            if is_interface(classes.classes(), class) {
                outline.zeros_place()
            } else {
                outline.interface_place(class)
            }
        }
        _ => outline.zeros_place(),
    }
}

/// The record of a type.
fn add_type(
    words: &mut Vec<u32>,
    classes: &Hierarchy,
    types: &Types,
    outline: &Outline,
    number: u32,
) -> Result<(), NoMemory>
    requires resolved { IsResolved classes.now }
    requires types { map kind_seen types.now ≡ types_of classes.now }
    requires outline { IsOutline classes.now outline.now }
    requires number { number < length types.now }
    ensures { OnOk result ((k : Kind) → slice_get (types_of classes.now) number ≡ Some k
        → words.new.items ≡ words.old.items ++ type_image classes.now (outline_of classes.now) (number, k)) }
{
    let kind = types.at(number);
    let instance = instance_words(classes, outline, kind);
    let component = counted_type(types, component_of(kind))?;
    let table = method_table(classes, outline, kind);
    let interfaces = interface_table(classes, outline, kind);
    words.extend_from_slice(&[number, instance, component, table, interfaces])?;
    add_supertypes(words, classes, types, kind)?;
    Ok(())
}

/// The types of resolved classes, put behind other words.
pub fn add_types(
    words: &mut Vec<u32>,
    classes: &Hierarchy,
    types: &Types,
    outline: &Outline,
) -> Result<(), NoMemory>
    requires resolved { IsResolved classes.now }
    requires types { map kind_seen types.now ≡ types_of classes.now }
    requires outline { IsOutline classes.now outline.now }
    ensures { OnOk result (words.new.items ≡ words.old.items ++ types_region classes.now (outline_of classes.now)) }
{
    for number in 0..types.count() {
        add_type(words, classes, types, outline, number)?;
    }
    Ok(())
}
