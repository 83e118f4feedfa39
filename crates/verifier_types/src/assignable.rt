//! Which type may stand for which (JVM Specification SE 8, 4.10.1.2 and 4.10.1.4).
ghost use Rattle.std.specs.Prelude.{◌≡◌, ◌||◌, ◌==◌};
ghost use Rattle.bytecode_model.specs.Program.{object_class, serializable_class, cloneable_class};
ghost use Rattle.class_lookup.specs.Hierarchy as hierarchy;
ghost use Rattle.class_lookup.specs.Hierarchy.{is_interface};
ghost use Rattle.program_tables.specs.Resolved.{resolved};
ghost use Rattle.program_tables.specs.Tables.{base_kind, kind_seen};
ghost use Rattle.bytecode_typing.specs.Tests.{all_two};
ghost use Rattle.bytecode_typing.specs.Assignable as typing;
ghost use Rattle.verifier_types.specs.Seen.{type_seen, types_seen};

use crate::types::VarType;
use class_hierarchy::Hierarchy;
use program_tables::{Base, ObjectKind};

/// Object, Serializable and Cloneable, as each of which an array may stand, have the first numbers.
const OBJECT: u32 = 0;

const SERIALIZABLE: u32 = 1;

const CLONEABLE: u32 = 2;

/// Whether the class is an interface.
pub fn is_interface(classes: &Hierarchy, class: u32) -> bool
    ensures { result ≡ is_interface classes.now class }
{
    class < classes.classes().class_count() && classes.classes().is_interface(class)
}

/// Whether the first class is the second, or has it as a superclass or a superinterface. What is no class is only itself, if there are
/// classes at all.
#[tactic(auto, using(crate::proofs::KindLemmas::beyond, crate::proofs::KindLemmas::among_none))]
fn has_above(classes: &Hierarchy, class: u32, other: u32) -> bool
    ensures { result ≡ hierarchy.extends classes.now class other }
{
    let count = classes.classes().class_count();
    if class < count {
        classes.extends(class, other)
    } else {
        count != 0 && class == other
    }
}

/// Whether the second class is the first, Object, or a superclass or a superinterface of the first.
pub fn extends(classes: &Hierarchy, class: u32, other: u32) -> bool
    ensures { result ≡ (resolved classes.now).extends class other }
{
    other == OBJECT || has_above(classes, class, other)
}

/// Whether an array may stand for an object of the class.
fn is_above_arrays(class: u32) -> bool
    ensures { result ≡ (class == object_class || class == serializable_class || class == cloneable_class) }
{
    class == OBJECT || class == SERIALIZABLE || class == CLONEABLE
}

/// Whether a class, or an array of numbers, may stand for another.
fn is_assignable_base(classes: &Hierarchy, from: Base, to: Base) -> bool
    ensures { result ≡ typing.is_assignable_kind (resolved classes.now) (base_kind from) (base_kind to) }
{
    match (from, to) {
        (Base::Class(class), Base::Class(other)) => {
            is_interface(classes, other) || extends(classes, class, other)
        }
        (Base::Numbers(code), Base::Numbers(other)) => code == other,
        (Base::Numbers(_), Base::Class(other)) => is_above_arrays(other),
        (Base::Class(_), Base::Numbers(_)) => false,
    }
}

/// Whether an object of the first kind may stand for one of the second: each class may for an interface.
#[tactic(auto, using(crate::proofs::KindLemmas::of_same, crate::proofs::KindLemmas::of_fewer, crate::proofs::KindLemmas::of_more_numbers, crate::proofs::KindLemmas::of_more_class))]
pub fn is_assignable_kind(classes: &Hierarchy, from: ObjectKind, to: ObjectKind) -> bool
    ensures { result ≡ typing.is_assignable_kind (resolved classes.now) (kind_seen from) (kind_seen to) }
{
    if from.dimensions == to.dimensions {
        return is_assignable_base(classes, from.base, to.base);
    }
    if from.dimensions < to.dimensions {
        return false;
    }
    match to.base {
        Base::Class(other) => is_above_arrays(other),
        Base::Numbers(_) => false,
    }
}

/// Whether a local variable of the first type may stand for one of the second.
pub fn is_assignable(classes: &Hierarchy, from: VarType, to: VarType) -> bool
    ensures { result ≡ typing.is_assignable (resolved classes.now) (type_seen from) (type_seen to) }
{
    match (from, to) {
        (_, VarType::Top) => true,
        (VarType::Integer, VarType::Integer) => true,
        (VarType::LongInteger, VarType::LongInteger) => true,
        (VarType::Null, VarType::Null) => true,
        (VarType::Null, VarType::Reference(_)) => true,
        (VarType::Reference(kind), VarType::Reference(other)) => {
            is_assignable_kind(classes, kind, other)
        }
        (VarType::UninitializedThis, VarType::UninitializedThis) => true,
        (VarType::Uninitialized(place), VarType::Uninitialized(other)) => place == other,
        _ => false,
    }
}

/// Whether an item of the operand stack of the first type may stand for one of the second, which takes as many words.
pub fn is_assignable_item(classes: &Hierarchy, from: VarType, to: VarType) -> bool
    ensures { result ≡ typing.is_assignable_item (resolved classes.now) (type_seen from) (type_seen to) }
{
    is_assignable(classes, from, to) && from.is_long() == to.is_long()
}

/// Whether items of the operand stack of the first types may stand for as many of the second.
pub(crate) fn are_assignable_items(classes: &Hierarchy, from: &[VarType], to: &[VarType]) -> bool
    ensures { result ≡ all_two (typing.is_assignable_item (resolved classes.now)) (types_seen from.now) (types_seen to.now) }
{
    if from.len() != to.len() {
        return false;
    }
    for i in 0..from.len() {
        if !is_assignable_item(classes, from[i], to[i]) {
            return false;
        }
    }
    true
}
