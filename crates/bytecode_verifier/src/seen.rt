//! What isn't initialised, as the rules on stack, access and initialisation see it (JVM Specification SE 8, 4.10.1.8 and 4.10.1.9).
ghost use Rattle.std.specs.Prelude.{◌≡◌, true, false};
ghost use Rattle.bytecode_model.specs.Types.{OfClass};
ghost use Rattle.bytecode_typing.specs.Types as typing;
ghost use Rattle.bytecode_typing.specs.Checks as checks;
ghost use Rattle.class_lookup.specs.Hierarchy.{superclass};
ghost use Rattle.program_tables.specs.Meanings.{declared_seen};
ghost use Rattle.program_tables.specs.Tables.{kind_seen};
ghost use Rattle.verifier_types.specs.Seen.{type_seen};
ghost use Rattle.verifier_types.specs.Site.{Site};
ghost use Rattle.bytecode_verifier.specs.Around.{StandsAt};

use crate::around::Around;
use crate::made;
use class_hierarchy::Hierarchy;
use program_tables::{Base, Declared, ObjectKind};
use verifier_types::{VarType, extends, is_assignable, is_assignable_item, is_interface};

/// An instance of the class.
pub fn of_class(class: u32) -> ObjectKind
    ensures { kind_seen result ≡ OfClass class }
{
    ObjectKind {
        dimensions: 0,
        base: Base::Class(class),
    }
}

/// The type as which a declared one is verified.
pub fn type_of(declared: Declared) -> VarType
    ensures { type_seen result ≡ typing.type_of (declared_seen declared) }
{
    match declared {
        Declared::Int => VarType::Integer,
        Declared::Long => VarType::LongInteger,
        Declared::Reference(kind) => VarType::Reference(kind),
    }
}

/// The class that the `new` at a place names.
fn made_at(around: &Around<'_>, place: u32) -> Option<u32>
    ensures { (s : Site) → StandsAt around.now s → result ≡ checks.made_at s.program s.number place }
{
    made::made_at(around.program, around.number, place)
}

/// The class of which an uninitialised type is.
fn class_begun(around: &Around<'_>, item: VarType) -> Option<u32>
    ensures { (s : Site) → StandsAt around.now s → result ≡ checks.class_begun s.program s.number s.method (type_seen item) }
{
    match item {
        VarType::UninitializedThis => Some(around.owner),
        VarType::Uninitialized(place) => made_at(around, place),
        _ => None,
    }
}

/// A type, where what isn't initialised counts as a reference to its class.
pub fn seen(around: &Around<'_>, item: VarType) -> VarType
    ensures seen { (s : Site) → StandsAt around.now s → type_seen result ≡ checks.seen s.program s.number s.method (type_seen item) }
    ensures reference { typing.is_reference_type (type_seen item) ≡ true → typing.is_long_type (type_seen result) ≡ false }
{
    match class_begun(around, item) {
        Some(class) => VarType::Reference(of_class(class)),
        None => item,
    }
}

/// Whether it may stand for an object of the class.
pub fn is_seen_as(around: &Around<'_>, class: u32, item: VarType) -> bool
    ensures { (s : Site) (f : typing.TypeFrame) → StandsAt around.now s
        → result ≡ checks.is_seen_as s.program s.number s.method s.body s.maps s.place f (OfClass class) (type_seen item) }
{
    is_assignable(
        around.classes,
        seen(around, item),
        VarType::Reference(of_class(class)),
    )
}

/// Whether it may be the value of a field, of an argument or of a result of a declared type.
pub fn is_seen_for(around: &Around<'_>, declared: Declared, item: VarType) -> bool
    ensures { (s : Site) (f : typing.TypeFrame) → StandsAt around.now s
        → result ≡ checks.is_seen_for s.program s.number s.method s.body s.maps s.place f (declared_seen declared) (type_seen item) }
{
    is_assignable_item(around.classes, seen(around, item), type_of(declared))
}

/// Whether a member may be used on it, which is guarded or not.
pub fn may_access(around: &Around<'_>, guarded: bool, item: VarType) -> bool
    ensures { (s : Site) (f : typing.TypeFrame) → StandsAt around.now s → s.program.guarded s.number s.place ≡ guarded
        → result ≡ checks.may_access s.program s.number s.method s.body s.maps s.place f (type_seen item) }
{
    if guarded {
        is_seen_as(around, around.owner, item)
    } else {
        true
    }
}

/// Whether a field of this class may be written in it.
pub fn may_be_written(around: &Around<'_>, owner: u32, item: VarType) -> bool
    ensures { (s : Site) (f : typing.TypeFrame) → StandsAt around.now s
        → result ≡ checks.may_be_written s.program s.number s.method s.body s.maps s.place f owner (type_seen item) }
{
    match item {
        VarType::UninitializedThis => owner == around.owner,
        _ => item.is_initialized(),
    }
}

/// Whether it is the first class's superclass.
fn is_superclass(classes: &Hierarchy, of: u32, class: u32) -> bool
    ensures { result ≡ checks.is_class (superclass classes.now of) class }
{
    if of >= classes.classes().class_count() {
        return false;
    }
    match classes.classes().superclass(of) {
        Some(above) => above == class,
        None => false,
    }
}

/// Whether an `<init>` of the class may begin it.
pub fn may_begin(around: &Around<'_>, class: u32, item: VarType) -> bool
    ensures { (s : Site) (f : typing.TypeFrame) → StandsAt around.now s
        → result ≡ checks.may_begin s.program s.number s.method s.body s.maps s.place f class (type_seen item) }
{
    match item {
        VarType::UninitializedThis => {
            class == around.owner || is_superclass(around.classes, around.owner, class)
        }
        VarType::Uninitialized(place) => match made_at(around, place) {
            Some(made) => made == class,
            None => false,
        },
        _ => false,
    }
}

/// Whether it is the current class or a superclass of it.
#[tactic(auto, using(crate::proofs::CallLemmas::own_class))]
pub fn is_own_class(around: &Around<'_>, named: u32) -> bool
    ensures { (s : Site) → StandsAt around.now s → result ≡ checks.is_own_class s.program s.method named }
{
    if named == around.owner {
        return true;
    }
    if is_interface(around.classes, named) {
        return false;
    }
    extends(around.classes, around.owner, named)
}
