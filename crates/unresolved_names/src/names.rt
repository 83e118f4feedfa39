//! The classes that Class entries and descriptors name (JVM Specification SE 8, 4.3 and 4.4.1).
ghost use Rattle.std.specs.Prelude.{◌≡◌, ℕ, List};
ghost use Rattle.class_pool.specs.declared.class.ClassFile.{ClassFile};
ghost use Rattle.std.specs.List.{list_all};
ghost use Rattle.class_pool.specs.Grammar.{text_at};
ghost use Rattle.program_tables.specs.Kinds.{class_in_entry, classes_in_field_descriptor, classes_in_method_descriptor};
ghost use Rattle.program_tables.specs.Unresolved.{are_there, may_name};
ghost use Rattle.program_tables.specs.Texts.{IsClassOf};
ghost use Rattle.unresolved_names.specs.Words.{class_reason, nameable_entry};

use crate::access::{is_accessible_class, is_free};
use crate::caller::Namer;
use class_lookup::Classes;
use program_tables::{EntryClass, Why};

/// Whether the class of a Class entry is there, if there is one.
fn is_there(class: EntryClass) -> bool
    ensures { (cs : List ClassFile) (names : List (List ℕ)) → IsClassOf cs names class → result ≡ are_there cs names }
{
    match class {
        EntryClass::Missing => false,
        EntryClass::None | EntryClass::Class(_) => true,
    }
}

/// Whether the class is there that a Class entry names, or that of its array's elements.
pub(crate) fn is_entry_there(namer: &Namer<'_>, index: u16) -> bool
    ensures { result ≡ are_there namer.now.texts.now (class_in_entry namer.now.class.now.pool index) }
{
    is_there(namer.texts.class_of_entry(namer.number, index))
}

/// Whether the caller may name the class of a Class entry.
fn may_name(classes: &Classes, caller: u32, class: EntryClass) -> bool
    ensures { (names : List (List ℕ)) → IsClassOf classes.now names class → result ≡ list_all (may_name classes.now caller) names }
{
    if is_free(classes, caller) {
        return true;
    }
    match class {
        EntryClass::None => true,
        EntryClass::Missing => false,
        EntryClass::Class(number) => is_accessible_class(classes, caller, number),
    }
}

/// Whether the class may name the one that its Class entry names, or that of its array's elements.
#[tactic(auto, unfolding(crate::specs::Words::nameable_entry))]
pub(crate) fn may_name_entry(namer: &Namer<'_>, index: u16) -> bool
    ensures { result ≡ nameable_entry namer.now.texts.now namer.now.number namer.now.class.now index }
{
    let caller = namer.number;
    may_name(
        namer.texts.classes(),
        caller,
        namer.texts.class_of_entry(caller, index),
    )
}

/// Whether the class in a field's descriptor is there, by the descriptor's index in the pool.
pub(crate) fn is_field_there(namer: &Namer<'_>, descriptor: u16) -> bool
    ensures { result ≡ are_there namer.now.texts.now (classes_in_field_descriptor (text_at namer.now.class.now.pool descriptor)) }
{
    let texts = namer.texts;
    texts.is_field_there(texts.classes().symbol(namer.number, descriptor))
}

/// Whether the classes in a method's descriptor are there, by the descriptor's index in the pool.
pub(crate) fn is_method_there(namer: &Namer<'_>, descriptor: u16) -> bool
    ensures { result ≡ are_there namer.now.texts.now (classes_in_method_descriptor (text_at namer.now.class.now.pool descriptor)) }
{
    let texts = namer.texts;
    texts.is_method_there(texts.classes().symbol(namer.number, descriptor))
}

/// Why the class of a Class entry isn't resolved that a superclass or superinterface list, an instruction or an exception table
/// names.
#[tactic(auto, unfolding(crate::specs::Words::class_reason, crate::specs::Words::nameable_entry))]
pub(crate) fn why_class(namer: &Namer<'_>, index: u16) -> Option<Why>
    ensures { result ≡ class_reason namer.now.texts.now namer.now.number namer.now.class.now index }
{
    if !is_entry_there(namer, index) {
        Some(Why::NoClass)
    } else if !may_name_entry(namer, index) {
        Some(Why::NotAccessible)
    } else {
        None
    }
}
