//! The first of the classes that texts name and that isn't there.
ghost use Rattle.std.specs.Prelude.{◌≡◌, ◌∷◌, [], option_map, IfOk};
ghost use Rattle.std.specs.Option.{option_map_or};
ghost use Rattle.std.specs.List.{flat_map, list_any};
ghost use Rattle.class_pool.specs.Utf8.{utf8_bytes};
ghost use Rattle.class_lookup.specs.Parts.{same_text, name_of};
ghost use Rattle.program_tables.specs.Kinds.{class_in_type, classes_in_method_type, classes_in_field_descriptor, classes_in_method_descriptor};
ghost use Rattle.refusal_lines.specs.Entries.{is_there, missing, class_in_name, classes_in_descriptor};

use base::{FormatFault, NoMemory, is_text};
use class_lookup::parts::name_of;
use class_pool::ClassFile;
use class_pool::utf8::text_bytes;
use descriptors::names::is_class_name;
use descriptors::{Element, FieldType, MethodType, field_type, method_type};
use std::alloc::Global;

/// The classes that there are besides the one that is run.
#[derive(Clone, Copy)]
pub(crate) struct Known<'a> {
    /// The core classes.
    pub(crate) before: &'a [ClassFile],
    /// Those of the files.
    pub(crate) files: &'a [ClassFile],
}

fn is_named(classes: &[ClassFile], name: &[u16]) -> bool
    ensures { result ≡ list_any (λ k. same_text (name_of k) name.now) classes.now }
{
    classes.iter().any(|class| name_of(class) == name)
}

/// Whether there is a class of this name.
fn is_there(known: &Known<'_>, name: &[u16]) -> bool
    ensures { result ≡ is_there known.now.before.now known.now.files.now name.now }
{
    is_named(known.before, name) || is_named(known.files, name) || is_text(name, b"jop/Boot")
}

/// The name, if there is no class of it.
#[tactic(auto, unfolding(crate::specs::Entries::missing))]
fn missing_name<'a>(known: &Known<'_>, name: &'a [u16]) -> Option<&'a [u16]>
    ensures { option_map (λ name. name.now) result ≡ missing known.now.before.now known.now.files.now (name.now ∷ []) }
{
    if is_there(known, name) {
        None
    } else {
        Some(name)
    }
}

/// The class of a type, if it isn't there.
#[tactic(auto, unfolding(crate::specs::Entries::missing))]
fn missing_in_type<'a>(known: &Known<'_>, of: &'a FieldType) -> Option<&'a [u16]>
    ensures { option_map (λ name. name.now) result ≡ missing known.now.before.now known.now.files.now (class_in_type of.now) }
{
    match &of.element {
        Element::Class(name) => missing_name(known, name.as_slice()),
        _ => None,
    }
}

/// The first class of the types that isn't there.
fn missing_in_types<'a>(known: &Known<'_>, types: &'a [FieldType]) -> Option<&'a [u16]>
    ensures { option_map (λ name. name.now) result ≡ missing known.now.before.now known.now.files.now (flat_map class_in_type types.now) }
{
    for of in types {
        if let Some(name) = missing_in_type(known, of) {
            return Some(name);
        }
    }
    None
}

#[tactic(auto, unfolding(crate::specs::Entries::missing))]
fn missing_in_result<'a>(known: &Known<'_>, of: &'a Option<FieldType>) -> Option<&'a [u16]>
    ensures { option_map (λ name. name.now) result ≡ missing known.now.before.now known.now.files.now (option_map_or class_in_type of.now []) }
{
    match of {
        Some(of) => missing_in_type(known, of),
        None => None,
    }
}

/// The first class of the types of a method that isn't there.
#[tactic(auto, using(crate::proofs::NamingLemmas::first_found, crate::proofs::NamingLemmas::second_found))]
fn missing_in_method<'a>(known: &Known<'_>, of: &'a MethodType) -> Option<&'a [u16]>
    ensures { option_map (λ name. name.now) result ≡ missing known.now.before.now known.now.files.now (classes_in_method_type of.now) }
{
    match missing_in_types(known, of.parameters.as_slice()) {
        Some(name) => Some(name),
        None => missing_in_result(known, &of.result),
    }
}

/// The bytes of what was found.
fn found_bytes(alloc: Global, found: Option<&[u16]>) -> Result<Option<Vec<u8>>, NoMemory>
    ensures { IfOk result (λ bytes. option_map (λ b. b.items) bytes ≡ option_map (λ name. utf8_bytes name.now) found.entry) }
{
    match found {
        Some(name) => Ok(Some(text_bytes(alloc, name)?)),
        None => Ok(None),
    }
}

/// The bytes of the class in the descriptor of a field, if it isn't there.
#[tactic(auto, unfolding(crate::specs::Entries::missing))]
fn missing_in_field(
    alloc: Global,
    known: &Known<'_>,
    descriptor: &[u16],
) -> Result<Option<Vec<u8>>, NoMemory>
    ensures { IfOk result (λ bytes. option_map (λ b. b.items) bytes ≡ option_map utf8_bytes
        (missing known.now.before.now known.now.files.now (classes_in_field_descriptor descriptor.now))) }
{
    match field_type(alloc, descriptor) {
        Ok(of) => found_bytes(alloc, missing_in_type(known, &of)),
        Err(FormatFault::Bad) => Ok(None),
        Err(FormatFault::NoMemory) => Err(NoMemory),
    }
}

/// The bytes of the first class in the descriptor of a method that isn't there.
#[tactic(auto, unfolding(crate::specs::Entries::missing))]
fn missing_in_parameters(
    alloc: Global,
    known: &Known<'_>,
    descriptor: &[u16],
) -> Result<Option<Vec<u8>>, NoMemory>
    ensures { IfOk result (λ bytes. option_map (λ b. b.items) bytes ≡ option_map utf8_bytes
        (missing known.now.before.now known.now.files.now (classes_in_method_descriptor descriptor.now))) }
{
    match method_type(alloc, descriptor) {
        Ok(of) => found_bytes(alloc, missing_in_method(known, &of)),
        Err(FormatFault::Bad) => Ok(None),
        Err(FormatFault::NoMemory) => Err(NoMemory),
    }
}

/// The bytes of the first class in a descriptor that isn't there.
#[tactic(auto, using(crate::proofs::NamingLemmas::first_has, crate::proofs::NamingLemmas::second_has))]
pub(crate) fn missing_in_descriptor(
    alloc: Global,
    known: &Known<'_>,
    descriptor: &[u16],
) -> Result<Option<Vec<u8>>, NoMemory>
    ensures { IfOk result (λ bytes. option_map (λ b. b.items) bytes ≡ option_map utf8_bytes
        (missing known.now.before.now known.now.files.now (classes_in_descriptor descriptor.now))) }
{
    match missing_in_field(alloc, known, descriptor)? {
        Some(bytes) => Ok(Some(bytes)),
        None => missing_in_parameters(alloc, known, descriptor),
    }
}

/// The bytes of the class that this text of a Class entry names, if it isn't there.
#[tactic(auto, using(crate::proofs::NamingLemmas::name_of_class, crate::proofs::NamingLemmas::name_of_array))]
pub(crate) fn missing_in_name(
    alloc: Global,
    known: &Known<'_>,
    text: &[u16],
) -> Result<Option<Vec<u8>>, NoMemory>
    ensures { IfOk result (λ bytes. option_map (λ b. b.items) bytes ≡ option_map utf8_bytes
        (missing known.now.before.now known.now.files.now (class_in_name text.now))) }
{
    if is_class_name(text) {
        found_bytes(alloc, missing_name(known, text))
    } else {
        missing_in_field(alloc, known, text)
    }
}
