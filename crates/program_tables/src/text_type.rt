//! What one text means as what a Class entry gives and as a descriptor (JVM Specification SE 8, 4.3 and 4.4.1).
ghost use Rattle.std.specs.Prelude.{◌≡◌, ◌<◌, [], ◌∷◌, map, option_map, IfOk, IfSome};
ghost use Rattle.std.specs.Option.{option_map_or};
ghost use Rattle.std.specs.List.{filter_map, list_all};
ghost use Rattle.bytecode_model.specs.Lists.{onto};
ghost use Rattle.bytecode_model.specs.Types.{OfClass};
ghost use Rattle.class_lookup.specs.Hierarchy.{find_class};
ghost use Rattle.descriptors.specs.Parsing.{field_in};
ghost use Rattle.program_tables.specs.Kinds.{class_in_type, classes_in_method_type, classes_in_method_descriptor, number_declared, declared_of};
ghost use Rattle.program_tables.specs.Kinds.{parameters_declared, result_declared};
ghost use Rattle.program_tables.specs.Meanings.{declared_seen, is_of_class};
ghost use Rattle.program_tables.specs.Tables.{kind_seen};
ghost use Rattle.program_tables.specs.Texts.{class_in_text, kind_of_text, IsClassOf, IsTextType};
ghost use Rattle.program_tables.specs.Unresolved.{are_there};

use crate::kinds::{Base, ObjectKind, kind_of_type};
use crate::operand::Declared;
use base::{FormatFault, Items, NoMemory};
use class_lookup::Classes;
use descriptors::names::is_class_name;
use descriptors::{Element, FieldType, MethodType, field_type, method_type};
use std::alloc::Global;

/// The class that a Class entry names, or that of its array's elements.
#[derive(Clone, Copy)]
pub enum EntryClass {
    /// The entry names no class.
    None,
    /// It names one that isn't there.
    Missing,
    /// It names the class of this number.
    Class(u32),
}

/// What a Class entry gives with a text: what an object of the type is, and the type's class.
#[derive(Clone, Copy)]
pub(crate) struct EntryType {
    pub(crate) kind: Option<ObjectKind>,
    pub(crate) class: EntryClass,
}

/// What a text is as a field's descriptor: what the field holds, and whether its class is there.
#[derive(Clone, Copy)]
pub(crate) struct FieldMeaning {
    pub(crate) declared: Option<Declared>,
    pub(crate) is_there: bool,
}

/// What a text is as a method's descriptor: the types of the parameters and of the result, and whether all their classes are there.
#[derive(Drop)]
pub(crate) struct MethodMeaning {
    pub(crate) parameters: Items<Declared>,
    pub(crate) result: Option<Declared>,
    pub(crate) is_there: bool,
}

/// What a text means.
#[derive(Drop)]
pub(crate) struct TextType {
    pub(crate) entry: EntryType,
    pub(crate) field: FieldMeaning,
    pub(crate) method: MethodMeaning,
}

/// The class of a type, if it has one.
fn class_of_type(classes: &Classes, of: &FieldType) -> EntryClass
    ensures { IsClassOf classes.now (class_in_type of.now) result }
{
    match &of.element {
        Element::Class(name) => match classes.find_class(name.as_slice()) {
            Some(class) => EntryClass::Class(class),
            None => EntryClass::Missing,
        },
        _ => EntryClass::None,
    }
}

/// What a Class entry gives with the name of a class.
fn named_class(classes: &Classes, name: &[u16]) -> EntryType
    ensures kind { option_map kind_seen result.kind ≡ option_map OfClass (find_class classes.now name.now) }
    ensures within { IfSome result.kind (λ k. k.dimensions < 256) }
    ensures class { IsClassOf classes.now (name.now ∷ []) result.class }
{
    match classes.find_class(name) {
        Some(class) => EntryType {
            kind: Some(ObjectKind {
                dimensions: 0,
                base: Base::Class(class),
            }),
            class: EntryClass::Class(class),
        },
        None => EntryType {
            kind: None,
            class: EntryClass::Missing,
        },
    }
}

/// The type that a text is as a field's descriptor, if it is one.
pub(crate) fn field_type_in(alloc: Global, text: &[u16]) -> Result<Option<FieldType>, NoMemory>
    ensures { IfOk result (λ of. of ≡ field_in text.now) }
{
    match field_type(alloc, text) {
        Ok(of) => Ok(Some(of)),
        Err(FormatFault::Bad) => Ok(None),
        Err(FormatFault::NoMemory) => Err(NoMemory),
    }
}

/// What a Class entry gives with a text that as a field's descriptor is this type.
pub(crate) fn entry_type(classes: &Classes, text: &[u16], of: &Option<FieldType>) -> EntryType
    requires { of.now ≡ field_in text.now }
    ensures kind { option_map kind_seen result.kind ≡ kind_of_text classes.now text.now }
    ensures within { IfSome result.kind (λ k. k.dimensions < 256) }
    ensures class { IsClassOf classes.now (class_in_text text.now) result.class }
{
    if is_class_name(text) {
        return named_class(classes, text);
    }
    match of {
        Some(of) => EntryType {
            kind: kind_of_type(classes, of),
            class: class_of_type(classes, of),
        },
        None => EntryType {
            kind: None,
            class: EntryClass::None,
        },
    }
}

/// The declared type of a number; `float` and `double` aren't supported.
fn number_declared(element: &Element) -> Option<Declared>
    ensures { option_map declared_seen result ≡ number_declared element.now }
{
    match element {
        Element::Boolean | Element::Byte | Element::Char | Element::Short | Element::Int => {
            Some(Declared::Int)
        }
        Element::Long => Some(Declared::Long),
        Element::Float | Element::Double | Element::Class(_) => None,
    }
}

/// Whether it is a class.
fn is_of_class(element: &Element) -> bool
    ensures { result ≡ is_of_class element.now }
{
    match element {
        Element::Class(_) => true,
        Element::Boolean
        | Element::Byte
        | Element::Char
        | Element::Short
        | Element::Int
        | Element::Long
        | Element::Float
        | Element::Double => false,
    }
}

/// A type as a declared one, where its class is there.
fn declared_of(classes: &Classes, of: &FieldType) -> Option<Declared>
    ensures { option_map declared_seen result ≡ declared_of classes.now of.now }
{
    if of.dimensions == 0 && !is_of_class(&of.element) {
        number_declared(&of.element)
    } else {
        match kind_of_type(classes, of) {
            Some(kind) => Some(Declared::Reference(kind)),
            None => None,
        }
    }
}

/// Whether the class of a type is there.
fn is_type_there(classes: &Classes, of: &FieldType) -> bool
    ensures { result ≡ are_there classes.now (class_in_type of.now) }
{
    match &of.element {
        Element::Class(name) => classes.find_class(name.as_slice()).is_some(),
        _ => true,
    }
}

/// What a field of this type holds.
fn field_meaning(classes: &Classes, of: &Option<FieldType>) -> FieldMeaning
    ensures declared { option_map declared_seen result.declared ≡ onto of.now (declared_of classes.now) }
    ensures is_there { result.is_there ≡ are_there classes.now (option_map_or class_in_type of.now []) }
{
    match of {
        Some(of) => FieldMeaning {
            declared: declared_of(classes, of),
            is_there: is_type_there(classes, of),
        },
        None => FieldMeaning {
            declared: None,
            is_there: true,
        },
    }
}

/// These types as declared ones.
fn all_declared(
    alloc: Global,
    classes: &Classes,
    types: &[FieldType],
) -> Result<Vec<Declared>, NoMemory>
    ensures { IfOk result (λ all. map declared_seen all.items ≡ filter_map (declared_of classes.now) types.now) }
{
    let mut all = Vec::new(alloc);
    for of in types {
        match declared_of(classes, of) {
            Some(declared) => all.push(declared)?,
            None => {}
        }
    }
    Ok(all)
}

/// Whether the classes of types are there.
fn are_types_there(classes: &Classes, types: &[FieldType]) -> bool
    ensures { result ≡ list_all (λ of. are_there classes.now (class_in_type of)) types.now }
{
    types.iter().all(|of| is_type_there(classes, of))
}

/// Whether the classes of a method's types are there.
#[tactic(auto, using(crate::proofs::TextLemmas::all_of_list_and))]
fn is_method_type_there(classes: &Classes, of: &MethodType, given: &FieldMeaning) -> bool
    requires { given.now.is_there ≡ are_there classes.now (option_map_or class_in_type of.now.result []) }
    ensures { result ≡ are_there classes.now (classes_in_method_type of.now) }
{
    are_types_there(classes, of.parameters.as_slice()) && given.is_there
}

/// What a method with this descriptor takes and returns.
fn method_meaning(alloc: Global, classes: &Classes, text: &[u16]) -> Result<MethodMeaning, NoMemory>
    ensures parameters { IfOk result (λ m. map declared_seen m.parameters ≡ parameters_declared classes.now text.now) }
    ensures result { IfOk result (λ m. option_map declared_seen m.result ≡ result_declared classes.now text.now) }
    ensures is_there { IfOk result (λ m. m.is_there ≡ are_there classes.now (classes_in_method_descriptor text.now)) }
{
    match method_type(alloc, text) {
        Ok(of) => {
            let parameters = all_declared(alloc, classes, of.parameters.as_slice())?;
            let given = field_meaning(classes, &of.result);
            let is_there = is_method_type_there(classes, &of, &given);
            Ok(MethodMeaning {
                parameters: Items::new(parameters),
                result: given.declared,
                is_there,
            })
        }
        Err(FormatFault::Bad) => Ok(MethodMeaning {
            parameters: Items::new(Vec::new(alloc)),
            result: None,
            is_there: true,
        }),
        Err(FormatFault::NoMemory) => Err(NoMemory),
    }
}

/// What a text means.
pub(crate) fn text_type(
    alloc: Global,
    classes: &Classes,
    text: &[u16],
) -> Result<TextType, NoMemory>
    ensures { IfOk result (IsTextType classes.now text.now) }
{
    let method = method_meaning(alloc, classes, text)?;
    let of = field_type_in(alloc, text)?;
    Ok(TextType {
        entry: entry_type(classes, text, &of),
        field: field_meaning(classes, &of),
        method,
    })
}
