//! Types and their descriptors (JVM Specification SE 8, 4.3).
ghost use Rattle.std.specs.Prelude.{◌≡◌, ◌≤◌, option_map, length, nat_le, if◌then◌else◌, Some, None, IfOk};
ghost use Rattle.base.specs.Reading.{Gives};
ghost use Rattle.descriptors.specs.Descriptors.{words_of, argument_words};
ghost use Rattle.descriptors.specs.Parsing.{behind, primitive_in, split_in, class_in, element_in, type_in, types_in, field_in, result_in, method_in};

use crate::names::is_class_name;
use base::{FormatFault, Items};
use std::alloc::Global;

/// A type that is no array: a primitive type, or a class or an interface by its name.
#[derive(Drop)]
pub enum Element {
    Byte,
    Char,
    Double,
    Float,
    Int,
    Long,
    Class(Items<u16>),
    Short,
    Boolean,
}

/// The type of a field, a parameter or a result: so many dimensions of an element.
#[derive(Drop)]
pub struct FieldType {
    /// 0 for a type that is no array.
    pub dimensions: u8,
    pub element: Element,
}

/// The types of a method: of its parameters, and of its result if it has one.
#[derive(Drop)]
pub struct MethodType {
    pub parameters: Items<FieldType>,
    pub result: Option<FieldType>,
}

/// The letters of tables 4.3-A and 4.3.3, and what stands around them.
const BYTE: u16 = b'B' as u16;

const CHAR: u16 = b'C' as u16;

const DOUBLE: u16 = b'D' as u16;

const FLOAT: u16 = b'F' as u16;

const INT: u16 = b'I' as u16;

const LONG: u16 = b'J' as u16;

const CLASS: u16 = b'L' as u16;

const SHORT: u16 = b'S' as u16;

const VOID: u16 = b'V' as u16;

const BOOLEAN: u16 = b'Z' as u16;

const ARRAY: u16 = b'[' as u16;

const END_OF_CLASS: u16 = b';' as u16;

const PARAMETERS: u16 = b'(' as u16;

const END_OF_PARAMETERS: u16 = b')' as u16;

#[tactic(auto, unfolding(crate::specs::Parsing::primitive_in))]
fn primitive_of(letter: u16) -> Option<Element>
    ensures { result ≡ primitive_in letter }
{
    let element = match letter {
        BYTE => Element::Byte,
        CHAR => Element::Char,
        DOUBLE => Element::Double,
        FLOAT => Element::Float,
        INT => Element::Int,
        LONG => Element::Long,
        SHORT => Element::Short,
        BOOLEAN => Element::Boolean,
        _ => return None,
    };
    Some(element)
}

/// The units before the first `;` and those behind it.
fn split_at_semicolon(units: &[u16]) -> Option<(&[u16], &[u16])>
    ensures { option_map (λ x. (x.0.now, x.1.now)) result ≡ split_in units.now }
{
    for (i, unit) in units.iter().enumerate() {
        if *unit == END_OF_CLASS {
            return Some((&units[..i], &units[i + 1..]));
        }
    }
    None
}

#[tactic(auto, unfolding(crate::specs::Parsing::class_in))]
fn class_at(alloc: Global, units: &[u16]) -> Result<(Element, &[u16]), FormatFault>
    ensures { Gives (λ x. (x.0, x.1.now)) result (class_in units.now) }
{
    let Some((name, rest)) = split_at_semicolon(units) else {
        return Err(FormatFault::Bad);
    };
    if !is_class_name(name) {
        return Err(FormatFault::Bad);
    }
    let name = Items::new(Vec::from_slice(alloc, name)?);
    Ok((Element::Class(name), rest))
}

#[tactic(auto, unfolding(crate::specs::Parsing::element_in))]
fn element_at(alloc: Global, units: &[u16]) -> Result<(Element, &[u16]), FormatFault>
    ensures { Gives (λ x. (x.0, x.1.now)) result (element_in units.now) }
{
    match units {
        [] => Err(FormatFault::Bad),
        [CLASS, rest @ ..] => class_at(alloc, rest),
        [letter, rest @ ..] => {
            let Some(element) = primitive_of(*letter) else {
                return Err(FormatFault::Bad);
            };
            Ok((element, rest))
        }
    }
}

/// What stands behind this unit, if it is the first.
fn behind(wanted: u16, units: &[u16]) -> Option<&[u16]>
    ensures { option_map (λ x. x.now) result ≡ behind wanted units.now }
{
    match units {
        [unit, rest @ ..] if *unit == wanted => Some(rest),
        _ => None,
    }
}

/// The type at the front, and the units behind it.
#[tactic(auto, unfolding(crate::specs::Parsing::type_from))]
fn type_at(alloc: Global, units: &[u16]) -> Result<(FieldType, &[u16]), FormatFault>
    ensures { Gives (λ x. (x.0, x.1.now)) result (type_in units.now) }
{
    let mut dimensions = 0u8;
    let mut rest = units;
    while let Some(after) = behind(ARRAY, rest) {
        if dimensions == 255 {
            return Err(FormatFault::Bad);
        }
        dimensions += 1;
        rest = after;
    }
    let (element, rest) = element_at(alloc, rest)?;
    Ok((
        FieldType {
            dimensions,
            element,
        },
        rest,
    ))
}

/// The type that a field descriptor spells (JVM Specification SE 8, 4.3.2).
#[tactic(auto, unfolding(crate::specs::Parsing::field_in))]
pub fn field_type(alloc: Global, units: &[u16]) -> Result<FieldType, FormatFault>
    ensures { Gives (λ x. x) result (field_in units.now) }
{
    let (found, rest) = type_at(alloc, units)?;
    if !rest.is_empty() {
        return Err(FormatFault::Bad);
    }
    Ok(found)
}

impl FieldType {
    ghost use Rattle.std.specs.Prelude.{◌≡◌};
    ghost use Rattle.descriptors.specs.Descriptors.{words_of};

    /// The words that a value takes (JVM Specification SE 8, 4.3.3).
    pub fn words(&self) -> u8
        ensures { result ≡ words_of self.now }
    {
        match self.element {
            Element::Double | Element::Long if self.dimensions == 0 => 2,
            _ => 1,
        }
    }
}

/// The types before the first `)` in a type's place, and the units behind it.
fn types_at(alloc: Global, units: &[u16]) -> Result<(Vec<FieldType>, &[u16]), FormatFault>
    ensures { Gives (λ x. (x.0.items, x.1.now)) result (types_in (length units.now) units.now) }
{
    let mut types = Vec::new(alloc);
    let mut rest = units;
    for _ in 0..units.len() {
        if let Some(after) = behind(END_OF_PARAMETERS, rest) {
            return Ok((types, after));
        }
        let (found, after) = type_at(alloc, rest)?;
        types.push(found)?;
        rest = after;
    }
    Err(FormatFault::Bad)
}

/// The words that arguments of these types take, if they are at most 255 (JVM Specification SE 8, 4.3.3).
pub fn argument_words(types: &[FieldType]) -> Option<u8>
    ensures { result ≡ (if nat_le (argument_words types.now) 255 then Some (argument_words types.now) else None) }
{
    let mut words = 0u8;
    for t in types {
        let Some(more) = words.checked_add(t.words()) else {
            return None;
        };
        words = more;
    }
    Some(words)
}

#[tactic(auto, unfolding(crate::specs::Parsing::result_in))]
fn result_of(alloc: Global, units: &[u16]) -> Result<Option<FieldType>, FormatFault>
    ensures { Gives (λ x. x) result (result_in units.now) }
{
    match units {
        [] => Err(FormatFault::Bad),
        [VOID] => Ok(None),
        _ => Ok(Some(field_type(alloc, units)?)),
    }
}

/// The types that a method descriptor spells (JVM Specification SE 8, 4.3.3).
#[tactic(auto, unfolding(crate::specs::Parsing::method_in))]
pub fn method_type(alloc: Global, units: &[u16]) -> Result<MethodType, FormatFault>
    ensures found { Gives (λ x. x) result (method_in units.now) }
    ensures words { IfOk result (λ m. argument_words m.parameters ≤ 255) }
{
    let [PARAMETERS, rest @ ..] = units else {
        return Err(FormatFault::Bad);
    };
    let (parameters, rest) = types_at(alloc, rest)?;
    let result = result_of(alloc, rest)?;
    if argument_words(&parameters).is_none() {
        return Err(FormatFault::Bad);
    }
    Ok(MethodType {
        parameters: Items::new(parameters),
        result,
    })
}
