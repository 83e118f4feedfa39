//! What the texts of a pool may stand for, found once for each.
ghost use Rattle.std.specs.Prelude.{◌≡◌, map, option_map, IfOk};
ghost use Rattle.descriptors.specs.Parsing.{field_in, method_in};
ghost use Rattle.class_rules.specs.Forms.{constant_of, field_constant, is_array, call_of, is_string, form_of, no_form, entry_form, form_in, form_at};
ghost use Rattle.std.specs.Option.{option_copied};

use base::{FormatFault, NoMemory, is_text};
use class_pool::Entry;
use descriptors::names::{
    has_no_parenthesis, is_class_name, is_instance_initializer, is_method_name, is_unqualified,
};
use descriptors::{Element, FieldType, argument_words, field_type, method_type};
use std::alloc::Global;

/// The constant that a field of a type may have (JVM Specification SE 8, table 4.7.2-A).
#[derive(Clone, Copy)]
pub enum Constant {
    Integer,
    Float,
    Long,
    Double,
    Text,
}

/// The words of a method's arguments, without `this`, and whether it returns nothing.
#[derive(Clone, Copy)]
pub struct Call {
    pub words: u8,
    pub is_void: bool,
}

/// What a text is (JVM Specification SE 8, 4.2 and 4.3).
#[derive(Clone, Copy)]
pub struct Form {
    /// The name of a class or an interface.
    pub is_class: bool,
    /// The descriptor of an array type.
    pub is_array: bool,
    /// An unqualified name.
    pub is_unqualified: bool,
    /// The name of a method.
    pub is_method: bool,
    /// It holds no `(`.
    pub has_no_parenthesis: bool,
    /// `<init>`.
    pub is_initializer: bool,
    /// A field's descriptor.
    pub is_field: bool,
    /// The constant of a field of that descriptor, if it may have one.
    pub constant: Option<Constant>,
    /// A method's descriptor.
    pub method: Option<Call>,
}

/// Whether the units are `java/lang/String`.
fn is_string(units: &[u16]) -> bool
    ensures { result ≡ is_string units.now }
{
    is_text(units, b"java/lang/String")
}

fn constant_of(t: &FieldType) -> Option<Constant>
    ensures { result ≡ constant_of t.now }
{
    if t.dimensions != 0 {
        return None;
    }
    match &t.element {
        Element::Byte | Element::Char | Element::Int | Element::Short | Element::Boolean => {
            Some(Constant::Integer)
        }
        Element::Float => Some(Constant::Float),
        Element::Long => Some(Constant::Long),
        Element::Double => Some(Constant::Double),
        Element::Class(name) => {
            if is_string(name.as_slice()) {
                Some(Constant::Text)
            } else {
                None
            }
        }
    }
}

fn is_array(field: &Option<FieldType>) -> bool
    ensures { result ≡ is_array field.now }
{
    match field {
        Some(t) => t.dimensions != 0,
        None => false,
    }
}

fn field_constant(field: &Option<FieldType>) -> Option<Constant>
    ensures { result ≡ field_constant field.now }
{
    match field {
        Some(t) => constant_of(t),
        None => None,
    }
}

/// What a field's descriptor says, and whether it is of an array.
fn field_of(alloc: Global, units: &[u16]) -> Result<Option<FieldType>, NoMemory>
    ensures { IfOk result (λ x. x ≡ field_in units.now) }
{
    match field_type(alloc, units) {
        Ok(t) => Ok(Some(t)),
        Err(FormatFault::Bad) => Ok(None),
        Err(FormatFault::NoMemory) => Err(NoMemory),
    }
}

fn call_of(alloc: Global, units: &[u16]) -> Result<Option<Call>, NoMemory>
    ensures { IfOk result (λ x. x ≡ option_map call_of (method_in units.now)) }
{
    match method_type(alloc, units) {
        Ok(m) => Ok(Some(Call {
            words: argument_words(m.parameters.as_slice()).unwrap_or(0),
            is_void: m.result.is_none(),
        })),
        Err(FormatFault::Bad) => Ok(None),
        Err(FormatFault::NoMemory) => Err(NoMemory),
    }
}

fn form_of(alloc: Global, units: &[u16]) -> Result<Form, NoMemory>
    ensures { IfOk result (λ x. x ≡ form_of units.now) }
{
    let field = field_of(alloc, units)?;
    let method = call_of(alloc, units)?;
    Ok(Form {
        is_class: is_class_name(units),
        is_array: is_array(&field),
        is_unqualified: is_unqualified(units),
        is_method: is_method_name(units),
        has_no_parenthesis: has_no_parenthesis(units),
        is_initializer: is_instance_initializer(units),
        is_field: field.is_some(),
        constant: field_constant(&field),
        method,
    })
}

/// What an entry that is no text is.
fn no_form() -> Form
    ensures { result ≡ no_form }
{
    Form {
        is_class: false,
        is_array: false,
        is_unqualified: false,
        is_method: false,
        has_no_parenthesis: false,
        is_initializer: false,
        is_field: false,
        constant: None,
        method: None,
    }
}

fn entry_form(alloc: Global, entry: &Entry) -> Result<Form, NoMemory>
    ensures { IfOk result (λ x. x ≡ entry_form entry.now) }
{
    match entry {
        Entry::Utf8(units) => form_of(alloc, units.as_slice()),
        _ => Ok(no_form()),
    }
}

/// What each entry is.
pub(crate) fn forms_of(alloc: Global, entries: &[Entry]) -> Result<Vec<Form>, NoMemory>
    ensures { IfOk result (λ x. x.items ≡ map entry_form entries.now) }
{
    let mut forms = Vec::new(alloc);
    for entry in entries {
        let form = entry_form(alloc, entry)?;
        forms.push(form)?;
    }
    Ok(forms)
}

fn form_in(forms: &[Form], index: u16) -> Option<&Form>
    ensures { option_copied result ≡ form_in forms.now index }
{
    if index == 0 {
        return None;
    }
    forms.get(usize::from(index - 1))
}

/// What the entry of an index is.
pub(crate) fn form_at(forms: &[Form], index: u16) -> Form
    ensures { result ≡ form_at forms.now index }
{
    match form_in(forms, index) {
        Some(form) => *form,
        None => no_form(),
    }
}
