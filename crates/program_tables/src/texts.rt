//! What each text of the classes means as what a Class entry gives and as a descriptor, by its symbol (JVM Specification SE 8, 4.3 and 4.4.1).
ghost use Rattle.std.specs.Prelude.{◌≡◌, ◌<◌, ℕ, List, length, map, Some, option_map, slice_get, IfOk, IfSome};
ghost use Rattle.std.specs.Option.{option_copied, IsSomeAnd};
ghost use Rattle.class_pool.specs.declared.class.ClassFile.{ClassFile};
ghost use Rattle.class_lookup.specs.Parts.{class_text};
ghost use Rattle.program_tables.specs.Kinds.{class_in_entry, classes_in_field_descriptor, classes_in_method_descriptor, kind_of_entry, field_declared};
ghost use Rattle.program_tables.specs.Kinds.{parameters_declared, result_declared};
ghost use Rattle.program_tables.specs.Meanings.{declared_seen};
ghost use Rattle.class_lookup.specs.Symbols.{texts, symbol};
ghost use Rattle.program_tables.specs.Tables.{kind_seen};
ghost use Rattle.program_tables.specs.Texts.{kind_of_text, class_in_text, IsClassOf, IsTextType, AreTextTypes};
ghost use Rattle.program_tables.specs.Unresolved.{are_there};

use crate::kinds::ObjectKind;
use crate::operand::Declared;
use crate::text_type::{EntryClass, TextType, text_type};
use base::NoMemory;
use class_lookup::Classes;
use std::alloc::Global;
use std::marker::Model;

/// What the texts of classes mean, each read once. Contracts see it as the list of the classes.
#[derive(Drop)]
pub struct TextTypes<'a> {
    classes: &'a Classes,
    types: Vec<TextType>,
}

impl<'a> Model for TextTypes<'a> {
    ghost use Rattle.std.specs.Prelude.{◌≡◌, List, length};
    ghost use Rattle.class_pool.specs.declared.class.ClassFile.{ClassFile};
    ghost use Rattle.class_lookup.specs.Symbols.{texts};
    ghost use Rattle.program_tables.specs.Texts.{AreTextTypes};

    ghost Value = { List ClassFile };

    ghost view = { λ a. a.classes.now };

    ghost invariant = { λ a. (length a.types.items ≡ length (texts a.classes.now)) × AreTextTypes a.classes.now a.types.items };
}

/// What the texts mean, by their symbols.
fn all_text_types(alloc: Global, classes: &Classes) -> Result<Vec<TextType>, NoMemory>
    ensures many { IfOk result (λ made. length made.items ≡ length (texts classes.now)) }
    ensures each { IfOk result (λ made. AreTextTypes classes.now made.items) }
{
    let mut made = Vec::new(alloc);
    for number in 0..classes.symbol_count() {
        made.push(text_type(alloc, classes, classes.text(number))?)?;
    }
    Ok(made)
}

impl<'a> TextTypes<'a> {
    /// Reads the texts of these classes.
    pub fn new(alloc: Global, classes: &'a Classes) -> Result<Self, NoMemory>
        ensures { IfOk result (λ made. made ≡ classes.now) }
    {
        match all_text_types(alloc, classes) {
            Ok(types) => Ok(TextTypes { classes, types }),
            Err(fault) => Err(fault),
        }
    }

    /// The classes.
    pub fn classes(&self) -> &'a Classes
        ensures { result.now ≡ self.now }
    {
        self.classes
    }

    /// The symbol of the text that a Class entry of the class gives.
    pub(crate) fn class_symbol(&self, class: u32, index: u16) -> u32
        requires { class < length self.now }
        ensures { (c : ClassFile) → slice_get self.now class ≡ Some c → symbol self.now (class_text c.pool index) ≡ Some result }
    {
        match self.classes.class(class).pool.class_name(index) {
            Some(name) => self.classes.symbol(class, name),
            // No entry has this index.
            None => self.classes.symbol(class, 0),
        }
    }

    /// What the text of this symbol means.
    fn at(&self, number: u32) -> Option<&TextType>
        ensures means { (text : List ℕ) → symbol self.now text ≡ Some number → IsSomeAnd (option_copied result) (IsTextType self.now text) }
        ensures within { IfSome (option_copied result) (λ t. IfSome t.entry.kind (λ k. k.dimensions < 256)) }
    {
        self.types.get(number as usize)
    }

    /// What an object of the type is that a Class entry names by the text of this symbol.
    pub fn kind(&self, number: u32) -> Option<ObjectKind>
        ensures kind { (text : List ℕ) → symbol self.now text ≡ Some number → option_map kind_seen result ≡ kind_of_text self.now text }
        ensures within { IfSome result (λ k. k.dimensions < 256) }
    {
        match self.at(number) {
            Some(means) => means.entry.kind,
            None => None,
        }
    }

    /// What an object of the type of a Class entry of the class is.
    pub fn kind_of_entry(&self, class: u32, index: u16) -> Option<ObjectKind>
        requires { class < length self.now }
        ensures kind { (c : ClassFile) → slice_get self.now class ≡ Some c → option_map kind_seen result ≡ kind_of_entry self.now c.pool index }
        ensures within { IfSome result (λ k. k.dimensions < 256) }
    {
        self.kind(self.class_symbol(class, index))
    }

    /// The class that the text of this symbol names in a Class entry, or that of its array's elements.
    fn class(&self, number: u32) -> EntryClass
        ensures { (text : List ℕ) → symbol self.now text ≡ Some number → IsClassOf self.now (class_in_text text) result }
    {
        match self.at(number) {
            Some(means) => means.entry.class,
            None => EntryClass::None,
        }
    }

    /// The class that a Class entry of the class names, or that of its array's elements.
    pub fn class_of_entry(&self, class: u32, index: u16) -> EntryClass
        requires { class < length self.now }
        ensures { (c : ClassFile) → slice_get self.now class ≡ Some c → IsClassOf self.now (class_in_entry c.pool index) result }
    {
        self.class(self.class_symbol(class, index))
    }

    /// What a field with the descriptor of this symbol holds.
    pub fn field(&self, number: u32) -> Option<Declared>
        ensures { (text : List ℕ) → symbol self.now text ≡ Some number → option_map declared_seen result ≡ field_declared self.now text }
    {
        match self.at(number) {
            Some(means) => means.field.declared,
            None => None,
        }
    }

    /// Whether the class in the field's descriptor of this symbol is there.
    pub fn is_field_there(&self, number: u32) -> bool
        ensures { (text : List ℕ) → symbol self.now text ≡ Some number → result ≡ are_there self.now (classes_in_field_descriptor text) }
    {
        match self.at(number) {
            Some(means) => means.field.is_there,
            None => true,
        }
    }

    /// Whether the classes in the method's descriptor of this symbol are there.
    pub fn is_method_there(&self, number: u32) -> bool
        ensures { (text : List ℕ) → symbol self.now text ≡ Some number → result ≡ are_there self.now (classes_in_method_descriptor text) }
    {
        match self.at(number) {
            Some(means) => means.method.is_there,
            None => true,
        }
    }

    /// The types of the parameters in the method's descriptor of this symbol.
    pub fn parameters(&self, number: u32) -> &[Declared]
        ensures { (text : List ℕ) → symbol self.now text ≡ Some number → map declared_seen result.now ≡ parameters_declared self.now text }
    {
        match self.at(number) {
            Some(means) => means.method.parameters.as_slice(),
            None => &[],
        }
    }

    /// The type of the result in the method's descriptor of this symbol, if it has one.
    pub fn result(&self, number: u32) -> Option<Declared>
        ensures { (text : List ℕ) → symbol self.now text ≡ Some number → option_map declared_seen result ≡ result_declared self.now text }
    {
        match self.at(number) {
            Some(means) => means.method.result,
            None => None,
        }
    }
}
