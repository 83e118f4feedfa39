//! A list of class files with tables of what they name.

ghost use Rattle.std.specs.Prelude.{◌≡◌, ℕ, List, ◌<◌, ◌^◌, length, map, Some, slice_get, IfOk};
ghost use Rattle.std.specs.List.{filter_map};
ghost use Rattle.class_pool.specs.declared.class.ClassFile.{ClassFile};
ghost use Rattle.class_lookup.specs.Access.{are_in_one_package};
ghost use Rattle.class_lookup.specs.Parts.{Signature, class_text, superinterface_names};
ghost use Rattle.class_pool.specs.Grammar.{text_at};
ghost use Rattle.class_lookup.specs.Hierarchy.{find_class, superclass, superinterfaces, is_interface};
ghost use Rattle.class_lookup.specs.Lookup.{declared_field, declared_method};
ghost use Rattle.class_lookup.specs.Symbols.{texts, symbol};

use crate::members::{Members, members_of, place_in};
use crate::names::{Names, class_named, names_of};
use crate::parts::has_flags;
use crate::place::Place;
use crate::symbols::{Symbols, symbols_of, text_symbol};
use base::{Items, NoMemory};
use class_pool::ClassFile;
use std::alloc::Global;
use std::marker::Model;

/// The flag of an interface.
const ACC_INTERFACE: u16 = 0x0200;

/// A list of classes, with tables of their texts, of what they name, and of their members. Contracts see it as the list.
///
/// Each text that the pools of the classes have, and the empty one, has a number, its symbol: what is asked by symbols reads
/// no text.
#[derive(Drop)]
pub struct Classes {
    classes: Vec<ClassFile>,
    symbols: Symbols,
    names: Names,
    members: Members,
}

impl Model for Classes {
    ghost use Rattle.std.specs.Prelude.{List, ◌<◌, ◌^◌, length};
    ghost use Rattle.class_pool.specs.declared.class.ClassFile.{ClassFile};
    ghost use Rattle.class_lookup.specs.Tables.{AreSymbols, AreNames, AreMemberTables};

    ghost Value = { List ClassFile };

    ghost view = { λ a. a.classes.items };

    ghost invariant = { λ a. (length a.classes.items < 2 ^ 32)
        × AreSymbols a.classes.items a.symbols
        × AreNames a.classes.items a.names
        × AreMemberTables a.classes.items a.members };
}

impl Classes {
    /// The list of these classes.
    ///
    /// # Errors
    ///
    /// Want of memory, and 2^32 texts or more.
    pub fn new(alloc: Global, classes: Vec<ClassFile>) -> Result<Self, NoMemory>
        requires { length classes.items < 2 ^ 32 }
        ensures { IfOk result (λ made. made ≡ classes.items) }
    {
        let symbols = symbols_of(alloc, &classes)?;
        let names = names_of(alloc, &classes, &symbols)?;
        let members = members_of(alloc, &classes, &symbols)?;
        Ok(Classes {
            classes,
            symbols,
            names,
            members,
        })
    }

    /// The classes, in their order.
    pub fn into_classes(self) -> Vec<ClassFile>
        ensures { result.items ≡ self }
    {
        self.classes
    }

    /// How many classes there are.
    pub fn class_count(&self) -> u32
        ensures { result ≡ length self.now }
    {
        self.classes.len() as u32
    }

    /// The class of this number.
    pub fn class(&self, number: u32) -> &ClassFile
        requires { number < length self.now }
        ensures { slice_get self.now number ≡ Some result.now }
    {
        &self.classes[number as usize]
    }

    /// The number of the first class of this name.
    pub fn find_class(&self, name: &[u16]) -> Option<u32>
        ensures { result ≡ find_class self.now name.now }
    {
        match self.symbols.texts.number(name) {
            Some(number) => self.names.classes[number as usize],
            None => None,
        }
    }

    /// The number of the class's direct superclass.
    pub fn superclass(&self, number: u32) -> Option<u32>
        requires { number < length self.now }
        ensures { result ≡ superclass self.now number }
    {
        self.names.supers[number as usize]
    }

    /// The numbers of the class's direct superinterfaces, in order.
    pub fn superinterfaces(&self, number: u32) -> &[u32]
        requires { number < length self.now }
        ensures { result.now ≡ superinterfaces self.now number }
    {
        self.names.interfaces[number as usize].as_slice()
    }

    /// The numbers of the direct superinterfaces of each class, in order.
    pub fn superinterface_lists(&self) -> &[Items<u32>]
        ensures { result.now ≡ map (λ k. filter_map (find_class self.now) (superinterface_names k)) self.now }
    {
        &self.names.interfaces
    }

    /// Whether the class is an interface.
    pub fn is_interface(&self, number: u32) -> bool
        requires { number < length self.now }
        ensures { result ≡ is_interface self.now number }
    {
        has_flags(self.classes[number as usize].flags, ACC_INTERFACE)
    }

    /// The symbol of the text of this index in the class's pool; that of the empty text where it is that of no text.
    pub fn symbol(&self, class: u32, index: u16) -> u32
        requires { class < length self.now }
        ensures { (c : ClassFile) → slice_get self.now class ≡ Some c → symbol self.now (text_at c.pool index) ≡ Some result }
    {
        text_symbol(&self.classes, &self.symbols, class as usize, index)
    }

    /// The symbol of a text, if the classes have it.
    pub fn symbol_of(&self, text: &[u16]) -> Option<u32>
        ensures { result ≡ symbol self.now text.now }
    {
        self.symbols.texts.number(text)
    }

    /// How many symbols there are.
    pub fn symbol_count(&self) -> u32
        ensures { result ≡ length (texts self.now) }
    {
        self.symbols.texts.count()
    }

    /// The text of a symbol.
    pub fn text(&self, number: u32) -> &[u16]
        requires { number < length (texts self.now) }
        ensures text { slice_get (texts self.now) number ≡ Some result.now }
        ensures symbol { symbol self.now result.now ≡ Some number }
    {
        self.symbols.texts.text(number)
    }

    /// The number of the first class whose name is the text of a symbol.
    pub fn class_of(&self, number: u32) -> Option<u32>
        ensures { (text : List ℕ) → symbol self.now text ≡ Some number → result ≡ find_class self.now text }
    {
        let number = number as usize;
        if number < self.names.classes.len() {
            self.names.classes[number]
        } else {
            None
        }
    }

    /// The number of the first class of the name that the Class entry of this index in the class's pool gives.
    pub fn class_named(&self, class: u32, index: u16) -> Option<u32>
        requires { class < length self.now }
        ensures { (c : ClassFile) → slice_get self.now class ≡ Some c → result ≡ find_class self.now (class_text c.pool index) }
    {
        class_named(
            &self.classes,
            &self.symbols,
            &self.names.classes,
            class as usize,
            index,
        )
    }

    /// The field that the class declares of the name and the descriptor of these symbols.
    pub fn declared_field(&self, class: u32, name: u32, descriptor: u32) -> Option<Place>
        ensures { (s : Signature) → symbol self.now s.name ≡ Some name → symbol self.now s.descriptor ≡ Some descriptor
            → result ≡ declared_field self.now s class }
    {
        place_in(&self.members.fields, (name, descriptor), class)
    }

    /// The method that the class declares of the name and the descriptor of these symbols.
    pub fn declared_method(&self, class: u32, name: u32, descriptor: u32) -> Option<Place>
        ensures { (s : Signature) → symbol self.now s.name ≡ Some name → symbol self.now s.descriptor ≡ Some descriptor
            → result ≡ declared_method self.now s class }
    {
        place_in(&self.members.methods, (name, descriptor), class)
    }

    /// Whether both classes are of one package.
    pub fn are_in_one_package(&self, class: u32, other: u32) -> bool
        ensures { result ≡ are_in_one_package self.now class other }
    {
        let class = class as usize;
        let other = other as usize;
        let packages = &self.names.packages;
        class < packages.len() && other < packages.len() && packages[class] == packages[other]
    }
}
