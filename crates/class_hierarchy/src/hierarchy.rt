//! Classes with tables of what stands above each.

ghost use Rattle.std.specs.Prelude.{◌≡◌, ℕ, ◌<◌, List, Some, ◌++◌, length, map, slice_index_or, nat_eq, IfOk};
ghost use Rattle.std.specs.List.{IsDistinct};
ghost use Rattle.class_lookup.specs.Hierarchy.{is_subclass, extends, supertypes, superclasses, all_superinterfaces, IsAcyclic};
ghost use Rattle.class_lookup.specs.Lists.{first_some};
ghost use Rattle.class_lookup.specs.Lookup.{declared_method, find_field, find_method};
ghost use Rattle.class_lookup.specs.Parts.{Signature, is_init};
ghost use Rattle.class_lookup.specs.Selection.{select, is_of_superclass, special};
ghost use Rattle.number_sets.specs.Numbers.{IsSameSearch};
ghost use Rattle.class_lookup.specs.Symbols.{symbol};
ghost use Rattle.class_hierarchy.specs.EachOnce.{each_once};

use crate::above::{Above, above_of};
use crate::marks::{field_marks, method_marks};
use crate::members::{first_field, first_method, named_at};
use crate::receivers::{Resolved, places_for};
use crate::selecting::{first_instance, first_overriding, first_public};
use base::NoMemory;
use class_lookup::laws::members_have_symbols;
use class_lookup::parts::has_flags;
use class_lookup::{Classes, Place};
use descriptors::names::is_instance_initializer;
use number_sets::bits::BitRows;
use std::alloc::Global;
use std::marker::Model;

/// The flag of a class whose `invokespecial` instructions look superclasses up (JVM Specification SE 8, table 4.1-B).
const ACC_SUPER: u16 = 0x0020;

/// Classes of which none is its own superclass or superinterface, with tables of what stands above each. Contracts see it as the
/// list of the classes.
#[derive(Drop)]
pub struct Hierarchy {
    classes: Classes,
    above: Above,
    field_marks: BitRows,
    method_marks: BitRows,
}

impl Model for Hierarchy {
    ghost use Rattle.std.specs.Prelude.{List};
    ghost use Rattle.class_pool.specs.declared.class.ClassFile.{ClassFile};
    ghost use Rattle.class_lookup.specs.Hierarchy.{IsAcyclic};
    ghost use Rattle.class_hierarchy.specs.Tables.{AreAbove};
    ghost use Rattle.class_hierarchy.specs.Marks.{AreMarked};

    ghost Value = { List ClassFile };

    ghost view = { λ a. a.classes };

    ghost invariant = { λ a. IsAcyclic a.classes
        × AreAbove a.classes a.above
        × AreMarked (λ k. k.fields) a.classes a.field_marks
        × AreMarked (λ k. k.methods) a.classes a.method_marks };
}

impl Hierarchy {
    /// The tables of these classes.
    pub fn new(alloc: Global, classes: Classes) -> Result<Self, NoMemory>
        requires { IsAcyclic classes }
        ensures { IfOk result (λ made. made ≡ classes) }
    {
        let above = above_of(alloc, &classes)?;
        let field_marks = field_marks(alloc, &classes)?;
        let method_marks = method_marks(alloc, &classes)?;
        Ok(Hierarchy {
            classes,
            above,
            field_marks,
            method_marks,
        })
    }

    /// The classes.
    pub fn classes(&self) -> &Classes
        ensures { result.now ≡ self.now }
    {
        &self.classes
    }

    /// None of them is above itself. It does nothing; a caller whose proof needs the fact calls it.
    pub fn is_without_cycle(&self)
        ensures { IsAcyclic self.now }
    {
        // The contract alone speaks of it.
        let _ = &self.classes;
    }

    /// Whether the first class is the second, or has it as a superclass or a superinterface.
    pub fn extends(&self, class: u32, other: u32) -> bool
        requires { class < length self.now }
        ensures { result ≡ extends self.now class other }
    {
        self.above.supertypes[class as usize].contains(other)
    }

    /// The class with all its superclasses and superinterfaces, each once, in the order in which they are first met.
    pub fn supertypes(&self, class: u32) -> &[u32]
        requires { class < length self.now }
        ensures list { result.now ≡ each_once (supertypes self.now class) }
        ensures once { IsDistinct nat_eq result.now }
        ensures search { IsSameSearch result.now (supertypes self.now class) }
    {
        let list = &self.above.supertypes[class as usize];
        list.is_distinct();
        list.as_slice()
    }

    /// The method of this name and descriptor that the class declares.
    pub fn declared_method(&self, class: u32, name: &[u16], descriptor: &[u16]) -> Option<Place>
        requires { class < length self.now }
        ensures { result ≡ declared_method self.now (record { name = name.now; descriptor = descriptor.now }) class }
    {
        members_have_symbols();
        let name = self.classes.symbol_of(name)?;
        let descriptor = self.classes.symbol_of(descriptor)?;
        self.classes.declared_method(class, name, descriptor)
    }

    /// Whether the second class is a superclass of the first.
    pub fn is_subclass(&self, class: u32, other: u32) -> bool
        requires { class < length self.now }
        ensures { result ≡ is_subclass self.now class other }
    {
        match self.classes.superclass(class) {
            Some(upper) => self.above.superclasses[upper as usize]
                .as_slice()
                .contains(&other),
            None => false,
        }
    }

    /// The field of the name and the descriptor of these symbols, looked up from the class (5.4.3.2).
    pub fn find_field_by(&self, class: u32, name: u32, descriptor: u32) -> Option<Place>
        requires { class < length self.now }
        ensures { (s : Signature) → symbol self.now s.name ≡ Some name → symbol self.now s.descriptor ≡ Some descriptor → result ≡ find_field self.now class s }
    {
        let list = self.above.supertypes[class as usize].as_slice();
        first_field(&self.classes, &self.field_marks, list, name, descriptor)
    }

    /// The field of this name and descriptor, looked up from the class (5.4.3.2).
    pub fn find_field(&self, class: u32, name: &[u16], descriptor: &[u16]) -> Option<Place>
        requires { class < length self.now }
        ensures { result ≡ find_field self.now class (record { name = name.now; descriptor = descriptor.now }) }
    {
        members_have_symbols();
        let name = self.classes.symbol_of(name)?;
        let descriptor = self.classes.symbol_of(descriptor)?;
        self.find_field_by(class, name, descriptor)
    }

    /// Whether a symbol is that of the name of instance initialization methods.
    fn is_initializer(&self, name: u32) -> bool
        ensures { (s : Signature) → symbol self.now s.name ≡ Some name → result ≡ is_init s }
    {
        name < self.classes.symbol_count() && is_instance_initializer(self.classes.text(name))
    }

    /// The method of the name and the descriptor of these symbols, looked up in a class, its superclasses and superinterfaces.
    fn find_in_class(&self, class: u32, name: u32, descriptor: u32) -> Option<Place>
        requires { class < length self.now }
        ensures { (s : Signature) → symbol self.now s.name ≡ Some name → symbol self.now s.descriptor ≡ Some descriptor
            → result ≡ first_some (map (declared_method self.now s) (superclasses self.now class ++ all_superinterfaces self.now class)) }
    {
        let index = class as usize;
        let list = self.above.superclasses[index].as_slice();
        match first_method(&self.classes, &self.method_marks, list, name, descriptor) {
            Some(place) => Some(place),
            None => {
                let list = self.above.inherited[index].as_slice();
                first_method(&self.classes, &self.method_marks, list, name, descriptor)
            }
        }
    }

    /// The method of the name and the descriptor of these symbols, looked up from the class (5.4.3.3, 5.4.3.4).
    pub fn find_method_by(&self, class: u32, name: u32, descriptor: u32) -> Option<Place>
        requires { class < length self.now }
        ensures { (s : Signature) → symbol self.now s.name ≡ Some name → symbol self.now s.descriptor ≡ Some descriptor
            → result ≡ find_method self.now class s }
    {
        if self.is_initializer(name) {
            self.classes.declared_method(class, name, descriptor)
        } else if self.classes.is_interface(class) {
            let list = self.above.interfaces[class as usize].as_slice();
            first_method(&self.classes, &self.method_marks, list, name, descriptor)
        } else {
            self.find_in_class(class, name, descriptor)
        }
    }

    /// The method of this name and descriptor, looked up from the class (5.4.3.3, 5.4.3.4).
    pub fn find_method(&self, class: u32, name: &[u16], descriptor: &[u16]) -> Option<Place>
        requires { class < length self.now }
        ensures { result ≡ find_method self.now class (record { name = name.now; descriptor = descriptor.now }) }
    {
        members_have_symbols();
        let name = self.classes.symbol_of(name)?;
        let descriptor = self.classes.symbol_of(descriptor)?;
        self.find_method_by(class, name, descriptor)
    }

    /// The method that is selected for a receiver of this class and the resolved method (6.5.invokevirtual,
    /// 6.5.invokeinterface).
    pub fn select(&self, receiver: u32, resolved: Place) -> Option<Place>
        requires { receiver < length self.now }
        ensures { result ≡ select self.now receiver resolved }
    {
        let method = named_at(&self.classes, resolved)?;
        let list = self.above.superclasses[receiver as usize].as_slice();
        if self.classes.is_interface(resolved.class) {
            first_public(&self.classes, &self.method_marks, list, &method)
        } else {
            first_overriding(&self.classes, &self.method_marks, list, &method)
        }
    }

    /// The methods that are selected for receivers of these classes and the resolved method, in the order of the classes. The
    /// classes above them are gone through once for all.
    pub fn select_each(
        &self,
        alloc: Global,
        receivers: &[u32],
        resolved: Place,
    ) -> Result<Vec<Option<Place>>, NoMemory>
        requires { (i : ℕ) → i < length receivers.now → slice_index_or receivers.now i 0 < length self.now }
        ensures { IfOk result (λ places. places.items ≡ map (λ c. select self.now c resolved) receivers.now) }
    {
        match named_at(&self.classes, resolved) {
            Some(method) => {
                let tables = Resolved {
                    classes: &self.classes,
                    superclasses: &self.above.superclasses,
                    method,
                    of_interface: self.classes.is_interface(resolved.class),
                };
                places_for(alloc, &tables, receivers)
            }
            None => Ok(vec![in alloc; None; receivers.len()]?),
        }
    }

    /// Whether `invokespecial` treats a method of the name of this symbol specially.
    fn is_of_superclass(&self, current: u32, named: u32, name: u32) -> bool
        requires { current < length self.now }
        ensures { (s : Signature) → symbol self.now s.name ≡ Some name → result ≡ is_of_superclass self.now current named s }
    {
        !self.is_initializer(name)
            && has_flags(self.classes.class(current).flags, ACC_SUPER)
            && self.is_subclass(current, named)
    }

    /// The method that `invokespecial` runs in a method of the class `current`, where the resolved one is named through the
    /// class `named` (6.5.invokespecial).
    pub fn special(&self, current: u32, named: u32, resolved: Place) -> Option<Place>
        requires { current < length self.now }
        ensures { result ≡ special self.now current named resolved }
    {
        let method = named_at(&self.classes, resolved)?;
        if self.is_of_superclass(current, named, method.name) {
            let upper = self.classes.superclass(current)?;
            let list = self.above.superclasses[upper as usize].as_slice();
            first_instance(&self.classes, &self.method_marks, list, &method)
        } else {
            Some(resolved)
        }
    }
}
