//! The resolved program with its tables.
ghost use Rattle.std.specs.Prelude.{◌≡◌, ◌<◌, [], length, map, option_map, Some, None, IfOk, IfSome, slice_get};
ghost use Rattle.std.specs.Option.{option_copied, IsSomeAnd};
ghost use Rattle.std.specs.List.{AllByRecursion};
ghost use Rattle.bytecode_model.specs.Lists.{onto};
ghost use Rattle.class_pool.specs.Found.{code_of};
ghost use Rattle.class_lookup.specs.Hierarchy.{find_class, superclass, superinterfaces, extends, IsAcyclic};
ghost use Rattle.class_lookup.specs.Lookup.{method_at, find_field, find_method};
ghost use Rattle.class_lookup.specs.Selection.{select, special};
ghost use Rattle.program_tables.specs.Numbers.{methods_by_number, method_number, method_text, fields_by_number, field_number, static_fields, static_number};
ghost use Rattle.program_tables.specs.Numbers.{instance_fields, instance_number, types_of, strings_of};
ghost use Rattle.program_tables.specs.Meanings.{declared_seen, HasShape};
ghost use Rattle.program_tables.specs.Resolved.{at_method, declared_at, resolved};
ghost use Rattle.program_tables.specs.Resolving.{IsResolved};
ghost use Rattle.program_tables.specs.Tables.{kind_seen, HasFileLimits};
ghost use Rattle.program_tables.specs.Entries.{meaning_at, meaning_seen};
ghost use Rattle.resolved_program.specs.Resolved.{AreResolved};

use crate::instances::Instances;
use crate::names::member_text;
use crate::tables::{ProgramTables, tables_of};
use crate::types::{TypeName, name_at};
use base::{Items, NoMemory};
use class_hierarchy::{Hierarchy, Place};
use class_lookup::{ClassFile, Classes};
use class_pool::{Code, Member};
use class_rules::laws::methods_have_code;
use program_tables::laws::components_are_types;
use program_tables::{
    Declared, Meaning, Members, Mentioned, MethodShape, Strings, Types, field_type_at, meaning_at,
};
use std::alloc::Global;
use std::marker::Model;

/// A resolved program: its classes, with tables of their members, types and strings by number. Contracts see it as the list of
/// the classes.
#[derive(Drop)]
pub struct Program {
    classes: Hierarchy,
    members: Members,
    mentioned: Mentioned,
    instances: Instances,
    entries: Vec<Items<Meaning>>,
    shapes: Vec<MethodShape>,
    held: Vec<Items<Option<Declared>>>,
}

impl Model for Program {
    ghost use Rattle.std.specs.Prelude.{◌≡◌, List, map};
    ghost use Rattle.class_pool.specs.declared.class.ClassFile.{ClassFile};
    ghost use Rattle.program_tables.specs.Numbers.{methods_by_number, fields_by_number, static_fields, types_of, strings_of};
    ghost use Rattle.program_tables.specs.Tables.{kind_seen};
    ghost use Rattle.resolved_program.specs.Instances.{own_lists, instance_counts};
    ghost use Rattle.program_tables.specs.Entries.{all_meanings, meanings_seen};
    ghost use Rattle.program_tables.specs.Meanings.{field_types_in, types_seen, AreShapes};
    ghost use Rattle.resolved_program.specs.Resolved.{AreResolved};

    ghost Value = { List ClassFile };

    ghost view = { λ a. a.classes };

    ghost invariant = { λ a. AreResolved a.classes
        × (a.members.methods ≡ methods_by_number a.classes)
        × (a.members.fields ≡ fields_by_number a.classes)
        × (a.members.statics ≡ static_fields a.classes)
        × (map kind_seen a.mentioned.types ≡ types_of a.classes)
        × (a.mentioned.strings ≡ strings_of a.classes)
        × (a.instances.own.items ≡ own_lists a.classes)
        × (a.instances.counts.items ≡ instance_counts a.classes)
        × (map meanings_seen a.entries.items ≡ all_meanings a.classes)
        × AreShapes a.classes a.shapes.items
        × (map types_seen a.held.items ≡ map (field_types_in a.classes) a.classes) };
}

/// No resolved class is above itself. It does nothing.
fn have_no_cycle(classes: &[ClassFile])
    requires { AreResolved classes.now }
    ensures { IsAcyclic classes.now }
{}

/// Resolved classes have as few entries and bytes as class files have. It does nothing.
fn have_bounds(classes: &Hierarchy)
    requires { AreResolved classes.now }
    ensures { AllByRecursion HasFileLimits classes.now }
{
    methods_have_code();
}

impl Program {
    /// The program that these classes are, which are resolved.
    pub fn new(alloc: Global, classes: Vec<ClassFile>) -> Result<Self, NoMemory>
        requires { AreResolved classes.items }
        ensures { IfOk result (λ made. made ≡ classes.items) }
    {
        if classes.len() > u32::MAX as usize {
            return Err(NoMemory);
        }
        have_no_cycle(&classes);
        let listed = Classes::new(alloc, classes)?;
        let hierarchy = Hierarchy::new(alloc, listed)?;
        let made = Self::from_hierarchy(alloc, hierarchy)?;
        Ok(made)
    }

    /// The program that these classes are, which are resolved, with what stands above each.
    pub fn from_hierarchy(alloc: Global, classes: Hierarchy) -> Result<Self, NoMemory>
        requires { AreResolved classes }
        ensures { IfOk result (λ made. made ≡ classes) }
    {
        have_bounds(&classes);
        let ProgramTables {
            by_number,
            by_entry,
        } = tables_of(alloc, &classes)?;
        Ok(Program {
            classes,
            members: by_number.members,
            mentioned: by_entry.mentioned,
            instances: by_entry.instances,
            entries: by_entry.entries,
            shapes: by_number.shapes,
            held: by_number.held,
        })
    }

    /// The classes are resolved. It does nothing; a caller whose proof needs the fact calls it.
    pub fn is_resolved(&self)
        ensures { IsResolved self.now }
    {
        // The contract alone speaks of it.
        let _ = &self.classes;
    }

    /// The classes have as few entries and bytes as class files have. It does nothing; a caller whose proof needs the fact calls it.
    pub fn is_within_bounds(&self)
        ensures { AllByRecursion HasFileLimits self.now }
    {
        self.is_resolved();
        methods_have_code();
    }

    /// The classes, with what stands above each and their members by name.
    pub fn hierarchy(&self) -> &Hierarchy
        ensures { result.now ≡ self.now }
    {
        &self.classes
    }

    /// How many classes there are.
    pub fn class_count(&self) -> u32
        ensures { result ≡ length self.now }
    {
        self.classes.classes().class_count()
    }

    /// The class of this number.
    pub fn class(&self, number: u32) -> &ClassFile
        requires { number < length self.now }
        ensures { slice_get self.now number ≡ Some result.now }
    {
        self.classes.classes().class(number)
    }

    /// The number of the class of this name.
    pub fn find_class(&self, name: &[u16]) -> Option<u32>
        ensures { result ≡ find_class self.now name.now }
    {
        self.classes.classes().find_class(name)
    }

    /// The number of the class's direct superclass.
    pub fn superclass(&self, number: u32) -> Option<u32>
        requires { number < length self.now }
        ensures { result ≡ superclass self.now number }
    {
        self.classes.classes().superclass(number)
    }

    /// The numbers of the class's direct superinterfaces, in order.
    pub fn superinterfaces(&self, number: u32) -> &[u32]
        requires { number < length self.now }
        ensures { result.now ≡ superinterfaces self.now number }
    {
        self.classes.classes().superinterfaces(number)
    }

    /// Whether the first class is the second, or has it as a superclass or a superinterface.
    pub fn extends(&self, class: u32, other: u32) -> bool
        requires { class < length self.now }
        ensures { result ≡ extends self.now class other }
    {
        self.classes.extends(class, other)
    }

    /// The number of the field of this name and descriptor, looked up from the class (5.4.3.2).
    pub fn find_field(&self, class: u32, name: &[u16], descriptor: &[u16]) -> Option<u32>
        requires { class < length self.now }
        ensures { result ≡ onto (find_field self.now class (record { name = name.now; descriptor = descriptor.now })) (field_number self.now) }
    {
        match self.classes.find_field(class, name, descriptor) {
            Some(place) => self.members.fields.number(place),
            None => None,
        }
    }

    /// The number of the method of this name and descriptor, looked up from the class (5.4.3.3, 5.4.3.4).
    pub fn find_method(&self, class: u32, name: &[u16], descriptor: &[u16]) -> Option<u32>
        requires { class < length self.now }
        ensures { result ≡ onto (find_method self.now class (record { name = name.now; descriptor = descriptor.now })) (method_number self.now) }
    {
        match self.classes.find_method(class, name, descriptor) {
            Some(place) => self.members.methods.number(place),
            None => None,
        }
    }

    /// The number of the method that is selected for a receiver of this class and the resolved method (6.5.invokevirtual,
    /// 6.5.invokeinterface).
    pub fn select(&self, receiver: u32, method: u32) -> Option<u32>
        requires class { receiver < length self.now }
        requires method { method < length (methods_by_number self.now) }
        ensures { result ≡ at_method self.now method None (λ p. onto (select self.now receiver p) (method_number self.now)) }
    {
        let resolved = self.members.methods.at(method);
        match self.classes.select(receiver, resolved) {
            Some(place) => self.members.methods.number(place),
            None => None,
        }
    }

    /// The number of the method that `invokespecial` runs in a method of the class `current`, where the resolved one is named
    /// through the class `named` (6.5.invokespecial).
    pub fn special(&self, current: u32, named: u32, method: u32) -> Option<u32>
        requires class { current < length self.now }
        requires method { method < length (methods_by_number self.now) }
        ensures { result ≡ at_method self.now method None (λ p. onto (special self.now current named p) (method_number self.now)) }
    {
        let resolved = self.members.methods.at(method);
        match self.classes.special(current, named, resolved) {
            Some(place) => self.members.methods.number(place),
            None => None,
        }
    }

    /// How many methods there are.
    pub fn method_count(&self) -> u32
        ensures { result ≡ length (methods_by_number self.now) }
    {
        self.members.methods.count()
    }

    /// The class of the method of this number, and its place in the class's list of methods. Those with code come first.
    pub fn method(&self, number: u32) -> Place
        requires { number < length (methods_by_number self.now) }
        ensures { slice_get (methods_by_number self.now) number ≡ Some result }
    {
        self.members.methods.at(number)
    }

    /// The number of the method at a place of a class's list of methods.
    pub fn method_number(&self, place: Place) -> Option<u32>
        ensures { result ≡ method_number self.now place }
    {
        self.members.methods.number(place)
    }

    /// The class of this number, if there is one.
    fn class_at(&self, number: u32) -> Option<&ClassFile>
        ensures { option_copied result ≡ slice_get self.now number }
    {
        if number < self.classes.classes().class_count() {
            Some(self.classes.classes().class(number))
        } else {
            None
        }
    }

    /// The method at a place of a class's list of methods, if there is one.
    pub(crate) fn method_at(&self, place: Place) -> Option<&Member>
        ensures { option_copied result ≡ method_at self.now place }
    {
        let owner = self.class_at(place.class)?;
        owner.methods.as_slice().get(place.index)
    }

    /// The code of the method of this number, if it has code.
    pub fn code(&self, number: u32) -> Option<&Code>
        requires { number < length (methods_by_number self.now) }
        ensures code { option_copied result ≡ onto (onto (slice_get (methods_by_number self.now) number) (method_at self.now)) code_of }
        ensures small { IfSome result (λ code. length code.now.code < 65536) }
    {
        self.is_resolved();
        methods_have_code();
        self.method_at(self.method(number))?.code()
    }

    /// The text of the method of this number: its class's name, a dot, its name and its descriptor, as bytes (4.4.7).
    pub fn method_name(&self, alloc: Global, number: u32) -> Result<Vec<u8>, NoMemory>
        requires { number < length (methods_by_number self.now) }
        ensures { IfOk result (λ text. text.items ≡ at_method self.now number [] (method_text self.now)) }
    {
        let place = self.method(number);
        match self.class_at(place.class) {
            Some(class) => match self.method_at(place) {
                Some(method) => member_text(alloc, class, method),
                None => Ok(Vec::new(alloc)),
            },
            None => Ok(Vec::new(alloc)),
        }
    }

    /// What the method of this number is apart from its code (4.3.3, 4.6).
    pub fn shape(&self, number: u32) -> &MethodShape
        requires { number < length (methods_by_number self.now) }
        ensures { IsSomeAnd (slice_get (resolved self.now).methods number) (HasShape result.now) }
    {
        &self.shapes[number as usize]
    }

    /// How many fields there are.
    pub fn field_count(&self) -> u32
        ensures { result ≡ length (fields_by_number self.now) }
    {
        self.members.fields.count()
    }

    /// The class of the field of this number, and its place in the class's list of fields.
    pub fn field(&self, number: u32) -> Place
        requires { number < length (fields_by_number self.now) }
        ensures { slice_get (fields_by_number self.now) number ≡ Some result }
    {
        self.members.fields.at(number)
    }

    /// What the field at a place of a class's list of fields holds (4.3.2, 4.5).
    pub fn field_type(&self, place: Place) -> Option<Declared>
        ensures { option_map declared_seen result ≡ declared_at self.now place }
    {
        field_type_at(&self.held, place)
    }

    /// How many static fields there are.
    pub fn static_count(&self) -> u32
        ensures { result ≡ length (static_fields self.now) }
    {
        self.members.statics.count()
    }

    /// The class of a static field, by its index among the static fields, and its place in the class's list of fields.
    pub fn static_field(&self, index: u32) -> Place
        requires { index < length (static_fields self.now) }
        ensures { slice_get (static_fields self.now) index ≡ Some result }
    {
        self.members.statics.at(index)
    }

    /// The index of a field among the static fields.
    pub fn static_index(&self, place: Place) -> Option<u32>
        ensures { result ≡ static_number self.now place }
    {
        self.members.statics.number(place)
    }

    /// How many instance fields an object of the class has, those that its superclasses declare included.
    pub fn instance_field_count(&self, class: u32) -> u32
        requires { class < length self.now }
        ensures { result ≡ length (instance_fields self.now class) }
    {
        self.instances.count(&self.classes, class)
    }

    /// The instance field of this index among those of a class, which begin with those of its superclass: the class that
    /// declares it, and its place in that class's list of fields.
    pub fn instance_field(&self, class: u32, index: u32) -> Place
        requires class { class < length self.now }
        requires index { index < length (instance_fields self.now class) }
        ensures { slice_get (instance_fields self.now class) index ≡ Some result }
    {
        self.instances.at(&self.classes, class, index)
    }

    /// The index of a field among the instance fields of the class that declares it.
    pub fn instance_index(&self, place: Place) -> Option<u32>
        ensures { result ≡ instance_number self.now place }
    {
        self.instances.number(&self.classes, place)
    }

    /// How many types there are: the arrays of numbers, the classes, and the arrays of references that instructions name.
    pub fn type_count(&self) -> u32
        ensures { result ≡ length (types_of self.now) }
    {
        self.mentioned.types.count()
    }

    /// The types by number, as what their objects are.
    pub fn kinds(&self) -> &Types
        ensures { map kind_seen result.now ≡ types_of self.now }
    {
        &self.mentioned.types
    }

    /// The string literals by number.
    pub fn strings(&self) -> &Strings
        ensures { result.now ≡ strings_of self.now }
    {
        &self.mentioned.strings
    }

    /// What an entry of a class means; nothing where there is no such entry.
    pub(crate) fn meaning(&self, class: u32, index: u32) -> Meaning
        requires { class < length self.now }
        ensures { (c : ClassFile) → slice_get self.now class ≡ Some c → meaning_seen result ≡ meaning_at self.now class c index }
    {
        meaning_at(self.entries[class as usize].as_slice(), index)
    }
}
