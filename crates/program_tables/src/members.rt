//! Members by number.
ghost use Rattle.std.specs.Prelude.{◌≡◌, ◌++◌, ◌<◌, length, Some, IfOk, OnOk, slice_get};
ghost use Rattle.bytecode_model.specs.Lists.{index_of};
ghost use Rattle.class_lookup.specs.Lookup.{same_place};
ghost use Rattle.program_tables.specs.Numbers.{methods_by_number, fields_by_number, static_fields, own_instance_fields};
ghost use Rattle.program_tables.specs.Members.{members_in, takes, own_members, chosen, AreNumbered};

use base::NoMemory;
use class_lookup::parts::has_flags;
use class_lookup::{ClassFile, Classes, Place};
use class_pool::Member;
use class_rules::flags::ACC_STATIC;
use indexmap::IndexMap;
use std::alloc::Global;
use std::marker::Model;

/// Which members a table has.
#[derive(Clone, Copy)]
pub(crate) enum Which {
    Field,
    StaticField,
    InstanceField,
    MethodWithCode,
    OtherMethod,
}

/// Members by number, each a class's number and a place in its list of fields or of methods, with the number of each. Contracts
/// see them as the list.
#[derive(Drop)]
pub struct Places {
    places: Vec<(u32, usize)>,
    numbers: IndexMap<(u32, usize), u32>,
}

impl Model for Places {
    ghost use Rattle.std.specs.Prelude.{ℕ, List, ◌<◌, ◌^◌, length};
    ghost use Rattle.program_tables.specs.Members.{AreNumbered};

    ghost Value = { List (ℕ × ℕ) };

    ghost view = { λ a. a.places.items };

    ghost invariant = { λ a. (length a.places.items < 2 ^ 32)
        × AreNumbered a.numbers.entries a.places.items };
}

impl Places {
    /// These members, by number.
    pub(crate) fn new(alloc: Global, places: Vec<(u32, usize)>) -> Result<Self, NoMemory>
        ensures { IfOk result (λ made. made ≡ places.items) }
    {
        if places.len() > u32::MAX as usize {
            return Err(NoMemory);
        }
        let numbers = numbers_of(alloc, &places)?;
        Ok(Places { places, numbers })
    }

    /// How many there are.
    pub fn count(&self) -> u32
        ensures { result ≡ length self.now }
    {
        self.places.len() as u32
    }

    /// The member of this number.
    pub fn at(&self, number: u32) -> Place
        requires { number < length self.now }
        ensures { slice_get self.now number ≡ Some result }
    {
        let (class, index) = self.places[number as usize];
        Place { class, index }
    }

    /// The number of a member.
    pub fn number(&self, place: Place) -> Option<u32>
        ensures { result ≡ index_of (same_place place) self.now }
    {
        self.numbers.get(&(place.class, place.index)).copied()
    }
}

/// The number of each of the members, that of the first of equal ones.
fn numbers_of(
    alloc: Global,
    places: &[(u32, usize)],
) -> Result<IndexMap<(u32, usize), u32>, NoMemory>
    requires { length places.now < 4294967296 }
    ensures { IfOk result (λ numbers. AreNumbered numbers.entries places.now) }
{
    let mut numbers = IndexMap::new(alloc);
    for (i, place) in places.iter().enumerate() {
        if numbers.get(place).is_none() {
            numbers.insert(*place, i as u32)?;
        }
    }
    Ok(numbers)
}

/// The list of which such a member is one.
pub(crate) fn members_in(which: Which, class: &ClassFile) -> &[Member]
    ensures { result.now ≡ members_in which class.now }
{
    match which {
        Which::Field | Which::StaticField | Which::InstanceField => class.fields.as_slice(),
        Which::MethodWithCode | Which::OtherMethod => class.methods.as_slice(),
    }
}

/// Whether a member is such a one.
pub(crate) fn takes(which: Which, member: &Member) -> bool
    ensures { result ≡ takes which member.now }
{
    match which {
        Which::Field => true,
        Which::StaticField => has_flags(member.flags, ACC_STATIC),
        Which::InstanceField => !has_flags(member.flags, ACC_STATIC),
        Which::MethodWithCode => member.code().is_some(),
        Which::OtherMethod => member.code().is_none(),
    }
}

/// Such members of a class, put behind others.
fn add_own(
    places: &mut Vec<(u32, usize)>,
    which: Which,
    number: u32,
    class: &ClassFile,
) -> Result<(), NoMemory>
    ensures { OnOk result (places.new.items ≡ places.old.items ++ own_members which number 0 (members_in which class.now)) }
{
    for (i, member) in members_in(which, class).iter().enumerate() {
        if takes(which, member) {
            places.push((number, i))?;
        }
    }
    Ok(())
}

/// Such members of all classes, put behind others.
pub(crate) fn add_members(
    places: &mut Vec<(u32, usize)>,
    which: Which,
    classes: &Classes,
) -> Result<(), NoMemory>
    ensures { OnOk result (places.new.items ≡ places.old.items ++ chosen which classes.now) }
{
    for number in 0..classes.class_count() {
        add_own(places, which, number, classes.class(number))?;
    }
    Ok(())
}

/// The methods by number: those with code, then the others.
fn methods_of(alloc: Global, classes: &Classes) -> Result<Places, NoMemory>
    ensures { IfOk result (λ made. made ≡ methods_by_number classes.now) }
{
    let mut places = Vec::new(alloc);
    add_members(&mut places, Which::MethodWithCode, classes)?;
    add_members(&mut places, Which::OtherMethod, classes)?;
    let made = Places::new(alloc, places)?;
    Ok(made)
}

/// The members of one kind, in the order of their numbers.
fn chosen_of(alloc: Global, which: Which, classes: &Classes) -> Result<Places, NoMemory>
    ensures { IfOk result (λ made. made ≡ chosen which classes.now) }
{
    let mut places = Vec::new(alloc);
    add_members(&mut places, which, classes)?;
    let made = Places::new(alloc, places)?;
    Ok(made)
}

/// The instance fields that a class declares.
pub fn instance_fields_of(alloc: Global, classes: &Classes, class: u32) -> Result<Places, NoMemory>
    requires { class < length classes.now }
    ensures { IfOk result (λ made. made ≡ own_instance_fields classes.now class) }
{
    let mut places = Vec::new(alloc);
    add_own(
        &mut places,
        Which::InstanceField,
        class,
        classes.class(class),
    )?;
    let made = Places::new(alloc, places)?;
    Ok(made)
}

/// The members of classes by number; those of the static fields are their indexes.
#[derive(Drop)]
pub struct Members {
    pub methods: Places,
    pub fields: Places,
    pub statics: Places,
}

/// The tables of the members of these classes.
pub fn members_of(alloc: Global, classes: &Classes) -> Result<Members, NoMemory>
    ensures methods { IfOk result (λ made. made.methods ≡ methods_by_number classes.now) }
    ensures fields { IfOk result (λ made. made.fields ≡ fields_by_number classes.now) }
    ensures statics { IfOk result (λ made. made.statics ≡ static_fields classes.now) }
{
    let methods = methods_of(alloc, classes)?;
    let fields = chosen_of(alloc, Which::Field, classes)?;
    let statics = chosen_of(alloc, Which::StaticField, classes)?;
    Ok(Members {
        methods,
        fields,
        statics,
    })
}
