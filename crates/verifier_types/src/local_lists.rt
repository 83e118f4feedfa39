//! Lists of types of local variables.
ghost use Rattle.std.specs.Prelude.{◌≡◌, ◌↔◌, ◌<◌, ◌≤◌, ◌^◌, ℕ, nat_lt, if◌then◌else◌, [], length, option_map, slice_get, Some, None, IsTrue, IfOk, IfSome};
ghost use Rattle.std.specs.Prelude.{OnOk, OnErr};
ghost use Rattle.bytecode_typing.specs.Assignable as typing;
ghost use Rattle.bytecode_typing.specs.Tests.{all_two};
ghost use Rattle.persistent_lists.specs.Tables.{list_at};
ghost use Rattle.verifier_types.specs.Seen.{type_seen, types_seen};
ghost use Rattle.verifier_types.specs.Locals.{lists_seen, with_types, filled, types_at, changed_types};
ghost use Rattle.program_tables.specs.Resolved.{resolved};
ghost use Rattle.verifier_types.specs.Compared.{are_assignable_numbers, AreAssignable};
ghost use Rattle.verifier_types.specs.Numbered.{type_numbered, IsNumberOf, IsOnlyNumber, AreNumbersOf, Grows, HoldsUpTo};

use crate::assignable::is_assignable;
use crate::types::VarType;
use base::NoMemory;
use class_hierarchy::Hierarchy;
use indexmap::IndexSet;
use persistent_lists::{Difference, SharedLists};
use std::alloc::Global;
use std::marker::Model;

/// The lists of types of local variables that a method's frames refer to, each at its number, in the order in which they were made, and
/// of as many types each as the method has local variables, with the classes that tell which type may stand for which. Contracts see
/// them (`LocalTable`). They share what they have alike, and parts of two lists of which it was found that the types of one may stand
/// for those of the other are not compared again.
#[derive(Drop)]
pub struct LocalLists<'a> {
    classes: &'a Hierarchy,
    /// The types, each at its number. The first is Top.
    types: IndexSet<VarType>,
    /// The lists of their numbers.
    lists: SharedLists,
}

impl<'a> Model for LocalLists<'a> {
    ghost use Rattle.verifier_types.specs.Locals.{LocalTable};
    ghost use Rattle.persistent_lists.specs.Answers.{AreKnown};
    ghost use Rattle.program_tables.specs.Resolved.{resolved};
    ghost use Rattle.verifier_types.specs.Compared.{AreAssignable};
    ghost use Rattle.verifier_types.specs.Numbered.{lists_numbered, AreNumbered};
    ghost use Rattle.std.specs.Coded.{codes};
    ghost use Rattle.verifier_types.specs.Codes.{kind_code};

    ghost Value = { LocalTable };

    ghost coded = { Prim.hlevel (codes, kind_code) };

    ghost view = { λ a. record { classes = a.classes.now; max_locals = a.lists.width; lists = lists_numbered a.types.keys a.lists.lists } };

    ghost invariant = { λ a. AreNumbered a.types.keys a.lists × AreKnown (AreAssignable (resolved a.classes.now) a.types.keys) a.lists };
}

/// The type of a number; Top where there is none.
fn type_at(types: &IndexSet<VarType>, number: u32) -> VarType
    ensures { result ≡ type_numbered types.now.keys number }
{
    match types.get_index(number as usize) {
        Some(item) => *item,
        None => VarType::Top,
    }
}

/// The number of a type, which gets one if it has none.
fn number_of(types: &mut IndexSet<VarType>, item: VarType) -> Result<u32, NoMemory>
    ensures more { Grows types.old.keys types.new.keys }
    ensures number { IfOk result (IsNumberOf types.new.keys item) }
{
    let (index, _) = types.insert_full(item)?;
    match u32::try_from(index) {
        Ok(number) => Ok(number),
        Err(_) => Err(NoMemory),
    }
}

/// The number of a type, if it has one.
fn number_found(types: &IndexSet<VarType>, item: VarType) -> Option<usize>
    ensures { IsOnlyNumber types.now.keys item result }
{
    // What `len` promises is that no type stands twice.
    let _count = types.len();
    types.get_index_of(&item)
}

/// The index, if there are local variables up to it.
fn each_index(count: u32, from: u32) -> Option<u32>
    ensures { result ≡ (if nat_lt from count then Some from else None) }
{
    if from < count { Some(from) } else { None }
}

/// An index, from `from` on, before which a list holds a number nowhere from `from` on; none where it holds it nowhere from there on.
fn position_in(lists: &SharedLists, list: u32, number: usize, from: u32) -> Option<u32>
    ensures found { HoldsUpTo (list_at lists.now list) number from result }
    ensures within { IfSome result (λ index. index < lists.now.width) }
{
    match u32::try_from(number) {
        Ok(number) => lists.position(list, number, from),
        Err(_) => each_index(lists.width(), from),
    }
}

/// Whether the first of two types of these numbers may stand for the second. What has no type stands for nothing.
fn stands_there(classes: &Hierarchy, types: &IndexSet<VarType>, found: Difference) -> bool
    ensures { result ≡ are_assignable_numbers (resolved classes.now) types.now.keys found }
{
    let from = types.get_index(found.first as usize);
    let to = types.get_index(found.second as usize);
    match (from, to) {
        (Some(from), Some(to)) => is_assignable(classes, *from, *to),
        (Some(_), None) => false,
        (None, _) => false,
    }
}

/// The numbers of types.
fn numbers_of(
    alloc: Global,
    types: &mut IndexSet<VarType>,
    locals: &[VarType],
) -> Result<Vec<u32>, NoMemory>
    ensures more { Grows types.old.keys types.new.keys }
    ensures numbers { IfOk result (λ numbers. AreNumbersOf types.new.keys locals.now numbers.items) }
{
    let mut numbers = Vec::new(alloc);
    for item in locals {
        let number = number_of(types, *item)?;
        numbers.push(number)?;
    }
    Ok(numbers)
}

impl<'a> LocalLists<'a> {
    /// No list yet, of so many types each.
    pub fn new(alloc: Global, classes: &'a Hierarchy, max_locals: u16) -> Result<Self, NoMemory>
        ensures { IfOk result (λ made. made ≡ record { classes = classes.now; max_locals = max_locals; lists = [] }) }
    {
        let mut types = IndexSet::new(alloc);
        types.insert(VarType::Top)?;
        Ok(LocalLists {
            classes,
            types,
            lists: SharedLists::new(alloc, u32::from(max_locals), 0),
        })
    }

    /// The classes that tell which type may stand for which.
    pub fn classes(&self) -> &'a Hierarchy
        ensures { result.now ≡ self.now.classes }
    {
        self.classes
    }

    /// Adds the list of these types, behind which Top stands, and answers its number. Where memory is wanting no list is added.
    pub fn push(&mut self, alloc: Global, locals: &[VarType]) -> Result<u32, NoMemory>
        requires { length locals.now ≤ self.old.max_locals }
        ensures list { OnOk result (self.new ≡ with_types self.old (filled self.old.max_locals (types_seen locals.now))) }
        ensures number { IfOk result (λ number. number ≡ length (lists_seen self.old)) }
        ensures unchanged { OnErr result (self.new ≡ self.old) }
    {
        let numbers = numbers_of(alloc, &mut self.types, locals)?;
        self.lists.push(&numbers)
    }

    /// Adds a list that is this one with another type at an index, and answers its number. Where the list has no such index, it is added as
    /// it is; where there is no such list, one of Top alone is added. Where memory is wanting no list is added.
    pub fn push_with(&mut self, list: u32, index: u32, item: VarType) -> Result<u32, NoMemory>
        ensures list { OnOk result (self.new ≡ with_types self.old (changed_types self.old list index (type_seen item))) }
        ensures number { IfOk result (λ number. number ≡ length (lists_seen self.old)) }
        ensures unchanged { OnErr result (self.new ≡ self.old) }
    {
        let number = number_of(&mut self.types, item)?;
        self.lists.push_with(list, index, number)
    }

    /// How many local variables there are: no list has a type from this index on.
    pub(crate) fn max_locals(&self) -> u32
        ensures count { result ≡ self.now.max_locals }
        ensures bound { result < 2 ^ 16 }
        ensures beyond { (n i : ℕ) → result ≤ i → slice_get (types_at (lists_seen self.now) n) i ≡ None }
    {
        self.lists.width()
    }

    /// Whether two lists are of the same types. One that isn't there is empty.
    pub(crate) fn are_same(&self, first: u32, second: u32) -> bool
        ensures { let ls = lists_seen self.now in IsTrue result ↔ (types_at ls first ≡ types_at ls second) }
    {
        // What `len` promises is that no type stands twice.
        let _count = self.types.len();
        self.lists.difference(first, second, 0).is_none()
    }

    /// Whether a local variable of the first type may stand for one of the second.
    pub(crate) fn is_assignable(&self, from: VarType, to: VarType) -> bool
        ensures { result ≡ typing.is_assignable (resolved self.now.classes) (type_seen from) (type_seen to) }
    {
        is_assignable(self.classes, from, to)
    }

    /// Whether each type of the first list may stand for that of the second; none where one of the lists isn't there, or no class at all.
    pub(crate) fn stand_apart(&mut self, first: u32, second: u32) -> Option<bool>
        ensures answer { let ls = lists_seen self.old in IfSome result
            (λ answer. answer ≡ all_two (typing.is_assignable (resolved self.old.classes)) (types_at ls first) (types_at ls second)) }
        ensures kept { self.new ≡ self.old }
    {
        let classes = self.classes;
        // A type may stand for itself only where there is a class at all.
        if classes.classes().class_count() == 0 {
            return None;
        }
        let types = &self.types;
        self.lists.passes_where_unlike(
            first,
            second,
            |found|
                ensures { AreAssignable (resolved classes.entry.now) types.entry.now.keys found result }
            { stands_there(classes, types, found) },
        )
    }

    /// An index, from `from` on, before which a list has this type nowhere from `from` on; none where it has it nowhere from there on.
    pub(crate) fn position(&self, list: u32, item: VarType, from: u32) -> Option<u32>
        ensures found { HoldsUpTo (types_at (lists_seen self.now) list) (type_seen item) from result }
        ensures within { IfSome result (λ index. index < 2 ^ 16) }
    {
        match number_found(&self.types, item) {
            Some(number) => position_in(&self.lists, list, number, from),
            None => None,
        }
    }

    /// The type at an index of a list, if it has one.
    pub(crate) fn item(&self, list: u32, index: u32) -> Option<VarType>
        ensures { option_map type_seen result ≡ slice_get (types_at (lists_seen self.now) list) index }
    {
        match self.lists.item(list, index) {
            Some(number) => Some(type_at(&self.types, number)),
            None => None,
        }
    }
}
