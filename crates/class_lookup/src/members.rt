//! The fields and methods that each class declares, by the symbols of names and descriptors.
ghost use Rattle.std.specs.Prelude.{◌≡◌, length, slice_get, Some, ◌<◌, IfOk};
ghost use Rattle.class_pool.specs.declared.class.ClassFile.{ClassFile};
ghost use Rattle.class_lookup.specs.Symbols.{texts};
ghost use Rattle.class_lookup.specs.Numbered.{found_at, place_in, IsIndexed};
ghost use Rattle.class_lookup.specs.Tables.{AreSymbols, AreIndexed, AreMemberTables};

use crate::place::Place;
use crate::symbols::{Symbols, text_symbol};
use base::NoMemory;
use class_pool::{ClassFile, Member};
use indexmap::IndexMap;
use std::alloc::Global;
use std::marker::Model;

/// Places in a class's list of members by the symbols of a name and of a descriptor. Contracts see it as the list of its
/// entries.
#[derive(Drop)]
pub(crate) struct Index {
    places: IndexMap<(u32, u32), usize>,
}

impl Model for Index {
    ghost use Rattle.std.specs.Prelude.{ℕ, List};

    ghost Value = { List ((ℕ × ℕ) × ℕ) };

    ghost view = { λ a. a.places.entries };
}

impl Index {
    /// The place that it has for these symbols.
    pub(crate) fn place(&self, symbols: (u32, u32)) -> Option<usize>
        ensures { result ≡ found_at symbols self.now }
    {
        self.places.get(&symbols).copied()
    }
}

/// The members of all classes by name and descriptor.
#[derive(Drop)]
pub(crate) struct Members {
    pub(crate) fields: Vec<Index>,
    pub(crate) methods: Vec<Index>,
}

/// The first of these members of the class with each name and descriptor.
fn index_members(
    alloc: Global,
    classes: &[ClassFile],
    symbols: &Symbols,
    class: usize,
    members: &[Member],
) -> Result<Index, NoMemory>
    requires symbols { AreSymbols classes.now symbols.now }
    requires class { class < length classes.now }
    ensures { IfOk result (λ index. (c : ClassFile) → slice_get classes.now class ≡ Some c → IsIndexed (texts classes.now) c members.now index) }
{
    let mut places = IndexMap::new(alloc);
    for (i, member) in members.iter().enumerate() {
        let name = text_symbol(classes, symbols, class, member.name);
        let descriptor = text_symbol(classes, symbols, class, member.descriptor);
        let key = (name, descriptor);
        if places.get(&key).is_none() {
            places.insert(key, i)?;
        }
    }
    Ok(Index { places })
}

/// The fields of each class.
fn index_fields(
    alloc: Global,
    classes: &[ClassFile],
    symbols: &Symbols,
) -> Result<Vec<Index>, NoMemory>
    requires { AreSymbols classes.now symbols.now }
    ensures { IfOk result (λ table. AreIndexed classes.now (λ c. c.fields) table.items) }
{
    let mut table = Vec::new(alloc);
    for (i, class) in classes.iter().enumerate() {
        table.push(index_members(alloc, classes, symbols, i, class.fields.as_slice())?)?;
    }
    Ok(table)
}

/// The methods of each class.
fn index_methods(
    alloc: Global,
    classes: &[ClassFile],
    symbols: &Symbols,
) -> Result<Vec<Index>, NoMemory>
    requires { AreSymbols classes.now symbols.now }
    ensures { IfOk result (λ table. AreIndexed classes.now (λ c. c.methods) table.items) }
{
    let mut table = Vec::new(alloc);
    for (i, class) in classes.iter().enumerate() {
        table.push(index_members(alloc, classes, symbols, i, class.methods.as_slice())?)?;
    }
    Ok(table)
}

/// The member of a class with these symbols.
pub(crate) fn place_in(table: &[Index], symbols: (u32, u32), class: u32) -> Option<Place>
    ensures { result ≡ place_in table.now symbols class }
{
    let number = class as usize;
    if number < table.len() {
        let index = table[number].place(symbols)?;
        Some(Place { class, index })
    } else {
        None
    }
}

/// The members of all classes.
pub(crate) fn members_of(
    alloc: Global,
    classes: &[ClassFile],
    symbols: &Symbols,
) -> Result<Members, NoMemory>
    requires { AreSymbols classes.now symbols.now }
    ensures { IfOk result (λ members. AreMemberTables classes.now members) }
{
    let fields = index_fields(alloc, classes, symbols)?;
    let methods = index_methods(alloc, classes, symbols)?;
    Ok(Members { fields, methods })
}
