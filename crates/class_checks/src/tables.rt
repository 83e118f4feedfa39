//! What isn't supported of the texts of a pool, each read once, however many members and instructions name it.
ghost use Rattle.std.specs.Prelude.{◌≡◌, ℕ, List, [], Option, None, map, IfOk};
ghost use Rattle.class_pool.specs.Grammar.{text_at};
ghost use Rattle.program_tables.specs.declared.refusal.Item.{Item};
ghost use Rattle.class_checks.specs.Descriptors.{field_item, method_item, of_entry, AreItems};

use crate::found::{item_of_field, item_of_method};
use base::NoMemory;
use class_pool::{Entry, Pool};
use program_tables::Item;
use std::alloc::Global;

/// The first of what isn't supported of the types in each text, read as a field's and as a method's descriptor, by the place of
/// its entry.
#[derive(Drop)]
pub(crate) struct DescriptorItems {
    pub(crate) fields: Vec<Option<Item>>,
    pub(crate) methods: Vec<Option<Item>>,
}

/// What isn't supported of an entry as a field's descriptor.
fn field_item(alloc: Global, entry: &Entry) -> Result<Option<Item>, NoMemory>
    ensures { IfOk result (λ item. item ≡ of_entry field_item entry.now) }
{
    match entry {
        Entry::Utf8(units) => item_of_field(alloc, units.as_slice()),
        _ => Ok(None),
    }
}

/// What isn't supported of an entry as a method's descriptor.
fn method_item(alloc: Global, entry: &Entry) -> Result<Option<Item>, NoMemory>
    ensures { IfOk result (λ item. item ≡ of_entry method_item entry.now) }
{
    match entry {
        Entry::Utf8(units) => item_of_method(alloc, units.as_slice()),
        _ => Ok(None),
    }
}

/// What isn't supported of each entry as a field's descriptor.
fn field_items(alloc: Global, pool: &Pool) -> Result<Vec<Option<Item>>, NoMemory>
    ensures { IfOk result (λ items. items.items ≡ map (of_entry field_item) pool.now) }
{
    let mut items = Vec::new(alloc);
    for entry in pool.entries() {
        items.push(field_item(alloc, entry)?)?;
    }
    Ok(items)
}

/// What isn't supported of each entry as a method's descriptor.
fn method_items(alloc: Global, pool: &Pool) -> Result<Vec<Option<Item>>, NoMemory>
    ensures { IfOk result (λ items. items.items ≡ map (of_entry method_item) pool.now) }
{
    let mut items = Vec::new(alloc);
    for entry in pool.entries() {
        items.push(method_item(alloc, entry)?)?;
    }
    Ok(items)
}

/// The item at an index of the pool.
fn item_at(items: &[Option<Item>], pool: &Pool, index: u16) -> Option<Item>
    ensures { (say : List ℕ → Option Item) → say [] ≡ None → items.now ≡ map (of_entry say) pool.now → result ≡ say (text_at pool.now index) }
{
    // The contract alone speaks of it.
    let _ = pool;
    if index == 0 {
        return None;
    }
    match items.get(index as usize - 1) {
        Some(item) => *item,
        None => None,
    }
}

impl DescriptorItems {
    /// The table of a pool.
    pub(crate) fn new(alloc: Global, pool: &Pool) -> Result<Self, NoMemory>
        ensures { IfOk result (AreItems pool.now) }
    {
        Ok(DescriptorItems {
            fields: field_items(alloc, pool)?,
            methods: method_items(alloc, pool)?,
        })
    }

    /// What isn't supported of the types in a field's descriptor.
    pub(crate) fn of_field(&self, pool: &Pool, descriptor: u16) -> Option<Item>
        requires { AreItems pool.now self.now }
        ensures { result ≡ field_item (text_at pool.now descriptor) }
    {
        item_at(&self.fields, pool, descriptor)
    }

    /// What isn't supported of the types in a method's descriptor.
    pub(crate) fn of_method(&self, pool: &Pool, descriptor: u16) -> Option<Item>
        requires { AreItems pool.now self.now }
        ensures { result ≡ method_item (text_at pool.now descriptor) }
    {
        item_at(&self.methods, pool, descriptor)
    }
}
