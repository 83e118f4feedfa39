//! Pools in order of first mention.
ghost use Rattle.std.specs.Prelude.{◌≡◌, [], length, IfOk, OnOk};
ghost use Rattle.class_making.specs.Making.{with_item, mention, index_of, entry_of, pool_of};

use crate::item::{Item, copy_of};
use base::NoMemory;
use class_pool::{Entry, Pool, Units};
use indexmap::IndexSet;
use std::alloc::Global;
use std::marker::Model;

/// The most entries of a pool.
pub(crate) const MOST_ENTRIES: usize = 65_534;

/// A pool that is being made: what was mentioned, in order of first mention. Contracts see it as that list. After a
/// fault it is of no more use.
#[derive(Drop)]
pub struct PoolMaker {
    items: IndexSet<Item>,
}

impl Model for PoolMaker {
    ghost use Rattle.std.specs.Prelude.{List};
    ghost use Rattle.class_making.specs.declared.item.Item.{Item};

    ghost Value = { List Item };

    ghost view = { λ maker. maker.items.keys };
}

impl PoolMaker {
    /// A pool of no entries.
    pub fn new(alloc: Global) -> Self
        ensures { result ≡ [] }
    {
        PoolMaker {
            items: IndexSet::new(alloc),
        }
    }

    /// How many entries there are.
    pub fn len(&self) -> usize
        ensures { result ≡ length self.now }
    {
        self.items.len()
    }

    /// Puts the item last, unless it is there.
    fn put(&mut self, item: Item) -> Result<(), NoMemory>
        ensures { OnOk result (self.new ≡ with_item self.old item) }
    {
        self.items.insert_full(item)?;
        Ok(())
    }

    /// Mentions a text.
    pub(crate) fn mention_text(&mut self, alloc: Global, text: &Units) -> Result<(), NoMemory>
        ensures { OnOk result (self.new ≡ mention self.old (Item.Text text.now)) }
    {
        self.put(Item::Text(copy_of(alloc, text)?))
    }

    /// Mentions a class.
    pub(crate) fn mention_class(&mut self, alloc: Global, name: &Units) -> Result<(), NoMemory>
        ensures { OnOk result (self.new ≡ mention self.old (Item.Class name.now)) }
    {
        self.put(Item::Class(copy_of(alloc, name)?))?;
        self.mention_text(alloc, name)
    }

    /// Mentions a name and a descriptor.
    fn mention_pair(
        &mut self,
        alloc: Global,
        name: &Units,
        descriptor: &Units,
    ) -> Result<(), NoMemory>
        ensures { OnOk result (self.new ≡ mention self.old (Item.NameAndType name.now descriptor.now)) }
    {
        let pair = Item::NameAndType(copy_of(alloc, name)?, copy_of(alloc, descriptor)?);
        self.put(pair)?;
        self.mention_text(alloc, name)?;
        self.mention_text(alloc, descriptor)
    }

    /// Mentions an item: it, and what it names, stand in the pool from then on.
    pub fn mention(&mut self, alloc: Global, item: &Item) -> Result<(), NoMemory>
        ensures { OnOk result (self.new ≡ mention self.old item.now) }
    {
        self.put(item.copied(alloc)?)?;
        match item {
            Item::Text(_) | Item::Integer(_) => Ok(()),
            Item::Class(text) | Item::Str(text) => self.mention_text(alloc, text),
            Item::NameAndType(name, descriptor) => {
                self.mention_text(alloc, name)?;
                self.mention_text(alloc, descriptor)
            }
            Item::Field(owner, name, descriptor)
            | Item::Method(owner, name, descriptor)
            | Item::InterfaceMethod(owner, name, descriptor) => {
                self.mention_class(alloc, owner)?;
                self.mention_pair(alloc, name, descriptor)
            }
        }
    }

    /// The index of an item, and 0 where it isn't there.
    pub fn index_of(&self, item: &Item) -> u16
        ensures { result ≡ index_of self.now item.now }
    {
        match self.items.get_index_of(item) {
            Some(place) if place < MOST_ENTRIES => place as u16 + 1,
            _ => 0,
        }
    }

    pub(crate) fn text_index(&self, alloc: Global, text: &Units) -> Result<u16, NoMemory>
        ensures { IfOk result (λ i. i ≡ index_of self.now (Item.Text text.now)) }
    {
        Ok(self.index_of(&Item::Text(copy_of(alloc, text)?)))
    }

    pub(crate) fn class_index(&self, alloc: Global, name: &Units) -> Result<u16, NoMemory>
        ensures { IfOk result (λ i. i ≡ index_of self.now (Item.Class name.now)) }
    {
        Ok(self.index_of(&Item::Class(copy_of(alloc, name)?)))
    }

    fn pair_index(&self, alloc: Global, name: &Units, descriptor: &Units) -> Result<u16, NoMemory>
        ensures { IfOk result (λ i. i ≡ index_of self.now (Item.NameAndType name.now descriptor.now)) }
    {
        let name = copy_of(alloc, name)?;
        let descriptor = copy_of(alloc, descriptor)?;
        Ok(self.index_of(&Item::NameAndType(name, descriptor)))
    }

    /// The indexes of two texts.
    fn text_indexes(
        &self,
        alloc: Global,
        first: &Units,
        second: &Units,
    ) -> Result<(u16, u16), NoMemory>
        ensures { IfOk result (λ i. i ≡ (index_of self.now (Item.Text first.now), index_of self.now (Item.Text second.now))) }
    {
        let first = self.text_index(alloc, first)?;
        Ok((first, self.text_index(alloc, second)?))
    }

    /// The indexes of a member's class, and of its name and descriptor.
    fn member_indexes(
        &self,
        alloc: Global,
        owner: &Units,
        name: &Units,
        descriptor: &Units,
    ) -> Result<(u16, u16), NoMemory>
        ensures { IfOk result (λ i. i ≡ (index_of self.now (Item.Class owner.now), index_of self.now (Item.NameAndType name.now descriptor.now))) }
    {
        let owner = self.class_index(alloc, owner)?;
        Ok((owner, self.pair_index(alloc, name, descriptor)?))
    }

    /// The entry of an item.
    fn entry_of(&self, alloc: Global, item: &Item) -> Result<Entry, NoMemory>
        ensures { IfOk result (λ e. e ≡ entry_of self.now item.now) }
    {
        match item {
            Item::Text(text) => Ok(Entry::Utf8(copy_of(alloc, text)?)),
            Item::Integer(bits) => Ok(Entry::Integer(*bits)),
            Item::Class(name) => Ok(Entry::Class(self.text_index(alloc, name)?)),
            Item::Str(text) => Ok(Entry::Text(self.text_index(alloc, text)?)),
            Item::NameAndType(name, descriptor) => {
                let (name, descriptor) = self.text_indexes(alloc, name, descriptor)?;
                Ok(Entry::NameAndType(name, descriptor))
            }
            Item::Field(owner, name, descriptor) => {
                let (owner, member) = self.member_indexes(alloc, owner, name, descriptor)?;
                Ok(Entry::Field(owner, member))
            }
            Item::Method(owner, name, descriptor) => {
                let (owner, member) = self.member_indexes(alloc, owner, name, descriptor)?;
                Ok(Entry::Method(owner, member))
            }
            Item::InterfaceMethod(owner, name, descriptor) => {
                let (owner, member) = self.member_indexes(alloc, owner, name, descriptor)?;
                Ok(Entry::InterfaceMethod(owner, member))
            }
        }
    }

    /// The pool of what was mentioned.
    pub fn pool(&self, alloc: Global) -> Result<Pool, NoMemory>
        ensures { IfOk result (λ pool. pool ≡ pool_of self.now) }
    {
        let mut entries = Vec::new(alloc);
        for item in self.items.as_slice() {
            let entry = self.entry_of(alloc, item)?;
            entries.push(entry)?;
        }
        Ok(Pool::new(entries))
    }
}
