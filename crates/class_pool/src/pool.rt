//! A constant pool (4.4).

ghost use Rattle.std.specs.Prelude.{◌≡◌, ℕ, ◌+◌, ◌-◌, ◌≤◌, ◌++◌, List, length, take, IfOk, Err, MatchResult, option_map};
ghost use Rattle.class_pool.specs.declared.entry.Entry.{Entry};
ghost use Rattle.class_pool.specs.Spelling.{pool_bytes};
ghost use Rattle.class_pool.specs.Grammar.{IsPool, IsPoolOf, entry_at, utf8_of, class_name_of, name_and_type_of};
ghost use Rattle.base.specs.Reading.{Gives};
ghost use Rattle.class_pool.specs.Reading.{pool_in};

use crate::entry::Entry;
use crate::numbers::u16_at;
use crate::reading::places_at;
use crate::references::{all_point_rightly, entry_at};
use base::FormatFault;
use std::alloc::Global;
use std::marker::Model;

/// The entries of a pool; that of index i stands at place i − 1. Contracts see it as that list.
#[derive(Drop)]
pub struct Pool {
    entries: Vec<Entry>,
}

impl Model for Pool {
    ghost use Rattle.std.specs.Prelude.{List};
    ghost use Rattle.class_pool.specs.declared.entry.Entry.{Entry};

    ghost Value = { List Entry };

    ghost view = { λ pool. pool.entries.items };
}

impl Pool {
    /// The pool of these entries.
    pub fn new(entries: Vec<Entry>) -> Self
        ensures { result ≡ entries.items }
    {
        Pool { entries }
    }

    /// The entries.
    pub fn entries(&self) -> &[Entry]
        ensures { result.now ≡ self.now }
    {
        &self.entries
    }

    /// The units of a text, and `None` where the index is that of no text.
    pub fn utf8(&self, index: u16) -> Option<&[u16]>
        ensures { option_map (λ units. units.now) result ≡ utf8_of (entry_at self.now index) }
    {
        match entry_at(&self.entries, index) {
            Some(Entry::Utf8(units)) => Some(units.as_slice()),
            _ => None,
        }
    }

    /// The index of a class's name, and `None` where the index is that of no class.
    pub fn class_name(&self, index: u16) -> Option<u16>
        ensures { result ≡ class_name_of (entry_at self.now index) }
    {
        match entry_at(&self.entries, index) {
            Some(Entry::Class(name)) => Some(*name),
            _ => None,
        }
    }

    /// The indexes of a name and a descriptor, and `None` where the index is that of no name and type.
    pub fn name_and_type(&self, index: u16) -> Option<(u16, u16)>
        ensures { result ≡ name_and_type_of (entry_at self.now index) }
    {
        match entry_at(&self.entries, index) {
            Some(Entry::NameAndType(name, descriptor)) => Some((*name, *descriptor)),
            _ => None,
        }
    }
}

#[tactic(auto, unfolding(crate::specs::Reading::pool_in))]
fn pool_at(alloc: Global, bytes: &[u8]) -> Result<(Pool, &[u8]), FormatFault>
    ensures { Gives (λ x. (x.0, x.1.now)) result (pool_in bytes.now) }
{
    let (count, rest) = u16_at(bytes)?;
    if count == 0 {
        return Err(FormatFault::Bad);
    }
    let (entries, rest) = places_at(alloc, count - 1, rest)?;
    if !all_point_rightly(&entries) {
        return Err(FormatFault::Bad);
    }
    Ok((Pool::new(entries), rest))
}

/// Reads the pool at the front of the bytes, and answers how many bytes it takes.
///
/// A pool is what JVM Specification SE 8, 4.4 says of tags, lengths, texts in their one spelling, places and what
/// indexes point at. That a name or a descriptor has the form of one (4.2, 4.3) is no part of it: a pool may hold any
/// texts, and which of them stand for names of classes or descriptors is a rule on the class file around it.
pub fn read_pool(alloc: Global, bytes: &[u8]) -> Result<(Pool, usize), FormatFault>
    ensures length { IfOk result (λ found. found.1 ≤ length bytes.now) }
    // What is read is a pool, and the bytes taken are its spelling.
    ensures found { IfOk result (λ found. IsPoolOf (take found.1 bytes.now) found.0) }
    // A pool that stands at the front is read, and no other, unless memory runs out.
    ensures only { (entries : List Entry) (rest : List ℕ) → IsPool entries → bytes.now ≡ pool_bytes entries ++ rest →
        MatchResult result (λ found. (found.0 ≡ entries) × (found.1 ≡ length (pool_bytes entries))) (λ fault. fault ≡ FormatFault.NoMemory) }
    ensures bad { result ≡ Err FormatFault.Bad → (entries : List Entry) (n : ℕ) → ¬ IsPoolOf (take n bytes.now) entries }
{
    let (pool, rest) = pool_at(alloc, bytes)?;
    Ok((pool, bytes.len() - rest.len()))
}
