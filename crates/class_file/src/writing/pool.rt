//! Pools as bytes (JVM Specification SE 8, 4.4).
ghost use Rattle.std.specs.Prelude.{◌≡◌, ◌+◌, ◌<◌, ◌^◌, ◌++◌, ◌∷◌, [], length, OnOk};
ghost use Rattle.std.specs.List.{flat_map, AllByRecursion};
ghost use Rattle.class_pool.specs.Utf8.{utf8_bytes};
ghost use Rattle.class_pool.specs.Spelling.{u2, entry_bytes, IsEntryInRange, pool_bytes};
ghost use Rattle.class_pool.specs.Grammar.{IsPool};

use crate::writing::numbers::{put_u16, put_u32, put_u64};
use base::NoMemory;
use class_pool::utf8::text_bytes;
use class_pool::{Entry, Pool};
use std::alloc::Global;

fn put_text(alloc: Global, out: &mut Vec<u8>, units: &[u16]) -> Result<(), NoMemory>
    requires { length (utf8_bytes units.now) < 2 ^ 16 }
    ensures { OnOk result (out.new.items ≡ out.old.items ++ (u2 (length (utf8_bytes units.now)) ++ utf8_bytes units.now)) }
{
    let bytes = text_bytes(alloc, units)?;
    put_u16(out, bytes.len() as u16)?;
    out.extend_from_slice(&bytes)?;
    Ok(())
}

fn put_tagged(out: &mut Vec<u8>, tag: u8, index: u16) -> Result<(), NoMemory>
    ensures { OnOk result (out.new.items ≡ out.old.items ++ tag ∷ u2 index) }
{
    out.push(tag)?;
    put_u16(out, index)
}

fn put_two(out: &mut Vec<u8>, tag: u8, first: u16, second: u16) -> Result<(), NoMemory>
    ensures { OnOk result (out.new.items ≡ out.old.items ++ tag ∷ (u2 first ++ u2 second)) }
{
    out.push(tag)?;
    put_u16(out, first)?;
    put_u16(out, second)
}

/// An entry, its tag first.
fn put_entry(alloc: Global, out: &mut Vec<u8>, entry: &Entry) -> Result<(), NoMemory>
    requires { IsEntryInRange entry.now }
    ensures { OnOk result (out.new.items ≡ out.old.items ++ entry_bytes entry.now) }
{
    match entry {
        Entry::Utf8(units) => {
            out.push(1)?;
            put_text(alloc, out, units.as_slice())
        }
        Entry::Integer(n) => {
            out.push(3)?;
            put_u32(out, *n)
        }
        Entry::Float(bits) => {
            out.push(4)?;
            put_u32(out, *bits)
        }
        Entry::Long(n) => {
            out.push(5)?;
            put_u64(out, *n)
        }
        Entry::Double(bits) => {
            out.push(6)?;
            put_u64(out, *bits)
        }
        Entry::Class(name) => put_tagged(out, 7, *name),
        Entry::Text(units) => put_tagged(out, 8, *units),
        Entry::Field(owner, member) => put_two(out, 9, *owner, *member),
        Entry::Method(owner, member) => put_two(out, 10, *owner, *member),
        Entry::InterfaceMethod(owner, member) => put_two(out, 11, *owner, *member),
        Entry::NameAndType(name, descriptor) => put_two(out, 12, *name, *descriptor),
        Entry::Handle(kind, reference) => {
            out.push(15)?;
            out.push(*kind)?;
            put_u16(out, *reference)
        }
        Entry::MethodType(descriptor) => put_tagged(out, 16, *descriptor),
        Entry::Dynamic(bootstrap, member) => put_two(out, 18, *bootstrap, *member),
        Entry::Second => Ok(()),
    }
}

fn put_entries(alloc: Global, out: &mut Vec<u8>, entries: &[Entry]) -> Result<(), NoMemory>
    requires { AllByRecursion IsEntryInRange entries.now }
    ensures { OnOk result (out.new.items ≡ out.old.items ++ flat_map entry_bytes entries.now) }
{
    for entry in entries {
        put_entry(alloc, out, entry)?;
    }
    Ok(())
}

/// A pool: one more than its places, and its entries.
pub(crate) fn put_pool(alloc: Global, out: &mut Vec<u8>, pool: &Pool) -> Result<(), NoMemory>
    requires { IsPool pool.now }
    ensures { OnOk result (out.new.items ≡ out.old.items ++ pool_bytes pool.now) }
{
    let entries = pool.entries();
    put_u16(out, entries.len() as u16 + 1)?;
    put_entries(alloc, out, entries)
}
