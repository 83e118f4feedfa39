//! What pool entries name (JVM Specification SE 8, 4.4).
ghost use Rattle.std.specs.Prelude.{◌≡◌, ◌++◌, option_map, IfOk, OnOk};
ghost use Rattle.std.specs.Option.{option_copied};
ghost use Rattle.class_pool.specs.Utf8.{utf8_bytes};
ghost use Rattle.class_pool.specs.Grammar.{entry_at};
ghost use Rattle.refusal_lines.specs.Entries.{missing, classes_in_member, classes_in_entry, descriptor_in, signature_bytes, member_bytes, entry_bytes};
ghost use Rattle.refusal_lines.specs.Entries.{unresolved_bytes};

use crate::missing::{Known, missing_in_descriptor, missing_in_name};
use base::NoMemory;
use class_lookup::parts::{class_text, text_at};
use class_pool::utf8::{put_text, text_bytes};
use class_pool::{Entry, Pool};
use program_tables::Why;
use std::alloc::Global;

/// The dot between a class's name and a member's.
const DOT: u8 = 46;

/// The entry of this index; indexes begin at 1.
pub(crate) fn entry_at(pool: &Pool, index: u32) -> Option<&Entry>
    ensures { option_copied result ≡ entry_at pool.now index }
{
    pool.entries().get(index.checked_sub(1)? as usize)
}

/// The descriptor of a name and a type.
fn descriptor_in(pool: &Pool, member: u16) -> &[u16]
    ensures { result.now ≡ descriptor_in pool.now member }
{
    match pool.name_and_type(member) {
        Some((_, descriptor)) => text_at(pool, descriptor),
        None => &[],
    }
}

/// The bytes of the first class that a member's entry names and that isn't there.
#[tactic(auto, using(crate::proofs::NamingLemmas::first_has, crate::proofs::NamingLemmas::second_has))]
fn missing_in_member(
    alloc: Global,
    known: &Known<'_>,
    pool: &Pool,
    owner: u16,
    member: u16,
) -> Result<Option<Vec<u8>>, NoMemory>
    ensures { IfOk result (λ bytes. option_map (λ b. b.items) bytes ≡ option_map utf8_bytes
        (missing known.now.before.now known.now.files.now (classes_in_member pool.now owner member))) }
{
    match missing_in_name(alloc, known, class_text(pool, owner))? {
        Some(bytes) => Ok(Some(bytes)),
        None => missing_in_descriptor(alloc, known, descriptor_in(pool, member)),
    }
}

/// The bytes of the first class that an entry names and that isn't there.
#[tactic(auto, unfolding(crate::specs::Entries::missing))]
fn missing_in_entry(
    alloc: Global,
    known: &Known<'_>,
    pool: &Pool,
    entry: &Entry,
) -> Result<Option<Vec<u8>>, NoMemory>
    ensures { IfOk result (λ bytes. option_map (λ b. b.items) bytes ≡ option_map utf8_bytes
        (missing known.now.before.now known.now.files.now (classes_in_entry pool.now entry.now))) }
{
    match entry {
        Entry::Utf8(units) => missing_in_descriptor(alloc, known, units.as_slice()),
        Entry::Class(name) => missing_in_name(alloc, known, text_at(pool, *name)),
        Entry::Field(owner, member)
        | Entry::Method(owner, member)
        | Entry::InterfaceMethod(owner, member) => {
            missing_in_member(alloc, known, pool, *owner, *member)
        }
        _ => Ok(None),
    }
}

/// Puts the name and the descriptor of a name and a type last.
fn put_signature(out: &mut Vec<u8>, pool: &Pool, member: u16) -> Result<(), NoMemory>
    ensures { OnOk result (out.new.items ≡ out.old.items ++ signature_bytes pool.now member) }
{
    if let Some((name, descriptor)) = pool.name_and_type(member) {
        put_text(out, text_at(pool, name))?;
        put_text(out, text_at(pool, descriptor))?;
    }
    Ok(())
}

/// The name of a class, a dot, and the name and the descriptor of a member that an entry names.
fn member_bytes(alloc: Global, pool: &Pool, owner: u16, member: u16) -> Result<Vec<u8>, NoMemory>
    ensures { IfOk result (λ bytes. bytes.items ≡ member_bytes pool.now owner member) }
{
    let mut bytes = text_bytes(alloc, class_text(pool, owner))?;
    bytes.push(DOT)?;
    put_signature(&mut bytes, pool, member)?;
    Ok(bytes)
}

/// The class or the member that an entry names.
fn entry_bytes(alloc: Global, pool: &Pool, entry: &Entry) -> Result<Vec<u8>, NoMemory>
    ensures { IfOk result (λ bytes. bytes.items ≡ entry_bytes pool.now entry.now) }
{
    match entry {
        Entry::Class(name) => text_bytes(alloc, text_at(pool, *name)),
        Entry::Field(owner, member)
        | Entry::Method(owner, member)
        | Entry::InterfaceMethod(owner, member) => member_bytes(alloc, pool, *owner, *member),
        _ => Ok(Vec::new(alloc)),
    }
}

/// What is told of an entry that isn't resolved for this reason.
pub(crate) fn unresolved_bytes(
    alloc: Global,
    known: &Known<'_>,
    pool: &Pool,
    why: Why,
    entry: &Entry,
) -> Result<Vec<u8>, NoMemory>
    ensures { IfOk result (λ bytes. bytes.items ≡ unresolved_bytes known.now.before.now known.now.files.now pool.now why entry.now) }
{
    let Why::NoClass = why else {
        return entry_bytes(alloc, pool, entry);
    };
    match missing_in_entry(alloc, known, pool, entry)? {
        Some(bytes) => Ok(bytes),
        None => Ok(Vec::new(alloc)),
    }
}
