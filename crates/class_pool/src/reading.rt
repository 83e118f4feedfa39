//! Entries at the front of bytes.
ghost use Rattle.std.specs.Prelude.{◌≡◌, false};
ghost use Rattle.class_pool.specs.Grammar.{takes_two};
ghost use Rattle.base.specs.Reading.{Gives};
ghost use Rattle.class_pool.specs.Reading.{indexes_in, handle_in, parts_in, place_in, places_in};

use crate::entry::Entry;
use crate::numbers::{u8_at, u16_at, u32_at, u64_at};
use crate::tag::{Tag, tag_of};
use crate::text::utf8_at;
use base::FormatFault;
use std::alloc::Global;

#[tactic(auto, unfolding(crate::specs::Reading::indexes_in))]
fn indexes_at(bytes: &[u8]) -> Result<((u16, u16), &[u8]), FormatFault>
    ensures { Gives (λ x. (x.0, x.1.now)) result (indexes_in bytes.now) }
{
    let (first, rest) = u16_at(bytes)?;
    let (second, rest) = u16_at(rest)?;
    Ok(((first, second), rest))
}

#[tactic(auto, unfolding(crate::specs::Reading::handle_in))]
fn handle_at(bytes: &[u8]) -> Result<((u8, u16), &[u8]), FormatFault>
    ensures { Gives (λ x. (x.0, x.1.now)) result (handle_in bytes.now) }
{
    let (kind, rest) = u8_at(bytes)?;
    let (reference, rest) = u16_at(rest)?;
    Ok(((kind, reference), rest))
}

/// The parts of an entry behind its tag.
#[tactic(auto, unfolding(crate::specs::Reading::parts_in))]
fn parts_at(alloc: Global, tag: Tag, bytes: &[u8]) -> Result<(Entry, &[u8]), FormatFault>
    ensures { Gives (λ x. (x.0, x.1.now)) result (parts_in tag bytes.now) }
{
    match tag {
        Tag::Utf8 => {
            let (units, rest) = utf8_at(alloc, bytes)?;
            Ok((Entry::Utf8(units), rest))
        }
        Tag::Integer => {
            let (n, rest) = u32_at(bytes)?;
            Ok((Entry::Integer(n), rest))
        }
        Tag::Float => {
            let (bits, rest) = u32_at(bytes)?;
            Ok((Entry::Float(bits), rest))
        }
        Tag::Long => {
            let (n, rest) = u64_at(bytes)?;
            Ok((Entry::Long(n), rest))
        }
        Tag::Double => {
            let (bits, rest) = u64_at(bytes)?;
            Ok((Entry::Double(bits), rest))
        }
        Tag::Class => {
            let (name, rest) = u16_at(bytes)?;
            Ok((Entry::Class(name), rest))
        }
        Tag::Text => {
            let (units, rest) = u16_at(bytes)?;
            Ok((Entry::Text(units), rest))
        }
        Tag::Field => {
            let ((owner, member), rest) = indexes_at(bytes)?;
            Ok((Entry::Field(owner, member), rest))
        }
        Tag::Method => {
            let ((owner, member), rest) = indexes_at(bytes)?;
            Ok((Entry::Method(owner, member), rest))
        }
        Tag::InterfaceMethod => {
            let ((owner, member), rest) = indexes_at(bytes)?;
            Ok((Entry::InterfaceMethod(owner, member), rest))
        }
        Tag::NameAndType => {
            let ((name, descriptor), rest) = indexes_at(bytes)?;
            Ok((Entry::NameAndType(name, descriptor), rest))
        }
        Tag::Handle => {
            let ((kind, reference), rest) = handle_at(bytes)?;
            Ok((Entry::Handle(kind, reference), rest))
        }
        Tag::MethodType => {
            let (descriptor, rest) = u16_at(bytes)?;
            Ok((Entry::MethodType(descriptor), rest))
        }
        Tag::Dynamic => {
            let ((bootstrap, member), rest) = indexes_at(bytes)?;
            Ok((Entry::Dynamic(bootstrap, member), rest))
        }
    }
}

pub(crate) fn takes_two(entry: &Entry) -> bool
    ensures { result ≡ takes_two entry.now }
{
    matches!(entry, Entry::Long(_) | Entry::Double(_))
}

/// The entry of the next place, which may be due as the second one.
#[tactic(auto, unfolding(crate::specs::Reading::place_in))]
fn place_at(alloc: Global, due: bool, bytes: &[u8]) -> Result<(Entry, &[u8]), FormatFault>
    ensures { Gives (λ x. (x.0, x.1.now)) result (place_in due bytes.now) }
{
    if due {
        return Ok((Entry::Second, bytes));
    }
    let (number, rest) = u8_at(bytes)?;
    let Some(tag) = tag_of(number) else {
        return Err(FormatFault::Bad);
    };
    parts_at(alloc, tag, rest)
}

/// So many places.
pub(crate) fn places_at(
    alloc: Global,
    count: u16,
    bytes: &[u8],
) -> Result<(Vec<Entry>, &[u8]), FormatFault>
    ensures { Gives (λ x. (x.0.items, x.1.now)) result (places_in count false bytes.now) }
{
    let mut entries = Vec::new(alloc);
    let mut due = false;
    let mut rest = bytes;
    for _ in 0..count {
        let (entry, after) = place_at(alloc, due, rest)?;
        due = takes_two(&entry);
        entries.push(entry)?;
        rest = after;
    }
    if due {
        return Err(FormatFault::Bad);
    }
    Ok((entries, rest))
}
