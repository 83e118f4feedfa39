//! What the indexes of entries point at.
ghost use Rattle.std.specs.Prelude.{◌≡◌};
ghost use Rattle.std.specs.List.{list_all};
ghost use Rattle.std.specs.Option.{option_copied};
ghost use Rattle.class_pool.specs.Grammar.{entry_at, is_utf8, is_class, is_field, is_method, is_interface_method, is_name_and_type, is_handled, points_rightly};

use crate::entry::Entry;

/// The entry of an index.
pub(crate) fn entry_at(entries: &[Entry], index: u16) -> Option<&Entry>
    ensures { option_copied result ≡ entry_at entries.now index }
{
    if index == 0 {
        return None;
    }
    entries.get(usize::from(index - 1))
}

fn is_utf8(entries: &[Entry], index: u16) -> bool
    ensures { result ≡ is_utf8 (entry_at entries.now index) }
{
    matches!(entry_at(entries, index), Some(Entry::Utf8(_)))
}

fn is_class(entries: &[Entry], index: u16) -> bool
    ensures { result ≡ is_class (entry_at entries.now index) }
{
    matches!(entry_at(entries, index), Some(Entry::Class(_)))
}

fn is_field(entries: &[Entry], index: u16) -> bool
    ensures { result ≡ is_field (entry_at entries.now index) }
{
    matches!(entry_at(entries, index), Some(Entry::Field(_, _)))
}

fn is_method(entries: &[Entry], index: u16) -> bool
    ensures { result ≡ is_method (entry_at entries.now index) }
{
    matches!(entry_at(entries, index), Some(Entry::Method(_, _)))
}

fn is_interface_method(entries: &[Entry], index: u16) -> bool
    ensures { result ≡ is_interface_method (entry_at entries.now index) }
{
    matches!(entry_at(entries, index), Some(Entry::InterfaceMethod(_, _)))
}

fn is_name_and_type(entries: &[Entry], index: u16) -> bool
    ensures { result ≡ is_name_and_type (entry_at entries.now index) }
{
    matches!(entry_at(entries, index), Some(Entry::NameAndType(_, _)))
}

/// Whether a method handle of this kind may refer to the entry (JVM Specification SE 8, 4.4.8).
fn is_handled(entries: &[Entry], kind: u8, index: u16) -> bool
    ensures { result ≡ is_handled kind (entry_at entries.now index) }
{
    match kind {
        1..=4 => is_field(entries, index),
        5 | 8 => is_method(entries, index),
        6 | 7 => is_method(entries, index) || is_interface_method(entries, index),
        _ => kind == 9 && is_interface_method(entries, index),
    }
}

/// Whether each index of the entry points at an entry of the right tag.
fn points_rightly(entries: &[Entry], entry: &Entry) -> bool
    ensures { result ≡ points_rightly entries.now entry.now }
{
    match entry {
        Entry::Class(index) | Entry::Text(index) | Entry::MethodType(index) => {
            is_utf8(entries, *index)
        }
        Entry::Field(owner, member)
        | Entry::Method(owner, member)
        | Entry::InterfaceMethod(owner, member) => {
            is_class(entries, *owner) && is_name_and_type(entries, *member)
        }
        Entry::NameAndType(name, descriptor) => {
            is_utf8(entries, *name) && is_utf8(entries, *descriptor)
        }
        Entry::Handle(kind, reference) => is_handled(entries, *kind, *reference),
        Entry::Dynamic(_, member) => is_name_and_type(entries, *member),
        _ => true,
    }
}

/// Whether each index of each entry points at an entry of the right tag.
pub(crate) fn all_point_rightly(entries: &[Entry]) -> bool
    ensures { result ≡ list_all (points_rightly entries.now) entries.now }
{
    entries.iter().all(|entry| points_rightly(entries, entry))
}
