//! Whether entries made by hand are a pool.
ghost use Rattle.std.specs.Prelude.{◌≡◌, ◌↔◌, ◌<◌, ◌^◌, List, length, IsTrue, false};
ghost use Rattle.std.specs.List.{list_all, AllByRecursion};
ghost use Rattle.class_pool.specs.Utf8.{unit_bytes, utf8_bytes, AreUnits};
ghost use Rattle.class_pool.specs.Spelling.{IsEntryInRange};
ghost use Rattle.class_pool.specs.Grammar.{HaveSeconds, IsPool};

use crate::entry::Entry;
use crate::reading::takes_two;
use crate::references::all_point_rightly;

/// The most bytes of a text, and the most entries of a pool.
const MOST_BYTES: usize = 0xFFFF;

const MOST_ENTRIES: usize = 0xFFFE;

/// The bytes of a unit.
fn unit_length(unit: u16) -> usize
    ensures { result ≡ length (unit_bytes unit) }
{
    match unit {
        1..=0x7F => 1,
        0..=0x7FF => 2,
        _ => 3,
    }
}

/// Whether the text takes at most 65,535 bytes.
fn has_bytes(units: &[u16]) -> bool
    ensures { IsTrue result ↔ (AreUnits units.now × (length (utf8_bytes units.now) < 2 ^ 16)) }
{
    let mut total = 0;
    for unit in units {
        total += unit_length(*unit);
        if total > MOST_BYTES {
            return false;
        }
    }
    true
}

/// All but texts fit by their types, which the proof learns where they are read.
fn is_in_range(entry: &Entry) -> bool
    ensures { IsTrue result ↔ IsEntryInRange entry.now }
{
    match *entry {
        Entry::Utf8(ref units) => has_bytes(units.as_slice()),
        Entry::Integer(_n) | Entry::Float(_n) => true,
        Entry::Long(_n) | Entry::Double(_n) => true,
        Entry::Class(_i) | Entry::Text(_i) | Entry::MethodType(_i) => true,
        Entry::Field(_i, _j)
        | Entry::Method(_i, _j)
        | Entry::InterfaceMethod(_i, _j)
        | Entry::NameAndType(_i, _j)
        | Entry::Dynamic(_i, _j) => true,
        Entry::Handle(_kind, _i) => true,
        Entry::Second => true,
    }
}

fn are_in_range(entries: &[Entry]) -> bool
    ensures { IsTrue result ↔ AllByRecursion IsEntryInRange entries.now }
{
    entries.iter().all(is_in_range)
}

/// Whether a second place stands exactly behind each entry that takes two.
fn have_seconds(entries: &[Entry]) -> bool
    ensures { IsTrue result ↔ HaveSeconds false entries.now }
{
    let mut due = false;
    for entry in entries {
        if due != matches!(entry, Entry::Second) {
            return false;
        }
        due = takes_two(entry);
    }
    !due
}

/// Whether the entries are a pool (JVM Specification SE 8, 4.4).
pub fn is_pool(entries: &[Entry]) -> bool
    ensures { IsTrue result ↔ IsPool entries.now }
{
    if entries.len() > MOST_ENTRIES || !are_in_range(entries) || !have_seconds(entries) {
        return false;
    }
    all_point_rightly(entries)
}
