//! Rows that stand at one spot of the source, as one entry.
ghost use Rattle.std.specs.Prelude.{◌≡◌, ◌+◌, ◌<◌, ◌^◌, ℕ, List, Option, Contains, IfOk, OnOk, length, map};
ghost use Rattle.std.specs.List.{IsDistinct};
ghost use Rattle.std.specs.List.Sorted.{IsPermutation, IsSortedBy};
ghost use Rattle.bound_report.specs.Contents.Rows.{cycles_of};
ghost use Rattle.report_lines.specs.Entries.{key_of, same_key, AreEntries};
ghost use Rattle.report_lines.specs.Joining.{with_row, stands_before, AreJoined};
ghost use Rattle.report_lines.specs.Told.{source_told};

use crate::key::{Key, key_of};
use crate::methods::MethodText;
use base::NoMemory;
use bound_report::contents::ReportRow;
use indexmap::IndexSet;
use std::alloc::Global;
use std::cmp::Reverse;

/// Adds the cycles of a row to the entry of its key, or the row as an entry where there is none.
fn add_row(
    keys: &mut IndexSet<Key>,
    entries: &mut Vec<ReportRow>,
    key: Key,
    row: ReportRow,
) -> Result<(), NoMemory>
    requires long { length keys.old.keys ≡ length entries.old.items }
    requires small { (e : ReportRow) → Contains entries.old.items e → e.cycles + row.cycles < 2 ^ 128 }
    ensures distinct { OnOk result (IsDistinct same_key keys.new.keys) }
    ensures entries { OnOk result ((source : (m : ℕ) (p : ℕ) → Option (List ℕ × ℕ)) → keys.old.keys ≡ map (key_of source) entries.old.items
        → key ≡ key_of source row → entries.new.items ≡ with_row source entries.old.items row) }
    ensures keys { OnOk result ((source : (m : ℕ) (p : ℕ) → Option (List ℕ × ℕ)) → keys.old.keys ≡ map (key_of source) entries.old.items
        → key ≡ key_of source row → keys.new.keys ≡ map (key_of source) entries.new.items) }
{
    let (index, _) = keys.insert_full(key)?;
    if index < entries.len() {
        entries[index].cycles += row.cycles;
        Ok(())
    } else {
        Ok(entries.push(row)?)
    }
}

/// An entry of each spot where rows stand, in the order of their first rows.
fn joined(
    alloc: Global,
    methods: &[MethodText],
    rows: &[ReportRow],
) -> Result<Vec<ReportRow>, NoMemory>
    requires known { (r : ReportRow) → Contains rows.now r → r.method < length methods.now }
    requires small { cycles_of rows.now < 2 ^ 64 }
    ensures distinct { IfOk result (λ entries. IsDistinct same_key (map (key_of (source_told methods.now)) entries.items)) }
    ensures joined { IfOk result (λ entries. AreJoined (source_told methods.now) rows.now entries.items) }
{
    let mut keys = IndexSet::new(alloc);
    let mut entries = Vec::new(alloc);
    for row in rows {
        let key = key_of(methods, *row);
        add_row(&mut keys, &mut entries, key, *row)?;
    }
    Ok(entries)
}

/// Sorts entries: more cycles first, of as many the lower method first, and then the lower place.
fn sort_entries(entries: &mut Vec<ReportRow>)
    ensures permutation { IsPermutation entries.old.items entries.new.items }
    ensures sorted { IsSortedBy stands_before entries.new.items }
{
    entries.sort_unstable_by_key(|entry| (Reverse(entry.cycles), entry.method, entry.place));
}

/// The entries of rows, sorted.
pub(crate) fn entries_of(
    alloc: Global,
    methods: &[MethodText],
    rows: &[ReportRow],
) -> Result<Vec<ReportRow>, NoMemory>
    requires known { (r : ReportRow) → Contains rows.now r → r.method < length methods.now }
    requires small { cycles_of rows.now < 2 ^ 64 }
    ensures { IfOk result (λ entries. AreEntries (source_told methods.now) rows.now entries.items) }
{
    let mut entries = joined(alloc, methods, rows)?;
    sort_entries(&mut entries);
    Ok(entries)
}
