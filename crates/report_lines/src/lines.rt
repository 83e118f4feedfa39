//! The lines of a report.
ghost use Rattle.std.specs.Prelude.{◌≡◌, ◌++◌, ◌<◌, ◌^◌, Contains, length, codes, decimal, flat_map, option_map, IfOk, OnOk};
ghost use Rattle.source_places.specs.Methods.Told.{source_by};
ghost use Rattle.report_lines.specs.Text.{entry_line, entry_text, head_text, other_lines, part_text, report_lines, share};
ghost use Rattle.report_lines.specs.Told.{name_told, source_told};

use crate::methods::MethodText;
use ascii_text::put_u64;
use base::NoMemory;
use bound_report::contents::{ReportRow, ReportTotals};
use itoa::Buffer;
use source_places::methods::source_at;
use std::alloc::Global;

/// Appends the digits of `n`.
fn put_u128(text: &mut Vec<u8>, n: u128) -> Result<(), NoMemory>
    ensures { OnOk result (text.new.items ≡ text.old.items ++ decimal n) }
{
    let mut digits = Buffer::new();
    Ok(text.extend_from_slice(digits.format(n).as_bytes())?)
}

/// A part of a bound in percent, rounded down; 0 of a bound of no cycles.
fn share(cycles: u128, bound: u64) -> u128
    requires { cycles < 2 ^ 64 }
    ensures { result ≡ share cycles bound }
{
    if bound == 0 {
        0
    } else {
        100 * cycles / u128::from(bound)
    }
}

/// Appends the cycles of a part of a bound, and its share: ` cycles=C share=P%` and a line feed.
fn put_part(text: &mut Vec<u8>, bound: u64, cycles: u128) -> Result<(), NoMemory>
    requires { cycles < 2 ^ 64 }
    ensures { OnOk result (text.new.items ≡ text.old.items ++ part_text bound cycles) }
{
    text.extend_from_slice(b" cycles=")?;
    put_u128(text, cycles)?;
    text.extend_from_slice(b" share=")?;
    put_u128(text, share(cycles, bound))?;
    Ok(text.extend_from_slice(b"%\n")?)
}

/// Appends where an entry stands, and the name of its method: `FILE:LINE NAME`, or `NAME PC` where no line is told.
fn put_head(
    text: &mut Vec<u8>,
    name: &[u8],
    place: u32,
    source: Option<(&[u8], u32)>,
) -> Result<(), NoMemory>
    ensures { OnOk result (text.new.items ≡ text.old.items ++ head_text name.now place (option_map (λ s. (s.0.now, s.1)) source.entry)) }
{
    match source {
        Some((file, line)) => put_line(text, name, file, line),
        None => put_place(text, name, place),
    }
}

/// Appends the line of a file, and a name behind it.
fn put_line(text: &mut Vec<u8>, name: &[u8], file: &[u8], line: u32) -> Result<(), NoMemory>
    ensures { OnOk result (text.new.items ≡ text.old.items ++ (file.now ++ (codes ":" ++ (decimal line ++ (codes " " ++ name.now))))) }
{
    text.extend_from_slice(file)?;
    text.push(b':')?;
    put_u64(text, u64::from(line))?;
    text.push(b' ')?;
    Ok(text.extend_from_slice(name)?)
}

/// Appends a name, and a place behind it.
fn put_place(text: &mut Vec<u8>, name: &[u8], place: u32) -> Result<(), NoMemory>
    ensures { OnOk result (text.new.items ≡ text.old.items ++ (name.now ++ (codes " " ++ decimal place))) }
{
    text.extend_from_slice(name)?;
    text.push(b' ')?;
    put_u64(text, u64::from(place))
}

/// Appends the line of an entry of this method.
fn put_entry(
    text: &mut Vec<u8>,
    method: &MethodText,
    bound: u64,
    entry: ReportRow,
) -> Result<(), NoMemory>
    requires { entry.cycles < 2 ^ 64 }
    ensures { OnOk result (text.new.items
        ≡ text.old.items ++ entry_text bound method.now.name.items (source_by method.now.source entry.place) entry) }
{
    let source = source_at(&method.source, entry.place);
    put_head(text, &method.name, entry.place, source)?;
    text.extend_from_slice(b" visits=")?;
    put_u128(text, entry.visits)?;
    put_part(text, bound, entry.cycles)
}

/// Appends the lines of entries.
fn put_entries(
    text: &mut Vec<u8>,
    methods: &[MethodText],
    bound: u64,
    entries: &[ReportRow],
) -> Result<(), NoMemory>
    requires known { (e : ReportRow) → Contains entries.now e → e.method < length methods.now }
    requires small { (e : ReportRow) → Contains entries.now e → e.cycles < 2 ^ 64 }
    ensures { OnOk result (text.new.items
        ≡ text.old.items ++ flat_map (entry_line (source_told methods.now) (name_told methods.now) bound) entries.now) }
{
    for entry in entries {
        put_entry(text, &methods[entry.method as usize], bound, *entry)?;
    }
    Ok(())
}

/// Appends the line of the bound.
fn put_bound(text: &mut Vec<u8>, bound: u64) -> Result<(), NoMemory>
    ensures { OnOk result (text.new.items ≡ text.old.items ++ (codes "bound=" ++ (decimal bound ++ codes "\n"))) }
{
    text.extend_from_slice(b"bound=")?;
    put_u64(text, bound)?;
    Ok(text.push(b'\n')?)
}

/// Appends a word, and a part of a bound behind it.
fn put_named(text: &mut Vec<u8>, word: &[u8], bound: u64, cycles: u128) -> Result<(), NoMemory>
    requires { cycles < 2 ^ 64 }
    ensures { OnOk result (text.new.items ≡ text.old.items ++ (word.now ++ part_text bound cycles)) }
{
    text.extend_from_slice(word)?;
    put_part(text, bound, cycles)
}

/// Appends the lines of what comes of no instruction.
fn put_others(text: &mut Vec<u8>, totals: ReportTotals) -> Result<(), NoMemory>
    requires { totals.loads < 2 ^ 64 }
    ensures { OnOk result (text.new.items ≡ text.old.items ++ other_lines totals) }
{
    put_named(text, b"loads", totals.bound, totals.loads)?;
    put_named(text, b"invoke", totals.bound, u128::from(totals.invoke))?;
    put_named(text, b"return", totals.bound, u128::from(totals.back))
}

/// The text of entries.
pub(crate) fn text_of(
    alloc: Global,
    methods: &[MethodText],
    entries: &[ReportRow],
    totals: ReportTotals,
) -> Result<Vec<u8>, NoMemory>
    requires known { (e : ReportRow) → Contains entries.now e → e.method < length methods.now }
    requires small { (e : ReportRow) → Contains entries.now e → e.cycles < 2 ^ 64 }
    requires loads { totals.loads < 2 ^ 64 }
    ensures { IfOk result (λ text. text.items ≡ report_lines (source_told methods.now) (name_told methods.now) totals entries.now) }
{
    let mut text = Vec::new(alloc);
    put_bound(&mut text, totals.bound)?;
    put_entries(&mut text, methods, totals.bound, entries)?;
    put_others(&mut text, totals)?;
    Ok(text)
}
