//! The line, piece by piece.
ghost use Rattle.std.specs.Prelude.{◌≡◌, ◌==◌, ◌++◌, [], ◌∷◌, OnOk, IfOk, decimal, if◌then◌else◌};
ghost use Rattle.std.specs.List.{concat};
ghost use Rattle.certificates.specs.CertLines.{bound_text};
ghost use Rattle.answer_lines.specs.WorkLines.{bytes_text, start_parts, counts_parts, end_parts, work_line};

use crate::Counts;
use ascii_text::put_u64;
use base::NoMemory;
use std::alloc::Global;

/// Appends a label and a number.
pub(crate) fn put_number(text: &mut Vec<u8>, label: &[u8], number: u64) -> Result<(), NoMemory>
    ensures { OnOk result (text.new.items ≡ text.old.items ++ (label.now ++ decimal number)) }
{
    text.extend_from_slice(label)?;
    put_u64(text, number)
}

/// Appends a byte in decimal, behind a space where others stand before it.
fn put_byte(text: &mut Vec<u8>, place: usize, byte: u8) -> Result<(), NoMemory>
    ensures { OnOk result (text.new.items ≡ text.old.items ++ ((if place == 0 then [] else 32 ∷ []) ++ decimal byte)) }
{
    if place == 0 {
        put_u64(text, byte as u64)
    } else {
        put_number(text, b" ", byte as u64)
    }
}

/// Appends bytes in decimal, with a space between two.
fn put_bytes(text: &mut Vec<u8>, bytes: &[u8]) -> Result<(), NoMemory>
    ensures { OnOk result (text.new.items ≡ text.old.items ++ bytes_text bytes.now) }
{
    for (place, byte) in bytes.iter().enumerate() {
        put_byte(text, place, *byte)?;
    }
    Ok(())
}

/// Appends the number of methods, and what the program put out.
fn put_start(text: &mut Vec<u8>, n: u32, output: &[u8]) -> Result<(), NoMemory>
    ensures { OnOk result (text.new.items ≡ text.old.items ++ concat (start_parts n output.now)) }
{
    put_number(text, b"work n=", n as u64)?;
    text.extend_from_slice(b" output=")?;
    put_bytes(text, output)
}

/// Appends the counts of the machine.
fn put_counts(text: &mut Vec<u8>, counts: Counts) -> Result<(), NoMemory>
    ensures { OnOk result (text.new.items ≡ text.old.items ++ concat (counts_parts counts)) }
{
    put_number(text, b" cycles=", counts.clock)?;
    put_number(text, b" hits=", counts.hits)?;
    put_number(text, b" misses=", counts.misses)
}

/// Appends a bound in cycles, or `never`.
fn put_bound(text: &mut Vec<u8>, bound: Option<u64>) -> Result<(), NoMemory>
    ensures { OnOk result (text.new.items ≡ text.old.items ++ bound_text bound) }
{
    match bound {
        Some(cycles) => put_u64(text, cycles),
        None => Ok(text.extend_from_slice(b"never")?),
    }
}

/// Appends the end of the line: the bound, and a line feed.
fn put_end(text: &mut Vec<u8>, bound: Option<u64>) -> Result<(), NoMemory>
    ensures { OnOk result (text.new.items ≡ text.old.items ++ concat (end_parts bound)) }
{
    text.extend_from_slice(b" bound=")?;
    put_bound(text, bound)?;
    Ok(text.push(b'\n')?)
}

/// The line of the program with so many methods: the bytes that it put out, in decimal, the counts of its machine, and the bound of
/// its main method in cycles, or `never` where that doesn't end.
pub fn work_line(
    alloc: Global,
    n: u32,
    output: &[u8],
    counts: Counts,
    bound: Option<u64>,
) -> Result<Vec<u8>, NoMemory>
    ensures { IfOk result (λ text. text.items ≡ work_line n output.now counts bound) }
{
    let mut text = Vec::new(alloc);
    put_start(&mut text, n, output)?;
    put_counts(&mut text, counts)?;
    put_end(&mut text, bound)?;
    Ok(text)
}
