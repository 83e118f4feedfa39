//! The lines of headers.
ghost use Rattle.std.specs.Prelude.{◌≡◌, ◌++◌, OnOk, flat_map, option_map};
ghost use Rattle.bound_texts.specs.Sources.Notes.{AtPlace, noted_bound};
ghost use Rattle.source_headers.specs.Headers.{header_lines, irreducible_line, number_line, source_line, spaced, wanting_line};
ghost use Rattle.source_headers.specs.Headers.{lesser, said_of_line};

use answer_lines::put_loop_line;
use ascii_text::put_u64;
use base::NoMemory;
use bound_texts::sources::SourceBounds;

/// The lesser of two numbers, or the one that there is.
fn lesser(a: Option<u32>, b: Option<u32>) -> Option<u32>
    ensures { result ≡ lesser a b }
{
    match (a, b) {
        (Some(a), Some(b)) => Some(a.min(b)),
        (Some(a), None) => Some(a),
        (None, b) => b,
    }
}

/// What is said of a line.
fn said_of_line(notes: &SourceBounds, source: Option<(&[u8], u32)>) -> Option<u32>
    ensures { result ≡ said_of_line notes.now (option_map (λ s. (s.0.now, s.1)) source.entry) }
{
    match source {
        Some((file, line)) => notes.at_line(file, line),
        None => None,
    }
}

/// Appends the line that names the source.
fn put_source(text: &mut Vec<u8>, source: Option<(&[u8], u32)>) -> Result<(), NoMemory>
    ensures { OnOk result (text.new.items ≡ text.old.items ++ source_line (option_map (λ s. (s.0.now, s.1)) source.entry)) }
{
    let Some((file, line)) = source else {
        return Ok(());
    };
    text.extend_from_slice(b"# ")?;
    text.extend_from_slice(file)?;
    text.push(b':')?;
    put_u64(text, line as u64)?;
    Ok(text.push(b'\n')?)
}

/// Appends the remark that wants a number.
fn put_wanting(text: &mut Vec<u8>, name: &[u8], place: u32) -> Result<(), NoMemory>
    ensures { OnOk result (text.new.items ≡ text.old.items ++ wanting_line name.now place) }
{
    text.extend_from_slice(b"# ")?;
    text.extend_from_slice(name)?;
    text.push(b' ')?;
    put_u64(text, place as u64)?;
    Ok(text.extend_from_slice(b" loop<=\n")?)
}

/// Appends the line that bounds a loop, or the remark that wants a number.
fn put_number(
    text: &mut Vec<u8>,
    name: &[u8],
    place: u32,
    number: Option<u32>,
) -> Result<(), NoMemory>
    ensures { OnOk result (text.new.items ≡ text.old.items ++ number_line name.now place number) }
{
    match number {
        Some(number) => put_loop_line(text, name, place, number),
        None => put_wanting(text, name, place),
    }
}

/// Appends the lines of a header.
pub(crate) fn put_header(
    text: &mut Vec<u8>,
    notes: &SourceBounds,
    name: &[u8],
    place: u32,
    source: Option<(&[u8], u32)>,
    found: Option<u32>,
) -> Result<(), NoMemory>
    ensures { OnOk result (text.new.items ≡ text.old.items
        ++ header_lines notes.now name.now (record { place = place; source = option_map (λ s. (s.0.now, s.1)) source.entry; found = found })) }
{
    put_source(text, source)?;
    let said = lesser(said_of_line(notes, source), notes.at_place(name, place));
    put_number(text, name, place, lesser(found, said))
}

/// Appends the remark on a method whose loops have several entries.
pub(crate) fn put_irreducible(
    text: &mut Vec<u8>,
    name: &[u8],
    nodes: &[u32],
) -> Result<(), NoMemory>
    ensures { OnOk result (text.new.items ≡ text.old.items ++ irreducible_line name.now nodes.now) }
{
    text.extend_from_slice(b"# ")?;
    text.extend_from_slice(name)?;
    text.extend_from_slice(b" irreducible")?;
    put_nodes(text, nodes)?;
    Ok(text.push(b'\n')?)
}

/// Appends numbers, each behind a space.
fn put_nodes(text: &mut Vec<u8>, nodes: &[u32]) -> Result<(), NoMemory>
    ensures { OnOk result (text.new.items ≡ text.old.items ++ flat_map spaced nodes.now) }
{
    for node in nodes {
        put_spaced(text, *node)?;
    }
    Ok(())
}

/// Appends a node behind a space: its place, and `r` where it is a raise step.
fn put_spaced(text: &mut Vec<u8>, node: u32) -> Result<(), NoMemory>
    ensures { OnOk result (text.new.items ≡ text.old.items ++ spaced node) }
{
    text.push(b' ')?;
    put_u64(text, (node / 2) as u64)?;
    if node % 2 == 1 {
        text.push(b'r')?;
    }
    Ok(())
}
