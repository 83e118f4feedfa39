//! Bounds that are said of what heads no loop.
ghost use Rattle.std.specs.Prelude.{◌≡◌, ◌↔◌, ◌++◌, ◌∷◌, IsTrue, IfOk, IfErr, OnOk, decimal};
ghost use Rattle.bound_texts.specs.Sources.Meaning.{subject_seen};
ghost use Rattle.source_headers.specs.Gathered.{IsLacking};
ghost use Rattle.source_headers.specs.Lacking.{AreUsedBy, IsLackingFault, NamesSubject};
ghost use Rattle.source_headers.specs.Straying.{subject_text};

use crate::fault::HeaderFault;
use crate::gathering::Gathered;
use ascii_text::put_u64;
use base::NoMemory;
use bound_texts::sources::{SourceBounds, SubjectRef};
use std::alloc::Global;

/// Whether a bound is said of a file or a method of the program that has no loop there.
fn is_stray(gathered: &Gathered, subject: SubjectRef<'_>) -> bool
    ensures { IsTrue result ↔ IsLacking gathered.now (subject_seen subject.entry) }
{
    match subject {
        SubjectRef::Line(file, line) => gathered.files.lacks(file, line),
        SubjectRef::Place(method, place) => gathered.methods.lacks(method, place),
    }
}

/// A name and a number, with this byte between.
fn name_and_number(
    alloc: Global,
    name: &[u8],
    between: u8,
    number: u32,
) -> Result<Vec<u8>, NoMemory>
    ensures { IfOk result (λ text. text.items ≡ name.now ++ (between ∷ decimal number)) }
{
    let mut text = Vec::from_slice(alloc, name)?;
    text.push(between)?;
    put_u64(&mut text, number as u64)?;
    Ok(text)
}

/// A subject as a refusal names it: `FILE:LINE` or `NAME PC`.
fn subject_text(alloc: Global, subject: SubjectRef<'_>) -> Result<Vec<u8>, NoMemory>
    ensures { IfOk result (λ text. text.items ≡ subject_text (subject_seen subject.entry)) }
{
    match subject {
        SubjectRef::Line(file, line) => name_and_number(alloc, file, b':', line),
        SubjectRef::Place(method, place) => name_and_number(alloc, method, b' ', place),
    }
}

/// The refusal of a bound that strays.
fn stray(alloc: Global, subject: SubjectRef<'_>) -> HeaderFault
    ensures { NamesSubject (subject_seen subject.entry) result }
{
    match subject_text(alloc, subject) {
        Ok(text) => HeaderFault::Stray(text),
        Err(NoMemory) => HeaderFault::NoMemory,
    }
}

/// Passes over the bounds where none of them strays, and refuses the first that does.
pub(crate) fn check_notes(
    alloc: Global,
    gathered: &Gathered,
    notes: &SourceBounds,
) -> Result<(), HeaderFault>
    ensures none { OnOk result (AreUsedBy gathered.now notes.now) }
    ensures first { IfErr result (IsLackingFault gathered.now notes.now) }
{
    for index in 0..usize::MAX {
        let Some(note) = notes.note(index) else {
            return Ok(());
        };
        if is_stray(gathered, note.subject) {
            return Err(stray(alloc, note.subject));
        }
    }
    // No memory holds so many bounds.
    Err(HeaderFault::NoMemory)
}
