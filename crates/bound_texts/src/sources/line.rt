//! A line of the text.
ghost use Rattle.std.specs.Prelude.{IfSome, IfNone};
ghost use Rattle.bound_texts.specs.Sources.Notes.{Note as NoteSeen};
ghost use Rattle.bound_texts.specs.Sources.Grammar.{IsNote};
ghost use Rattle.bound_texts.specs.Sources.Meaning.{Finds, IsSourceNote, IsPlaceNote, note_at};

use crate::sources::parts::{Parts, parts_of, read_bound, read_source, read_u32};
use crate::sources::subject::{Note, SubjectRef};

/// What a line says.
#[derive(Clone, Copy)]
pub(crate) enum Said<'a> {
    /// It is empty or a remark.
    Nothing,
    /// A bound.
    Note(Note<'a>),
    /// It is no line of the grammar.
    Malformed,
}

/// What a line says.
pub(crate) fn read_line<'a>(line: &'a [u8]) -> Said<'a>
    ensures { Finds line.now result }
{
    match line {
        [] | [b'#', ..] => Said::Nothing,
        _ => match read_note(line) {
            Some(note) => Said::Note(note),
            None => Said::Malformed,
        },
    }
}

/// The bound that a line gives, if it gives one.
fn read_note<'a>(line: &'a [u8]) -> Option<Note<'a>>
    ensures read { IfSome result (λ r. IsNote line.now (note_at r)) }
    ensures none { IfNone result ((n : NoteSeen) → ¬ IsNote line.now n) }
{
    match parts_of(line) {
        Parts::Two(source, bound) => source_note(source, bound),
        Parts::Three(name, pc, bound) => place_note(name, pc, bound),
        Parts::Other => None,
    }
}

/// The bound of the loops of a line of a file.
fn source_note<'a>(source: &'a [u8], bound: &'a [u8]) -> Option<Note<'a>>
    ensures read { IfSome result (λ r. IsSourceNote source.now bound.now (note_at r)) }
    ensures none { IfNone result ((n : NoteSeen) → ¬ IsSourceNote source.now bound.now n) }
{
    let (file, line) = read_source(source)?;
    let bound = read_bound(bound)?;
    Some(Note {
        subject: SubjectRef::Line(file, line),
        bound,
    })
}

/// The bound of a loop of a method.
fn place_note<'a>(name: &'a [u8], pc: &'a [u8], bound: &'a [u8]) -> Option<Note<'a>>
    ensures read { IfSome result (λ r. IsPlaceNote name.now pc.now bound.now (note_at r)) }
    ensures none { IfNone result ((n : NoteSeen) → ¬ IsPlaceNote name.now pc.now bound.now n) }
{
    if name.is_empty() {
        return None;
    }
    let pc = read_u32(pc)?;
    let bound = read_bound(bound)?;
    Some(Note {
        subject: SubjectRef::Place(name, pc),
        bound,
    })
}
