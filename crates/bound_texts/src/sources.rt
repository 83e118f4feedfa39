//! The bounds of loops by lines of their sources, as a text gives them.
//!
//! A line is empty, begins with `#`, or is `FILE:LINE loop<=N` with a single space: a source file, which holds no space,
//! one of its lines, and how often the back edges of each loop are taken at most whose header is of this line. It may
//! also be `NAME PC loop<=N`, as in a text of bounds by places of methods. Numbers are decimal, without leading
//! zeros, and at most 4,294,967,295.

pub mod laws;
mod line;
mod parts;
mod site;
mod subject;

ghost use Rattle.std.specs.Prelude.{◌≡◌, ◌++◌, [], ◌∷◌, None, OnOk, IfOk, IfErr, ◌≤◌, length, slice_get, option_map};
ghost use Rattle.bound_texts.specs.Sources.Notes.{AtLine, AtPlace, noted_bound};
ghost use Rattle.bound_texts.specs.Sources.Grammar.{AreNotesRead, AreNotesRefused};
ghost use Rattle.bound_texts.specs.Sources.Meaning.{note_at, subject_seen};

use ascii_text::lines;
use base::NoMemory;
use indexmap::{IndexMap, IndexSet};
use line::{Said, read_line};
use site::Site;
use std::alloc::Global;
use std::marker::Model;
pub use subject::{Note, SubjectRef};
use thiserror::Error;

/// Why a text gives no bounds.
#[derive(Debug, Drop, Error)]
pub enum SourceFault {
    /// The line of this number, counted from 1, is none of the grammar.
    #[error("line {0}: expected `FILE:LINE loop<=N`")]
    Line(u32),
    /// The line of this number bounds what a line before it bounds.
    #[error("line {0}: there is a bound already")]
    Twice(u32),
    /// There is no memory.
    #[error("no memory")]
    NoMemory,
}

/// The bounds, in the order of their lines. Contracts see them as the list.
#[derive(Drop)]
pub struct SourceBounds {
    names: IndexSet<Vec<u8>>,
    bounds: IndexMap<Site, u32>,
}

impl Model for SourceBounds {
    ghost use Rattle.std.specs.Prelude.{◌≡◌, ◌<◌, ℕ, List, [], length, map, All, slice_index_or};
    ghost use Rattle.bound_texts.specs.Sources.Notes.{Note};
    ghost use Rattle.bound_texts.specs.Sources.Meaning.{note_of};

    ghost Value = { List Note };

    ghost view = { λ b. map (note_of (map (λ k. k.items) b.names.keys)) b.bounds.entries };

    // Each bound has the number of a name, and no name has two numbers.
    ghost invariant = { λ b. All (λ e. e.0.name < length (map (λ k. k.items) b.names.keys)) b.bounds.entries
        × ((i : ℕ) (j : ℕ) → i < length (map (λ k. k.items) b.names.keys) → j < length (map (λ k. k.items) b.names.keys)
        → slice_index_or (map (λ k. k.items) b.names.keys) i [] ≡ slice_index_or (map (λ k. k.items) b.names.keys) j [] → i ≡ j) };
}

/// The bounds that a text gives. A line is refused where it is none of the grammar, or bounds something a second time.
pub fn read_source_bounds(alloc: Global, text: &[u8]) -> Result<SourceBounds, SourceFault>
    requires { length text.now ≤ 33554432 }
    ensures read { IfOk result (AreNotesRead text.now) }
    ensures refused { IfErr result (AreNotesRefused text.now) }
{
    let mut bounds = SourceBounds::new(alloc);
    let mut number = 0u32;
    for line in lines(text) {
        number += 1;
        match read_line(line) {
            Said::Nothing => {}
            Said::Note(note) => {
                if bounds.of(note.subject).is_some() {
                    return Err(SourceFault::Twice(number));
                }
                if bounds.add(alloc, note).is_err() {
                    return Err(SourceFault::NoMemory);
                }
            }
            Said::Malformed => return Err(SourceFault::Line(number)),
        }
    }
    Ok(bounds)
}

impl SourceBounds {
    /// No bounds.
    fn new(alloc: Global) -> Self
        ensures { result ≡ [] }
    {
        SourceBounds {
            names: IndexSet::new(alloc),
            bounds: IndexMap::new(alloc),
        }
    }

    /// Puts a bound behind the others, where none of them is of its subject.
    fn add(&mut self, alloc: Global, note: Note) -> Result<(), NoMemory>
        requires { noted_bound (note_at note).subject self.old ≡ None }
        ensures { OnOk result (self.new ≡ self.old ++ note_at note.entry ∷ []) }
    {
        let name = Vec::from_slice(alloc, note.subject.name())?;
        let (name, _) = self.names.insert_full(name)?;
        let site = Site {
            of_line: note.subject.is_line(),
            name,
            number: note.subject.number(),
        };
        self.bounds.insert(site, note.bound)?;
        Ok(())
    }

    /// The bound of a subject.
    fn of(&self, subject: SubjectRef) -> Option<u32>
        ensures { result ≡ noted_bound (subject_seen subject.entry) self.now }
    {
        match subject {
            SubjectRef::Line(file, line) => self.at_line(file, line),
            SubjectRef::Place(name, pc) => self.at_place(name, pc),
        }
    }

    /// How often each loop whose header is of this line of this file goes round at most, where a line says so.
    pub fn at_line(&self, file: &[u8], line: u32) -> Option<u32>
        ensures { result ≡ noted_bound (AtLine file.now line) self.now }
    {
        match self.names.get_index_of(file) {
            Some(name) => self
                .bounds
                .get(&Site {
                    of_line: true,
                    name,
                    number: line,
                })
                .copied(),
            None => None,
        }
    }

    /// How often the loop of a method goes round at most whose header is at this place, where a line says so.
    pub fn at_place(&self, name: &[u8], pc: u32) -> Option<u32>
        ensures { result ≡ noted_bound (AtPlace name.now pc) self.now }
    {
        match self.names.get_index_of(name) {
            Some(name) => self
                .bounds
                .get(&Site {
                    of_line: false,
                    name,
                    number: pc,
                })
                .copied(),
            None => None,
        }
    }

    /// The bound of this number, counted from 0 in the order of the lines.
    pub fn note(&self, index: usize) -> Option<Note<'_>>
        ensures { option_map note_at result ≡ slice_get self.now index }
    {
        let (site, bound) = self.bounds.get_index(index)?;
        let name = self.names.get_index(site.name)?.as_slice();
        let subject = if site.of_line {
            SubjectRef::Line(name, site.number)
        } else {
            SubjectRef::Place(name, site.number)
        };
        Some(Note {
            subject,
            bound: *bound,
        })
    }
}
