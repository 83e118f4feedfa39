//! Bounds of places of methods, as a text gives them: how often each loop goes round at most, once it is entered, or
//! how long the arrays are at most that an instruction makes.
//!
//! A line is empty, begins with `#`, or is `NAME PC loop<=N` with single spaces: the name of a method, which holds no
//! space, the place of the loop's header, and how often its back edges are taken at most. In a text of lengths it is
//! `NAME PC length<=N`: the place is that of the instruction, and the number counts elements. Numbers are decimal,
//! without leading zeros, and at most 4,294,967,295, a length at most 2,147,483,647.

pub mod laws;
mod line;
mod quantity;
mod site;

ghost use Rattle.std.specs.Prelude.{◌≡◌, ◌++◌, [], ◌∷◌, None, OnOk, IfOk, IfErr, ◌≤◌, length};
ghost use Rattle.base.specs.Sizes.{longest_file};
ghost use Rattle.bound_texts.specs.Loops.Bounds.{bound_in};
ghost use Rattle.bound_texts.specs.Loops.Grammar.{IsRead, AreBoundsRefused, IsReadLengths, IsRefusedLengths};
ghost use Rattle.bound_texts.specs.Loops.Lines.{GivesBounds, CausesFault};
ghost use Rattle.bound_texts.specs.Loops.Meaning.{bound_at};

use ascii_text::lines;
use base::NoMemory;
use indexmap::{IndexMap, IndexSet};
use line::{Found, Said, read_line};
use quantity::Quantity;
use site::Site;
use std::alloc::Global;
use std::marker::Model;
use thiserror::Error;

/// Why a text gives no bounds.
#[derive(Debug, Drop, Error)]
pub enum BoundsFault {
    /// The line of this number, counted from 1, is none of the grammar.
    #[error("line {0}: expected a method's name, a place and a bound")]
    Line(u32),
    /// The line of this number bounds a place that a line before it bounds.
    #[error("line {0}: the place has a bound already")]
    Twice(u32),
    /// There is no memory.
    #[error("no memory")]
    NoMemory,
}

/// Bounds, in the order of their lines. Contracts see them as the list.
#[derive(Drop)]
pub struct Bounds {
    names: IndexSet<Vec<u8>>,
    bounds: IndexMap<Site, u32>,
}

impl Model for Bounds {
    ghost use Rattle.std.specs.Prelude.{◌≡◌, ◌<◌, ℕ, List, [], length, map, All, slice_index_or};
    ghost use Rattle.bound_texts.specs.Loops.Bounds.{LoopBound};
    ghost use Rattle.bound_texts.specs.Loops.Meaning.{bound_of};

    ghost Value = { List LoopBound };

    ghost view = { λ b. map (bound_of (map (λ k. k.items) b.names.keys)) b.bounds.entries };

    // Each place has the number of a name, and no name has two numbers.
    ghost invariant = { λ b. All (λ e. e.0.name < length (map (λ k. k.items) b.names.keys)) b.bounds.entries
        × ((i : ℕ) (j : ℕ) → i < length (map (λ k. k.items) b.names.keys) → j < length (map (λ k. k.items) b.names.keys)
        → slice_index_or (map (λ k. k.items) b.names.keys) i [] ≡ slice_index_or (map (λ k. k.items) b.names.keys) j [] → i ≡ j) };
}

/// The bounds of loops that a text gives. A line is refused where it is none of the grammar, or bounds a loop a second
/// time.
pub fn read_bounds(alloc: Global, text: &[u8]) -> Result<Bounds, BoundsFault>
    requires { length text.now ≤ longest_file }
    ensures read { IfOk result (IsRead text.now) }
    ensures refused { IfErr result (AreBoundsRefused text.now) }
{
    read_text(alloc, Quantity::Iterations, text)
}

/// The greatest lengths of arrays that a text gives, in elements. A line is refused where it is none of the grammar, or
/// speaks of a place a second time.
pub fn read_lengths(alloc: Global, text: &[u8]) -> Result<Bounds, BoundsFault>
    requires { length text.now ≤ longest_file }
    ensures read { IfOk result (IsReadLengths text.now) }
    ensures refused { IfErr result (IsRefusedLengths text.now) }
{
    read_text(alloc, Quantity::Lengths, text)
}

/// The bounds of this quantity that a text gives.
fn read_text(alloc: Global, quantity: Quantity, text: &[u8]) -> Result<Bounds, BoundsFault>
    requires { length text.now ≤ longest_file }
    ensures read { IfOk result (GivesBounds quantity text.now) }
    ensures refused { IfErr result (CausesFault quantity text.now) }
{
    let mut bounds = Bounds::new(alloc);
    let mut number = 0u32;
    for line in lines(text) {
        number += 1;
        match read_line(quantity, line) {
            Said::Nothing => {}
            Said::Bound(found) => {
                if bounds.bound(found.name, found.pc).is_some() {
                    return Err(BoundsFault::Twice(number));
                }
                if bounds.add(alloc, found).is_err() {
                    return Err(BoundsFault::NoMemory);
                }
            }
            Said::Malformed => return Err(BoundsFault::Line(number)),
        }
    }
    Ok(bounds)
}

impl Bounds {
    /// No bounds.
    fn new(alloc: Global) -> Self
        ensures { result ≡ [] }
    {
        Bounds {
            names: IndexSet::new(alloc),
            bounds: IndexMap::new(alloc),
        }
    }

    /// Puts the bound of a place that has none behind the others.
    fn add(&mut self, alloc: Global, found: Found) -> Result<(), NoMemory>
        requires { bound_in found.name.now found.pc self.old ≡ None }
        ensures { OnOk result (self.new ≡ self.old ++ bound_at found.entry ∷ []) }
    {
        let name = Vec::from_slice(alloc, found.name)?;
        let (name, _) = self.names.insert_full(name)?;
        self.bounds
            .insert(Site { name, pc: found.pc }, found.bound)?;
        Ok(())
    }

    /// The bound of this place of a method, where a line gives one.
    pub fn bound(&self, name: &[u8], pc: u32) -> Option<u32>
        ensures { result ≡ bound_in name.now pc self.now }
    {
        match self.names.get_index_of(name) {
            Some(name) => self.bounds.get(&Site { name, pc }).copied(),
            None => None,
        }
    }
}
