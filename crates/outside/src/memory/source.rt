//! Sources in memory.

// Sources in memory.
ghost use Rattle.std.specs.Prelude.{◌≡◌, ◌≤◌, ◌↔◌, ℕ, List, length, drop, vec_len, Contains, IsErr, IfOk, Some};
ghost use Rattle.outside.specs.Outside.{Counted, Gave, HasCause, Takes};
ghost use Rattle.outside.specs.Memory.{SourceState, next_call};

use super::{count_call, fill};
use crate::{Failed, Source};
use std::marker::Model;

/// A source that has bytes in memory and never fails.
#[derive(Drop)]
pub struct SureSource {
    bytes: Vec<u8>,
    at: usize,
}

impl Model for SureSource {
    ghost Value = { List ℕ };

    ghost view = { λ s. drop s.at s.bytes.items };

    ghost invariant = { λ s. s.at ≤ vec_len s.bytes };
}

impl SureSource {
    pub fn new(bytes: Vec<u8>) -> Self
        ensures { result ≡ bytes.items }
    {
        SureSource { bytes, at: 0 }
    }

    /// The bytes that are left.
    pub fn left(&self) -> &[u8]
        ensures { result.now ≡ self.now }
    {
        &self.bytes[self.at..]
    }

    /// Moves the next bytes into a front of the piece, and gives how many they are.
    fn give(&mut self, piece: &mut [u8]) -> usize
        ensures bound { result ≤ length piece.new }
        ensures gave { Gave self.old self.new result piece.new }
    {
        let count = fill(piece, &self.bytes[self.at..]);
        self.at += count;
        count
    }
}

// The count stands at 0, so no call fails.
impl Source for SureSource {
    ghost left = { λ s. Some s };

    ghost faults = { λ _. 0 };

    fn take(&mut self, piece: &mut [u8]) -> Result<usize, Failed> {
        Ok(self.give(piece))
    }

    fn faults(&self) -> u64 {
        0
    }
}

/// A source that has bytes in memory. The calls of `take` whose numbers are listed fail; they are counted
/// from 0.
#[derive(Drop)]
pub struct MemSource {
    source: SureSource,
    failing: Vec<u64>,
    calls: u64,
    faults: u64,
}

impl Model for MemSource {
    ghost Value = { SourceState };

    ghost view = { λ s. record { left = s.source; failing = s.failing.items; calls = s.calls; faults = s.faults } };
}

impl MemSource {
    pub fn new(bytes: Vec<u8>, failing: Vec<u64>) -> Self
        ensures left { result.left ≡ bytes.items }
        ensures failing { result.failing ≡ failing.items }
        ensures calls { result.calls ≡ 0 }
        ensures faults { result.faults ≡ 0 }
    {
        MemSource {
            source: SureSource::new(bytes),
            failing,
            calls: 0,
            faults: 0,
        }
    }

    /// The bytes that are left.
    pub fn left(&self) -> &[u8]
        ensures { result.now ≡ self.now.left }
    {
        self.source.left()
    }
}

impl Source for MemSource {
    ghost left = { λ s. Some s.left };

    ghost faults = { λ s. s.faults };

    fn take(&mut self, piece: &mut [u8]) -> Result<usize, Failed>
        ensures bound { IfOk result (λ n. n ≤ length piece.new) }
        ensures told { Takes (Some self.old.left) (Some self.new.left) result piece.new }
        ensures cause { HasCause self.old.faults self.new.faults result }

        // The calls that are listed fail, and no others.
        ensures listed { IsErr result ↔ Contains self.old.failing self.old.calls }
        ensures faults { Counted result self.old.faults self.new.faults }
        ensures counted { self.new.calls ≡ next_call self.old.calls }
        ensures same { self.new.failing ≡ self.old.failing }
    {
        if let Err(failed) = count_call(&self.failing, &mut self.calls) {
            self.faults = self.faults.saturating_add(1);
            return Err(failed);
        }
        Ok(self.source.give(piece))
    }

    fn faults(&self) -> u64 {
        self.faults
    }
}
