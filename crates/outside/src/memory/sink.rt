//! Sinks in memory.

// Sinks in memory.
ghost use Rattle.std.specs.Prelude.{◌≡◌, ◌<◌, ◌≤◌, ◌⊎◌, ℕ, List, [], ◌++◌, length, vec_capacity, Contains, IsErr, IfOk, IfSome, Some, None, if◌then◌else◌};
ghost use Rattle.outside.specs.Outside.{Counted, HasCause, Puts};
ghost use Rattle.outside.specs.Memory.{LacksRoom, SinkState, SureSinkState, next_call};

use super::count_call;
use crate::{Failed, NoMemory, Sink};
use std::alloc::Global;
use std::marker::Model;

/// A sink that holds its bytes in memory. The calls of `put` whose numbers are listed fail; they are counted
/// from 0. A call that finds no memory for its piece fails too.
#[derive(Drop)]
pub struct MemSink {
    bytes: Vec<u8>,
    failing: Vec<u64>,
    calls: u64,
    faults: u64,
}

impl Model for MemSink {
    ghost Value = { SinkState };

    ghost view = { λ s. record { held = s.bytes.items; capacity = vec_capacity s.bytes; failing = s.failing.items; calls = s.calls; faults = s.faults } };
}

impl MemSink {
    pub fn new(alloc: Global, failing: Vec<u64>) -> Self
        ensures held { result.held ≡ [] }
        ensures failing { result.failing ≡ failing.items }
        ensures calls { result.calls ≡ 0 }
        ensures faults { result.faults ≡ 0 }
    {
        MemSink {
            bytes: Vec::new(alloc),
            failing,
            calls: 0,
            faults: 0,
        }
    }

    /// A sink with memory for so many bytes: as long as it holds no more, the listed calls alone fail.
    pub fn with_capacity(
        alloc: Global,
        failing: Vec<u64>,
        capacity: usize,
    ) -> Result<Self, NoMemory>
        ensures held { IfOk result (λ s. s.held ≡ []) }
        ensures capacity { IfOk result (λ s. s.capacity ≡ capacity) }
        ensures failing { IfOk result (λ s. s.failing ≡ failing.items) }
        ensures calls { IfOk result (λ s. s.calls ≡ 0) }
        ensures faults { IfOk result (λ s. s.faults ≡ 0) }
    {
        Ok(MemSink {
            bytes: Vec::with_capacity(alloc, capacity)?,
            failing,
            calls: 0,
            faults: 0,
        })
    }

    /// The bytes that it holds.
    pub fn held(&self) -> &[u8]
        ensures { result.now ≡ self.now.held }
    {
        &self.bytes
    }
}

impl Sink for MemSink {
    ghost held = { λ s. Some s.held };

    ghost faults = { λ s. s.faults };

    fn put(&mut self, piece: &[u8]) -> Result<usize, Failed>
        ensures bound { IfOk result (λ n. n ≤ length piece.now) }
        ensures some { IfOk result (λ n. 0 < length piece.now → 0 < n) }
        ensures told { Puts (Some self.old.held) (Some self.new.held) result piece.now }
        ensures cause { HasCause self.old.faults self.new.faults result }

        // The calls that are listed fail. Another one takes the whole piece, or there was no room for it.
        ensures listed { Contains self.old.failing self.old.calls → IsErr result }
        ensures others { IsErr result → Contains self.old.failing self.old.calls ⊎ LacksRoom self.old.held self.old.capacity piece.now }
        ensures whole { IfOk result (λ n. n ≡ length piece.now) }
        ensures faults { Counted result self.old.faults self.new.faults }
        ensures capacity { self.old.capacity ≤ self.new.capacity }
        ensures counted { self.new.calls ≡ next_call self.old.calls }
        ensures same { self.new.failing ≡ self.old.failing }
    {
        if let Err(failed) = count_call(&self.failing, &mut self.calls) {
            self.faults = self.faults.saturating_add(1);
            return Err(failed);
        }
        if let Err(_) = self.bytes.extend_from_slice(piece) {
            self.faults = self.faults.saturating_add(1);
            return Err(Failed);
        }
        Ok(piece.len())
    }

    fn faults(&self) -> u64 {
        self.faults
    }
}

/// A sink in memory that never fails. Where it finds no memory for a piece, it stops telling what it holds.
#[derive(Drop)]
pub struct SureSink {
    bytes: Vec<u8>,
    whole: bool,
}

impl Model for SureSink {
    ghost Value = { SureSinkState };

    ghost view = { λ s. record { held = (if s.whole then Some s.bytes.items else None); capacity = vec_capacity s.bytes } };
}

impl SureSink {
    pub fn new(alloc: Global) -> Self
        ensures { result.held ≡ Some [] }
    {
        SureSink {
            bytes: Vec::new(alloc),
            whole: true,
        }
    }

    /// A sink with memory for so many bytes: as long as it holds no more, it tells.
    pub fn with_capacity(alloc: Global, capacity: usize) -> Result<Self, NoMemory>
        ensures held { IfOk result (λ s. s.held ≡ Some []) }
        ensures capacity { IfOk result (λ s. s.capacity ≡ capacity) }
    {
        Ok(SureSink {
            bytes: Vec::with_capacity(alloc, capacity)?,
            whole: true,
        })
    }

    /// The bytes that it holds, where it tells.
    pub fn held(&self) -> &[u8]
        ensures { IfSome self.now.held (λ bytes. result.now ≡ bytes) }
    {
        &self.bytes
    }
}

// The count stands at 0, so no call fails.
impl Sink for SureSink {
    ghost held = { λ s. s.held };

    ghost faults = { λ _. 0 };

    fn put(&mut self, piece: &[u8]) -> Result<usize, Failed>
        ensures bound { IfOk result (λ n. n ≤ length piece.now) }
        ensures some { IfOk result (λ n. 0 < length piece.now → 0 < n) }
        ensures told { Puts self.old.held self.new.held result piece.now }
        ensures cause { HasCause 0 0 result }

        // It takes the whole piece, and goes on telling, or there was no room for it.
        ensures whole { result ≡ Ok (length piece.now) }
        ensures tells { IfSome self.old.held (λ held. LacksRoom held self.old.capacity piece.now ⊎ (self.new.held ≡ Some (held ++ piece.now))) }
        ensures capacity { self.old.capacity ≤ self.new.capacity }
    {
        if let Err(_) = self.bytes.extend_from_slice(piece) {
            self.whole = false;
        }
        Ok(piece.len())
    }

    fn faults(&self) -> u64 {
        0
    }
}
