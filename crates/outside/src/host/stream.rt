//! Streams of the system as a source and a sink.

// A sink over a writer, and a source over a reader.
ghost use Rattle.std.specs.Prelude.{◌≡◌, ◌<◌, ◌≤◌, length, None, IfOk, IsSome};
ghost use Rattle.outside.specs.Outside.{Counted, HasCause, Puts, Takes};
ghost use Rattle.outside.specs.Host.{StreamState};

use crate::{Failed, Sink, Source};
use std::fs::File;
use std::io::{Read, Write};
use std::marker::Model;
use std::rt::{Stderr, Stdin, Stdout};

/// A writer that hands on each byte as it takes it, so that there is nothing to flush. What it holds is known
/// at all times, or never.
pub trait DirectWrite: Write {
    ghost steady: { (v w : Self) → IsSome (Self.contents v) → IsSome (Self.contents w) };
}

impl DirectWrite for Stdout {
    ghost steady = { λ v w known. known };
}

impl DirectWrite for Stderr {
    ghost steady = { λ v w known. known };
}

impl DirectWrite for File {
    ghost steady = { λ v w known. known };
}

impl DirectWrite for Vec<u8> {
    ghost use Rattle.std.specs.Prelude.{refl};

    ghost steady = { λ v w known. refl };
}

/// A reader of which it is known at all times, or never, what it has left.
pub trait SteadyRead: Read {
    ghost steady: { (v w : Self) → IsSome (Self.remaining v) → IsSome (Self.remaining w) };
}

impl SteadyRead for Stdin {
    ghost steady = { λ v w known. known };
}

impl SteadyRead for File {
    ghost steady = { λ v w known. known };
}

impl SteadyRead for &[u8] {
    ghost use Rattle.std.specs.Prelude.{refl};

    ghost steady = { λ v w known. refl };
}

/// A sink over a writer, as standard output. Each piece is one write. A writer that takes nothing of a piece
/// counts as a fault.
#[derive(Drop)]
pub struct HostSink<W: DirectWrite + Drop> {
    writer: W,
    faults: u64,
}

impl<W: DirectWrite + Drop> Model for HostSink<W> {
    ghost Value = { StreamState };

    ghost view = { λ s. record { bytes = W.contents s.writer; faults = s.faults } };
}

impl<W: DirectWrite + Drop> HostSink<W> {
    pub fn new(writer: W) -> Self
        ensures { result ≡ record { bytes = W.contents writer; faults = 0 } }
    {
        HostSink { writer, faults: 0 }
    }
}

impl<W: DirectWrite + Drop> Sink for HostSink<W> {
    ghost held = { λ s. s.bytes };

    ghost faults = { λ s. s.faults };

    fn put(&mut self, piece: &[u8]) -> Result<usize, Failed>
        ensures bound { IfOk result (λ n. n ≤ length piece.now) }
        ensures some { IfOk result (λ n. 0 < length piece.now → 0 < n) }
        ensures told { Puts self.old.bytes self.new.bytes result piece.now }
        ensures cause { HasCause self.old.faults self.new.faults result }
        ensures counted { Counted result self.old.faults self.new.faults }
    {
        if piece.is_empty() {
            return Ok(0);
        }
        match self.writer.write(piece) {
            Ok(count) if count > 0 => Ok(count),
            _ => {
                self.faults = self.faults.saturating_add(1);
                Err(Failed)
            }
        }
    }

    fn faults(&self) -> u64 {
        self.faults
    }
}

/// A source over a reader, as standard input.
#[derive(Drop)]
pub struct HostSource<R: SteadyRead + Drop> {
    reader: R,
    faults: u64,
}

impl<R: SteadyRead + Drop> Model for HostSource<R> {
    ghost Value = { StreamState };

    ghost view = { λ s. record { bytes = R.remaining s.reader; faults = s.faults } };
}

impl<R: SteadyRead + Drop> HostSource<R> {
    pub fn new(reader: R) -> Self
        ensures { result ≡ record { bytes = R.remaining reader; faults = 0 } }
    {
        HostSource { reader, faults: 0 }
    }
}

impl<R: SteadyRead + Drop> Source for HostSource<R> {
    ghost left = { λ s. s.bytes };

    ghost faults = { λ s. s.faults };

    fn take(&mut self, piece: &mut [u8]) -> Result<usize, Failed>
        ensures bound { IfOk result (λ n. n ≤ length piece.new) }
        ensures told { Takes self.old.bytes self.new.bytes result piece.new }
        ensures cause { HasCause self.old.faults self.new.faults result }
        ensures counted { Counted result self.old.faults self.new.faults }
    {
        match self.reader.read(piece) {
            Ok(count) => Ok(count),
            Err(_) => {
                self.faults = self.faults.saturating_add(1);
                Err(Failed)
            }
        }
    }

    fn faults(&self) -> u64 {
        self.faults
    }
}
