//! The devices of a traced run.
ghost use Rattle.std.specs.Prelude.{◌≡◌, ◌≤◌, ◌<◌, ◌^◌, ◌∷◌, [], Some};
ghost use Rattle.run_devices.specs.Lines.{boundary_line};
ghost use Rattle.run_devices.specs.Traced.{traced, PutsLine};

use crate::lines::{AtBoundary, put_boundary, put_cycle, put_write};
use device_traits::{DeviceFault, Devices, Seen};
use outside::{Sink, Source};

/// A lent input, and a lent output that is given the lines of a trace: one for each byte that the program writes and, where
/// they are asked for, one for each cycle.
#[derive(Drop)]
pub struct TraceDevice<'i, 'o, S: Source, O: Sink> {
    input: &'i mut S,
    out: &'o mut O,
    cycles: bool,
    // The output's count of faults when last the line of a byte or of a boundary failed.
    write_faults: u64,
    // The same of the lines of cycles.
    seen_faults: u64,
    pub ghost writes: { write_faults ≤ O.faults out.now },
    pub ghost sees: { seen_faults ≤ O.faults out.now },
}

impl<'i, 'o, S: Source, O: Sink> TraceDevice<'i, 'o, S, O> {
    /// A device over these, which puts the lines of cycles where `cycles` says so.
    pub fn new(input: &'i mut S, out: &'o mut O, cycles: bool) -> Self
        ensures input { result.input.now ≡ input.old }
        ensures input_name { result.input.ghost_name ≡ input.entry.ghost_name }
        ensures out { result.out.now ≡ out.old }
        ensures out_name { result.out.ghost_name ≡ out.entry.ghost_name }
        ensures cycles { result.cycles ≡ cycles }
        ensures write_faults { result.write_faults ≡ O.faults out.old }
        ensures seen_faults { result.seen_faults ≡ O.faults out.old }
    {
        let faults = out.faults();
        TraceDevice {
            input,
            out,
            cycles,
            write_faults: faults,
            seen_faults: faults,
        }
    }

    /// Puts the line of a boundary. At an error the count of failed writes has risen.
    pub fn put_boundary(&mut self, at: AtBoundary<'_>) -> Result<(), DeviceFault>
        ensures put { PutsLine (⟦<TraceDevice<'i, 'o, S, O> as Devices>⟧.told self.old) (⟦<TraceDevice<'i, 'o, S, O> as Devices>⟧.told self.new)
            (boundary_line at.entry) result }
        ensures names { ⟦<TraceDevice<'i, 'o, S, O> as Devices>⟧.names self.new ≡ ⟦<TraceDevice<'i, 'o, S, O> as Devices>⟧.names self.old }
    {
        match put_boundary(self.out, at) {
            Ok(()) => Ok(()),
            Err(_) => {
                self.write_faults = self.out.faults();
                Err(DeviceFault::Output)
            }
        }
    }
}

/// The byte that was given.
fn given(byte: u8) -> Option<u8>
    ensures is { result ≡ Some byte }
    ensures small { byte < 2 ^ 8 }
{
    Some(byte)
}

impl<'i, 'o, S: Source, O: Sink> Devices for TraceDevice<'i, 'o, S, O> {
    ghost told = { λ d. traced d.cycles (S.left d.input.now) (S.faults d.input.now) (O.held d.out.now) d.write_faults d.seen_faults };

    ghost names = { λ d. d.input.ghost_name ∷ d.out.ghost_name ∷ [] };

    fn input(&mut self) -> Result<Option<u8>, DeviceFault> {
        let mut piece = [0];
        match self.input.take(&mut piece) {
            Ok(0) => Ok(None),
            Ok(_) => Ok(given(piece[0])),
            Err(_) => Err(DeviceFault::Input),
        }
    }

    fn output(&mut self, byte: u8) -> Result<(), DeviceFault> {
        match put_write(self.out, byte) {
            Ok(()) => Ok(()),
            Err(_) => {
                self.write_faults = self.out.faults();
                Err(DeviceFault::Output)
            }
        }
    }

    fn seen(&mut self, at: Seen) -> Result<(), DeviceFault> {
        if !self.cycles {
            return Ok(());
        }
        match put_cycle(self.out, at) {
            Ok(()) => Ok(()),
            Err(_) => {
                self.seen_faults = self.out.faults();
                Err(DeviceFault::Seen)
            }
        }
    }

    fn read_faults(&self) -> u64 {
        self.input.faults()
    }

    fn write_faults(&self) -> u64 {
        self.write_faults
    }

    fn seen_faults(&self) -> u64 {
        self.seen_faults
    }
}
