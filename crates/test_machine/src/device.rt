//! The device of the machines of the table.
ghost use Rattle.std.specs.Prelude.{None, []};
ghost use Rattle.device_traits.specs.Told.{Told, silent};

use jop_core::{DeviceFault, Devices, MemWatch, Seen, Watch};
use std::alloc::Global;

/// A device that has at most one byte of input, and keeps what it is given. It tells nothing.
#[derive(Drop)]
pub struct Keeper {
    given: bool,
    pub output: Vec<u8>,
    pub watch: MemWatch,
    failed: u64,
}

impl Keeper {
    /// A device that was given nothing yet, with its byte of input.
    pub fn new(alloc: Global) -> Keeper {
        Keeper {
            given: false,
            output: Vec::new(alloc),
            watch: MemWatch::new(alloc),
            failed: 0,
        }
    }

    /// The same without input.
    pub fn without_input(alloc: Global) -> Keeper {
        Keeper {
            given: true,
            ..Keeper::new(alloc)
        }
    }
}

impl Devices for Keeper {
    ghost told = { λ d. record {
      left = None;
      held = None;
      line = silent;
      noted = None;
      handed = None;
      read_faults = 0;
      write_faults = d.failed;
      seen_faults = 0;
    } };

    ghost names = { λ _. [] };

    fn input(&mut self) -> Result<Option<u8>, DeviceFault> {
        if self.given {
            Ok(None)
        } else {
            self.given = true;
            Ok(Some(b'?'))
        }
    }

    fn output(&mut self, byte: u8) -> Result<(), DeviceFault> {
        if self.output.push(byte).is_ok() {
            Ok(())
        } else {
            self.failed = self.failed.saturating_add(1);
            Err(DeviceFault::Output)
        }
    }

    fn seen(&mut self, at: Seen) -> Result<(), DeviceFault> {
        self.watch.saw(at);
        Ok(())
    }

    fn read_faults(&self) -> u64 {
        0
    }

    fn write_faults(&self) -> u64 {
        self.failed
    }

    fn seen_faults(&self) -> u64 {
        0
    }
}
