//! The devices of a run.
ghost use Rattle.std.specs.Prelude.{◌≡◌, ◌<◌, ◌^◌, ◌∷◌, [], Some};
ghost use Rattle.run_devices.specs.Lent.{lent, wired};

use device_traits::{DeviceFault, Devices, Seen, Watch};
use outside::{Sink, Source, put_all};

/// An input, an output and a watch that are lent.
#[derive(Drop)]
pub struct RunDevice<'i, 'o, 'w, S: Source, O: Sink, V: Watch> {
    pub input: &'i mut S,
    pub out: &'o mut O,
    pub watch: &'w mut V,
}

/// The byte that was given.
fn given(byte: u8) -> Option<u8>
    ensures is { result ≡ Some byte }
    ensures small { byte < 2 ^ 8 }
{
    Some(byte)
}

impl<'i, 'o, 'w, S: Source, O: Sink, V: Watch> Devices for RunDevice<'i, 'o, 'w, S, O, V> {
    ghost told = { λ d. wired (lent (S.left d.input.now) (S.faults d.input.now) (O.held d.out.now) (O.faults d.out.now) (V.held d.watch.now)) };

    ghost names = { λ d. d.input.ghost_name ∷ d.out.ghost_name ∷ d.watch.ghost_name ∷ [] };

    fn input(&mut self) -> Result<Option<u8>, DeviceFault> {
        let mut piece = [0];
        match self.input.take(&mut piece) {
            Ok(0) => Ok(None),
            Ok(_) => Ok(given(piece[0])),
            Err(_) => Err(DeviceFault::Input),
        }
    }

    fn output(&mut self, byte: u8) -> Result<(), DeviceFault> {
        match put_all(self.out, &[byte]) {
            Ok(()) => Ok(()),
            Err(_) => Err(DeviceFault::Output),
        }
    }

    fn seen(&mut self, at: Seen) -> Result<(), DeviceFault> {
        self.watch.saw(at);
        Ok(())
    }

    fn read_faults(&self) -> u64 {
        self.input.faults()
    }

    fn write_faults(&self) -> u64 {
        self.out.faults()
    }

    fn seen_faults(&self) -> u64 {
        0
    }
}
