//! The devices of a machine: its input, its output, and whoever looks on.
ghost use Rattle.std.specs.Prelude.{◌≡◌, ℕ, List};
ghost use Rattle.device_traits.specs.Told.{Told, Inputs, Outputs, Sees};

use crate::fault::DeviceFault;
use crate::seen::Seen;

/// The outside of a machine. Each call may fail: then it answers its own fault, and its count of faults has risen.
pub trait Devices {
    /// What it tells.
    ghost told: { Self → Told };

    /// Which lent objects it holds. No call puts others in their place.
    ghost names: { Self → List ℕ };

    /// The next byte of the input, and `None` at its end.
    fn input(&mut self) -> Result<Option<u8>, DeviceFault>
        ensures told { Inputs (told self.old) (told self.new) result }
        ensures names { names self.new ≡ names self.old };

    /// Puts a byte out.
    fn output(&mut self, byte: u8) -> Result<(), DeviceFault>
        ensures told { Outputs (told self.old) (told self.new) byte result }
        ensures names { names self.new ≡ names self.old };

    /// Is handed the state from which a cycle is about to be done.
    fn seen(&mut self, at: Seen) -> Result<(), DeviceFault>
        ensures told { Sees (told self.old) (told self.new) at result }
        ensures names { names self.new ≡ names self.old };

    /// How often `input` failed.
    fn read_faults(&self) -> u64
        ensures { result ≡ (told self.now).read_faults };

    /// How often `output` failed.
    fn write_faults(&self) -> u64
        ensures { result ≡ (told self.now).write_faults };

    /// How often `seen` failed.
    fn seen_faults(&self) -> u64
        ensures { result ≡ (told self.now).seen_faults };
}
