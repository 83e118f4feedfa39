//! The nets of a cycle.

ghost use Rattle.std.specs.Prelude.{◌≡◌};

use crate::registers::Registers;
use crate::word::Word;
use netlist::Net;

/// The nets of a cycle that many parts of the circuit read.
#[derive(Clone, Copy)]
pub struct Cycle {
    pub registers: Registers,
    /// The microinstruction.
    pub word: Word,
    /// Whether the machine has begun and hasn't halted.
    pub goes: Net,
    /// Whether a microinstruction runs: the machine goes, isn't stalled and doesn't wait.
    pub runs: Net,
    /// Whether one runs that pushes, and one that pops.
    pub pushes: Net,
    pub pops: Net,
    /// The on-chip word at SP, and that at the place that the microinstruction loads.
    pub below: Net,
    pub loaded: Net,
    pub ghost runs_width: { runs.width ≡ 1 },
    pub ghost pushes_width: { pushes.width ≡ 1 },
    pub ghost below_width: { below.width ≡ 32 },
    pub ghost loaded_width: { loaded.width ≡ 32 },
}
