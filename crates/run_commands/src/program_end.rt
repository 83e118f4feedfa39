//! How a run ends.
ghost use Rattle.run_commands.specs.Run.{AreCounts};

use answer_lines::Counts;
use boundary::RunEnd;
use jop_core::{DeviceFault, Machine};

/// How the run of a program ended, or which call on a device failed, and the counts of the machine there.
#[derive(Clone, Copy)]
pub struct ProgramEnd {
    pub end: Result<RunEnd, DeviceFault>,
    pub counts: Counts,
}

/// The counts of a machine.
pub fn counts_of<const N: usize>(machine: &Machine<N>) -> Counts
    ensures { AreCounts result machine.now }
{
    Counts {
        clock: machine.clock(),
        hits: machine.hits(),
        misses: machine.misses(),
    }
}
