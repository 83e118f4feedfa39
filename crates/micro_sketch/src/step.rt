//! From one boundary of the machine to the next.

ghost use Rattle.std.specs.Prelude.{◌≡◌, ◌<◌, ◌^◌, true};
ghost use Rattle.jop_core.specs.Cycle.{at_boundary};
ghost use Rattle.micro_sketch.specs.Ends.{EndsSoon};
ghost use Rattle.micro_sketch.specs.Step.{StandsAs, Went};

use jop_core::{DeviceFault, Devices, Halt, Machine};
use microcode::RAISE;

/// Where the machine stands after a step.
#[derive(Clone, Copy, Debug, PartialEq, Eq)]
pub enum Stepped {
    /// At the entry of an opcode.
    Next,
    /// At the entry of the raise routine.
    Raise,
    /// The machine has halted.
    Halted,
}

/// Goes on to the next boundary: an opcode's entry, the entry of the raise routine, or a halt. Where a call on the
/// device fails, the machine stands before the cycle that made it.
pub fn to_boundary<const N: usize, D: Devices>(
    machine: &mut Machine<N>,
    device: &mut D,
) -> Result<Stepped, DeviceFault>
    requires running { machine.old.halt ≡ Halt.Running }
    requires clock { machine.old.clock < 2 ^ 63 }
    requires ends { EndsSoon machine.old }
    ensures went { Went machine.old machine.new (D.told device.old) (D.told device.new) result }
    ensures names { D.names device.new ≡ D.names device.old }
{
    loop {
        machine.cycle(device)?;
        if machine.at_boundary() {
            return Ok(boundary_of(machine));
        }
    }
}

/// Where a machine stands that is at a boundary.
fn boundary_of<const N: usize>(machine: &Machine<N>) -> Stepped
    requires { at_boundary machine.now ≡ true }
    ensures { StandsAs machine.now result }
{
    if machine.halt() != Halt::Running {
        Stepped::Halted
    } else if machine.mpc() == RAISE {
        Stepped::Raise
    } else {
        Stepped::Next
    }
}
