//! A whole run of the machine: to the program's end, or to the last cycle.
ghost use Rattle.std.specs.Prelude.{◌≡◌, ◌<◌, ◌^◌, IsOk};
ghost use Rattle.boundary.specs.Answers.{HasFrames};
ghost use Rattle.boundary.specs.Runs.{RunsAll};

use crate::answer::Boundary;
use crate::running::Running;
use jop_core::laws::cycles_keep;
use jop_core::{DeviceFault, Devices};
use micro_sketch::laws::runs_add_up;

/// How a run ends, where no call on the device failed.
#[derive(Clone, Copy, PartialEq, Eq)]
pub enum RunEnd {
    /// The program returned from boot.
    Ended,
    /// An object of the class of this number had no handler.
    Uncaught(u32),
    /// At a boundary the clock was at least the limit.
    Spent,
}

/// Goes on until the program has ended, the clock is at least the limit at a boundary, or a call on the device fails. It
/// leaves the machine where it then stands.
pub fn run<const N: usize, D: Devices>(
    running: &mut Running<'_, N>,
    device: &mut D,
    limit: u64,
) -> Result<RunEnd, DeviceFault>
    requires unbroken { IsOk running.old.mode }
    requires few { limit < 2 ^ 63 }
    ensures runs { RunsAll limit running.old.machine running.new.machine (D.told device.old) (D.told device.new) result }
    ensures methods { running.new.methods ≡ running.old.methods }
    ensures names { D.names device.new ≡ D.names device.old }
{
    // The laws are for the proof.
    runs_add_up();
    cycles_keep();
    match running.mode()? {
        Boundary::Bytecode | Boundary::Raise => go_to_end(running, device, limit),
        Boundary::Halted => Ok(RunEnd::Ended),
        Boundary::Uncaught(class) => Ok(RunEnd::Uncaught(class)),
    }
}

/// The same from a machine that goes on.
fn go_to_end<const N: usize, D: Devices>(
    running: &mut Running<'_, N>,
    device: &mut D,
    limit: u64,
) -> Result<RunEnd, DeviceFault>
    requires going { HasFrames running.old.mode }
    requires few { limit < 2 ^ 63 }
    ensures runs { RunsAll limit running.old.machine running.new.machine (D.told device.old) (D.told device.new) result }
    ensures methods { running.new.methods ≡ running.old.methods }
    ensures names { D.names device.new ≡ D.names device.old }
{
    // The laws are for the proof.
    runs_add_up();
    cycles_keep();
    // Its clause is for the proof alone.
    let _mode = running.mode();
    while running.machine().clock() < limit {
        match running.bytecode(device)? {
            Boundary::Bytecode | Boundary::Raise => {}
            Boundary::Halted => return Ok(RunEnd::Ended),
            Boundary::Uncaught(class) => return Ok(RunEnd::Uncaught(class)),
        }
    }
    Ok(RunEnd::Spent)
}
