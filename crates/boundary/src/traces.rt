//! A run of the machine with its trace: a line at each boundary from which a step is begun, and the lines of what the device
//! notes in the step.
ghost use Rattle.std.specs.Prelude.{◌≡◌, ◌<◌, ◌≤◌, ◌^◌, length, IsOk};
ghost use Rattle.boundary.specs.Answers.{HasFrames};
ghost use Rattle.boundary.specs.Setting.{Setting};
ghost use Rattle.boundary.specs.Session.{IsStateOf};
ghost use Rattle.bytecode_model.specs.State.{State};
ghost use Rattle.run_devices.specs.Lines.{boundary_line};
ghost use Rattle.run_devices.specs.Traced.{PutsLine};
ghost use Rattle.boundary.specs.Advances.{PassesTime};
ghost use Rattle.boundary.specs.Traces.{TracesAll, StepTracesAll, stage_line, texts};

use crate::answer::Boundary;
use crate::running::Running;
use crate::runs::RunEnd;
use jop_core::laws::cycles_keep;
use jop_core::{DeviceFault, Devices};
use micro_sketch::laws::runs_add_up;
use outside::{Sink, Source};
use run_devices::{AtBoundary, TraceDevice};

/// The same as [`run`](crate::run), with its trace: before each step the line of its boundary is put. The names are those of
/// the methods with code, by number. Where the line of a boundary fails, that is a fault of `output`.
pub fn trace<'i, 'o, const N: usize, S: Source, O: Sink>(
    running: &mut Running<'_, N>,
    names: &[Vec<u8>],
    device: &mut TraceDevice<'i, 'o, S, O>,
    limit: u64,
) -> Result<RunEnd, DeviceFault>
    requires unbroken { IsOk running.old.mode }
    requires few { limit < 2 ^ 63 }
    requires named { length running.old.methods ≤ length names.now }
    ensures traces { TracesAll device.old.cycles (texts names.now) limit running.old running.new.machine
        (⟦<TraceDevice<'i, 'o, S, O> as Devices>⟧.told device.old) (⟦<TraceDevice<'i, 'o, S, O> as Devices>⟧.told device.new) result }
    ensures methods { running.new.methods ≡ running.old.methods }
    ensures names { ⟦<TraceDevice<'i, 'o, S, O> as Devices>⟧.names device.new ≡ ⟦<TraceDevice<'i, 'o, S, O> as Devices>⟧.names device.old }
{
    // The laws are for the proof.
    runs_add_up();
    cycles_keep();
    match running.mode()? {
        Boundary::Bytecode | Boundary::Raise => trace_to_end(running, names, device, limit),
        Boundary::Halted => Ok(RunEnd::Ended),
        Boundary::Uncaught(class) => Ok(RunEnd::Uncaught(class)),
    }
}

/// The same from a machine that goes on.
fn trace_to_end<'i, 'o, const N: usize, S: Source, O: Sink>(
    running: &mut Running<'_, N>,
    names: &[Vec<u8>],
    device: &mut TraceDevice<'i, 'o, S, O>,
    limit: u64,
) -> Result<RunEnd, DeviceFault>
    requires going { HasFrames running.old.mode }
    requires few { limit < 2 ^ 63 }
    requires named { length running.old.methods ≤ length names.now }
    ensures traces { TracesAll device.old.cycles (texts names.now) limit running.old running.new.machine
        (⟦<TraceDevice<'i, 'o, S, O> as Devices>⟧.told device.old) (⟦<TraceDevice<'i, 'o, S, O> as Devices>⟧.told device.new) result }
    ensures methods { running.new.methods ≡ running.old.methods }
    ensures names { ⟦<TraceDevice<'i, 'o, S, O> as Devices>⟧.names device.new ≡ ⟦<TraceDevice<'i, 'o, S, O> as Devices>⟧.names device.old }
{
    // The laws are for the proof.
    runs_add_up();
    cycles_keep();
    // Its clause is for the proof alone.
    let _mode = running.mode();
    while running.machine().clock() < limit {
        match trace_step(running, names, device)? {
            Boundary::Bytecode | Boundary::Raise => {}
            Boundary::Halted => return Ok(RunEnd::Ended),
            Boundary::Uncaught(class) => return Ok(RunEnd::Uncaught(class)),
        }
    }
    Ok(RunEnd::Spent)
}

/// Puts the line of the boundary and goes on to the next one.
fn trace_step<'i, 'o, const N: usize, S: Source, O: Sink>(
    running: &mut Running<'_, N>,
    names: &[Vec<u8>],
    device: &mut TraceDevice<'i, 'o, S, O>,
) -> Result<Boundary, DeviceFault>
    requires going { HasFrames running.old.mode }
    requires clock { running.old.machine.clock < 2 ^ 63 }
    requires named { length running.old.methods ≤ length names.now }
    ensures steps { StepTracesAll (texts names.now) running.old running.new.machine (⟦<TraceDevice<'i, 'o, S, O> as Devices>⟧.told device.old)
        (⟦<TraceDevice<'i, 'o, S, O> as Devices>⟧.told device.new) result }
    ensures time { PassesTime running.old.machine running.new.machine result }
    ensures mode { HasFrames result → running.new.mode ≡ result }
    ensures methods { running.new.methods ≡ running.old.methods }
    ensures names { ⟦<TraceDevice<'i, 'o, S, O> as Devices>⟧.names device.new ≡ ⟦<TraceDevice<'i, 'o, S, O> as Devices>⟧.names device.old }
{
    put_line(running, names, device)?;
    running.bytecode(device)
}

/// Puts the line of the boundary.
fn put_line<'i, 'o, const N: usize, S: Source, O: Sink>(
    running: &Running<'_, N>,
    names: &[Vec<u8>],
    device: &mut TraceDevice<'i, 'o, S, O>,
) -> Result<(), DeviceFault>
    requires going { HasFrames running.now.mode }
    requires named { length running.now.methods ≤ length names.now }
    ensures put { (g : Setting) (s : State) → IsStateOf g running.now.methods running.now.machine s
        → PutsLine (⟦<TraceDevice<'i, 'o, S, O> as Devices>⟧.told device.old) (⟦<TraceDevice<'i, 'o, S, O> as Devices>⟧.told device.new)
        (stage_line (texts names.now) g (record { machine = running.now.machine; state = s })) result }
    ensures names { ⟦<TraceDevice<'i, 'o, S, O> as Devices>⟧.names device.new ≡ ⟦<TraceDevice<'i, 'o, S, O> as Devices>⟧.names device.old }
{
    device.put_boundary(at_boundary(running, names))
}

/// The boundary at which a run stands.
fn at_boundary<'n, const N: usize>(running: &Running<'_, N>, names: &'n [Vec<u8>]) -> AtBoundary<'n>
    requires going { HasFrames running.now.mode }
    requires named { length running.now.methods ≤ length names.now }
    ensures { (g : Setting) (s : State) → IsStateOf g running.now.methods running.now.machine s
        → boundary_line result ≡ stage_line (texts names.now) g (record { machine = running.now.machine; state = s }) }
{
    let method = running.method();
    AtBoundary {
        clock: running.machine().clock(),
        method: &names[method as usize],
        pc: running.pc(),
        opcode: running.opcode(),
        frames: running.frames(),
        operands: running.operands(),
    }
}
