//! A run of a machine with an input, an output and a watch.
ghost use Rattle.std.specs.Prelude.{◌≡◌, ◌<◌, ◌≤◌, ◌^◌, List, Option, length, IsOk};
ghost use Rattle.device_traits.specs.declared.seen.Seen.{Seen};
ghost use Rattle.run_devices.specs.Lent.{lent, wired};
ghost use Rattle.boundary.specs.Setting.{Setting};
ghost use Rattle.boundary.specs.Runs.{RunsAll};
ghost use Rattle.boundary.specs.Traces.{texts};
ghost use Rattle.endings.specs.Show.{Trace, shown_by, HaveNamesToShow, ShowsTrace};
ghost use Rattle.run_commands.specs.Run.{Started, HasStarted, RunsAsAll, Ran};

use crate::program_end::{ProgramEnd, counts_of};
use boundary::{RunEnd, Running, trace};
use endings::show::NamedShow;
use jop_core::{DeviceFault, Watch};
use outside::{Sink, Source};
use run_devices::{RunDevice, TraceDevice};

/// Runs a machine until its program has ended, its clock is at least the limit at a boundary, or `input` or `out` fails. The
/// watch is handed each state from which a cycle is done or tried.
fn run<const N: usize, S: Source, O: Sink, V: Watch>(
    running: &mut Running<'_, N>,
    input: &mut S,
    out: &mut O,
    watch: &mut V,
    limit: u64,
) -> Result<RunEnd, DeviceFault>
    requires unbroken { IsOk running.old.mode }
    requires few { limit < 2 ^ 63 }
    ensures { RunsAll limit running.old.machine running.new.machine
        (wired (lent (S.left input.old) (S.faults input.old) (O.held out.old) (O.faults out.old) (V.held watch.old)))
        (wired (lent (S.left input.new) (S.faults input.new) (O.held out.new) (O.faults out.new) (V.held watch.new))) result }
{
    let mut device = RunDevice { input, out, watch };
    boundary::run(running, &mut device, limit)
}

/// The same run, of which the lines are put into `out`, with those of its cycles or without.
fn run_traced<const N: usize, S: Source, O: Sink>(
    running: &mut Running<'_, N>,
    cycles: bool,
    names: &[Vec<u8>],
    input: &mut S,
    out: &mut O,
    limit: u64,
) -> Result<RunEnd, DeviceFault>
    requires unbroken { IsOk running.old.mode }
    requires few { limit < 2 ^ 63 }
    requires named { length running.old.methods ≤ length names.now }
    ensures { (watch : Option (List Seen)) → RunsAsAll (Trace cycles (texts names.now)) limit running.old running.new.machine
        (lent (S.left input.old) (S.faults input.old) (O.held out.old) (O.faults out.old) watch)
        (lent (S.left input.new) (S.faults input.new) (O.held out.new) (O.faults out.new) watch) result }
{
    let mut device = TraceDevice::new(input, out, cycles);
    trace(running, names, &mut device, limit)
}

/// Runs it, and shows what is to be shown. A watch is handed no state of a traced run.
fn run_shown<const N: usize, S: Source, O: Sink, V: Watch>(
    running: &mut Running<'_, N>,
    shown: &NamedShow,
    input: &mut S,
    out: &mut O,
    watch: &mut V,
    limit: u64,
) -> Result<RunEnd, DeviceFault>
    requires unbroken { IsOk running.old.mode }
    requires few { limit < 2 ^ 63 }
    requires named { HaveNamesToShow (shown_by shown.now) running.old.methods }
    ensures runs { RunsAsAll (shown_by shown.now) limit running.old running.new.machine
        (lent (S.left input.old) (S.faults input.old) (O.held out.old) (O.faults out.old) (V.held watch.old))
        (lent (S.left input.new) (S.faults input.new) (O.held out.new) (O.faults out.new) (V.held watch.new)) result }
    ensures watch { ShowsTrace (shown_by shown.now) → watch.new ≡ watch.old }
{
    match shown {
        NamedShow::Output => run(running, input, out, watch, limit),
        NamedShow::Trace { cycles, names } => {
            run_traced(running, *cycles, names, input, out, limit)
        }
    }
}

/// Runs a machine from reset to its end, and tells how its program ended, or which call failed.
pub fn run_to_end<const N: usize, S: Source, O: Sink, V: Watch>(
    running: &mut Running<'_, N>,
    shown: &NamedShow,
    input: &mut S,
    out: &mut O,
    watch: &mut V,
    limit: u64,
) -> ProgramEnd
    requires started { HasStarted running.old }
    requires few { limit < 2 ^ 63 }
    requires named { HaveNamesToShow (shown_by shown.now) running.old.methods }
    ensures ran { (g : Setting) → Started g running.old.machine running.old → Ran (shown_by shown.now) g running.old.machine limit
        (lent (S.left input.old) (S.faults input.old) (O.held out.old) (O.faults out.old) (V.held watch.old))
        (lent (S.left input.new) (S.faults input.new) (O.held out.new) (O.faults out.new) (V.held watch.new)) result }
    ensures watch { ShowsTrace (shown_by shown.now) → watch.new ≡ watch.old }
{
    let end = run_shown(running, shown, input, out, watch, limit);
    ProgramEnd {
        end,
        counts: counts_of(running.machine()),
    }
}
