//! The run of what was linked, with a follower of its boundaries.
ghost use Rattle.std.specs.Prelude.{◌≡◌, ◌<◌, ◌≤◌, ◌^◌, ℕ, length, IfOk, IfErr};
ghost use Rattle.machine_memory.specs.Stack.Size.{IsSize};
ghost use Rattle.command_line.specs.Range.{AreSettings};
ghost use Rattle.image_facts.specs.Methods.{AreMethods};
ghost use Rattle.program_tables.specs.Resolved.{resolved};
ghost use Rattle.jopizer.specs.Methods.Fitting.{MethodFits};
ghost use Rattle.image_words.specs.Regions.{places_of};
ghost use Rattle.jop_core.specs.Reset.{linked_reset};
ghost use Rattle.run_devices.specs.Lent.{lent, wired};
ghost use Rattle.boundary.specs.Setting.{Setting};
ghost use Rattle.run_commands.specs.Run.{Started, HasStarted};
ghost use Rattle.run_commands.specs.LinkedRun.{CanRun};
ghost use Rattle.endings.specs.Settings.{linked_setting};
ghost use Rattle.run_commands.specs.Following.{FollowsRun, FollowsWith};

use crate::linked_machine::start_linked;
use crate::program_end::{ProgramEnd, counts_of};
use base::NoMemory;
use boundary::{CodedMethod, Running, run_followed};
use bytecode_verifier::Verified;
use command_line::Settings;
use endings::settings::{Plan, plan_of};
use endings::show::Show;
use image_builder::Layout;
use jop_core::{Devices, Watch};
use jopizer::Linked;
use jopizer::methods::methods_of;
use outside::{Sink, Source};
use run_devices::RunDevice;
use run_follower::Follower;
use std::alloc::Global;

/// Runs a machine from reset to its end.
fn follow<const N: usize, D: Devices, F: Follower>(
    running: &mut Running<'_, N>,
    device: &mut D,
    limit: u64,
    follower: &mut F,
) -> ProgramEnd
    requires started { HasStarted running.old }
    requires few { limit < 2 ^ 63 }
    ensures follows { (g : Setting) → Started g running.old.machine running.old
        → FollowsRun F.after g running.old.machine limit (D.told device.old) (D.told device.new) follower.old follower.new result }
    ensures names { D.names device.new ≡ D.names device.old }
{
    let end = run_followed(running, device, limit, follower);
    ProgramEnd {
        end,
        counts: counts_of(running.machine()),
    }
}

/// Runs a verified program that is laid out, with these methods.
fn follow_methods<const N: usize, D: Devices, F: Follower>(
    alloc: Global,
    program: &Verified,
    layout: &Layout,
    methods: &[CodedMethod<'_>],
    plan: Plan,
    device: &mut D,
    follower: &mut F,
) -> Result<ProgramEnd, NoMemory>
    requires size { IsSize N }
    requires held { CanRun program.now layout.now plan.config }
    requires methods { AreMethods (resolved program.now) (places_of program.now) methods.now }
    requires few { plan.limit < 2 ^ 63 }
    ensures follows { IfOk result (FollowsRun F.after (linked_setting program.now N plan.config.memory)
        (linked_reset N layout.now.words plan.config) plan.limit (D.told device.old) (D.told device.new) follower.old follower.new) }
    ensures names { D.names device.new ≡ D.names device.old }
    ensures leaves { IfErr result (λ _. device.new ≡ device.old) }
{
    match start_linked::<N>(alloc, program, layout, methods, plan.config) {
        Ok(running) => {
            let mut running = running;
            Ok(follow(&mut running, device, plan.limit, follower))
        }
        Err(NoMemory) => Err(NoMemory),
    }
}

/// Runs a verified program that is laid out.
fn follow_linked<const N: usize, D: Devices, F: Follower>(
    alloc: Global,
    program: &Verified,
    layout: &Layout,
    plan: Plan,
    device: &mut D,
    follower: &mut F,
) -> Result<ProgramEnd, NoMemory>
    requires size { IsSize N }
    requires held { CanRun program.now layout.now plan.config }
    requires few { plan.limit < 2 ^ 63 }
    ensures follows { IfOk result (FollowsRun F.after (linked_setting program.now N plan.config.memory)
        (linked_reset N layout.now.words plan.config) plan.limit (D.told device.old) (D.told device.new) follower.old follower.new) }
    ensures names { D.names device.new ≡ D.names device.old }
    ensures leaves { IfErr result (λ _. device.new ≡ device.old) }
{
    match methods_of(alloc, program.program(), layout) {
        Ok(methods) => {
            follow_methods::<N, D, F>(alloc, program, layout, &methods, plan, device, follower)
        }
        Err(NoMemory) => Err(NoMemory),
    }
}

/// Runs what was linked from reset, where a machine with these settings holds it: each code fits its method cache, and the words its
/// memory. After the machine is made no memory is asked for.
fn follow_held<D: Devices, F: Follower>(
    alloc: Global,
    linked: &Linked,
    settings: &Settings,
    device: &mut D,
    follower: &mut F,
) -> Result<ProgramEnd, NoMemory>
    requires settings { AreSettings settings.now }
    requires codes { (m : ℕ) → MethodFits (resolved linked.now.classes) settings.now.blocks settings.now.block_words m }
    requires memory { length linked.now.laid.words ≤ settings.now.memory }
    ensures follows { IfOk result (FollowsWith F.after settings.now linked.now (D.told device.old) (D.told device.new) follower.old follower.new) }
    ensures names { D.names device.new ≡ D.names device.old }
    ensures leaves { IfErr result (λ _. device.new ≡ device.old) }
{
    let program = linked.program();
    let layout = linked.layout();
    let plan = plan_of(settings, Show::Output);
    match settings.stack {
        256 => follow_linked::<256, D, F>(alloc, program, layout, plan, device, follower),
        512 => follow_linked::<512, D, F>(alloc, program, layout, plan, device, follower),
        _ => follow_linked::<1024, D, F>(alloc, program, layout, plan, device, follower),
    }
}

/// The same run, which is lent an input, an output and a watch.
pub fn follow_lent<S: Source, O: Sink, V: Watch, F: Follower>(
    alloc: Global,
    linked: &Linked,
    settings: &Settings,
    input: &mut S,
    out: &mut O,
    watch: &mut V,
    follower: &mut F,
) -> Result<ProgramEnd, NoMemory>
    requires settings { AreSettings settings.now }
    requires codes { (m : ℕ) → MethodFits (resolved linked.now.classes) settings.now.blocks settings.now.block_words m }
    requires memory { length linked.now.laid.words ≤ settings.now.memory }
    ensures follows { IfOk result (FollowsWith F.after settings.now linked.now
        (wired (lent (S.left input.old) (S.faults input.old) (O.held out.old) (O.faults out.old) (V.held watch.old)))
        (wired (lent (S.left input.new) (S.faults input.new) (O.held out.new) (O.faults out.new) (V.held watch.new))) follower.old follower.new) }
    ensures leaves { IfErr result (λ _. (input.new ≡ input.old) × (out.new ≡ out.old) × (watch.new ≡ watch.old)) }
{
    let mut device = RunDevice { input, out, watch };
    follow_held(alloc, linked, settings, &mut device, follower)
}
