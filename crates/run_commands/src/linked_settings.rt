//! The run of what was linked, with settings.
ghost use Rattle.std.specs.Prelude.{◌≡◌, ◌≤◌, ℕ, length, IfOk, IfErr};
ghost use Rattle.command_line.specs.Range.{AreSettings};
ghost use Rattle.program_tables.specs.Resolved.{resolved};
ghost use Rattle.jopizer.specs.Methods.Fitting.{MethodFits};
ghost use Rattle.run_devices.specs.Lent.{lent};
ghost use Rattle.endings.specs.Show.{IsTrace};
ghost use Rattle.run_commands.specs.LinkedSettings.{RanLinkedWith};

use crate::linked_machine::run_linked;
use crate::program_end::ProgramEnd;
use base::NoMemory;
use command_line::Settings;
use endings::settings::plan_of;
use endings::show::Show;
use jop_core::Watch;
use jopizer::Linked;
use outside::{Sink, Source};
use std::alloc::Global;

/// Runs what was linked from reset, where a machine with these settings holds it: each code fits its method cache, and the words its
/// memory.
pub fn run_held<S: Source, O: Sink, V: Watch>(
    alloc: Global,
    linked: &Linked,
    settings: &Settings,
    show: Show,
    input: &mut S,
    out: &mut O,
    watch: &mut V,
) -> Result<ProgramEnd, NoMemory>
    requires settings { AreSettings settings.now }
    requires codes { (m : ℕ) → MethodFits (resolved linked.now.classes) settings.now.blocks settings.now.block_words m }
    requires memory { length linked.now.laid.words ≤ settings.now.memory }
    ensures ran { IfOk result (RanLinkedWith settings.now show linked.now
        (lent (S.left input.old) (S.faults input.old) (O.held out.old) (O.faults out.old) (V.held watch.old))
        (lent (S.left input.new) (S.faults input.new) (O.held out.new) (O.faults out.new) (V.held watch.new))) }
    ensures leaves { IfErr result (λ _. (input.new ≡ input.old) × (out.new ≡ out.old) × (watch.new ≡ watch.old)) }
    ensures watch { IsTrace show → watch.new ≡ watch.old }
{
    let program = linked.program();
    let layout = linked.layout();
    let plan = plan_of(settings, show);
    match settings.stack {
        256 => run_linked::<256, S, O, V>(alloc, program, layout, plan, input, out, watch),
        512 => run_linked::<512, S, O, V>(alloc, program, layout, plan, input, out, watch),
        _ => run_linked::<1024, S, O, V>(alloc, program, layout, plan, input, out, watch),
    }
}
