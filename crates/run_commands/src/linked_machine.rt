//! The run of a linked program, from reset.
ghost use Rattle.std.specs.Prelude.{◌≡◌, ◌<◌, ◌^◌, IfOk, IfErr};
ghost use Rattle.machine_memory.specs.Stack.Size.{IsSize};
ghost use Rattle.run_devices.specs.Lent.{lent};
ghost use Rattle.image_facts.specs.Methods.{AreMethods};
ghost use Rattle.program_tables.specs.Resolved.{resolved};
ghost use Rattle.image_words.specs.Regions.{places_of};
ghost use Rattle.jop_core.specs.Reset.{linked_reset};
ghost use Rattle.endings.specs.Show.{HaveNamesToShow, IsTrace, ShowsTrace, linked_shown, shown_by};
ghost use Rattle.run_commands.specs.Run.{Started, Ran};
ghost use Rattle.run_commands.specs.LinkedRun.{CanRun, HasClass};
ghost use Rattle.endings.specs.Settings.{linked_setting};

use crate::program_end::ProgramEnd;
use crate::run::run_to_end;
use base::NoMemory;
use boundary::{
    CodedMethod, Running, boot_takes_six_words, uncaught_classes_are_there,
    verified_programs_are_told,
};
use bytecode_verifier::Verified;
use endings::settings::Plan;
use endings::show::{NamedShow, linked_show};
use image_builder::Layout;
use jop_core::{Config, Watch};
use jopizer::methods::methods_of;
use outside::{Sink, Source};
use program_tables::laws::methods_stand_by_number;
use std::alloc::Global;

/// A machine at reset over the image of a verified program that is laid out, with these methods. The only error is that there
/// was no memory.
pub fn start_linked<'a, const N: usize>(
    alloc: Global,
    program: &Verified,
    layout: &Layout,
    methods: &'a [CodedMethod<'a>],
    config: Config,
) -> Result<Running<'a, N>, NoMemory>
    requires size { IsSize N }
    requires held { CanRun program.now layout.now config }
    requires methods { AreMethods (resolved program.now) (places_of program.now) methods.now }
    ensures started { IfOk result (Started (linked_setting program.now N config.memory) (linked_reset N layout.now.words config)) }
    ensures methods { IfOk result (λ r. r.methods ≡ methods.now) }
{
    // The laws are for the proof.
    verified_programs_are_told();
    boot_takes_six_words();
    program.program().is_resolved();
    Running::<N>::start(alloc, layout.words(), methods, config)
}

/// Runs it with these methods, and shows what is to be shown.
fn run_methods<const N: usize, S: Source, O: Sink, V: Watch>(
    alloc: Global,
    program: &Verified,
    layout: &Layout,
    methods: &[CodedMethod<'_>],
    plan: Plan,
    shown: &NamedShow,
    input: &mut S,
    out: &mut O,
    watch: &mut V,
) -> Result<ProgramEnd, NoMemory>
    requires size { IsSize N }
    requires held { CanRun program.now layout.now plan.config }
    requires methods { AreMethods (resolved program.now) (places_of program.now) methods.now }
    requires named { HaveNamesToShow (shown_by shown.now) methods.now }
    requires few { plan.limit < 2 ^ 63 }
    ensures ran { IfOk result (Ran (shown_by shown.now) (linked_setting program.now N plan.config.memory)
        (linked_reset N layout.now.words plan.config) plan.limit
        (lent (S.left input.old) (S.faults input.old) (O.held out.old) (O.faults out.old) (V.held watch.old))
        (lent (S.left input.new) (S.faults input.new) (O.held out.new) (O.faults out.new) (V.held watch.new))) }
    ensures class { IfOk result (λ ran. HasClass program.now ran.end) }
    ensures leaves { IfErr result (λ _. (input.new ≡ input.old) × (out.new ≡ out.old) × (watch.new ≡ watch.old)) }
    ensures watch { ShowsTrace (shown_by shown.now) → watch.new ≡ watch.old }
{
    // The law is for the proof.
    uncaught_classes_are_there();
    match start_linked::<N>(alloc, program, layout, methods, plan.config) {
        Ok(running) => {
            let mut running = running;
            Ok(run_to_end(&mut running, shown, input, out, watch, plan.limit))
        }
        Err(NoMemory) => Err(NoMemory),
    }
}

/// Runs it, and shows what is to be shown.
fn run_named<const N: usize, S: Source, O: Sink, V: Watch>(
    alloc: Global,
    program: &Verified,
    layout: &Layout,
    plan: Plan,
    shown: &NamedShow,
    input: &mut S,
    out: &mut O,
    watch: &mut V,
) -> Result<ProgramEnd, NoMemory>
    requires size { IsSize N }
    requires held { CanRun program.now layout.now plan.config }
    requires shown { shown_by shown.now ≡ linked_shown program.now plan.show }
    requires few { plan.limit < 2 ^ 63 }
    ensures ran { IfOk result (Ran (linked_shown program.now plan.show) (linked_setting program.now N plan.config.memory)
        (linked_reset N layout.now.words plan.config) plan.limit
        (lent (S.left input.old) (S.faults input.old) (O.held out.old) (O.faults out.old) (V.held watch.old))
        (lent (S.left input.new) (S.faults input.new) (O.held out.new) (O.faults out.new) (V.held watch.new))) }
    ensures class { IfOk result (λ ran. HasClass program.now ran.end) }
    ensures leaves { IfErr result (λ _. (input.new ≡ input.old) × (out.new ≡ out.old) × (watch.new ≡ watch.old)) }
    ensures watch { IsTrace plan.show → watch.new ≡ watch.old }
{
    // The law is for the proof.
    methods_stand_by_number();
    match methods_of(alloc, program.program(), layout) {
        Ok(methods) => run_methods::<N, S, O, V>(
            alloc, program, layout, &methods, plan, shown, input, out, watch,
        ),
        Err(NoMemory) => Err(NoMemory),
    }
}

/// Runs a verified program that is laid out from reset. After the machine is made no memory is asked for.
pub fn run_linked<const N: usize, S: Source, O: Sink, V: Watch>(
    alloc: Global,
    program: &Verified,
    layout: &Layout,
    plan: Plan,
    input: &mut S,
    out: &mut O,
    watch: &mut V,
) -> Result<ProgramEnd, NoMemory>
    requires size { IsSize N }
    requires held { CanRun program.now layout.now plan.config }
    requires few { plan.limit < 2 ^ 63 }
    ensures ran { IfOk result (Ran (linked_shown program.now plan.show) (linked_setting program.now N plan.config.memory)
        (linked_reset N layout.now.words plan.config) plan.limit
        (lent (S.left input.old) (S.faults input.old) (O.held out.old) (O.faults out.old) (V.held watch.old))
        (lent (S.left input.new) (S.faults input.new) (O.held out.new) (O.faults out.new) (V.held watch.new))) }
    ensures class { IfOk result (λ ran. HasClass program.now ran.end) }
    ensures leaves { IfErr result (λ _. (input.new ≡ input.old) × (out.new ≡ out.old) × (watch.new ≡ watch.old)) }
    ensures watch { IsTrace plan.show → watch.new ≡ watch.old }
{
    match linked_show(alloc, plan.show, program.program()) {
        Ok(shown) => {
            run_named::<N, S, O, V>(alloc, program, layout, plan, &shown, input, out, watch)
        }
        Err(NoMemory) => Err(NoMemory),
    }
}
