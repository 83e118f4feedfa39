//! The run of a bare image, of whose file these are the bytes.
ghost use Rattle.std.specs.Prelude.{◌≡◌, ◌<◌, ◌≤◌, ◌^◌, ◌⊎◌, [], length, Some, IfOk};
ghost use Rattle.image_file.specs.Bare.{IsBareContent};
ghost use Rattle.machine_memory.specs.Stack.Size.{IsSize};
ghost use Rattle.jop_core.specs.Reset.{CanStartBare, bare_reset};
ghost use Rattle.boundary.specs.Setting.{bare_setting};
ghost use Rattle.run_devices.specs.Lent.{lent};
ghost use Rattle.command_line.specs.Range.{AreSettings};
ghost use Rattle.endings.specs.Leaving.{Leaves};
ghost use Rattle.endings.specs.Show.{HaveNamesToShow, HasNameToShow, IsTrace, ShowsTrace, bare_shown, shown_by};
ghost use Rattle.run_commands.specs.Run.{Started};
ghost use Rattle.endings.specs.Fitting.{blocks_of_code};
ghost use Rattle.run_commands.specs.BareFile.{IsCodeTooLong, RanImage, RanImageWith};

use crate::run::run_to_end;
use base::NoMemory;
use boundary::laws::{bare_images_are_programs, bare_images_step};
use boundary::{RunEnd, Running};
use command_line::Settings;
use endings::outcome::{Ending, Refusal, fault_ending};
use endings::settings::{Plan, blocks_of, plan_of};
use endings::show::{NamedShow, Show, bare_show};
use jop_core::{Bare, Config, Watch};
use outside::Sink;
use run_devices::NoSource;
use std::alloc::Global;

/// A machine at reset over an image. The only error is that there was no memory.
fn start<const N: usize>(
    alloc: Global,
    bare: &Bare,
    config: Config,
) -> Result<Running<'_, N>, NoMemory>
    requires size { IsSize N }
    requires room { CanStartBare bare.now config }
    requires grammar { IsBareContent bare.now }
    ensures started { IfOk result (Started (bare_setting bare.now N config.memory) (bare_reset N bare.now config)) }
    ensures one { IfOk result (λ r. length r.methods ≡ 1) }
{
    // The law is for the proof.
    bare_images_are_programs();
    Running::<N>::start_bare(alloc, bare, config)
}

/// Runs a machine over an image from reset, and shows what is to be shown.
fn run_started<const N: usize, O: Sink, V: Watch>(
    bare: &Bare,
    plan: Plan,
    shown: &NamedShow,
    running: &mut Running<'_, N>,
    out: &mut O,
    watch: &mut V,
) -> Ending
    requires started { Started (bare_setting bare.now N plan.config.memory) (bare_reset N bare.now plan.config) running.old }
    requires grammar { IsBareContent bare.now }
    requires named { HaveNamesToShow (shown_by shown.now) running.old.methods }
    requires few { plan.limit < 2 ^ 63 }
    ensures ran { RanImage (shown_by shown.now) (bare_setting bare.now N plan.config.memory) (bare_reset N bare.now plan.config) plan.limit
        (lent (Some []) 0 (O.held out.old) (O.faults out.old) (V.held watch.old))
        (lent (Some []) 0 (O.held out.new) (O.faults out.new) (V.held watch.new)) result }
    ensures done { Leaves result → ⊥ }
    ensures watch { ShowsTrace (shown_by shown.now) → watch.new ≡ watch.old }
{
    // The law is for the proof.
    bare_images_step();
    let ran = run_to_end(running, shown, &mut NoSource, out, watch, plan.limit);
    match ran.end {
        Ok(RunEnd::Ended) => Ending::Ended(ran.counts),
        Ok(RunEnd::Spent) => Ending::Spent(ran.counts),
        Ok(RunEnd::Uncaught(_)) => unreachable!(),
        Err(fault) => fault_ending(fault),
    }
}

/// Runs an image from reset, and shows what is to be shown.
fn run_image<const N: usize, O: Sink, V: Watch>(
    alloc: Global,
    bare: &Bare,
    plan: Plan,
    shown: &NamedShow,
    out: &mut O,
    watch: &mut V,
) -> Ending
    requires size { IsSize N }
    requires room { CanStartBare bare.now plan.config }
    requires grammar { IsBareContent bare.now }
    requires named { HasNameToShow (shown_by shown.now) }
    requires few { plan.limit < 2 ^ 63 }
    ensures ran { RanImage (shown_by shown.now) (bare_setting bare.now N plan.config.memory) (bare_reset N bare.now plan.config) plan.limit
        (lent (Some []) 0 (O.held out.old) (O.faults out.old) (V.held watch.old))
        (lent (Some []) 0 (O.held out.new) (O.faults out.new) (V.held watch.new)) result }
    ensures leaves { Leaves result → (out.new ≡ out.old) × (watch.new ≡ watch.old) }
    ensures watch { ShowsTrace (shown_by shown.now) → watch.new ≡ watch.old }
{
    match start::<N>(alloc, bare, plan.config) {
        Ok(running) => {
            let mut running = running;
            run_started(bare, plan, shown, &mut running, out, watch)
        }
        Err(NoMemory) => Ending::NoMemory,
    }
}

/// Runs an image from reset, and shows what is to be shown. After the machine is made no memory is asked for.
fn run_bare<const N: usize, O: Sink, V: Watch>(
    alloc: Global,
    bare: &Bare,
    plan: Plan,
    out: &mut O,
    watch: &mut V,
) -> Ending
    requires size { IsSize N }
    requires room { CanStartBare bare.now plan.config }
    requires grammar { IsBareContent bare.now }
    requires few { plan.limit < 2 ^ 63 }
    ensures ran { RanImage (bare_shown plan.show) (bare_setting bare.now N plan.config.memory) (bare_reset N bare.now plan.config) plan.limit
        (lent (Some []) 0 (O.held out.old) (O.faults out.old) (V.held watch.old))
        (lent (Some []) 0 (O.held out.new) (O.faults out.new) (V.held watch.new)) result }
    ensures leaves { Leaves result → (out.new ≡ out.old) × (watch.new ≡ watch.old) }
    ensures watch { IsTrace plan.show → watch.new ≡ watch.old }
{
    match bare_show(alloc, plan.show) {
        Ok(shown) => run_image::<N, O, V>(alloc, bare, plan, &shown, out, watch),
        Err(NoMemory) => Ending::NoMemory,
    }
}

/// Runs an image with settings, where its code fits the method cache.
pub fn run_with<O: Sink, V: Watch>(
    alloc: Global,
    bare: &Bare,
    settings: &Settings,
    show: Show,
    out: &mut O,
    watch: &mut V,
) -> Ending
    requires settings { AreSettings settings.now }
    requires grammar { IsBareContent bare.now }
    requires room { blocks_of_code settings.now bare.now ≤ settings.now.blocks }
    ensures ran { RanImageWith settings.now show bare.now
        (lent (Some []) 0 (O.held out.old) (O.faults out.old) (V.held watch.old))
        (lent (Some []) 0 (O.held out.new) (O.faults out.new) (V.held watch.new)) result }
    ensures leaves { Leaves result → (out.new ≡ out.old) × (watch.new ≡ watch.old) }
    ensures watch { IsTrace show → watch.new ≡ watch.old }
{
    let plan = plan_of(settings, show);
    match settings.stack {
        256 => run_bare::<256, O, V>(alloc, bare, plan, out, watch),
        512 => run_bare::<512, O, V>(alloc, bare, plan, out, watch),
        _ => run_bare::<1024, O, V>(alloc, bare, plan, out, watch),
    }
}

/// Runs an image with settings.
pub fn run_fitting<O: Sink, V: Watch>(
    alloc: Global,
    bare: &Bare,
    settings: &Settings,
    show: Show,
    out: &mut O,
    watch: &mut V,
) -> Ending
    requires settings { AreSettings settings.now }
    requires grammar { IsBareContent bare.now }
    ensures ran { IsCodeTooLong settings.now bare.now
        (lent (Some []) 0 (O.held out.old) (O.faults out.old) (V.held watch.old))
        (lent (Some []) 0 (O.held out.new) (O.faults out.new) (V.held watch.new)) result
        ⊎ RanImageWith settings.now show bare.now
        (lent (Some []) 0 (O.held out.old) (O.faults out.old) (V.held watch.old))
        (lent (Some []) 0 (O.held out.new) (O.faults out.new) (V.held watch.new)) result }
    ensures leaves { Leaves result → (out.new ≡ out.old) × (watch.new ≡ watch.old) }
    ensures watch { IsTrace show → watch.new ≡ watch.old }
{
    let blocks = blocks_of(bare, settings.block_words);
    if blocks > settings.blocks {
        return Ending::Refused(Refusal::MethodTooLong(0, blocks, settings.blocks));
    }
    run_with(alloc, bare, settings, show, out, watch)
}
