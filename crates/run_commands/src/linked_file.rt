//! The run of a linked image, of whose file these are the bytes.
ghost use Rattle.std.specs.Prelude.{◌≡◌, [], vec_capacity};
ghost use Rattle.refusal_lines.specs.Room.{HasRoom};
ghost use Rattle.command_line.specs.Range.{AreSettings};
ghost use Rattle.run_devices.specs.Lent.{lent};
ghost use Rattle.endings.specs.Show.{IsTrace};
ghost use Rattle.endings.specs.Leaving.{Leaves};
ghost use Rattle.run_commands.specs.LinkedRun.{HasClass};
ghost use Rattle.run_commands.specs.LinkedFile.{SaysEnd, EndsAs};

use crate::linked_settings::run_held;
use crate::program_end::ProgramEnd;
use base::NoMemory;
use boundary::RunEnd;
use command_line::Settings;
use endings::fitting::unheld;
use endings::outcome::{Ending, fault_ending};
use endings::show::Show;
use jop_core::Watch;
use jopizer::Linked;
use outside::{Sink, Source};
use refusal_lines::{name_room, tell_name};
use resolved_program::Program;
use std::alloc::Global;

/// The ending where the program ended so, with room for the name of any class.
pub fn said(program: &Program, room: Vec<u8>, ran: ProgramEnd) -> Ending
    requires empty { room.items ≡ [] }
    requires room { HasRoom program.now (vec_capacity room) }
    requires class { HasClass program.now ran.end }
    ensures { SaysEnd program.now ran.end ran.counts result }
{
    match ran.end {
        Ok(RunEnd::Ended) => Ending::Ended(ran.counts),
        Ok(RunEnd::Uncaught(class)) => {
            let mut name = room;
            tell_name(&mut name, program, class);
            Ending::Uncaught(class, name, ran.counts)
        }
        Ok(RunEnd::Spent) => Ending::Spent(ran.counts),
        Err(fault) => fault_ending(fault),
    }
}

/// Runs what was linked with settings.
pub fn run_program<S: Source, O: Sink, V: Watch>(
    alloc: Global,
    linked: &Linked,
    settings: &Settings,
    show: Show,
    input: &mut S,
    out: &mut O,
    watch: &mut V,
) -> Ending
    requires { AreSettings settings.now }
    ensures ends { EndsAs settings.now show linked.now
        (lent (S.left input.old) (S.faults input.old) (O.held out.old) (O.faults out.old) (V.held watch.old))
        (lent (S.left input.new) (S.faults input.new) (O.held out.new) (O.faults out.new) (V.held watch.new)) result }
    ensures leaves { Leaves result → (input.new ≡ input.old) × (out.new ≡ out.old) × (watch.new ≡ watch.old) }
    ensures watch { IsTrace show → watch.new ≡ watch.old }
{
    if let Some(ending) = unheld(alloc, linked, settings) {
        return ending;
    }
    // After the machine is made no memory is asked for.
    let program = linked.program().program();
    let Ok(room) = name_room(alloc, program) else {
        return Ending::NoMemory;
    };
    match run_held(alloc, linked, settings, show, input, out, watch) {
        Ok(ran) => said(program, room, ran),
        Err(NoMemory) => Ending::NoMemory,
    }
}
