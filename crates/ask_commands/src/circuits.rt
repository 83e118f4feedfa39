//! The machine with an image in it, as the text of a circuit.
ghost use Rattle.std.specs.Prelude.{◌≤◌};
ghost use Rattle.command_line.specs.Range.{AreSettings};
ghost use Rattle.endings.specs.Fitting.{blocks_of_code};
ghost use Rattle.ask_commands.specs.Circuits.{IsHeldBy, IsTextOfCircuit, AnswersCircuit, AnswersBareCircuit};

use boundary::laws::linked_runs_begin;
use boundary::{boot_takes_six_words, verified_programs_are_told};
use circuit_build::BuildFault;
use command_line::Settings;
use endings::fitting::{too_long_ending, unheld};
use endings::outcome::{Answer, Ending, Refusal};
use endings::settings::config_of;
use jop_core::Bare;
use jopizer::Linked;
use machine_circuit::{bare_circuit_of, circuit_of};
use netlist::Netlist;
use netlist_text::write_netlist;
use std::alloc::Global;

/// The text of a circuit, if one was made.
fn circuit_text(alloc: Global, circuit: &Result<Netlist, BuildFault>) -> Answer
    ensures { IsTextOfCircuit circuit.now result }
{
    match circuit {
        Ok(netlist) => match write_netlist(alloc, netlist) {
            Ok(text) => Answer::Text(text),
            Err(_) => Answer::Ends(Ending::NoMemory),
        },
        Err(BuildFault::Malformed) => Answer::Ends(Ending::Refused(Refusal::NoCircuit)),
        Err(BuildFault::NoMemory) => Answer::Ends(Ending::NoMemory),
    }
}

/// The text of the circuit of what a machine with these settings holds, if it is made.
fn held_circuit(alloc: Global, linked: &Linked, settings: &Settings) -> Answer
    requires settings { AreSettings settings.now }
    requires holds { IsHeldBy settings.now linked.now }
    ensures { AnswersCircuit settings.now linked.now result }
{
    // The laws are for the proof.
    linked_runs_begin();
    verified_programs_are_told();
    boot_takes_six_words();
    let program = linked.program();
    program.program().is_resolved();
    let layout = linked.layout();
    let config = config_of(settings);
    let circuit = circuit_of(alloc, layout.words(), settings.stack, config);
    circuit_text(alloc, &circuit)
}

/// The text of the circuit of what was linked, or why there is none.
pub fn circuit_linked(alloc: Global, linked: &Linked, settings: &Settings) -> Answer
    requires { AreSettings settings.now }
    ensures { AnswersCircuit settings.now linked.now result }
{
    match unheld(alloc, linked, settings) {
        Some(ending) => Answer::Ends(ending),
        None => held_circuit(alloc, linked, settings),
    }
}

/// The text of the circuit of a bare image whose code fits the method cache, if it is made.
fn fitting_circuit(alloc: Global, image: &Bare, settings: &Settings) -> Answer
    requires settings { AreSettings settings.now }
    requires fits { blocks_of_code settings.now image.now ≤ settings.now.blocks }
    ensures { AnswersBareCircuit settings.now image.now result }
{
    // That the code has an instruction is for the proof.
    image.code();
    let config = config_of(settings);
    let circuit = bare_circuit_of(alloc, image, settings.stack, config);
    circuit_text(alloc, &circuit)
}

/// The text of the circuit of a bare image, or why there is none.
pub fn circuit_bare(alloc: Global, image: &Bare, settings: &Settings) -> Answer
    requires { AreSettings settings.now }
    ensures { AnswersBareCircuit settings.now image.now result }
{
    match too_long_ending(image, settings) {
        Some(ending) => Answer::Ends(ending),
        None => fitting_circuit(alloc, image, settings),
    }
}
