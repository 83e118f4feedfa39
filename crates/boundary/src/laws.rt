//! Laws of runs, from one boundary to the next: functions without a body.

ghost use Rattle.machine_stands.specs.Simulates.{Simulates};
ghost use Rattle.boundary.specs.Families.{is_built};
ghost use Rattle.boundary.specs.Activations.{ActivationsTakeCycles};
ghost use Rattle.boundary.specs.BareLaws.{BareOpcodes, BareImagesStep};
ghost use Rattle.boundary.specs.BareStates.{HaveBareStates};
ghost use Rattle.boundary.specs.Followed.{RunsAreInARow};
ghost use Rattle.boundary.specs.Laws.{BareImagesArePrograms, BareRunsBegin};
ghost use Rattle.boundary.specs.Linked.{LinkedRunsBegin};
ghost use Rattle.boundary.specs.StageLaws.{StagesAdvance, StagesAgree, StagesEndSoon};

use micro_flow::laws::{costs_are_small, entries_are_reached_by_dispatch};

/// A bare image is a program of one method, which is lawful and typed.
pub fn bare_images_are_programs()
    ensures { BareImagesArePrograms }
{
    machine_stands::bare_images_say();
    bytecode_typing::bare_programs_are_typed();
}

/// The machine at reset over a bare image stands for the first state of its program.
pub fn bare_runs_begin()
    ensures { BareRunsBegin }
{
    machine_stands::bare_images_begin();
    bytecode_typing::the_boot_state_fits();
    bare_images_are_programs();
}

/// A machine that holds a linked program can begin with the words of its image, and at reset over them it stands for the
/// program's first state.
pub fn linked_runs_begin()
    ensures { LinkedRunsBegin }
{
    bytecode_typing::the_boot_state_fits();
    bytecode_typing::fitting_states_are_well_formed();
    base::laws::packed_has_words();
    base::laws::packed_has_bytes();
    image_facts::words_are_read_and_written();
    image_facts::words_lie();
    image_facts::image_words_lie();
    image_facts::image_words_grow();
}

/// From each opcode of the families the machine comes to the next state.
pub fn families_are_simulated()
    ensures { Simulates is_built }
{
    opcode_steps::values::values_are_moved();
    opcode_steps::numbers::numbers_are_computed();
    call_steps::laws::static_calls_and_returns();
    call_steps::laws::calls_by_receiver_come();
    call_steps::laws::throws_come();
    opcode_steps::devices::devices_are_simulated();
    opcode_steps::heap::fields_are_simulated();
    opcode_steps::heap::arrays_are_simulated();
    opcode_steps::objects::objects_are_made();
    opcode_steps::objects::types_are_tested();
    opcode_steps::objects::monitors_are_passed();
}

/// Each instruction of a bare image has one of the opcodes that it may have.
pub fn bare_images_have_bare_opcodes()
    ensures { BareOpcodes }
{}

/// From an instruction, or from the raise routine, the machine comes to the next state.
pub fn stages_advance()
    ensures { StagesAdvance }
{
    families_are_simulated();
    call_steps::laws::raises_come();
    machine_stands::rows_are_read();
    bytecode_model::laws::rows_are_of_their_opcodes();
    opcodes::laws::instructions_are_read();
    bare_images_have_bare_opcodes();
    bytecode_typing::typed_programs_keep();
    bytecode_typing::fitting_states_are_well_formed();
}

/// States of programs for which a machine stands go on alike, where one of them does.
pub fn stages_agree()
    ensures { StagesAgree }
{
    entries_are_reached_by_dispatch();
}

/// From an instruction, or from the raise routine, a boundary comes soon.
pub fn stages_end_soon()
    ensures { StagesEndSoon }
{
    stages_advance();
    costs_are_small();
    base::laws::packed_has_words();
    opcodes::laws::instructions_end_within();
    machine_stands::fixed_words_are_read();
    bytecode_typing::fitting_states_are_well_formed();
}

/// A step of a bare image takes nothing from the input, goes on or ends, and puts something out at `impdep2` alone.
pub fn bare_images_step()
    ensures { BareImagesStep }
{
    bare_images_are_programs();
    bytecode_typing::typed_programs_keep();
    bytecode_typing::fitting_states_are_well_formed();
}

/// A state of a bare image has one frame of ints, and is running or has ended.
pub fn bare_images_have_bare_states()
    ensures { HaveBareStates }
{
    bare_images_are_programs();
    bytecode_typing::typed_programs_keep();
    bytecode_typing::fitting_states_are_well_formed();
}

/// An activation of a method takes some cycles.
pub fn activations_take_cycles()
    ensures { ActivationsTakeCycles }
{
    jop_core::laws::cycles_keep();
}

/// The boundaries of a run, of which what is seen of it is seen, follow one another, and the program goes on at each but the last.
pub fn runs_are_in_a_row()
    ensures { RunsAreInARow }
{}
