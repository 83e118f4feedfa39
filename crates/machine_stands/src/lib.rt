//! When a machine stands for a state of a program, and what a step of the bytecode is as a run of the machine to the next
//! boundary. The definitions stand in `specs/`. The functions here do nothing; a caller whose proof needs a law calls its
//! function.
#![tactic(auto)]

pub mod shown_frames;

ghost use Rattle.machine_stands.specs.Counted.{FiveAreSaved, FramesHaveRoom};
ghost use Rattle.machine_stands.specs.Again.{MachinesStandAgain, MadeRowsRun, RowsCome};
ghost use Rattle.machine_stands.specs.Bare.{BareImagesBegin, BareImagesSay};
ghost use Rattle.machine_stands.specs.Calling.{ArgumentsArePassed};
ghost use Rattle.machine_stands.specs.Fixed.{FixedWordsAreRead, PoolsAreRead, RaiseListIsRead};
ghost use Rattle.machine_stands.specs.Going.{FramesGoOn, FramesRaise};
ghost use Rattle.machine_stands.specs.Memory.{LongFieldsAreWritten};
ghost use Rattle.machine_stands.specs.Operands.{OneWordIsOnTop, OneWordIsPushed, OperandsAreJoined, OperandsArePartedAnywhere, OperandsHaveWords};
ghost use Rattle.machine_stands.specs.Operands.{TwoWordsAreOnTop};
ghost use Rattle.machine_stands.specs.Reading.{LookupSwitchesAreRead, PlainOnesAreRead, RowsAreRead, TableSwitchesAreRead, WideOnesAreRead};
ghost use Rattle.machine_stands.specs.Reading.{WideOnesHaveOpcodes};
ghost use Rattle.machine_stands.specs.Seen.{MachinesAreSeen};
ghost use Rattle.machine_stands.specs.Shown.{SketchesShow};
ghost use Rattle.machine_stands.specs.Stopping.{EndsCome, RaisesCome};
ghost use Rattle.machine_stands.specs.Switching.{SwitchesCome};
ghost use Rattle.machine_stands.specs.Unwinding.{RaisesAreSeen, HandlersCome, DropsCome, UncaughtCome};

/// A bare image, seen as a program, has no words that could say anything else.
pub fn bare_images_say()
    ensures { BareImagesSay }
{}

/// A machine at reset with a bare image stands for the state with which its program begins.
pub fn bare_images_begin()
    ensures { BareImagesBegin }
{
    base::laws::packed_has_words();
    base::laws::packed_has_bytes();
}

/// A `putfield` of a long, as two writes of the memory.
pub fn long_fields_are_written()
    ensures { LongFieldsAreWritten }
{
    image_facts::words_lie();
    image_facts::words_are_read_and_written();
    image_facts::image_words_lie();
    image_facts::image_words_differ();
}

/// A machine that stands for a running state is what a sketch of it stands for, at the entry of its opcode.
pub fn machines_are_seen()
    ensures { MachinesAreSeen }
{
    micro_sketch::laws::rows_are_steps();
}

/// After a row that stays in its frame the machine stands for the next state, where the row makes the words of that.
pub fn machines_stand_again()
    ensures { MachinesStandAgain }
{
    opcodes::laws::starts_follow_one_another();
    base::laws::packed_has_bytes();
    micro_sketch::laws::rows_are_steps();
}

/// A row on the sketch, as a run of the machine to where it stands for the next state.
pub fn rows_come()
    ensures runs { MadeRowsRun }
    ensures comes { RowsCome }
{
    micro_sketch::laws::rows_are_steps();
    micro_sketch::laws::opcodes_keep_their_costs();
    micro_sketch::laws::runs_add_up();
    machines_are_seen();
    machines_stand_again();
}

/// A row that raises or halts, as a run of the machine to where it stands so.
pub fn rows_stop()
    ensures raises { RaisesCome }
    ensures ends { EndsCome }
{
    micro_sketch::laws::rows_are_steps();
    micro_sketch::laws::runs_add_up();
    machines_are_seen();
}

/// A row that calls or returns, as a run of the machine to where it stands so, with its look-up.
pub fn rows_switch()
    ensures { SwitchesCome }
{
    opcodes::laws::starts_follow_one_another();
    base::laws::packed_has_bytes();
    base::laws::packed_has_words();
    micro_sketch::laws::rows_are_steps();
    micro_sketch::laws::runs_add_up();
    machines_are_seen();
}

/// The arguments of a call, as they stand on the stack of the caller, are the first local variables of the new frame.
pub fn arguments_are_passed()
    ensures { ArgumentsArePassed }
{}

/// The row of the instruction that a machine is about to run, and what the instruction is where its opcode is known.
pub fn rows_are_read()
    ensures any { RowsAreRead }
    ensures plain { PlainOnesAreRead }
    ensures table_switches { TableSwitchesAreRead }
    ensures lookup_switches { LookupSwitchesAreRead }
    ensures wide_opcodes { WideOnesHaveOpcodes }
    ensures wide { WideOnesAreRead }
{
    opcodes::laws::instructions_end_within();
    opcodes::laws::instructions_are_read();
}

/// The sketch of a machine shows the top frame, the bytes of its method and the registers.
pub fn sketches_show()
    ensures { SketchesShow }
{
    base::laws::packed_has_bytes();
    machines_are_seen();
}

/// A row that goes on in its frame, or raises, from the words that it makes to where the machine stands for the next state.
pub fn frames_go_on()
    ensures goes { FramesGoOn }
    ensures raises { FramesRaise }
{
    sketches_show();
    rows_come();
    rows_stop();
}

/// The words of operands, by value.
pub fn operands_have_words()
    ensures one { OneWordIsOnTop }
    ensures two { TwoWordsAreOnTop }
    ensures pushed { OneWordIsPushed }
    ensures parts { OperandsArePartedAnywhere }
    ensures joined { OperandsAreJoined }
    ensures count { OperandsHaveWords }
{}

/// What is read in the memory of the words that nothing writes, among them pools and the list of what instructions raise.
pub fn fixed_words_are_read()
    ensures words { FixedWordsAreRead }
    ensures raise_list { RaiseListIsRead }
    ensures pools { PoolsAreRead }
{
    image_facts::words_lie();
    image_facts::words_are_read_and_written();
    image_facts::image_words_lie();
    image_facts::first_objects_stay();
}

/// The words of frames are at most as many as the frames may take.
pub fn frames_have_room()
    ensures room { FramesHaveRoom }
    ensures saved { FiveAreSaved }
{}

/// A machine at the raise routine as a sketch, and what it comes to: a handler, the caller's frame, or the end of the run.
pub fn raises_unwind()
    ensures seen { RaisesAreSeen }
    ensures handlers { HandlersCome }
    ensures drops { DropsCome }
    ensures uncaught { UncaughtCome }
{
    opcodes::laws::starts_follow_one_another();
    base::laws::packed_has_bytes();
    base::laws::packed_has_words();
    micro_sketch::laws::rows_are_steps();
    micro_sketch::laws::machines_are_seen_as_sketches();
    micro_sketch::laws::raise_keeps_its_cost();
    micro_sketch::laws::runs_add_up();
}
