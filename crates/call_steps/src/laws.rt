//! Laws of rows of calls and returns: functions without a body.

ghost use Rattle.machine_stands.specs.Simulates.{Simulates, Unwinds};
ghost use Rattle.call_steps.specs.Coming.{MethodsAreRead, CallsCome};
ghost use Rattle.call_steps.specs.Family.{calls_by_receiver, calls_or_returns, throws};
ghost use Rattle.call_steps.specs.Laws.{CallsRun, CallsRaise, ReturnsRun, ReturnsEnd};
ghost use Rattle.call_steps.specs.Raise.{FramesDrop, HandlersRun, LastStops};
ghost use Rattle.call_steps.specs.Tables.{NullRaises, ChangeRaises, TableCallsRun};

use micro_sketch::laws::{
    frames_change, machine_follows_the_sketch, opcodes_keep_their_costs, rows_are_steps,
    runs_go_between_alike_sketches, runs_go_on, sketches_can_be_split_anywhere,
    stack_pointer_moves, stack_word_is_loaded,
};

/// What a call makes of the words of the stack.
pub fn call_rows_run()
    ensures runs { CallsRun }
    ensures raises { CallsRaise }
{
    rows_are_steps();
    machine_follows_the_sketch();
    runs_go_on();
    runs_go_between_alike_sketches();
    sketches_can_be_split_anywhere();
    stack_pointer_moves();
    frames_change();
    opcodes_keep_their_costs();
}

/// What a call by a receiver makes of the words of the stack, and what it raises.
pub fn table_call_rows_run()
    ensures nulls { NullRaises }
    ensures changes { ChangeRaises }
    ensures runs { TableCallsRun }
{
    rows_are_steps();
    machine_follows_the_sketch();
    runs_go_on();
    runs_go_between_alike_sketches();
    sketches_can_be_split_anywhere();
    stack_pointer_moves();
    stack_word_is_loaded();
    frames_change();
    opcodes_keep_their_costs();
}

/// What a return makes of the words of the stack.
pub fn return_rows_run()
    ensures runs { ReturnsRun }
    ensures ends { ReturnsEnd }
{
    rows_are_steps();
    machine_follows_the_sketch();
    runs_go_on();
    runs_go_between_alike_sketches();
    sketches_can_be_split_anywhere();
    stack_pointer_moves();
    frames_change();
    opcodes_keep_their_costs();
}

/// The record of a method, as the microcode reads it.
pub fn methods_are_read()
    ensures { MethodsAreRead }
{
    machine_stands::fixed_words_are_read();
    image_facts::words_are_read_and_written();
    image_facts::words_lie();
    image_facts::image_words_lie();
    base::laws::packed_has_words();
}

/// From a call whose row goes on so the machine comes to where it stands for the next state.
pub fn calls_come()
    ensures { CallsCome }
{
    machine_stands::sketches_show();
    machine_stands::rows_switch();
    machine_stands::rows_stop();
    machine_stands::operands_have_words();
    machine_stands::arguments_are_passed();
    machine_stands::fixed_words_are_read();
    machine_stands::frames_have_room();
    methods_are_read();
}

/// From each static call and each return the machine comes to where it stands for the next state.
pub fn static_calls_and_returns()
    ensures { Simulates calls_or_returns }
{
    machine_stands::rows_are_read();
    machine_stands::sketches_show();
    machine_stands::frames_go_on();
    machine_stands::rows_switch();
    machine_stands::rows_stop();
    machine_stands::operands_have_words();
    machine_stands::fixed_words_are_read();
    machine_stands::frames_have_room();
    opcodes::laws::instructions_end_within();
    methods_are_read();
    calls_come();
    call_rows_run();
    return_rows_run();
}

/// From each call by a receiver the machine comes to where it stands for the next state.
pub fn calls_by_receiver_come()
    ensures { Simulates calls_by_receiver }
{
    machine_stands::rows_are_read();
    machine_stands::sketches_show();
    machine_stands::rows_stop();
    machine_stands::operands_have_words();
    machine_stands::fixed_words_are_read();
    image_facts::words_are_read_and_written();
    image_facts::words_lie();
    image_facts::image_words_lie();
    methods_are_read();
    calls_come();
    table_call_rows_run();
}

/// What a step of the raise routine makes of the words of the stack.
pub fn raise_routine_runs()
    ensures handlers { HandlersRun }
    ensures drops { FramesDrop }
    ensures stops { LastStops }
{
    rows_are_steps();
    machine_follows_the_sketch();
    runs_go_on();
    runs_go_between_alike_sketches();
    sketches_can_be_split_anywhere();
    stack_pointer_moves();
    frames_change();
    opcodes_keep_their_costs();
}

/// From the raise routine the machine comes to where it stands for the next state.
pub fn raises_come()
    ensures { Unwinds }
{
    machine_stands::raises_unwind();
    machine_stands::operands_have_words();
    machine_stands::fixed_words_are_read();
    machine_stands::frames_have_room();
    image_facts::words_are_read_and_written();
    image_facts::words_lie();
    image_facts::image_words_lie();
    opcodes::laws::starts_follow_one_another();
    opcodes::laws::instructions_end_within();
    methods_are_read();
    raise_routine_runs();
}

/// From an athrow the machine comes to where it stands for the next state: null raises a NullPointerException.
pub fn throws_come()
    ensures { Simulates throws }
{
    machine_stands::rows_are_read();
    machine_stands::sketches_show();
    machine_stands::frames_go_on();
    machine_stands::operands_have_words();
    machine_stands::fixed_words_are_read();
    rows_are_steps();
    opcodes_keep_their_costs();
}
