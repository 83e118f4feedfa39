//! Laws of the plain opcodes. The functions do nothing; a caller whose proof needs a law calls its function.

ghost use Rattle.micro_sketch.specs.PlainLaws.{PlainRowsRaise, PlainRowsRun};

use crate::laws::{
    low_word_is_loaded, machine_follows_the_sketch, opcodes_keep_their_costs, rows_are_steps,
    runs_go_on,
};

/// From its entry, a plain opcode that doesn't raise comes to the next opcode with its effect.
pub fn plain_rows_run()
    ensures { PlainRowsRun }
{
    rows_are_steps();
    machine_follows_the_sketch();
    runs_go_on();
    low_word_is_loaded();
    opcodes_keep_their_costs();
}

/// One that raises comes to the raise routine.
pub fn plain_rows_raise()
    ensures { PlainRowsRaise }
{
    rows_are_steps();
    machine_follows_the_sketch();
    runs_go_on();
    low_word_is_loaded();
    opcodes_keep_their_costs();
}
