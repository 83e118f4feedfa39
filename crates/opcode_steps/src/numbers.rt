//! A law of the definitions. The function does nothing; a caller whose proof needs the law calls it.

ghost use Rattle.opcode_steps.specs.Numbers.Laws.{NumbersAreComputed};

use machine_stands::{
    fixed_words_are_read, frames_go_on, operands_have_words, rows_are_read, sketches_show,
};
use micro_sketch::plain::{plain_rows_raise, plain_rows_run};
use opcodes::laws::starts_follow_one_another;

/// From each opcode that computes, compares or jumps the machine comes to the next state. A division by zero raises.
pub fn numbers_are_computed()
    ensures { NumbersAreComputed }
{
    starts_follow_one_another();
    rows_are_read();
    sketches_show();
    frames_go_on();
    operands_have_words();
    fixed_words_are_read();
    plain_rows_run();
    plain_rows_raise();
}
