//! Steps over values that are moved: a function without a body.

ghost use Rattle.machine_stands.specs.Simulates.{Simulates};
ghost use Rattle.opcode_steps.specs.Values.Family.{moves_values};

/// From each opcode that moves values the machine comes to where it stands for the next state.
pub fn values_are_moved()
    ensures { Simulates moves_values }
{
    image_facts::first_objects_stay();
    machine_stands::rows_are_read();
    machine_stands::sketches_show();
    machine_stands::frames_go_on();
    machine_stands::operands_have_words();
    machine_stands::fixed_words_are_read();
    micro_sketch::plain::plain_rows_run();
}
