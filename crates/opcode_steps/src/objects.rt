//! Steps over objects that are made and tested, and over monitors: functions without a body.

ghost use Rattle.machine_stands.specs.Simulates.{Simulates};
ghost use Rattle.opcode_steps.specs.Objects.Family.{allocates, is_monitor, tests_types};

/// From each test of a type the machine comes to where it stands for the next state.
pub fn types_are_tested()
    ensures { Simulates tests_types }
{
    image_facts::words_are_read_and_written();
    image_facts::words_lie();
    image_facts::image_words_lie();
    machine_stands::rows_are_read();
    machine_stands::sketches_show();
    machine_stands::frames_go_on();
    machine_stands::rows_come();
    machine_stands::operands_have_words();
    machine_stands::fixed_words_are_read();
    micro_sketch::laws::rows_are_steps();
    micro_sketch::laws::opcodes_keep_their_costs();
}

/// So from an entry to a monitor, and from its exit.
pub fn monitors_are_passed()
    ensures { Simulates is_monitor }
{
    image_facts::words_are_read_and_written();
    image_facts::words_lie();
    image_facts::image_words_lie();
    machine_stands::rows_are_read();
    machine_stands::sketches_show();
    machine_stands::frames_go_on();
    machine_stands::rows_come();
    machine_stands::operands_have_words();
    machine_stands::fixed_words_are_read();
    micro_sketch::laws::rows_are_steps();
    micro_sketch::laws::opcodes_keep_their_costs();
}

/// So from where an object or an array is made: it begins with zeros behind those that are there, or raises where it doesn't fit.
pub fn objects_are_made()
    ensures { Simulates allocates }
{
    image_facts::words_are_read_and_written();
    image_facts::words_lie();
    image_facts::image_words_lie();
    image_facts::image_words_grow();
    image_facts::first_objects_stay();
    machine_stands::rows_are_read();
    machine_stands::sketches_show();
    machine_stands::frames_go_on();
    machine_stands::rows_come();
    machine_stands::operands_have_words();
    machine_stands::fixed_words_are_read();
    micro_sketch::laws::rows_are_steps();
    micro_sketch::laws::opcodes_keep_their_costs();
}
