//! Steps over fields and arrays in the heap: functions without a body.

ghost use Rattle.machine_stands.specs.Simulates.{Simulates};
ghost use Rattle.opcode_steps.specs.Heap.Reading.{LongPartsAreRead, LongStaticsAreRead, ObjectsAreNotNull, ObjectsAreRead, PartsAreRead, StaticsAreRead};
ghost use Rattle.opcode_steps.specs.Heap.Widths.{ArraysAreShort, ElementsHavePlaces, ElementsHaveWidths, FieldsHavePlaces, FieldsHaveWidths, StaticsHaveWidths};
ghost use Rattle.opcode_steps.specs.Heap.Writing.{LongPartsAreWritten, LongStaticsAreWritten, PartsAreWritten, PlacesStay, StaticsAreWritten};
ghost use Rattle.opcode_steps.specs.Heap.Raising.{FaultsAreRaised, MadeRaisesRun};
ghost use Rattle.opcode_steps.specs.Heap.Going.{WritesGoOn};
ghost use Rattle.opcode_steps.specs.Heap.Ending.{RaisesAreMade, RowsAreMade, RowsGoOn, RowsRaise, RowsWrite};
ghost use Rattle.opcode_steps.specs.Heap.Family.{is_of_array, is_of_field};

/// Objects, their values and static fields are read in the memory at their places.
pub fn objects_are_read()
    ensures objects { ObjectsAreRead }
    ensures not_null { ObjectsAreNotNull }
    ensures parts { PartsAreRead }
    ensures long_parts { LongPartsAreRead }
    ensures statics { StaticsAreRead }
    ensures long_statics { LongStaticsAreRead }
{
    image_facts::words_are_read_and_written();
    image_facts::words_lie();
    image_facts::image_words_lie();
}

/// Fields, elements and static fields are as wide as they are declared, and lie where those before them end.
pub fn values_have_places()
    ensures short { ArraysAreShort }
    ensures field_widths { FieldsHaveWidths }
    ensures field_places { FieldsHavePlaces }
    ensures element_widths { ElementsHaveWidths }
    ensures element_places { ElementsHavePlaces }
    ensures static_widths { StaticsHaveWidths }
{
    image_facts::image_words_lie();
}

/// Words that are written over a value make the memory of the state in which that value is replaced, and no object moves.
pub fn objects_are_written()
    ensures parts { PartsAreWritten }
    ensures long_parts { LongPartsAreWritten }
    ensures statics { StaticsAreWritten }
    ensures long_statics { LongStaticsAreWritten }
    ensures places { PlacesStay }
{
    image_facts::words_are_read_and_written();
    image_facts::words_lie();
    image_facts::image_words_differ();
}

/// Rows that write, from the words that they make to where the machine stands for the next state.
pub fn writes_go_on()
    ensures { WritesGoOn }
{
    machine_stands::sketches_show();
    machine_stands::rows_come();
}

/// Rows that raise an object of the raise list, from what they compute to where the machine stands for the next state.
pub fn faults_are_raised()
    ensures runs { MadeRaisesRun }
    ensures comes { FaultsAreRaised }
{
    micro_sketch::laws::machine_follows_the_sketch();
    micro_sketch::laws::opcodes_keep_their_costs();
    machine_stands::sketches_show();
    machine_stands::frames_go_on();
    machine_stands::fixed_words_are_read();
}

/// What is shown of every sketch at an opcode's entry holds of the machine's.
pub fn rows_are_made()
    ensures go_on { RowsAreMade }
    ensures raise { RaisesAreMade }
{
    micro_sketch::laws::rows_are_steps();
}

/// From what a row computes to where the machine stands for the next state: where it goes on, writes, or raises.
pub fn rows_end()
    ensures go_on { RowsGoOn }
    ensures write { RowsWrite }
    ensures raise { RowsRaise }
{
    machine_stands::sketches_show();
    machine_stands::rows_come();
    machine_stands::frames_go_on();
    writes_go_on();
    faults_are_raised();
}

/// From each opcode of fields the machine comes to where it stands for the next state.
pub fn fields_are_simulated()
    ensures { Simulates is_of_field }
{
    machine_stands::rows_are_read();
    machine_stands::sketches_show();
    machine_stands::operands_have_words();
    machine_stands::fixed_words_are_read();
    objects_are_read();
    values_have_places();
    objects_are_written();
    rows_are_made();
    rows_end();
}

/// From each opcode of arrays the machine comes to where it stands for the next state.
pub fn arrays_are_simulated()
    ensures { Simulates is_of_array }
{
    machine_stands::rows_are_read();
    machine_stands::sketches_show();
    machine_stands::operands_have_words();
    machine_stands::fixed_words_are_read();
    objects_are_read();
    values_have_places();
    objects_are_written();
    rows_are_made();
    rows_end();
}
