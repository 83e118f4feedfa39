//! Laws of needs of memory. The functions do nothing; a caller whose proof needs a law calls its function.

ghost use Rattle.memory_laws.specs.Laws.{HeapNeedSuffices, StackNeedSuffices};

/// With the words of the stack need for frames no invoke raises a StackOverflowError.
pub fn stack_need_suffices()
    ensures { StackNeedSuffices }
{
    bytecode_typing::fitting_states_are_well_formed();
    bytecode_typing::the_boot_state_fits();
    method_flow::laws::steps_have_shapes();
    method_runs::laws::runs_have_walks();
    method_runs::laws::first_walks_stand();
}

/// With the words of the heap need for objects no instruction raises an OutOfMemoryError, as long as loops that make objects keep
/// their bounds and arrays the lengths that are given.
pub fn heap_need_suffices()
    ensures { HeapNeedSuffices }
{
    bytecode_typing::fitting_states_are_well_formed();
    bytecode_typing::the_boot_state_fits();
    bytecode_typing::typed_programs_keep();
    method_runs::laws::runs_have_walks();
    method_runs::laws::first_walks_stand();
    method_runs::laws::walks_are_of_graphs();
    method_flow::laws::rows_are_of_their_kinds();
    method_runs::typed_graphs::laws::method_graphs_exist();
    code_lines::laws::lines_follow_one_another();
    code_lines::laws::one_stands_before();
}
