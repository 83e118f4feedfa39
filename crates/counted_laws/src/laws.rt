//! Laws of loops that count. The functions do nothing; a caller whose proof needs a law calls its function.

ghost use Rattle.counted_laws.specs.Counting.{CountedLoopsAreFurther, CountedLoopsKeep, CountedPathsKeep, FurtherLoopsKeep, FurtherPathsKeep};
ghost use Rattle.counted_laws.specs.Paths.{BootHoldsKnown, RunsHavePaths, RunsHoldArrays, RunsHoldKnown};

/// Along each run each frame that is made since has visits of its nodes: what its instructions did to its local variables and to its
/// operand stack.
pub fn runs_have_paths()
    ensures { RunsHavePaths }
{
    bytecode_typing::fitting_states_are_well_formed();
    method_flow::laws::rows_are_of_their_kinds();
    method_runs::laws::runs_have_walks();
    method_runs::laws::first_walks_stand();
}

/// The boot state holds what is known of fields, where those of the arrays are null at first.
pub fn boot_holds_known()
    ensures { BootHoldsKnown }
{}

/// In each state of a run from the boot state fields hold what is known of them.
pub fn runs_hold_known()
    ensures { RunsHoldKnown }
{
    bytecode_typing::fitting_states_are_well_formed();
    bytecode_typing::typed_programs_keep();
    method_flow::laws::rows_are_of_their_kinds();
    method_runs::laws::steps_follow_walks();
    method_runs::laws::first_walks_stand();
    code_lines::laws::lines_follow_one_another();
    code_lines::laws::one_stands_before();
}

/// Along each run from the boot state fields hold the arrays that are known of them, and each frame has its visits.
pub fn runs_hold_arrays()
    ensures { RunsHoldArrays }
{
    bytecode_typing::fitting_states_are_well_formed();
    method_flow::laws::rows_are_of_their_kinds();
    method_runs::laws::runs_have_walks();
    method_runs::laws::first_walks_stand();
    code_lines::laws::lines_follow_one_another();
    code_lines::laws::one_stands_before();
}

/// A loop that counts with a limit of one line counts further.
pub fn counted_loops_are_further()
    ensures { CountedLoopsAreFurther }
{
    loop_rules::further::laws::last_writes_are_reached();
    loop_nest::laws::entry_dominates_all();
}

/// Such visits keep the number of a loop that counts with what is known further.
pub fn further_paths_keep()
    ensures { FurtherPathsKeep }
{
    code_lines::laws::lines_follow_one_another();
    code_lines::laws::one_stands_before();
    loop_nest::laws::headers_dominate_members();
    loop_nest::laws::loops_are_entered_at_headers();
    loop_nest::laws::entry_dominates_all();
}

/// Such visits keep the number of a counted loop.
pub fn counted_paths_keep()
    ensures { CountedPathsKeep }
{
    counted_loops_are_further();
    further_paths_keep();
}

/// So each frame of a run that is made since keeps the numbers of its counted loops.
pub fn counted_loops_keep()
    ensures { CountedLoopsKeep }
{
    runs_have_paths();
    counted_loops_are_further();
    further_paths_keep();
}

/// So each frame of a run from the boot state keeps the numbers of the loops that count with what is known further.
pub fn further_loops_keep()
    ensures { FurtherLoopsKeep }
{
    runs_hold_arrays();
    further_paths_keep();
}
