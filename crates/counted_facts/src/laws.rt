//! Laws of facts that are read off the code. The functions do nothing; a caller whose proof needs a law calls its function.

ghost use Rattle.counted_facts.specs.Found.{FoundFactsKeep, FoundFactsNeedNoPromise, FoundFactsOfRuns};
ghost use Rattle.counted_facts.specs.Laws.{LiveEntriesAreEntries, StayingPathsKeep};

/// Visits of a method come to the place behind the test of a loop that counts with what is known further at most as often, from an
/// entry of the loop to the next, as it counts.
pub fn staying_paths_keep()
    ensures { StayingPathsKeep }
{
    code_lines::laws::lines_follow_one_another();
    code_lines::laws::one_stands_before();
    loop_nest::laws::headers_dominate_members();
    loop_nest::laws::loops_are_entered_at_headers();
    loop_nest::laws::entry_dominates_all();
}

/// Entries of a loop in a method's live graph are those in its graph.
pub fn live_entries_are_entries()
    ensures { LiveEntriesAreEntries }
{
    loop_nest::laws::walks_lead_on();
    loop_nest::laws::dominance_is_antisymmetric();
}

/// Where an activation begins in a run from the boot state, in which fields hold what is known of them, it keeps the facts that are
/// read off the code.
pub fn found_facts_keep()
    ensures { FoundFactsKeep }
{
    staying_paths_keep();
    live_entries_are_entries();
    counted_laws::laws::runs_hold_known();
    activations::laws::activations_are_trees();
    activations::laws::activations_are_walks();
    method_runs::laws::steps_follow_walks();
    method_runs::laws::first_walks_stand();
    method_flow::laws::rows_are_of_their_kinds();
    bytecode_typing::fitting_states_are_well_formed();
}

/// So there a bound of a method asks for the other facts alone, and for the bounds of the loops that don't count.
pub fn found_facts_need_no_promise()
    ensures { FoundFactsNeedNoPromise }
{
    activation_laws::counted::laws::further_activations_keep();
    found_facts_keep();
}

/// So where an activation begins in a run of a program of class files from its boot state, and arrays are known that fields hold.
pub fn found_facts_of_runs()
    ensures { FoundFactsOfRuns }
{
    found_facts_need_no_promise();
    loop_rules::further::laws::puts_keep_arrays();
    counted_laws::laws::boot_holds_known();
    activation_laws::counted::laws::boot_holds_constants();
}
