//! Laws of loops that count, in activations. The functions do nothing; a caller whose proof needs a law calls its function.

ghost use Rattle.activation_laws.specs.Counted.Laws.{CountedActivationsKeep, CountedLoopsNeedNoPremise, LiveGraphsKeep};
ghost use Rattle.activation_laws.specs.Counted.Found.{FoundLoopsCount};
ghost use Rattle.activation_laws.specs.Counted.Further.{FurtherActivationsKeep, FurtherLoopsNeedNoPremise};
ghost use Rattle.activation_laws.specs.Counted.FurtherRuns.{FurtherFoundLoopsCount, FurtherLoopsOfRuns};
ghost use Rattle.activation_laws.specs.Counted.Runs.{BootHoldsConstants, CountedLoopsOfRuns, RunsHoldConstants};

/// A walk that keeps a bound in a method's graph keeps it in the live graph.
pub fn live_graphs_keep()
    ensures { LiveGraphsKeep }
{
    loop_nest::laws::walks_lead_on();
    loop_nest::laws::dominance_is_antisymmetric();
}

/// Where an activation begins with constants in their fields, it keeps the bounds of loops that count to them.
pub fn counted_activations_keep()
    ensures { CountedActivationsKeep }
{
    live_graphs_keep();
    counted_laws::laws::counted_paths_keep();
    activations::laws::activations_are_trees();
    method_runs::laws::steps_follow_walks();
    method_runs::laws::first_walks_stand();
    method_flow::laws::rows_are_of_their_kinds();
    bytecode_typing::fitting_states_are_well_formed();
}

/// So a bound of a method asks for the other loops alone.
pub fn counted_loops_need_no_premise()
    ensures { CountedLoopsNeedNoPremise }
{
    counted_activations_keep();
}

/// Constants stay in fields that no instruction writes, along each run.
pub fn runs_hold_constants()
    ensures { RunsHoldConstants }
{
    bytecode_typing::fitting_states_are_well_formed();
    method_flow::laws::rows_are_of_their_kinds();
    method_runs::laws::runs_have_walks();
    method_runs::laws::first_walks_stand();
}

/// Static final ints begin with their constants.
pub fn boot_holds_constants()
    ensures { BootHoldsConstants }
{
    descriptors::laws::field_descriptors();
}

/// So where an activation begins in a run from the boot state, a bound of its method asks for the other loops alone.
pub fn counted_loops_of_runs()
    ensures { CountedLoopsOfRuns }
{
    counted_loops_need_no_premise();
    runs_hold_constants();
    boot_holds_constants();
}

/// The loops that are found in a program count to their numbers.
pub fn found_loops_count()
    ensures { FoundLoopsCount }
{
    loop_finder::laws::reducible_cycles_are_loops();
}

/// Where an activation begins in a run from the boot state, in which fields hold what is known of them, it keeps the bounds of loops
/// that count with it.
pub fn further_activations_keep()
    ensures { FurtherActivationsKeep }
{
    live_graphs_keep();
    counted_laws::laws::further_paths_keep();
    counted_laws::laws::runs_hold_known();
    activations::laws::activations_are_trees();
    method_runs::laws::steps_follow_walks();
    method_runs::laws::first_walks_stand();
    method_flow::laws::rows_are_of_their_kinds();
    bytecode_typing::fitting_states_are_well_formed();
}

/// So there a bound of a method asks for the other loops alone.
pub fn further_loops_need_no_premise()
    ensures { FurtherLoopsNeedNoPremise }
{
    further_activations_keep();
}

/// So where an activation begins in a run from the boot state, and arrays are known that fields hold, a bound of its method asks for the
/// other loops alone.
pub fn further_loops_of_runs()
    ensures { FurtherLoopsOfRuns }
{
    further_loops_need_no_premise();
    loop_rules::further::laws::puts_keep_arrays();
    counted_laws::laws::boot_holds_known();
    boot_holds_constants();
}

/// The loops that are found further in a program count to their numbers.
pub fn further_found_loops_count()
    ensures { FurtherFoundLoopsCount }
{
    loop_finder::laws::reducible_cycles_are_loops();
}
