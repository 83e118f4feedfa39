//! The law of what is known of one method. The function does nothing; a caller whose proof needs the law calls it.

ghost use Rattle.bound_finder.specs.FoundLaws.{KnownIs};

/// What is found of a method by its walks is known of it, for each program for which the method is prepared.
pub fn known_is()
    ensures { KnownIs }
{
    opcodes::laws::starts_follow_one_another();
    method_flow::laws::rows_are_of_their_kinds();
    method_flow::laws::calls_are_invokes();
    method_flow::laws::ending_is_a_walk();
    micro_flow::laws::costs_are_small();
    bound_rules::laws::charges_are_one();
    bound_rules::laws::values_are_told();
    bound_rules::laws::called_fit();
    bound_rules::laws::graphs_are_one();
    bound_rules::laws::headers_are_instructions();
    bound_rules::laws::charged_loops_are_one();
    path_solver::laws::lies_on_bounded_walk();
    compact_walks::laws::graphs_are_moved();
    compact_walks::laws::moved_reaches_exit();
    compact_walks::laws::moved_is_nest();
    compact_walks::laws::moved_is_greatest();
}
