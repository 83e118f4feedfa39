//! Laws of the definitions in `specs/`. The functions do nothing; a caller whose proof needs a law calls its function.

ghost use Rattle.bound_report.specs.Laws.{CountsAreOfWalks, SettledAreWalked};
ghost use Rattle.bound_report.specs.Report.{PartsAddUp, RowsAreOfCode};

/// The parts of a report add up to the number that is printed.
pub fn parts_add_up()
    ensures { PartsAddUp }
{}

/// The rows of a report are of places of codes.
pub fn rows_are_of_code()
    ensures { RowsAreOfCode }
{}

/// Walks of a method that has a number, of which none is too large, end and don't cost too much.
pub fn settled_are_walked()
    ensures { SettledAreWalked }
{
    bound_finder::found_laws::known_is();
}

/// The counts of a greatest walk of a method that was prepared are counts of the method.
pub fn counts_are_of_walks()
    ensures { CountsAreOfWalks }
{
    opcodes::laws::starts_follow_one_another();
    method_flow::laws::rows_are_of_their_kinds();
    method_flow::laws::calls_are_invokes();
    method_flow::laws::ending_is_a_walk();
    micro_flow::laws::costs_are_small();
    bound_rules::laws::charges_are_one();
    bound_rules::laws::values_are_told();
    bound_rules::laws::called_fit();
    bound_rules::laws::graphs_are_one();
    bound_rules::laws::headers_are_instructions();
    bound_rules::laws::charged_loops_are_one();
    path_solver::laws::lies_on_bounded_walk();
    compact_walks::laws::graphs_are_moved();
    compact_walks::laws::moved_reaches_exit();
    compact_walks::laws::moved_is_nest();
    compact_walks::laws::moved_is_greatest();
}
