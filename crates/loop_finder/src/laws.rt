//! Laws of loops that count. The functions do nothing; a caller whose proof needs a law calls its function.

ghost use Rattle.loop_finder.specs.Further.{BeginningsAreOne, FurtherRulesAreRight};
ghost use Rattle.loop_finder.specs.Laws.{ReducibleCyclesAreLoops};

/// In a method's graph that is reducible, every cycle takes a back edge.
pub fn reducible_cycles_are_loops()
    ensures { ReducibleCyclesAreLoops }
{
    loop_nest::laws::cycles_take_back_edges();
    compact_walks::laws::graphs_are_moved();
}

/// A loop counts by the further rules, which ask that control comes to a test, just where it counts with what is known further.
pub fn further_rules_are_right()
    ensures { FurtherRulesAreRight }
{}

/// By what is known further, a local variable begins with one int at most in a loop.
pub fn beginnings_are_one()
    ensures { BeginningsAreOne }
{
    loop_nest::laws::headers_dominate_members();
    loop_nest::laws::walks_lead_on();
    loop_rules::further::laws::last_writes_are_reached();
    loop_rules::further::laws::last_writes_exist();
    loop_rules::further::laws::pushed_are_one();
}
