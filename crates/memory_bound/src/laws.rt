//! Laws of the definitions in `specs/`. The functions do nothing; a caller whose proof needs a law calls its function.

ghost use Rattle.memory_bound.specs.HeapLaws.{AreHeapLaws, LeavesNodesOrNone};
ghost use Rattle.memory_bound.specs.Laws.{NeedCausesAreOne, NeedsHaveNoCause};

/// There is one cause at most why no need is given, and none where there is a need.
pub fn need_causes_are_one()
    ensures one { NeedCausesAreOne }
    ensures none { NeedsHaveNoCause }
{
    bound_rules::laws::graphs_are_one();
    compact_walks::laws::graphs_are_moved();
    compact_walks::laws::parts_are_sound();
    compact_walks::laws::ends_are_one();
    memory_rules::laws::first_lacking_is_one();
}

/// What the proof of heap needs takes of all graphs.
pub(crate) fn heap_laws()
    ensures { AreHeapLaws }
{
    compact_walks::laws::graphs_are_moved();
    compact_walks::laws::moved_is_nest();
    bound_rules::laws::graphs_are_one();
    bound_rules::laws::headers_are_instructions();
    loop_nest::laws::headers_dominate_members();
    loop_nest::laws::loops_are_nested();
    loop_nest::laws::dominance_is_antisymmetric();
    path_solver::laws::reached_within_bounds();
}

/// The reduction of a method's graph doesn't leave nodes and none.
pub(crate) fn leaves_nodes_or_none()
    ensures { LeavesNodesOrNone }
{
    compact_walks::laws::graphs_are_moved();
    compact_walks::laws::parts_are_sound();
    compact_walks::laws::ends_are_one();
    bound_rules::laws::graphs_are_one();
}
