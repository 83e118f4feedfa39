//! Laws of the definitions in `specs/`. The functions do nothing; a caller whose proof needs a law calls its function.

ghost use Rattle.bound_laws.specs.Causes.{PrintedIsNotForbidden, RefusalsAreOne};
ghost use Rattle.bound_laws.specs.Existing.{CallsEndWithoutRecursion, NumbersExist, OwnCostsExist, ResolvedCodesAreShort};
ghost use Rattle.bound_laws.specs.Walking.{CyclesLieInLoops, GreatestWalksExist, NestsExist};

/// Where each cycle takes a back edge, each lies in the loop of one of its nodes.
pub fn cycles_lie_in_loops()
    ensures { CyclesLieInLoops }
{
    loop_nest::laws::loops_are_nested();
}

/// A graph has a nest.
pub fn nests_exist()
    ensures { NestsExist }
{
    loop_nest::laws::loops_are_nested();
}

/// Where an exit is reached, there is a greatest walk that keeps the bounds of loops.
pub fn greatest_walks_exist()
    ensures { GreatestWalksExist }
{
    loop_nest::laws::loops_are_nested();
    path_solver::laws::reached_within_bounds();
}

/// Without recursion each chain of calls comes to an end.
pub fn calls_end_without_recursion()
    ensures { CallsEndWithoutRecursion }
{
    bound_rules::laws::methods_have_code();
}

/// Codes of resolved classes are of lengths that a class file can tell (JVM Specification SE 8, 4.7.3).
pub fn resolved_codes_are_short()
    ensures { ResolvedCodesAreShort }
{
    class_rules::laws::methods_have_code();
}

/// The nodes to which control comes in a typed program have costs.
pub fn own_costs_exist()
    ensures { OwnCostsExist }
{
    micro_flow::laws::costs_are_small();
    method_runs::typed_graphs::laws::typed_methods_reach_rows();
}

/// Where nothing but its size forbids a bound of a method, it has a family of numbers.
pub fn numbers_exist()
    ensures { NumbersExist }
{
    greatest_walks_exist();
    nests_exist();
    loop_nest::laws::cycles_take_back_edges();
    loop_nest::laws::loops_are_nested();
    loop_nest::laws::headers_dominate_members();
    loop_nest::laws::dominance_is_antisymmetric();
    compact_walks::laws::graphs_are_moved();
    bound_rules::laws::headers_are_instructions();
    bound_rules::laws::methods_have_code();
    method_runs::typed_graphs::laws::live_graphs_exist();
    method_runs::typed_graphs::laws::typed_methods_reach_starts();
}

/// One cause at most forbids a bound, and none where something is printed.
pub fn refusals_are_one()
    ensures one { RefusalsAreOne }
    ensures none { PrintedIsNotForbidden }
{
    numbers_exist();
    compact_walks::laws::graphs_are_moved();
    compact_walks::laws::ends_are_one();
    bound_rules::laws::graphs_are_one();
}
