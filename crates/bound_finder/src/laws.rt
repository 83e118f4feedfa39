//! Laws of the definitions in `specs/`. The functions do nothing; a caller whose proof needs a law calls its function.

ghost use Rattle.bound_finder.specs.Laws.{AllAgree, CostsAreLimited, GraphsWhereTargetsEnd, KnownAreNumbers, ReadyHasShape};

/// The graph where just those calls go on of which a target can end is the live graph.
pub fn graphs_where_targets_end()
    ensures { GraphsWhereTargetsEnd }
{
    opcodes::laws::starts_follow_one_another();
    method_flow::laws::rows_are_of_their_kinds();
}

/// Costs with what is told of calls are those of the nodes of the live graph.
pub fn costs_are_limited()
    ensures { CostsAreLimited }
{
    opcodes::laws::starts_follow_one_another();
    method_flow::laws::rows_are_of_their_kinds();
}

/// Where all is ready, a live graph has a nest, and each of its loops a bound.
pub fn ready_has_shape()
    ensures { ReadyHasShape }
{
    compact_walks::laws::parts_are_sound();
    compact_walks::laws::graphs_are_moved();
    compact_walks::laws::ends_are_one();
    compact_walks::laws::moved_is_nest();
    bound_rules::laws::headers_are_instructions();
}

/// What is known of all methods agrees with each family of numbers, and is one where none is too large.
pub fn known_are_numbers()
    ensures agree { AllAgree }
    ensures known { KnownAreNumbers }
{}
