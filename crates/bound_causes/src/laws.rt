//! Laws of the definitions in `specs/`. The functions do nothing; a caller whose proof needs a law calls its function.

ghost use Rattle.bound_causes.specs.Laws.{MethodGraphsAreReached, CompactKeepsHeaders, CompactKeepsMembers, CompactKeepsNests};

/// The edges of a method's graph lead from nodes alone that the first instruction reaches.
pub fn method_graphs_are_reached()
    ensures { MethodGraphsAreReached }
{}

/// Where the nodes of a graph are numbered anew without gaps, its headers and the members of their loops are the same nodes, and
/// its loops are nested in the same way.
pub fn compact_keeps_loops()
    ensures headers { CompactKeepsHeaders }
    ensures members { CompactKeepsMembers }
    ensures nests { CompactKeepsNests }
{}
