//! What holds of all graphs, of their reduction and of their loops. Each function does nothing: its
//! contract is the law.

ghost use Rattle.loop_nest.specs.Laws.{HeaderDominatesMembers, LoopIsEnteredAtHeader, EdgesToHeaderAreBackEdges, LoopsAreNested, CyclesTakeBackEdges};
ghost use Rattle.loop_nest.specs.Laws.{ReductionHasOneEnd, ReducibleIsReached, EntryDominatesAll, DominanceIsAntisymmetric, WalksLeadOn, WalksComeByEdges};
ghost use Rattle.loop_nest.specs.Laws.{PartsAreReducible, PartsHaveBackEdges, PartsHaveHeaders, PartsHaveMembers};

/// A header dominates the members of its loop.
pub fn headers_dominate_members()
    ensures { HeaderDominatesMembers }
{}

/// A loop is entered at its header alone, and within it each edge to its header is a back edge.
pub fn loops_are_entered_at_headers()
    ensures entered { LoopIsEnteredAtHeader }
    ensures back { EdgesToHeaderAreBackEdges }
{}

/// Two loops with a common member are nested.
pub fn loops_are_nested()
    ensures { LoopsAreNested }
{}

/// The graph without back edges is acyclic, where the graph is reducible.
pub fn cycles_take_back_edges()
    ensures { CyclesTakeBackEdges }
{}

/// The order of its steps doesn't change what the reduction leaves.
pub fn reduction_has_one_end()
    ensures { ReductionHasOneEnd }
{}

/// Every node of a reducible graph is reached.
pub fn reducible_is_reached()
    ensures { ReducibleIsReached }
{}

/// Every walk from the entry visits the entry.
pub fn entry_dominates_all()
    ensures { EntryDominatesAll }
{}

/// Two nodes that are reached dominate each other only where they are the same.
pub fn dominance_is_antisymmetric()
    ensures { DominanceIsAntisymmetric }
{}

/// A walk leads on from each node that it visits, and it comes to its end first by an edge, from a
/// node to which it leads without its end.
pub fn walks_lead_on()
    ensures leads_on { WalksLeadOn }
    ensures comes_by { WalksComeByEdges }
{}

/// What the entry reaches of a part of a reducible graph is reducible; its back edges and headers are
/// those of the whole, and the members of its loops are members of the whole's.
pub fn parts_are_reducible()
    ensures reducible { PartsAreReducible }
    ensures back_edges { PartsHaveBackEdges }
    ensures headers { PartsHaveHeaders }
    ensures members { PartsHaveMembers }
{}
