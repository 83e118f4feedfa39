//! Which instructions may have written a local variable last (JVM Specification SE 8, 2.6.1).

ghost use Rattle.std.specs.Prelude.{◌≡◌, ◌↔◌, ℕ, ◌/◌, ◌<◌, [], ◌∷◌, Bool, false, List, length, IfOk, IsTrue, map};
ghost use Rattle.bytecode_model.specs.Program.{Program};
ghost use Rattle.loop_nest.specs.Digraph.{AreSources, Digraph};
ghost use Rattle.method_flow.specs.Graphs.{IsGraphOf};
ghost use Rattle.method_flow.specs.Nodes.{IsEdge, IsReached, Node, number_of};
ghost use Rattle.loop_rules.specs.Further.Last.{AreLastWrites, AreNearest, StopsAtWrites, StopsAtWritesAlone};
ghost use Rattle.loop_rules.specs.Further.Search.{AreBacks, AreWithin, IsBegunBy, IsPassed, IsSearched};

use crate::further::search::{Searched, Stops, search};
use base::NoMemory;
use loop_nest::Graph;
use loop_nest::digraph::Sources;
use std::alloc::Global;

/// What may have written a local variable last, as far as a search for that has gone: the places of instructions, in bytes of code, and
/// whether on some way none did.
#[derive(Drop)]
pub struct LastWrites {
    pub places: Vec<u32>,
    pub unwritten: bool,
}

/// The places of the instructions at these nodes.
fn places_of(alloc: Global, nodes: &[u32]) -> Result<Vec<u32>, NoMemory>
    ensures { IfOk result (λ places. places.items ≡ map (λ x. x / 2) nodes.now) }
{
    let mut places = Vec::with_capacity(alloc, nodes.len())?;
    for node in nodes {
        places.push(*node / 2)?;
    }
    Ok(places)
}

/// Whether the search came to the beginning of the method and didn't stop there.
fn is_begun<S: Stops>(stops: &S, searched: &Searched) -> bool
    requires { 0 < length searched.now.flags.items }
    ensures { (g : Digraph) (backs : List ℕ) (end : ℕ) → IsSearched g backs (S.stops_at stops.now) end searched.now.flags.items searched.now.stops.items
        → IsTrue result ↔ IsBegunBy g backs (S.stops_at stops.now) end }
{
    searched.flags[0] && !stops.is_stop(0)
}

/// Where the search for what may have written a local variable last stops that goes back from a node at which it doesn't. `sources` has
/// for each node of the method's graph the sources of the edges to it, and `backs` the node to which the search skips back from it, past
/// nodes at which it doesn't stop.
pub fn nearest<S: Stops>(
    alloc: Global,
    g: &Graph,
    sources: &Sources,
    backs: &[u32],
    stops: &S,
    node: u32,
) -> Result<LastWrites, NoMemory>
    requires within { node < g.now.nodes }
    requires sources { AreSources g.now.edges g.now.nodes sources.now }
    requires backs { AreWithin g.now.nodes backs.now }
    ensures { IfOk result (λ found. (P : Program) (m k : ℕ) (u : Node) (idle : List Bool) → IsGraphOf P m g.now → AreBacks g.now idle backs.now
        → IsPassed idle (S.stops_at stops.now) → StopsAtWrites P m k (S.stops_at stops.now)
        → number_of u ≡ node → ¬ S.stops_at stops.now node → AreNearest P m k u (S.stops_at stops.now) found) }
{
    crate::further::laws::last_writes_are_reached();
    let searched = search(alloc, g, sources, backs, stops, node)?;
    let places = places_of(alloc, &searched.stops)?;
    Ok(LastWrites {
        places,
        unwritten: is_begun(stops, &searched),
    })
}

/// The instruction at a place alone.
fn one_write(alloc: Global, place: u32) -> Result<LastWrites, NoMemory>
    ensures { IfOk result (λ found. (found.places.items ≡ place ∷ []) × (found.unwritten ≡ false)) }
{
    Ok(LastWrites {
        places: vec![in alloc; place]?,
        unwritten: false,
    })
}

/// What may have written the local variable last once control has come to the node and passed it. `writes` stops at the instructions
/// that write it.
pub fn last_writes<S: Stops>(
    alloc: Global,
    g: &Graph,
    sources: &Sources,
    backs: &[u32],
    writes: &S,
    node: u32,
) -> Result<LastWrites, NoMemory>
    requires within { node < g.now.nodes }
    requires sources { AreSources g.now.edges g.now.nodes sources.now }
    requires backs { AreWithin g.now.nodes backs.now }
    ensures { IfOk result (λ found. (P : Program) (m k : ℕ) (u : Node) (idle : List Bool) → IsGraphOf P m g.now → AreBacks g.now idle backs.now
        → IsPassed idle (S.stops_at writes.now) → StopsAtWritesAlone P m k (S.stops_at writes.now)
        → number_of u ≡ node → IsReached (IsEdge P m) u → AreLastWrites P m k u found) }
{
    if writes.is_stop(node) {
        one_write(alloc, node / 2)
    } else {
        nearest(alloc, g, sources, backs, writes, node)
    }
}
