//! Which nodes a search comes to that goes back along the edges of a graph, and where it stops.

ghost use Rattle.std.specs.Prelude.{◌≡◌, ◌↔◌, ℕ, ◌<◌, ◌≤◌, [], ◌++◌, length, map, All, IfOk, IsTrue, OnOk, slice_index_or};
ghost use Rattle.loop_nest.specs.Digraph.{AreSources, Digraph};
ghost use Rattle.loop_rules.specs.Further.Search.{AreBacks, AreBacksBelow, AreWithin, IsSearched, IsTaken, Skips, back_from};

use base::NoMemory;
use loop_nest::Graph;
use loop_nest::digraph::Sources;
use std::alloc::Global;

/// Tells where a search stops that goes back along the edges of a graph.
pub trait Stops {
    /// It stops at the node of this number.
    ghost stops_at: { Self → ℕ → Type 0 };

    /// Whether it stops at the node, and goes on to none of the sources of the edges to it.
    fn is_stop(&self, node: u32) -> bool
        ensures { IsTrue result ↔ stops_at self.now node };
}

/// To which nodes a search came, and at which of them it stopped.
#[derive(Drop)]
pub(crate) struct Searched {
    /// By node, whether the search came to it.
    pub flags: Vec<bool>,
    /// Those at which it stopped.
    pub stops: Vec<u32>,
}

/// The node to which a search may skip back from one, of those to which it may from the nodes below: past it, where it is idle and one
/// edge leads to it, from below.
fn back_of(sources: &Sources, idle: &[bool], backs: &[u32], node: u32) -> u32
    requires source { node < length sources.now }
    requires idle { length idle.now ≡ length sources.now }
    requires backs { length backs.now ≡ node }
    ensures { (g : Digraph) → AreSources g.edges g.nodes sources.now → AreBacksBelow g idle.now node backs.now
        → Skips g idle.now node result × (result ≤ node) }
{
    if node == 0 || !idle[node as usize] {
        return node;
    }
    let from = sources.of(node);
    if from.len() == 1 && from[0] < node {
        backs[from[0] as usize]
    } else {
        node
    }
}

/// For each node one to which a search may skip back from it, past nodes that are idle. `sources` has for each node the sources of the
/// edges to it.
pub fn backs(
    alloc: Global,
    g: &Graph,
    sources: &Sources,
    idle: &[bool],
) -> Result<Vec<u32>, NoMemory>
    requires sources { AreSources g.now.edges g.now.nodes sources.now }
    requires idle { length idle.now ≡ g.now.nodes }
    ensures { IfOk result (λ backs. AreBacks g.now idle.now backs.items) }
{
    let mut backs = Vec::with_capacity(alloc, g.nodes() as usize)?;
    for node in 0..g.nodes() {
        let back = back_of(sources, idle, &backs, node);
        backs.push(back)?;
    }
    Ok(backs)
}

/// Puts on a stack the nodes to which it is skipped back from these, one by one: they are one or two nearly everywhere.
fn push_all(backs: &[u32], nodes: &[u32], stack: &mut Vec<u32>) -> Result<(), NoMemory>
    requires { All (λ x. x < length backs.now) nodes.now }
    ensures { OnOk result (stack.new.items ≡ stack.old.items ++ map (back_from backs.now) nodes.now) }
{
    for node in nodes {
        stack.push(backs[*node as usize])?;
    }
    Ok(())
}

/// Lists a node where the search stops; of another one, the sources of the edges to it are to be looked at, or what it is skipped back to
/// from these.
fn take<S: Stops>(
    sources: &Sources,
    backs: &[u32],
    stops: &S,
    node: u32,
    found: &mut Vec<u32>,
    stack: &mut Vec<u32>,
) -> Result<(), NoMemory>
    requires node { node < length sources.now }
    requires within { All (λ x. x < length backs.now) (slice_index_or sources.now node []) }
    ensures { OnOk result (IsTaken (S.stops_at stops.now) (map (back_from backs.now) (slice_index_or sources.now node [])) node
        found.old.items found.new.items stack.old.items stack.new.items) }
{
    if stops.is_stop(node) {
        found.push(node)?;
    } else {
        push_all(backs, sources.of(node), stack)?;
    }
    Ok(())
}

/// Goes back from `end`. `sources` has for each node the sources of the edges to it, and `backs` the node to which it is skipped back.
pub(crate) fn search<S: Stops>(
    alloc: Global,
    g: &Graph,
    sources: &Sources,
    backs: &[u32],
    stops: &S,
    end: u32,
) -> Result<Searched, NoMemory>
    requires end { end < g.now.nodes }
    requires sources { AreSources g.now.edges g.now.nodes sources.now }
    requires backs { AreWithin g.now.nodes backs.now }
    ensures { IfOk result (λ s. IsSearched g.now backs.now (S.stops_at stops.now) end s.flags.items s.stops.items) }
{
    let nodes = g.nodes() as usize;
    let mut flags = vec![in alloc; false; nodes]?;
    let mut found = Vec::new(alloc);
    let mut stack = vec![in alloc; end]?;
    while let Some(x) = stack.pop() {
        let index = x as usize;
        if !flags[index] {
            flags[index] = true;
            take(sources, backs, stops, x, &mut found, &mut stack)?;
        }
    }
    Ok(Searched {
        flags,
        stops: found,
    })
}
