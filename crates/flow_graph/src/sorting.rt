//! Graphs from edges and exits in any order.
ghost use Rattle.std.specs.Prelude.{◌≡◌, ◌↔◌, ◌<◌, ℕ, length, All, Contains};
ghost use Rattle.std.specs.List.{AllAdjacentBelow};
ghost use Rattle.std.specs.List.Sorted.{IsStrictlyIncreasing};
ghost use Rattle.loop_nest.specs.Digraph.{IsBefore, IsDigraph};
ghost use Rattle.flow_graph.specs.Reach.{AreWithin};

use loop_nest::Graph;

/// The edges, rising, each once.
pub fn rising_edges(mut edges: Vec<(u32, u32)>) -> Vec<(u32, u32)>
    ensures same { (e : ℕ × ℕ) → Contains result.items e ↔ Contains edges.items e }
    ensures rising { AllAdjacentBelow IsBefore result.items (length result.items) }
{
    edges.sort_unstable();
    edges.dedup();
    edges
}

/// The nodes, rising, each once.
fn rising_nodes(mut nodes: Vec<u32>) -> Vec<u32>
    ensures same { (u : ℕ) → Contains result.items u ↔ Contains nodes.items u }
    ensures rising { IsStrictlyIncreasing result.items }
{
    nodes.sort_unstable();
    nodes.dedup();
    nodes
}

/// The graph of so many nodes with these edges and exits, which may stand in any order and more than once.
pub fn graph_from(nodes: u32, edges: Vec<(u32, u32)>, exits: Vec<u32>) -> Graph
    requires entry { 0 < nodes }
    requires edges { AreWithin nodes edges.items }
    requires exits { All (λ u. u < nodes) exits.items }
    ensures digraph { IsDigraph result }
    ensures nodes { result.nodes ≡ nodes }
    ensures edges { (e : ℕ × ℕ) → Contains result.edges e ↔ Contains edges.items e }
    ensures exits { (u : ℕ) → Contains result.exits u ↔ Contains exits.items u }
{
    Graph::new(nodes, rising_edges(edges), rising_nodes(exits))
}
