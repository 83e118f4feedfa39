//! Graphs of numbered nodes, and for each node the sources of the edges to it.
ghost use Rattle.std.specs.Prelude.{◌≡◌, ◌+◌, ◌^◌, ◌<◌, ◌≤◌, ◌↔◌, [], length, All, IfOk, IsTrue, slice_index_or, slice_range};
ghost use Rattle.std.specs.List.{AllAdjacentBelow};
ghost use Rattle.std.specs.List.Sorted.{IsStrictlyIncreasing};
ghost use Rattle.loop_nest.specs.Digraph.{IsBefore, IsDigraph, turned, AreSources, AreArrivals};
ghost use Rattle.loop_nest.specs.Grouping.{AreStarts, AreStartsIn, lists_from};

use std::alloc::{AllocError, Global};
use std::marker::Model;

/// A graph of numbered nodes, of which node 0 is the entry.
#[derive(Drop)]
pub struct Graph {
    nodes: u32,
    edges: Vec<(u32, u32)>,
    exits: Vec<u32>,
}

impl Model for Graph {
    ghost use Rattle.loop_nest.specs.Digraph.{Digraph, IsDigraph};

    ghost Value = { Digraph };

    ghost view = { λ g. record { nodes = g.nodes; edges = g.edges.items; exits = g.exits.items } };

    ghost invariant = { λ g. IsDigraph (record { nodes = g.nodes; edges = g.edges.items; exits = g.exits.items }) };
}

impl Graph {
    /// The graph of so many nodes, with these edges from node to node, and these nodes at which a
    /// walk may end. Edges and exits rise.
    pub fn new(nodes: u32, edges: Vec<(u32, u32)>, exits: Vec<u32>) -> Self
        requires { IsDigraph (record { nodes = nodes; edges = edges.items; exits = exits.items }) }
        ensures { result ≡ record { nodes = nodes; edges = edges.items; exits = exits.items } }
    {
        Graph {
            nodes,
            edges,
            exits,
        }
    }

    /// How many nodes there are.
    pub fn nodes(&self) -> u32
        ensures nodes { result ≡ self.now.nodes }
        ensures few { self.now.nodes < 2 ^ 32 }
        ensures valid { IsDigraph self.now }
    {
        self.nodes
    }

    /// The edges, rising.
    pub fn edges(&self) -> &[(u32, u32)]
        ensures edges { result.now ≡ self.now.edges }
        ensures valid { IsDigraph self.now }
    {
        self.edges.as_slice()
    }

    /// The nodes at which a walk may end, rising.
    pub fn exits(&self) -> &[u32]
        ensures exits { result.now ≡ self.now.exits }
        ensures valid { IsDigraph self.now }
    {
        self.exits.as_slice()
    }

    /// The edges and the exits, from which another graph may be made.
    pub fn into_parts(self) -> (Vec<(u32, u32)>, Vec<u32>)
        ensures edges { result.0.items ≡ self.edges }
        ensures exits { result.1.items ≡ self.exits }
    {
        let Graph {
            nodes: _,
            edges,
            exits,
        } = self;
        (edges, exits)
    }
}

/// Whether one edge stands before another.
fn is_before(a: (u32, u32), b: (u32, u32)) -> bool
    ensures { IsTrue result ↔ IsBefore a b }
{
    a.0 < b.0 || a.0 == b.0 && a.1 < b.1
}

/// Whether each edge stands before the next.
fn are_rising_edges(edges: &[(u32, u32)]) -> bool
    ensures { IsTrue result ↔ AllAdjacentBelow IsBefore edges.now (length edges.now) }
{
    for i in 1..edges.len() {
        if !is_before(edges[i - 1], edges[i]) {
            return false;
        }
    }
    true
}

/// Whether each node is below the next.
pub fn are_rising(nodes: &[u32]) -> bool
    ensures { IsTrue result ↔ IsStrictlyIncreasing nodes.now }
{
    for i in 1..nodes.len() {
        if nodes[i - 1] >= nodes[i] {
            return false;
        }
    }
    true
}

/// Whether `Graph::new` takes these.
pub fn is_graph(nodes: u32, edges: &[(u32, u32)], exits: &[u32]) -> bool
    ensures { IsTrue result ↔ IsDigraph (record { nodes = nodes; edges = edges.now; exits = exits.now }) }
{
    nodes > 0
        && edges.iter().all(|e| e.0 < nodes && e.1 < nodes)
        && are_rising_edges(edges)
        && exits.iter().all(|u| *u < nodes)
        && are_rising(exits)
}

/// These edges from their targets to their sources.
pub fn turned(alloc: Global, edges: &[(u32, u32)]) -> Result<Vec<(u32, u32)>, AllocError>
    ensures { IfOk result (λ found. found.items ≡ turned edges.now) }
{
    edges.iter().map(|e| (e.1, e.0)).collect(alloc)
}

/// For each node of a graph the targets of the edges from it, in the order of the edges.
pub fn targets(alloc: Global, g: &Graph) -> Result<Sources, AllocError>
    ensures valid { IsDigraph g.now }
    ensures targets { IfOk result (AreSources (turned g.now.edges) g.now.nodes) }
{
    let turned = turned(alloc, g.edges())?;
    Sources::by_target(alloc, g.nodes() as usize, &turned)
}

/// How many edges lead to each of `nodes` nodes.
pub fn arrivals(alloc: Global, nodes: usize, edges: &[(u32, u32)]) -> Result<Vec<usize>, AllocError>
    requires { All (λ e. e.1 < nodes) edges.now }
    ensures { IfOk result (λ counts. AreArrivals edges.now nodes counts.items) }
{
    let mut counts = vec![in alloc; 0; nodes]?;
    for edge in edges {
        let (_u, v) = *edge;
        counts[v as usize] += 1;
    }
    Ok(counts)
}

/// For each of some nodes the sources of the edges to it, in the order of the edges.
#[derive(Drop)]
pub struct Sources {
    starts: Vec<usize>,
    nodes: Vec<u32>,
}

impl Model for Sources {
    ghost use Rattle.std.specs.Prelude.{ℕ, List};
    ghost use Rattle.loop_nest.specs.Grouping.{lists_from, AreStartsIn};

    ghost Value = { List (List ℕ) };

    ghost view = { λ s. lists_from s.starts.items s.nodes.items };

    ghost invariant = { λ s. AreStartsIn s.starts.items s.nodes.items };
}

impl Sources {
    /// For each of `nodes` nodes the sources of the edges to it.
    pub fn by_target(
        alloc: Global,
        nodes: usize,
        edges: &[(u32, u32)],
    ) -> Result<Sources, AllocError>
        requires { All (λ e. e.1 < nodes) edges.now }
        ensures { IfOk result (AreSources edges.now nodes) }
    {
        let starts = starts(alloc, nodes, edges)?;
        let nodes = placed(alloc, nodes, edges, &starts)?;
        Ok(Sources { starts, nodes })
    }

    /// The sources of the edges to `v`.
    pub fn of(&self, v: u32) -> &[u32]
        requires { v < length self.now }
        ensures { result.now ≡ slice_index_or self.now v [] }
    {
        let v = v as usize;
        part(&self.nodes, self.starts[v], self.starts[v + 1])
    }
}

/// The nodes from one place to another.
fn part(nodes: &[u32], from: usize, to: usize) -> &[u32]
    requires from { from ≤ to }
    requires to { to ≤ length nodes.now }
    ensures { result.now ≡ slice_range nodes.now from to }
{
    &nodes[from..to]
}

/// For each of `nodes` nodes how many edges lead to lower ones, and at last how many edges there are.
fn starts(alloc: Global, nodes: usize, edges: &[(u32, u32)]) -> Result<Vec<usize>, AllocError>
    requires { All (λ e. e.1 < nodes) edges.now }
    ensures { IfOk result (λ starts. AreStarts edges.now nodes starts.items) }
{
    let counts = arrivals(alloc, nodes, edges)?;
    let mut starts = Vec::with_capacity(alloc, nodes + 1)?;
    let mut next = 0;
    for v in 0..nodes {
        starts.push(next)?;
        next += counts[v];
    }
    starts.push(next)?;
    Ok(starts)
}

/// The sources of the edges, in the order of the edges' targets.
fn placed(
    alloc: Global,
    nodes: usize,
    edges: &[(u32, u32)],
    starts: &[usize],
) -> Result<Vec<u32>, AllocError>
    requires within { All (λ e. e.1 < nodes) edges.now }
    requires starts { AreStarts edges.now nodes starts.now }
    ensures starts { IfOk result (λ placed. AreStartsIn starts.now placed.items) }
    ensures lists { IfOk result (λ placed. AreSources edges.now nodes (lists_from starts.now placed.items)) }
{
    let mut placed = vec![in alloc; 0; edges.len()]?;
    let mut next = Vec::from_slice(alloc, starts)?;
    for edge in edges {
        let (u, v) = *edge;
        let place = next[v as usize];
        placed[place] = u;
        next[v as usize] = place + 1;
    }
    Ok(placed)
}
