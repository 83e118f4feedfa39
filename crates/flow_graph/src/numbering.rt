//! The reached nodes of a graph, numbered anew without gaps.
ghost use Rattle.std.specs.Prelude.{◌≡◌, ◌<◌, ◌^◌, ◌%◌, ◌/◌, ◌==◌, length, map, All, IfOk};
ghost use Rattle.loop_nest.specs.Digraph.{IsDigraph};
ghost use Rattle.flow_graph.specs.Numbering.{AreNumbered, IsCompactOf, renumbered_edges, renumbered_nodes};
ghost use Rattle.flow_graph.specs.Reach.{AreReached, AreWithin};

use super::reach::reached;
use super::sorting::graph_from;
use base::{Items, NoMemory};
use loop_nest::Graph;
use std::alloc::Global;

/// A graph of nodes without gaps, and for each node its number in another graph.
#[derive(Drop)]
pub struct Compact {
    pub graph: Graph,
    pub nodes: Items<u32>,
}

/// A graph of nodes without gaps, and for each node the place of its instruction and whether it is the raise step there.
#[derive(Drop)]
pub struct MethodGraph {
    pub graph: Graph,
    pub nodes: Items<(u32, bool)>,
}

/// The flagged nodes, rising, and for each of them its place among them.
fn numbering(alloc: Global, flags: &[bool]) -> Result<(Vec<u32>, Vec<u32>), NoMemory>
    requires { length flags.now < 2 ^ 32 }
    ensures { IfOk result (λ r. AreNumbered flags.now (length flags.now) r.0.items r.1.items) }
{
    let mut nodes = Vec::with_capacity(alloc, flags.len())?;
    let mut numbers = Vec::with_capacity(alloc, flags.len())?;
    for x in 0..flags.len() as u32 {
        numbers.push(nodes.len() as u32)?;
        if flags[x as usize] {
            nodes.push(x)?;
        }
    }
    Ok((nodes, numbers))
}

/// The edges from flagged nodes, by the new numbers.
fn renumbered_edges(
    alloc: Global,
    edges: &[(u32, u32)],
    flags: &[bool],
    numbers: &[u32],
) -> Result<Vec<(u32, u32)>, NoMemory>
    requires within { AreWithin (length flags.now) edges.now }
    requires long { length numbers.now ≡ length flags.now }
    ensures { IfOk result (λ new. new.items ≡ renumbered_edges flags.now numbers.now edges.now) }
{
    let mut new = Vec::with_capacity(alloc, edges.len())?;
    for edge in edges {
        if flags[edge.0 as usize] {
            new.push((numbers[edge.0 as usize], numbers[edge.1 as usize]))?;
        }
    }
    Ok(new)
}

/// The flagged ones of these nodes, by the new numbers.
fn renumbered_nodes(
    alloc: Global,
    nodes: &[u32],
    flags: &[bool],
    numbers: &[u32],
) -> Result<Vec<u32>, NoMemory>
    requires within { All (λ u. u < length flags.now) nodes.now }
    requires long { length numbers.now ≡ length flags.now }
    ensures { IfOk result (λ new. new.items ≡ renumbered_nodes flags.now numbers.now nodes.now) }
{
    let mut new = Vec::with_capacity(alloc, nodes.len())?;
    for node in nodes {
        if flags[*node as usize] {
            new.push(numbers[*node as usize])?;
        }
    }
    Ok(new)
}

/// The graph of the flagged nodes, by the new numbers.
fn renumbered(
    alloc: Global,
    g: &Graph,
    flags: &[bool],
    nodes: Vec<u32>,
    numbers: &[u32],
) -> Result<Compact, NoMemory>
    requires valid { IsDigraph g.now }
    requires few { g.now.nodes < 2 ^ 32 }
    requires flags { AreReached g.now.edges g.now.nodes flags.now }
    requires numbered { AreNumbered flags.now g.now.nodes nodes.items numbers.now }
    ensures { IfOk result (IsCompactOf g.now) }
{
    let edges = renumbered_edges(alloc, g.edges(), flags, numbers)?;
    let exits = renumbered_nodes(alloc, g.exits(), flags, numbers)?;
    let graph = graph_from(nodes.len() as u32, edges, exits);
    Ok(Compact {
        graph,
        nodes: Items::new(nodes),
    })
}

/// The nodes that node 0 reaches, numbered anew in their order without gaps, with their edges and exits.
pub fn compacted(alloc: Global, g: &Graph) -> Result<Compact, NoMemory>
    ensures { IfOk result (IsCompactOf g.now) }
{
    let flags = reached(alloc, g.nodes() as usize, g.edges())?;
    let (nodes, numbers) = numbering(alloc, &flags)?;
    renumbered(alloc, g, &flags, nodes, &numbers)
}

/// The place and the kind of each of these nodes of a method's graph.
fn places(alloc: Global, nodes: &[u32]) -> Result<Vec<(u32, bool)>, NoMemory>
    ensures { IfOk result (λ found. found.items ≡ map (λ x. (x / 2, x % 2 == 1)) nodes.now) }
{
    Ok(nodes.iter().map(|x| (*x / 2, *x % 2 == 1)).collect(alloc)?)
}

/// The same graph with the place and the kind of each node.
pub fn placed(alloc: Global, c: Compact) -> Result<MethodGraph, NoMemory>
    ensures graph { IfOk result (λ m. m.graph ≡ c.graph) }
    ensures nodes { IfOk result (λ m. m.nodes ≡ map (λ x. (x / 2, x % 2 == 1)) c.nodes) }
{
    let Compact { graph, nodes } = c;
    let places = places(alloc, nodes.as_slice())?;
    Ok(MethodGraph {
        graph,
        nodes: Items::new(places),
    })
}
