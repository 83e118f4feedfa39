//! Basic blocks: the longest chains of nodes that follow one another.
ghost use Rattle.std.specs.Prelude.{◌≡◌, ◌<◌, ◌↔◌, ℕ, map, slice_index, IfOk, IsTrue, MatchOption};
ghost use Rattle.loop_nest.specs.Digraph.{IsDigraph, turned, AreSources};
ghost use Rattle.loop_nest.specs.Chains.{IsLink, IsLater, IsBlock, AreBlocksBelow};

use super::digraph::{Graph, Sources, targets};
use std::alloc::{AllocError, Global};
use std::marker::Model;

/// The basic blocks of a graph.
#[derive(Drop)]
pub struct Blocks {
    chains: Vec<Vec<u32>>,
}

impl Model for Blocks {
    ghost use Rattle.std.specs.Prelude.{ℕ, List, map};

    ghost Value = { List (List ℕ) };

    ghost view = { λ b. map (λ ns. ns.items) b.chains.items };
}

impl Blocks {
    /// The blocks with these nodes.
    pub(crate) fn new(chains: Vec<Vec<u32>>) -> Self
        ensures { result ≡ map (λ ns. ns.items) chains.items }
    {
        Blocks { chains }
    }

    /// The nodes of each block, in the order of the blocks' first nodes.
    pub fn chains(&self) -> &[Vec<u32>]
        ensures { map (λ ns. ns.items) result.now ≡ self.now }
    {
        self.chains.as_slice()
    }
}

/// The node to which `u` is linked.
fn next(g: &Graph, targets: &Sources, sources: &Sources, u: u32) -> Option<u32>
    requires valid { IsDigraph g.now }
    requires targets { AreSources (turned g.now.edges) g.now.nodes targets.now }
    requires sources { AreSources g.now.edges g.now.nodes sources.now }
    requires below { u < g.now.nodes }
    ensures { MatchOption result ((v : ℕ) → ¬ IsLink g.now u v) (IsLink g.now u) }
{
    let successors = targets.of(u);
    if successors.len() != 1 {
        return None;
    }
    let v = successors[0];
    if v == 0 || sources.of(v).len() != 1 {
        return None;
    }
    Some(v)
}

/// Whether a node is linked to `v`.
fn is_later(g: &Graph, targets: &Sources, sources: &Sources, v: u32) -> bool
    requires valid { IsDigraph g.now }
    requires targets { AreSources (turned g.now.edges) g.now.nodes targets.now }
    requires sources { AreSources g.now.edges g.now.nodes sources.now }
    requires below { v < g.now.nodes }
    ensures { IsTrue result ↔ IsLater g.now v }
{
    let predecessors = sources.of(v);
    if predecessors.len() != 1 || v == 0 {
        return false;
    }
    targets.of(predecessors[0]).len() == 1
}

/// The block that begins with `first`.
fn chain(
    alloc: Global,
    g: &Graph,
    targets: &Sources,
    sources: &Sources,
    first: u32,
) -> Result<Vec<u32>, AllocError>
    requires valid { IsDigraph g.now }
    requires targets { AreSources (turned g.now.edges) g.now.nodes targets.now }
    requires sources { AreSources g.now.edges g.now.nodes sources.now }
    requires below { first < g.now.nodes }
    requires begins { ¬ IsLater g.now first }
    ensures block { IfOk result (λ ns. IsBlock g.now ns.items) }
    ensures first { IfOk result (λ ns. slice_index ns.items 0 ≡ first) }
{
    let mut nodes = Vec::new(alloc);
    nodes.push(first)?;
    let mut last = first;
    while let Some(v) = next(g, targets, sources, last) {
        nodes.push(v)?;
        last = v;
    }
    Ok(nodes)
}

/// The blocks, in the order of their first nodes, by the nodes' targets and sources.
fn chains_by(
    alloc: Global,
    g: &Graph,
    targets: &Sources,
    sources: &Sources,
) -> Result<Vec<Vec<u32>>, AllocError>
    requires targets { AreSources (turned g.now.edges) g.now.nodes targets.now }
    requires sources { AreSources g.now.edges g.now.nodes sources.now }
    ensures { IfOk result (λ bs. AreBlocksBelow g.now g.now.nodes (map (λ ns. ns.items) bs.items)) }
{
    let mut chains = Vec::new(alloc);
    for u in 0..g.nodes() {
        if !is_later(g, targets, sources, u) {
            chains.push(chain(alloc, g, targets, sources, u)?)?;
        }
    }
    Ok(chains)
}

/// The blocks, in the order of their first nodes.
pub(crate) fn chains(alloc: Global, g: &Graph) -> Result<Vec<Vec<u32>>, AllocError>
    ensures valid { IsDigraph g.now }
    ensures chains { IfOk result (λ bs. AreBlocksBelow g.now g.now.nodes (map (λ ns. ns.items) bs.items)) }
{
    let targets = targets(alloc, g)?;
    let sources = Sources::by_target(alloc, g.nodes() as usize, g.edges())?;
    chains_by(alloc, g, &targets, &sources)
}
