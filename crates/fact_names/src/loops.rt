//! The loops of a method's graph, which need not be reducible.
ghost use Rattle.std.specs.Prelude.{◌≡◌, ◌↔◌, ◌<◌, ℕ, false, length, All, Contains, IfOk, IsTrue, slice_index_or};
ghost use Rattle.loop_nest.specs.Digraph.{AreSources, IsDigraph, turned};
ghost use Rattle.loop_nest.specs.Walks.{IsMember};
ghost use Rattle.fact_names.specs.Reach.{AreAround, AreMembers, AreRoutes};

use crate::reach::led_to;
use base::NoMemory;
use loop_nest::Graph;
use loop_nest::digraph::{Sources, targets};
use std::alloc::Global;
use std::marker::Model;

/// For each node whether it can be come to from node 0 without the header.
fn around(alloc: Global, g: &Graph, targets: &Sources, header: u32) -> Result<Vec<bool>, NoMemory>
    requires header { header < g.now.nodes }
    requires targets { AreSources (turned g.now.edges) g.now.nodes targets.now }
    ensures { IfOk result (λ flags. AreAround g.now header flags.items) }
{
    let mut barred = vec![in alloc; false; g.nodes() as usize]?;
    barred[header as usize] = true;
    led_to(alloc, targets, &barred, 0)
}

/// Whether a back edge goes to a header: it comes from a node to which nothing comes without the header.
fn is_header(sources: &[u32], around: &[bool]) -> bool
    requires { All (λ u. u < length around.now) sources.now }
    ensures { IsTrue result ↔ ((u : ℕ) × Contains sources.now u × (slice_index_or around.now u false ≡ false)) }
{
    sources.iter().any(|u| !around[*u as usize])
}

/// For each node whether the loop of a header has it. A back edge comes from it without the header, and nothing comes to it
/// from node 0 without the header.
fn members(
    alloc: Global,
    g: &Graph,
    targets: &Sources,
    sources: &Sources,
    header: u32,
) -> Result<Vec<bool>, NoMemory>
    requires header { header < g.now.nodes }
    requires routes { AreRoutes g.now targets.now sources.now }
    ensures { IfOk result (λ flags. AreMembers g.now header flags.items) }
{
    let nodes = g.nodes() as usize;
    let around = around(alloc, g, targets, header)?;
    if !is_header(sources.of(header), &around) {
        return Ok(vec![in alloc; false; nodes]?);
    }
    led_to(alloc, sources, &around, header)
}

/// A graph with its edges by source and by target, and the loop that was asked for last. Contracts see the graph.
#[derive(Drop)]
pub(crate) struct Loops {
    graph: Graph,
    targets: Sources,
    sources: Sources,
    header: u32,
    members: Vec<bool>,
}

impl Model for Loops {
    ghost use Rattle.loop_nest.specs.Digraph.{Digraph};
    ghost use Rattle.fact_names.specs.Reach.{AreLoops};

    ghost Value = { Digraph };

    ghost view = { λ l. l.graph };

    ghost invariant = { λ l. AreLoops l.graph l.targets l.sources l.header l.members.items };
}

impl Loops {
    /// The loops of a graph.
    pub(crate) fn new(alloc: Global, graph: Graph) -> Result<Self, NoMemory>
        ensures { IfOk result (λ loops. loops ≡ graph) }
    {
        let targets = targets(alloc, &graph)?;
        let sources = Sources::by_target(alloc, graph.nodes() as usize, graph.edges())?;
        let members = members(alloc, &graph, &targets, &sources, 0)?;
        Ok(Loops {
            graph,
            targets,
            sources,
            header: 0,
            members,
        })
    }

    /// How many nodes the graph has.
    pub(crate) fn nodes(&self) -> u32
        ensures nodes { result ≡ self.now.nodes }
        ensures valid { IsDigraph self.now }
    {
        self.graph.nodes()
    }

    /// Whether the loop of a header has a node.
    pub(crate) fn has(&mut self, alloc: Global, header: u32, node: u32) -> Result<bool, NoMemory>
        requires header { header < self.old.nodes }
        requires node { node < self.old.nodes }
        ensures kept { self.new ≡ self.old }
        ensures member { IfOk result (λ has. IsTrue has ↔ IsMember self.old header node) }
    {
        if header != self.header {
            self.members = members(alloc, &self.graph, &self.targets, &self.sources, header)?;
            self.header = header;
        }
        Ok(self.members[node as usize])
    }
}
