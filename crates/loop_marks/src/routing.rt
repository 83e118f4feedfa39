//! The graph of a method, and how its nodes are found from one another.

ghost use Rattle.std.specs.Prelude.{◌≡◌, ℕ, ◌<◌, Bool, false, List, length, set, All, IfOk};
ghost use Rattle.loop_nest.specs.Digraph.{IsDigraph, sources_of};
ghost use Rattle.bytecode_model.specs.Program.{Program};
ghost use Rattle.method_flow.specs.Graphs.{IsGraphOf};
ghost use Rattle.method_flow.specs.Nodes.{IsEdge, IsReached, Node, number_of};
ghost use Rattle.loop_rules.specs.Further.Last.{AreLastWrites, StopsAtWritesAlone};
ghost use Rattle.loop_rules.specs.Further.Search.{AreBacks, AreWithin, IsPassed};
ghost use Rattle.loop_marks.specs.Reach.{AreReached};

use crate::flags::NodeFlags;
use crate::reach::reached;
use base::NoMemory;
use flow_graph::spans;
use loop_nest::Graph;
use loop_nest::digraph::Sources;
use loop_rules::further::{LastWrites, Stops, backs, last_writes};
use std::alloc::Global;
use std::marker::Model;

/// A graph, with where among its edges those from each node stand, and the sources of the edges to it.
#[derive(Drop)]
pub struct Routes {
    graph: Graph,
    spans: Vec<(usize, usize)>,
    sources: Sources,
}

impl Model for Routes {
    ghost use Rattle.loop_nest.specs.Digraph.{Digraph};
    ghost use Rattle.loop_marks.specs.Marking.{AreRoutes};

    ghost Value = { Digraph };

    ghost view = { λ r. r.graph };

    ghost invariant = { λ r. AreRoutes r.graph r.spans.items r.sources };
}

impl Routes {
    /// The graph with its spans and sources.
    pub fn new(alloc: Global, graph: Graph) -> Result<Self, NoMemory>
        ensures { IfOk result (λ r. r ≡ graph) }
    {
        let spans = spans(alloc, graph.nodes() as usize, graph.edges())?;
        let sources = Sources::by_target(alloc, graph.nodes() as usize, graph.edges())?;
        Ok(Routes {
            graph,
            spans,
            sources,
        })
    }

    /// How many nodes there are.
    pub fn nodes(&self) -> u32
        ensures nodes { result ≡ self.now.nodes }
        ensures valid { IsDigraph self.now }
    {
        self.graph.nodes()
    }

    /// The sources of the edges to a node.
    pub fn sources(&self, node: u32) -> &[u32]
        requires { node < self.now.nodes }
        ensures sources { result.now ≡ sources_of self.now.edges node }
        ensures within { All (λ u. u < self.now.nodes) result.now }
    {
        self.sources.of(node)
    }

    /// For each node one to which a search for last writes may skip back from it, past nodes that are flagged as idle.
    pub fn backs(&self, alloc: Global, idle: &[bool]) -> Result<Vec<u32>, NoMemory>
        requires { length idle.now ≡ self.now.nodes }
        ensures { IfOk result (λ backs. AreBacks self.now idle.now backs.items) }
    {
        backs(alloc, &self.graph, &self.sources, idle)
    }

    /// What may have written a local variable last once control has come to a node and passed it. `writes` stops at the instructions that
    /// write it, and `backs` has for each node the one to which the search skips back from it, past nodes at which it doesn't stop.
    pub fn last_writes<S: Stops>(
        &self,
        alloc: Global,
        backs: &[u32],
        writes: &S,
        node: u32,
    ) -> Result<LastWrites, NoMemory>
        requires within { node < self.now.nodes }
        requires backs { AreWithin self.now.nodes backs.now }
        ensures { IfOk result (λ found. (P : Program) (m k : ℕ) (u : Node) (idle : List Bool) → IsGraphOf P m self.now → AreBacks self.now idle backs.now
            → IsPassed idle (S.stops_at writes.now) → StopsAtWritesAlone P m k (S.stops_at writes.now)
            → number_of u ≡ node → IsReached (IsEdge P m) u → AreLastWrites P m k u found) }
    {
        last_writes(alloc, &self.graph, &self.sources, backs, writes, node)
    }

    /// The nodes that a walk from `start` through nodes that are allowed, but for `without`, leads to.
    pub(crate) fn reached(
        &self,
        alloc: Global,
        allowed: &NodeFlags,
        without: u32,
        start: u32,
    ) -> Result<NodeFlags, NoMemory>
        requires { start < self.now.nodes }
        ensures { IfOk result (λ flags. AreReached self.now (set allowed.now.items without false) start flags.items) }
    {
        reached(alloc, &self.graph, &self.spans, allowed, without, start)
    }
}
