//! The code of a method as it is searched.

ghost use Rattle.std.specs.Prelude.{◌≡◌, ◌↔◌, ℕ, ◌*◌, ◌<◌, length, IfOk, IsTrue};
ghost use Rattle.bytecode_model.specs.Program.{Program};
ghost use Rattle.code_scan.specs.Scans.{is_named, line_before};
ghost use Rattle.loop_nest.specs.Digraph.{AreSources};
ghost use Rattle.method_flow.specs.Flow.{IsCodedOf};
ghost use Rattle.method_flow.specs.Graphs.{IsGraphOf};
ghost use Rattle.method_flow.specs.Nodes.{At, IsEdge, IsReached};
ghost use Rattle.loop_rules.specs.Sites.{AreNeverPut, AreSitesOf};
ghost use Rattle.loop_rules.specs.Further.Arrays.{AreApart, AreArraysRead};
ghost use Rattle.loop_rules.specs.Further.Known.{Known};
ghost use Rattle.loop_rules.specs.Further.Last.{AreNearest, StopsAtWrites};
ghost use Rattle.known_ints.specs.Code.{AreIdle, IsCodeOf, IsEntered, IsIdle, StopsAtLocals};
ghost use Rattle.known_ints.specs.Parts.{part_at};

use crate::parts::{Part, part_at, parts};
use base::NoMemory;
use code_scan::CodeScan;
use flow_graph::whole_graph;
use loop_nest::Graph;
use loop_nest::digraph::Sources;
use loop_rules::MethodSites;
use loop_rules::further::{LastWrites, Stops, backs, nearest};
use method_flow::FlowMethod;
use std::alloc::Global;
use std::marker::Model;

/// The code of a method: what its instructions do, by place, which places are named and where instructions end, and its graph with
/// the sources of the edges to each node, and the node to which searches skip back from it.
#[derive(Drop)]
pub struct MethodCode {
    parts: Vec<Part>,
    scan: CodeScan,
    graph: Graph,
    sources: Sources,
    backs: Vec<u32>,
}

impl Model for MethodCode {
    ghost use Rattle.known_ints.specs.Code.{CodeOf, AreRoutes};

    ghost Value = { CodeOf };

    ghost view = { λ c. record { parts = c.parts.items; scan = c.scan; graph = c.graph } };

    ghost invariant = { λ c. AreRoutes (record { parts = c.parts.items; scan = c.scan; graph = c.graph }) c.sources c.backs.items };
}

impl MethodCode {
    /// The code of the method, in time that grows with its length. `arrays` has by place the lengths of the arrays of the fields that its
    /// instructions read.
    pub fn new(
        alloc: Global,
        method: &FlowMethod,
        sites: &MethodSites,
        arrays: &[Option<i32>],
    ) -> Result<Self, NoMemory>
        ensures { IfOk result (λ c. (P : Program) (known : Known) (m : ℕ) → IsCodedOf P m method.now → AreSitesOf P known.constants m sites.now
            → AreNeverPut P known.constants → AreApart known → AreArraysRead P known m arrays.now → IsCodeOf P known m c) }
    {
        opcodes::laws::starts_follow_one_another();
        method_flow::laws::rows_are_of_their_kinds();
        // The code is whole instructions.
        let _ = method.code();
        let graph = whole_graph(alloc, method)?;
        let sources = Sources::by_target(alloc, graph.nodes() as usize, graph.edges())?;
        let parts = parts(alloc, method, sites, arrays)?;
        let idle = idle(alloc, &parts, graph.nodes())?;
        let backs = backs(alloc, &graph, &sources, &idle)?;
        let scan = CodeScan::new(alloc, method)?;
        Ok(MethodCode {
            parts,
            scan,
            graph,
            sources,
            backs,
        })
    }

    /// How many places there are.
    pub fn places(&self) -> u32
        ensures places { result ≡ length self.now.parts }
        ensures nodes { self.now.graph.nodes ≡ 2 * length self.now.parts }
    {
        self.graph.nodes() / 2
    }

    /// What the instruction at a place does.
    pub fn part(&self, place: u32) -> Part
        ensures { result ≡ part_at self.now.parts place }
    {
        part_at(&self.parts, place)
    }

    /// Whether an instruction or a handler names the place.
    pub fn is_named(&self, place: u32) -> bool
        ensures { result ≡ is_named self.now.scan place }
    {
        self.scan.is_named(place)
    }

    /// The place of the instruction directly before the place.
    pub fn before(&self, place: u32) -> Option<u32>
        ensures { result ≡ line_before self.now.scan place }
    {
        self.scan.before(place)
    }

    /// Whether control comes to the place.
    pub fn is_reached(&self, place: u32) -> bool
        ensures { (P : Program) (m : ℕ) → IsGraphOf P m self.now.graph → IsTrue result ↔ IsReached (IsEdge P m) (At place) }
    {
        is_entered(&self.graph, &self.sources, place)
    }

    /// Where a search stops that goes back from the instruction at a place, at which it doesn't.
    pub fn nearest<S: Stops>(
        &self,
        alloc: Global,
        stops: &S,
        place: u32,
    ) -> Result<LastWrites, NoMemory>
        requires { place < length self.now.parts }
        ensures { IfOk result (λ found. (P : Program) (m k : ℕ) → IsGraphOf P m self.now.graph → StopsAtWrites P m k (S.stops_at stops.now)
            → StopsAtLocals self.now.parts (S.stops_at stops.now) → ¬ S.stops_at stops.now (2 * place)
            → AreNearest P m k (At place) (S.stops_at stops.now) found) }
    {
        // The number of nodes fits 32 bits.
        let _ = self.graph.nodes();
        nearest(
            alloc,
            &self.graph,
            &self.sources,
            &self.backs,
            stops,
            2 * place,
        )
    }
}

/// Whether an instruction that does so neither loads what a local variable holds nor writes one.
fn is_idle(part: Part) -> bool
    ensures { IsTrue result → IsIdle part }
{
    match part {
        Part::Load(_)
        | Part::LoadReference(_)
        | Part::Store(_)
        | Part::StoreReference(_)
        | Part::StoreLong(_)
        | Part::Increment(_) => false,
        _ => true,
    }
}

/// So for each of so many nodes, whether it is such an instruction.
fn idle(alloc: Global, parts: &[Part], nodes: u32) -> Result<Vec<bool>, NoMemory>
    ensures { IfOk result (λ flags. AreIdle parts.now nodes flags.items) }
{
    let mut flags = Vec::with_capacity(alloc, nodes as usize)?;
    for node in 0..nodes {
        flags.push(node % 2 == 0 && is_idle(part_at(parts, node / 2)))?;
    }
    Ok(flags)
}

/// Whether an edge leads to the instruction at a place.
fn has_source(graph: &Graph, sources: &Sources, place: u32) -> bool
    requires { AreSources graph.now.edges graph.now.nodes sources.now }
    ensures { IsTrue result ↔ IsEntered graph.now place }
{
    let places = graph.nodes() / 2;
    if place < places {
        !sources.of(2 * place).is_empty()
    } else {
        false
    }
}

/// Whether control comes to a place of a method with this graph.
fn is_entered(graph: &Graph, sources: &Sources, place: u32) -> bool
    requires { AreSources graph.now.edges graph.now.nodes sources.now }
    ensures { (P : Program) (m : ℕ) → IsGraphOf P m graph.now → IsTrue result ↔ IsReached (IsEdge P m) (At place) }
{
    if place == 0 {
        return true;
    }
    has_source(graph, sources, place)
}
