//! The live graph of a method on nodes without gaps, with its loops.
ghost use Rattle.std.specs.Prelude.{◌≡◌, ◌*◌, ◌<◌, ℕ, length, map, slice_index, All, IfOk, IfErr};
ghost use Rattle.bytecode_model.specs.Program.{Program};
ghost use Rattle.method_flow.specs.Flow.{IsCodedOf};
ghost use Rattle.method_flow.specs.Graphs.{IsGraphBy};
ghost use Rattle.flow_graph.specs.Numbering.{IsCompactOf};
ghost use Rattle.flow_graph.specs.Where.{IsEdgeWhere};
ghost use Rattle.loop_nest.specs.Digraph.{Digraph, IsDigraph};
ghost use Rattle.bound_finder.specs.Prepared.{IsLeftAs, IsLeftBy, IsShapeOf};

use super::telling::{Told, goes_on};
use base::{Items, NoMemory};
use bound_rules::BoundRefusal;
use compact_walks::numbers;
use flow_graph::{Compact, compact, graph_where};
use loop_nest::loops::{Nest, NestFault};
use loop_nest::{Graph, nest};
use method_flow::FlowMethod;
use std::alloc::Global;

/// The graph of the nodes that node 0 reaches of another one, the numbers that these have there, its loops, and how many nodes the
/// other one has.
#[derive(Drop)]
pub struct Shape {
    pub graph: Graph,
    pub nodes: Items<u32>,
    pub nest: Nest,
    pub size: u32,
}

/// The graph of a method where the calls go on of which that is told.
pub fn told_graph(alloc: Global, m: &FlowMethod, told: &[Told]) -> Result<Graph, NoMemory>
    requires { length told.now ≡ length m.now.calls }
    ensures graph { IfOk result (λ g. (P : Program) (n : ℕ) → IsCodedOf P n m.now
        → IsGraphBy (IsEdgeWhere P n m.now.calls (map (λ s. s.goes_on) told.now)) P n g) }
    ensures nodes { IfOk result (λ g. g.nodes ≡ 2 * length m.now.code) }
{
    let goes = goes_on(alloc, told)?;
    graph_where(alloc, m, &goes)
}

/// The refusal of a method whose graph's reduction leaves these nodes.
fn irreducible(alloc: Global, m: u32, nodes: &[u32], left: &[u32]) -> BoundRefusal
    requires { All (λ u. u < length nodes.now) left.now }
    ensures { IsLeftAs m (slice_index nodes.now) left.now result }
{
    match numbers(alloc, nodes, left) {
        Ok(nodes) => BoundRefusal::Irreducible(m, nodes),
        Err(NoMemory) => BoundRefusal::NoMemory,
    }
}

/// The shape of a compact graph.
fn shape_of(alloc: Global, m: u32, size: u32, c: Compact) -> Result<Shape, BoundRefusal>
    requires { length c.nodes ≡ c.graph.nodes }
    ensures shape { IfOk result (λ s. (g : Digraph) → IsCompactOf g c → g.nodes ≡ size → IsDigraph g → IsShapeOf g s) }
    ensures cause { IfErr result (λ e. (g : Digraph) → IsCompactOf g c → IsLeftBy g m e) }
{
    let Compact { graph, nodes } = c;
    match nest(alloc, &graph) {
        Ok(nest) => Ok(Shape {
            graph,
            nodes,
            nest,
            size,
        }),
        Err(NestFault::Irreducible(left)) => Err(irreducible(alloc, m, nodes.as_slice(), &left)),
        Err(NestFault::NoMemory) => Err(BoundRefusal::NoMemory),
    }
}

/// The shape of the graph of the method `m`.
pub fn shape_in(alloc: Global, m: u32, g: &Graph) -> Result<Shape, BoundRefusal>
    ensures shape { IfOk result (IsShapeOf g.now) }
    ensures cause { IfErr result (IsLeftBy g.now m) }
{
    match compact(alloc, g) {
        Ok(compact) => shape_of(alloc, m, g.nodes(), compact),
        Err(NoMemory) => Err(BoundRefusal::NoMemory),
    }
}
