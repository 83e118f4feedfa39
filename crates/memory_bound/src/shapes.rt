//! The graph of a method on nodes without gaps, at each of which a walk may stop, with its loops.
ghost use Rattle.std.specs.Prelude.{◌≡◌, ◌<◌, ℕ, length, map, slice_index, All, IfOk, IfErr};
ghost use Rattle.std.specs.List.{range_with_len};
ghost use Rattle.bytecode_model.specs.Program.{Program};
ghost use Rattle.loop_nest.specs.Digraph.{Digraph};
ghost use Rattle.method_flow.specs.Flow.{IsCodedOf};
ghost use Rattle.method_flow.specs.Graphs.{IsGraphOf};
ghost use Rattle.flow_graph.specs.Numbering.{IsCompactOf};
ghost use Rattle.memory_bound.specs.Shapes.{IsLeftAs, IsLeftIn, IsShapeFault, IsShapeIn, IsShapeOf, all_exits};

use base::{Items, NoMemory};
use compact_walks::numbers;
use flow_graph::{Compact, compact, whole_graph};
use loop_nest::loops::{Nest, NestFault};
use loop_nest::{Graph, nest};
use method_flow::FlowMethod;
use std::alloc::Global;

/// The graph of the nodes that node 0 reaches of a method's graph, each of which is an exit, the numbers that they have there, and
/// its loops.
#[derive(Drop)]
pub struct Shape {
    pub graph: Graph,
    pub nodes: Items<u32>,
    pub nest: Nest,
}

/// Why there is no shape.
#[derive(Drop)]
pub enum ShapeFault {
    /// The reduction of the method's graph leaves these nodes, rising, beside the first instruction.
    Irreducible(Vec<u32>),
    /// There is no memory.
    NoMemory,
}

/// The numbers below this one.
fn all_below(alloc: Global, nodes: u32) -> Result<Vec<u32>, NoMemory>
    ensures { IfOk result (λ v. v.items ≡ range_with_len 0 nodes) }
{
    let mut all = Vec::new(alloc);
    for u in 0..nodes {
        all.push(u)?;
    }
    Ok(all)
}

/// The same graph, where each node is an exit.
fn with_all_exits(alloc: Global, graph: Graph) -> Result<Graph, NoMemory>
    ensures { IfOk result (λ g. g ≡ all_exits graph) }
{
    let nodes = graph.nodes();
    let exits = all_below(alloc, nodes)?;
    let (edges, _) = graph.into_parts();
    Ok(Graph::new(nodes, edges, exits))
}

/// The fault where the reduction leaves these nodes.
fn irreducible(alloc: Global, nodes: &[u32], left: &[u32]) -> ShapeFault
    requires { All (λ u. u < length nodes.now) left.now }
    ensures { IsLeftAs (slice_index nodes.now) left.now result }
{
    match numbers(alloc, nodes, left) {
        Ok(nodes) => ShapeFault::Irreducible(nodes),
        Err(NoMemory) => ShapeFault::NoMemory,
    }
}

/// The shape of a graph each node of which is an exit.
fn shape_by(alloc: Global, graph: Graph, nodes: Items<u32>) -> Result<Shape, ShapeFault>
    requires { length nodes ≡ graph.nodes }
    ensures shape { IfOk result (λ s. (g d : Digraph) → IsCompactOf g (record { graph = d; nodes = nodes }) → graph ≡ all_exits d → IsShapeIn g s) }
    ensures cause { IfErr result (λ e. (g d : Digraph) → IsCompactOf g (record { graph = d; nodes = nodes }) → graph ≡ all_exits d → IsLeftIn g e) }
{
    match nest(alloc, &graph) {
        Ok(nest) => Ok(Shape { graph, nodes, nest }),
        Err(NestFault::Irreducible(left)) => Err(irreducible(alloc, nodes.as_slice(), &left)),
        Err(NestFault::NoMemory) => Err(ShapeFault::NoMemory),
    }
}

/// The shape of a compact graph.
fn compact_shape(alloc: Global, c: Compact) -> Result<Shape, ShapeFault>
    requires { length c.nodes ≡ c.graph.nodes }
    ensures shape { IfOk result (λ s. (g : Digraph) → IsCompactOf g c → IsShapeIn g s) }
    ensures cause { IfErr result (λ e. (g : Digraph) → IsCompactOf g c → IsLeftIn g e) }
{
    let Compact { graph, nodes } = c;
    match with_all_exits(alloc, graph) {
        Ok(graph) => shape_by(alloc, graph, nodes),
        Err(NoMemory) => Err(ShapeFault::NoMemory),
    }
}

/// The reached nodes of a method's graph.
fn reached(alloc: Global, m: &FlowMethod) -> Result<Compact, NoMemory>
    ensures compact { IfOk result (λ c. (g : Digraph) × IsCompactOf g c × ((P : Program) (n : ℕ) → IsCodedOf P n m.now → IsGraphOf P n g)) }
    ensures long { IfOk result (λ c. length c.nodes ≡ c.graph.nodes) }
{
    let whole = whole_graph(alloc, m)?;
    compact(alloc, &whole)
}

/// The shape of a method.
pub fn shape_of(alloc: Global, m: &FlowMethod) -> Result<Shape, ShapeFault>
    ensures form { IfOk result (λ s. (g : Digraph) × IsShapeIn g s) }
    ensures shape { IfOk result (λ s. (P : Program) (n : ℕ) → IsCodedOf P n m.now → IsShapeOf P n s) }
    ensures cause { IfErr result (λ e. (P : Program) (n : ℕ) → IsCodedOf P n m.now → IsShapeFault P n e) }
{
    match reached(alloc, m) {
        Ok(compact) => compact_shape(alloc, compact),
        Err(NoMemory) => Err(ShapeFault::NoMemory),
    }
}
