//! What the reduction of a method's graph leaves, or where its loops are headed.
ghost use Rattle.std.specs.Prelude.{◌≡◌, ◌<◌, ◌/◌, ℕ, length, map, slice_index, All, IfOk};
ghost use Rattle.loop_nest.specs.Digraph.{IsDigraph};
ghost use Rattle.loop_nest.specs.Nest.{headers_of};
ghost use Rattle.bytecode_model.specs.Program.{Program};
ghost use Rattle.method_flow.specs.Flow.{IsCodedOf};
ghost use Rattle.bound_causes.specs.Shapes.{IsShape, IsCompactShape};

use super::laws::{compact_keeps_loops, method_graphs_are_reached};
use base::NoMemory;
use bound_rules::laws::{graphs_are_one, headers_are_instructions};
use flow_graph::{Compact, compact, whole_graph};
use loop_nest::loops::{Loop, NestFault};
use loop_nest::nest;
use method_flow::FlowMethod;
use std::alloc::Global;

/// Whether each cycle of a method's graph is a loop with one entry.
#[derive(Drop)]
pub enum Shape {
    /// The reduction leaves these nodes of the method's graph beside the first instruction, rising.
    Irreducible(Vec<u32>),
    /// It leaves none, and the instructions at these places head the loops, rising.
    Reducible(Vec<u32>),
}

/// The other numbers of these nodes.
fn numbers_of(alloc: Global, nodes: &[u32], numbers: &[u32]) -> Result<Vec<u32>, NoMemory>
    requires { All (λ u. u < length numbers.now) nodes.now }
    ensures { IfOk result (λ found. found.items ≡ map (slice_index numbers.now) nodes.now) }
{
    let mut found = Vec::new(alloc);
    for node in nodes {
        found.push(numbers[*node as usize])?;
    }
    Ok(found)
}

/// The places of the instructions that head these loops, by the other numbers of the headers.
fn header_places(alloc: Global, loops: &[Loop], numbers: &[u32]) -> Result<Vec<u32>, NoMemory>
    requires { All (λ h. h < length numbers.now) (headers_of loops.now) }
    ensures { IfOk result (λ places. places.items ≡ map (λ h. slice_index numbers.now h / 2) (headers_of loops.now)) }
{
    let mut places = Vec::new(alloc);
    for nested in loops {
        places.push(numbers[nested.header() as usize] / 2)?;
    }
    Ok(places)
}

/// The shape of a graph, by the other numbers of its nodes.
fn compact_shape(alloc: Global, c: &Compact) -> Result<Shape, NoMemory>
    requires digraph { IsDigraph c.now.graph }
    requires long { length c.now.nodes ≡ c.now.graph.nodes }
    ensures { IfOk result (IsCompactShape c.now.graph c.now.nodes) }
{
    let numbers = c.nodes.as_slice();
    match nest(alloc, &c.graph) {
        Ok(nest) => Ok(Shape::Reducible(header_places(alloc, nest.loops(), numbers)?)),
        Err(NestFault::Irreducible(left)) => {
            Ok(Shape::Irreducible(numbers_of(alloc, &left, numbers)?))
        }
        Err(NestFault::NoMemory) => Err(NoMemory),
    }
}

/// The shape of a method's graph.
pub fn shape_of(alloc: Global, m: &FlowMethod) -> Result<Shape, NoMemory>
    ensures { IfOk result (λ s. (P : Program) (n : ℕ) → IsCodedOf P n m.now → IsShape P n s) }
{
    graphs_are_one();
    headers_are_instructions();
    method_graphs_are_reached();
    compact_keeps_loops();
    let whole = whole_graph(alloc, m)?;
    let compact = compact(alloc, &whole)?;
    compact_shape(alloc, &compact)
}
