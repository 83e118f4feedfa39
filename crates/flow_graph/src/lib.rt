//! Graphs of methods (JVM Specification SE 8, 2.6, 2.10, 4.7.3 and 6.5): their instructions and raise steps as numbered nodes,
//! with the edges and exits that node 0 reaches.
#![tactic(auto)]

ghost use Rattle.std.specs.Prelude.{◌≡◌, ◌*◌, ℕ, length, IfOk};
ghost use Rattle.bytecode_model.specs.Program.{Program};
ghost use Rattle.method_flow.specs.Flow.{IsCodedOf};
ghost use Rattle.method_flow.specs.Graphs.{IsGraphBy, IsGraphOf};
ghost use Rattle.flow_graph.specs.Where.{IsEdgeWhere};
ghost use Rattle.flow_graph.specs.Numbering.{IsCompactOf};
ghost use Rattle.flow_graph.specs.MethodGraphs.{IsMethodGraph};

mod edges;
mod handlers;
pub mod laws;
mod leads;
mod numbering;
mod reach;
mod sorting;
mod whole;

use base::NoMemory;
use loop_nest::Graph;
use method_flow::FlowMethod;
pub use numbering::{Compact, MethodGraph};
use numbering::{compacted, placed};
pub use reach::{push_targets, spans};
use std::alloc::Global;
use whole::method_graph;

/// The graph of a method, on two numbers for each byte of its code: the instruction at place p has the number 2p, and the
/// raise step at it 2p + 1. What node 0 doesn't reach has no edge and is no exit.
pub fn whole_graph(alloc: Global, m: &FlowMethod) -> Result<Graph, NoMemory>
    ensures graph { IfOk result (λ g. (P : Program) (n : ℕ) → IsCodedOf P n m.now → IsGraphOf P n g) }
    ensures nodes { IfOk result (λ g. g.nodes ≡ 2 * length m.now.code) }
{
    laws::graphs_where_all_go_on();
    let calls = m.calls();
    let goes = vec![in alloc; true; calls.len()]?;
    graph_where(alloc, m, &goes)
}

/// The same where a call whose flag is false doesn't go on to the instruction behind it. It keeps its raise step.
pub fn graph_where(alloc: Global, m: &FlowMethod, goes: &[bool]) -> Result<Graph, NoMemory>
    requires { length goes.now ≡ length m.now.calls }
    ensures graph { IfOk result (λ g. (P : Program) (n : ℕ) → IsCodedOf P n m.now → IsGraphBy (IsEdgeWhere P n m.now.calls goes.now) P n g) }
    ensures nodes { IfOk result (λ g. g.nodes ≡ 2 * length m.now.code) }
{
    method_graph(alloc, m, goes)
}

/// The nodes that node 0 reaches, numbered anew in their order without gaps, with their edges and exits.
pub fn compact(alloc: Global, g: &Graph) -> Result<Compact, NoMemory>
    ensures { IfOk result (IsCompactOf g.now) }
{
    compacted(alloc, g)
}

/// The graph of a method on its reached nodes alone, by place, an instruction before its raise step.
pub fn graph_of(alloc: Global, m: &FlowMethod) -> Result<MethodGraph, NoMemory>
    ensures { IfOk result (λ g. (P : Program) (n : ℕ) → IsCodedOf P n m.now → IsMethodGraph P n g) }
{
    let whole = whole_graph(alloc, m)?;
    placed(alloc, compacted(alloc, &whole)?)
}
