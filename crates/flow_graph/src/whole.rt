//! The graph of a method, by number of node.
ghost use Rattle.std.specs.Prelude.{◌≡◌, ◌↔◌, ◌*◌, ◌<◌, ℕ, true, length, Contains, IfOk, OnOk};
ghost use Rattle.opcodes.specs.Instruction.{decoded};
ghost use Rattle.opcodes.specs.Row.{row_of};
ghost use Rattle.flow_graph.specs.Edges.{AreCodeEdges, IsExitAt, exits_at, is_return, leaves_at, returns_in};
ghost use Rattle.flow_graph.specs.Growing.{Grows};
ghost use Rattle.flow_graph.specs.Laws.{IsGraphWhere};
ghost use Rattle.flow_graph.specs.Numbering.{edges_from};
ghost use Rattle.flow_graph.specs.Reach.{AreWithin};

use super::edges::code_edges;
use super::laws;
use super::reach::reached;
use super::sorting::graph_from;
use base::NoMemory;
use loop_nest::Graph;
use method_flow::FlowMethod;
use opcodes::{Kind, decode, kind};
use std::alloc::Global;

/// Whether this is the opcode of a return.
fn returns(op: u8) -> bool
    ensures { result ≡ is_return (row_of op).kind }
{
    matches!(kind(op), Kind::Return)
}

/// Whether the instruction at a place is a return.
fn is_return(code: &[u8], pc: u32) -> bool
    requires inside { pc < length code.now }
    requires short { length code.now < 65536 }
    ensures { result ≡ returns_in (decoded code.now pc) }
{
    // Most opcodes aren't, and neither are those behind `wide`.
    if !returns(code[pc as usize]) {
        return false;
    }
    match decode(code, pc) {
        Ok(instr) => returns(instr.op),
        Err(_) => false,
    }
}

/// Whether control may leave a method at the node of this number.
fn is_exit(code: &[u8], node: u32) -> bool
    requires inside { node < 2 * length code.now }
    requires short { length code.now < 65536 }
    ensures { result ≡ leaves_at code.now node }
{
    node % 2 == 1 || is_return(code, node / 2)
}

/// Whether a node is flagged, and control may leave a method there.
fn is_flagged_exit(code: &[u8], flags: &[bool], node: u32) -> bool
    requires short { length code.now < 65536 }
    requires long { length flags.now ≡ 2 * length code.now }
    requires inside { node < length flags.now }
    ensures { result ≡ exits_at code.now flags.now node }
{
    flags[node as usize] && is_exit(code, node)
}

/// Adds a node that is flagged and at which control may leave a method.
fn add_exit(code: &[u8], flags: &[bool], node: u32, exits: &mut Vec<u32>) -> Result<(), NoMemory>
    requires short { length code.now < 65536 }
    requires long { length flags.now ≡ 2 * length code.now }
    requires inside { node < length flags.now }
    ensures { OnOk result (Grows exits.old.items exits.new.items (IsExitAt code.now flags.now node)) }
{
    if is_flagged_exit(code, flags, node) {
        exits.push(node)?;
    }
    Ok(())
}

/// The exits among the flagged nodes.
fn exits(alloc: Global, code: &[u8], flags: &[bool]) -> Result<Vec<u32>, NoMemory>
    requires short { length code.now < 65536 }
    requires long { length flags.now ≡ 2 * length code.now }
    ensures { IfOk result (λ exits. (u : ℕ) → Contains exits.items u ↔ (exits_at code.now flags.now u ≡ true)) }
{
    let mut exits = Vec::new(alloc);
    for node in 0..flags.len() as u32 {
        add_exit(code, flags, node, &mut exits)?;
    }
    Ok(exits)
}

/// The edges from flagged nodes.
fn edges_from(
    alloc: Global,
    edges: &[(u32, u32)],
    flags: &[bool],
) -> Result<Vec<(u32, u32)>, NoMemory>
    requires { AreWithin (length flags.now) edges.now }
    ensures { IfOk result (λ kept. kept.items ≡ edges_from flags.now edges.now) }
{
    let mut kept = Vec::with_capacity(alloc, edges.len())?;
    for edge in edges {
        if flags[edge.0 as usize] {
            kept.push(*edge)?;
        }
    }
    Ok(kept)
}

/// The graph of what the edges reach.
fn cut(
    alloc: Global,
    m: &FlowMethod,
    goes: &[bool],
    edges: &[(u32, u32)],
) -> Result<Graph, NoMemory>
    requires { AreCodeEdges m.now goes.now edges.now }
    ensures graph { IfOk result (IsGraphWhere m.now goes.now) }
    ensures nodes { IfOk result (λ g. g.nodes ≡ 2 * length m.now.code) }
{
    opcodes::laws::starts_follow_one_another();
    laws::code_graphs_are_graphs();
    let code = m.code();
    let nodes = 2 * code.len();
    let flags = reached(alloc, nodes, edges)?;
    let exits = exits(alloc, code, &flags)?;
    let kept = edges_from(alloc, edges, &flags)?;
    Ok(graph_from(nodes as u32, kept, exits))
}

/// The graph of a method where a call whose flag is false doesn't go on.
pub fn method_graph(alloc: Global, m: &FlowMethod, goes: &[bool]) -> Result<Graph, NoMemory>
    requires { length goes.now ≡ length m.now.calls }
    ensures graph { IfOk result (IsGraphWhere m.now goes.now) }
    ensures nodes { IfOk result (λ g. g.nodes ≡ 2 * length m.now.code) }
{
    let edges = code_edges(alloc, m, goes)?;
    cut(alloc, m, goes, &edges)
}
