//! Places of a method's code, and what a line says of them.
ghost use Rattle.std.specs.Prelude.{◌≡◌, ◌↔◌, ◌<◌, length, IfOk, IsTrue};
ghost use Rattle.opcodes.specs.Instruction.{decoded};
ghost use Rattle.opcodes.specs.Start.{IsStart, starts_of};
ghost use Rattle.flow_graph.specs.Edges.{raises_in};
ghost use Rattle.flow_facts.specs.Lines.{node_of};
ghost use Rattle.fact_names.specs.Found.{ArePlacesOf, IsFoundBy, IsLoopScopeBy, IsNodeIn, IsScopeBy};

use crate::loops::Loops;
use base::NoMemory;
use flow_facts::{NodeName, SaidScope, Scope, TotalLine};
use flow_graph::whole_graph;
use method_flow::FlowMethod;
use opcodes::{decode, raises, starts};
use std::alloc::Global;

/// Whether an instruction of the code begins at a place.
fn is_start(code: &[u8], starts: &[u32], place: u32) -> bool
    requires { starts.now ≡ starts_of code.now }
    ensures { IsTrue result ↔ IsStart code.now place }
{
    opcodes::laws::starts_follow_one_another();
    starts.binary_search(&place).is_ok()
}

/// Whether the instruction at a place may raise.
fn may_raise(code: &[u8], place: u32) -> bool
    requires inside { place < length code.now }
    requires short { length code.now < 65536 }
    ensures { result ≡ raises_in (decoded code.now place) }
{
    match decode(code, place) {
        Ok(instr) => raises(instr.op),
        Err(_) => false,
    }
}

/// Whether the code has a node.
fn has_node(code: &[u8], starts: &[u32], node: NodeName) -> bool
    requires starts { starts.now ≡ starts_of code.now }
    requires short { length code.now < 65536 }
    ensures { IsTrue result ↔ IsNodeIn code.now node }
{
    opcodes::laws::starts_follow_one_another();
    match node {
        NodeName::Instruction(place) => is_start(code, starts, place),
        NodeName::RaiseStep(place) => is_start(code, starts, place) && may_raise(code, place),
    }
}

/// The number of a node in the method's graph.
fn node_number(node: NodeName) -> u32
    requires { node_of node < 131072 }
    ensures { result ≡ node_of node }
{
    match node {
        NodeName::Instruction(place) => 2 * place,
        NodeName::RaiseStep(place) => 2 * place + 1,
    }
}

/// The scope that a line says, where it is one of the method's own activations and has the node.
fn scope_of(
    alloc: Global,
    loops: &mut Loops,
    node: u32,
    said: &SaidScope,
) -> Result<Option<Scope>, NoMemory>
    requires { node < loops.old.nodes }
    ensures kept { loops.new ≡ loops.old }
    ensures scope { IfOk result (IsScopeBy loops.old node said.now) }
{
    match said {
        SaidScope::Alone => Ok(Some(Scope::Own)),
        SaidScope::PerLoop(place) => per_loop(alloc, loops, node, *place),
        SaidScope::InMethod(_) => Ok(None),
    }
}

/// The scope of a node in the stays in a loop, where the loop has it.
fn per_loop(
    alloc: Global,
    loops: &mut Loops,
    node: u32,
    place: u32,
) -> Result<Option<Scope>, NoMemory>
    requires { node < loops.old.nodes }
    ensures kept { loops.new ≡ loops.old }
    ensures scope { IfOk result (IsLoopScopeBy loops.old node place) }
{
    // The number of a place behind the code may be past 32 bits.
    let header = 2 * u64::from(place);
    if header >= u64::from(loops.nodes()) {
        return Ok(None);
    }
    if loops.has(alloc, header as u32, node)? {
        Ok(Some(Scope::Per(place)))
    } else {
        Ok(None)
    }
}

/// What lines may name of a method: the places at which its instructions begin, and the loops of its graph.
#[derive(Drop)]
pub(crate) struct Places {
    pub starts: Vec<u32>,
    pub loops: Loops,
}

/// What lines may name of a method.
pub(crate) fn places_of(alloc: Global, k: &FlowMethod) -> Result<Places, NoMemory>
    ensures { IfOk result (λ places. ArePlacesOf k.now places.starts.items places.loops) }
{
    let starts = starts(alloc, k.code())?;
    let loops = Loops::new(alloc, whole_graph(alloc, k)?)?;
    Ok(Places { starts, loops })
}

/// The node and the scope that a line says of a method, where the method has both.
pub(crate) fn node_in(
    alloc: Global,
    k: &FlowMethod,
    places: &mut Places,
    total: &TotalLine,
) -> Result<Option<(u32, Scope)>, NoMemory>
    requires { ArePlacesOf k.now places.old.starts.items places.old.loops }
    ensures kept { ArePlacesOf k.now places.new.starts.items places.new.loops }
    ensures found { IfOk result (IsFoundBy k.now.code places.old.loops total.now) }
{
    opcodes::laws::starts_follow_one_another();
    if !has_node(k.code(), &places.starts, total.node) {
        return Ok(None);
    }
    let node = node_number(total.node);
    match scope_of(alloc, &mut places.loops, node, &total.scope)? {
        Some(scope) => Ok(Some((node, scope))),
        None => Ok(None),
    }
}
