//! The edges of a method's code, by number.
ghost use Rattle.std.specs.Prelude.{◌≡◌, ◌<◌, length, filter, All, IfOk, OnOk};
ghost use Rattle.opcodes.specs.Instruction.{decoded};
ghost use Rattle.opcodes.specs.Start.{IsStart, starts_of};
ghost use Rattle.flow_graph.specs.Edges.{raises_in, AreCodeEdges, IsEdgeFrom, IsEdgeWhereOn, IsLeadEdge, Leads};
ghost use Rattle.flow_graph.specs.Growing.{Grows};
ghost use Rattle.flow_graph.specs.Raising.{IsRaiseEdge, IsRaisingEdge};
ghost use Rattle.flow_graph.specs.Where.{AreGoingOn, noted};

use super::handlers::add_handlers;
use super::leads::add_leads;
use super::sorting::rising_edges;
use base::NoMemory;
use method_flow::{Call, FlowMethod};
use opcodes::{decode, raises, starts};
use std::alloc::Global;

/// Notes whether a call goes on at its place.
fn note(flags: &mut Vec<bool>, call: Call, goes: bool)
    requires { call.place < length flags.old.items }
    ensures { flags.new.items ≡ noted flags.old.items call goes }
{
    if !goes {
        flags[call.place as usize] = false;
    }
}

/// For each place of a code whether the calls there go on.
fn going_on(
    alloc: Global,
    size: usize,
    calls: &[Call],
    goes: &[bool],
) -> Result<Vec<bool>, NoMemory>
    requires flags { length goes.now ≡ length calls.now }
    requires within { All (λ c. c.place < size) calls.now }
    ensures { IfOk result (λ flags. AreGoingOn calls.now goes.now size flags.items) }
{
    let mut flags = vec![in alloc; true; size]?;
    for i in 0..calls.len() {
        note(&mut flags, calls[i], goes[i]);
    }
    Ok(flags)
}

/// Adds the edges from an instruction to where it leads without a raise.
fn add_from(m: &FlowMethod, pc: u32, edges: &mut Vec<(u32, u32)>) -> Result<(), NoMemory>
    requires { IsStart m.now.code pc }
    ensures { OnOk result (Grows edges.old.items edges.new.items (IsEdgeFrom pc (Leads m.now.code pc))) }
{
    opcodes::laws::starts_follow_one_another();
    let code = m.code();
    match decode(code, pc) {
        Ok(instr) => add_leads(code, pc, &instr, edges),
        Err(_) => Ok(()),
    }
}

/// The same where the calls at the instruction go on.
fn add_where(
    m: &FlowMethod,
    pc: u32,
    goes_on: bool,
    edges: &mut Vec<(u32, u32)>,
) -> Result<(), NoMemory>
    requires { IsStart m.now.code pc }
    ensures { OnOk result (Grows edges.old.items edges.new.items (IsEdgeWhereOn goes_on pc (Leads m.now.code pc))) }
{
    if goes_on {
        add_from(m, pc, edges)
    } else {
        Ok(())
    }
}

/// Adds the edges from the instructions that begin at these places to where they lead without a raise, where the calls go on.
fn add_going_on(
    m: &FlowMethod,
    goes: &[bool],
    starts: &[u32],
    flags: &[bool],
    edges: &mut Vec<(u32, u32)>,
) -> Result<(), NoMemory>
    requires starts { starts.now ≡ starts_of m.now.code }
    requires flags { AreGoingOn m.now.calls goes.now (length m.now.code) flags.now }
    ensures { OnOk result (Grows edges.old.items edges.new.items (IsLeadEdge m.now goes.now)) }
{
    opcodes::laws::starts_follow_one_another();
    for pc in starts {
        add_where(m, *pc, flags[*pc as usize], edges)?;
    }
    Ok(())
}

/// Adds the edges from instructions to where they lead without a raise, where the calls go on.
fn add_all_leads(
    alloc: Global,
    m: &FlowMethod,
    goes: &[bool],
    starts: &[u32],
    edges: &mut Vec<(u32, u32)>,
) -> Result<(), NoMemory>
    requires flags { length goes.now ≡ length m.now.calls }
    requires starts { starts.now ≡ starts_of m.now.code }
    ensures { OnOk result (Grows edges.old.items edges.new.items (IsLeadEdge m.now goes.now)) }
{
    opcodes::laws::starts_follow_one_another();
    let code = m.code();
    let calls = m.calls();
    let flags = going_on(alloc, code.len(), calls, goes)?;
    add_going_on(m, goes, starts, &flags, edges)
}

/// Whether the instruction at a place may raise.
fn may_raise(code: &[u8], pc: u32) -> bool
    requires inside { pc < length code.now }
    requires short { length code.now < 65536 }
    ensures { result ≡ raises_in (decoded code.now pc) }
{
    // Most opcodes don't, and neither do those behind `wide`.
    if !raises(code[pc as usize]) {
        return false;
    }
    match decode(code, pc) {
        Ok(instr) => raises(instr.op),
        Err(_) => false,
    }
}

/// The places of the instructions that may raise, rising.
fn raising(alloc: Global, code: &[u8], starts: &[u32]) -> Result<Vec<u32>, NoMemory>
    requires inside { All (λ p. p < length code.now) starts.now }
    requires short { length code.now < 65536 }
    ensures { IfOk result (λ places. places.items ≡ filter (λ p. raises_in (decoded code.now p)) starts.now) }
{
    let mut places = Vec::new(alloc);
    for pc in starts {
        if may_raise(code, *pc) {
            places.push(*pc)?;
        }
    }
    Ok(places)
}

/// Adds the edges from the instructions at these places to their raise steps.
fn add_raise_steps(places: &[u32], edges: &mut Vec<(u32, u32)>) -> Result<(), NoMemory>
    requires { All (λ p. p < 65536) places.now }
    ensures { OnOk result (Grows edges.old.items edges.new.items (IsRaiseEdge places.now)) }
{
    for place in places {
        edges.push((2 * *place, 2 * *place + 1))?;
    }
    Ok(())
}

/// Adds the edges to raise steps and from them.
fn add_raises(
    alloc: Global,
    m: &FlowMethod,
    starts: &[u32],
    edges: &mut Vec<(u32, u32)>,
) -> Result<(), NoMemory>
    requires { starts.now ≡ starts_of m.now.code }
    ensures { OnOk result (Grows edges.old.items edges.new.items (IsRaisingEdge m.now)) }
{
    opcodes::laws::starts_follow_one_another();
    let code = m.code();
    let ranges = m.ranges();
    let places = raising(alloc, code, starts)?;
    add_raise_steps(&places, edges)?;
    add_handlers(alloc, &places, ranges, edges)
}

/// The edges of a method's code, rising.
pub fn code_edges(alloc: Global, m: &FlowMethod, goes: &[bool]) -> Result<Vec<(u32, u32)>, NoMemory>
    requires { length goes.now ≡ length m.now.calls }
    ensures { IfOk result (λ edges. AreCodeEdges m.now goes.now edges.items) }
{
    let starts = starts(alloc, m.code())?;
    let mut edges = Vec::with_capacity(alloc, m.code().len())?;
    add_all_leads(alloc, m, goes, &starts, &mut edges)?;
    add_raises(alloc, m, &starts, &mut edges)?;
    Ok(rising_edges(edges))
}
