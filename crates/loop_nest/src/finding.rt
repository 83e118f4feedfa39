//! The loops of a reducible graph.
ghost use Rattle.std.specs.Prelude.{◌≡◌, ◌+◌, ◌^◌, ◌<◌, ◌↔◌, length, IfOk, OnOk};
ghost use Rattle.std.specs.List.Sorted.{IsStrictlyIncreasing};
ghost use Rattle.loop_nest.specs.Digraph.{IsDigraph};
ghost use Rattle.loop_nest.specs.Entered.{AreAllReached, AreBackEdgesTold, AreBackEdges};
ghost use Rattle.loop_nest.specs.Nest.{headers_of, outers_of, IsNest};
ghost use Rattle.loop_nest.specs.Nesting.{AreHeadersBelow, AreHeaderFlags, IsInnermost, HaveOuters, every_node, IsNesting, KeepsOutline, HaveMembersBelow};

use super::digraph::{Graph, Sources};
use super::dominance::dominators_first;
use super::loops::{Loop, Nest};
use super::members::mark;
use std::alloc::{AllocError, Global};

/// The back edges: those that `back` tells, and the edges to node 0.
pub fn back_edges(alloc: Global, g: &Graph, back: &[bool]) -> Result<Vec<(u32, u32)>, AllocError>
    requires { AreBackEdgesTold g.now back.now }
    ensures { IfOk result (λ found. AreBackEdges g.now found.items) }
{
    let mut found = Vec::new(alloc);
    let edges = g.edges();
    for i in 0..edges.len() {
        let (u, v) = edges[i];
        if v == 0 || back[i] {
            found.push((u, v))?;
        }
    }
    Ok(found)
}

/// For each node whether one of these back edges goes to it.
fn header_flags(
    alloc: Global,
    g: &Graph,
    back_edges: &[(u32, u32)],
) -> Result<Vec<bool>, AllocError>
    requires { AreBackEdges g.now back_edges.now }
    ensures { IfOk result (λ flags. AreHeaderFlags g.now flags.items) }
{
    let mut flags = vec![in alloc; false; g.nodes() as usize]?;
    for edge in back_edges {
        let (_u, v) = *edge;
        flags[v as usize] = true;
    }
    Ok(flags)
}

/// A loop for each header, headers rising, without members and outer loops; and for each header the
/// number of its loop.
fn headers(alloc: Global, g: &Graph, flags: &[bool]) -> Result<(Vec<Loop>, Vec<u32>), AllocError>
    requires { AreHeaderFlags g.now flags.now }
    ensures { IfOk result (λ r. AreHeadersBelow g.now g.now.nodes r.0.items r.1.items) }
{
    let mut loops = Vec::new(alloc);
    let mut numbers = Vec::with_capacity(alloc, g.nodes() as usize)?;
    for h in 0..g.nodes() {
        numbers.push(loops.len() as u32)?;
        if flags[h as usize] {
            loops.push(Loop::new(h, Vec::new(alloc), None))?;
        }
    }
    Ok((loops, numbers))
}

/// For each node the number of the innermost loop that has it; sets the outer loop of each loop. Outer
/// loops come first, so that the mark that a header has before its own loop is marked is that of the
/// next loop around it.
fn innermost_loops(
    alloc: Global,
    g: &Graph,
    back_edges: &[(u32, u32)],
    flags: &[bool],
    numbers: &[u32],
    loops: &mut [Loop],
) -> Result<Vec<Option<u32>>, AllocError>
    requires back_edges { AreBackEdges g.now back_edges.now }
    requires reached { AreAllReached g.now }
    requires flags { AreHeaderFlags g.now flags.now }
    requires headers { AreHeadersBelow g.now g.now.nodes loops.old numbers.now }
    ensures { IfOk result (λ marks. IsNesting g.now loops.new marks.items) }
{
    let nodes = g.nodes() as usize;
    let sources = Sources::by_target(alloc, nodes, g.edges())?;
    let starts = Sources::by_target(alloc, nodes, back_edges)?;
    let order = dominators_first(alloc, g)?;
    let mut marks = vec![in alloc; None; nodes]?;
    for h in &order {
        if flags[*h as usize] {
            let number = numbers[*h as usize];
            loops[number as usize].set_outer(marks[*h as usize]);
            mark(alloc, g, &sources, *h, starts.of(*h), number, &mut marks)?;
        }
    }
    Ok(marks)
}

/// The loops with these back edges, headers rising, with their outer loops and without members; and
/// for each node the number of the innermost loop that has it.
fn nesting(
    alloc: Global,
    g: &Graph,
    back_edges: &[(u32, u32)],
) -> Result<(Vec<Loop>, Vec<Option<u32>>), AllocError>
    requires back_edges { AreBackEdges g.now back_edges.now }
    requires reached { AreAllReached g.now }
    ensures { IfOk result (λ r. IsNesting g.now r.0.items r.1.items) }
{
    let flags = header_flags(alloc, g, back_edges)?;
    let (mut loops, numbers) = headers(alloc, g, &flags)?;
    let marks = innermost_loops(alloc, g, back_edges, &flags, &numbers, &mut loops)?;
    Ok((loops, marks))
}

/// Adds the node `x` to the loops that have it, from the innermost one outwards.
fn add_to_loops(
    g: &Graph,
    x: u32,
    innermost: Option<u32>,
    loops: &mut [Loop],
) -> Result<(), AllocError>
    requires valid { IsDigraph g.now }
    requires reached { AreAllReached g.now }
    requires inside { x < g.now.nodes }
    requires rising { IsStrictlyIncreasing (headers_of loops.old) }
    requires innermost { IsInnermost g.now every_node (headers_of loops.old) x innermost }
    requires outers { HaveOuters g.now every_node (headers_of loops.old) (outers_of loops.old) }
    requires members { HaveMembersBelow g.now x loops.old }
    ensures outline { OnOk result (KeepsOutline loops.old loops.new) }
    ensures members { OnOk result (HaveMembersBelow g.now (x + 1) loops.new) }
{
    let mut next = innermost;
    while let Some(number) = next {
        loops[number as usize].add_member(x)?;
        next = loops[number as usize].outer();
    }
    Ok(())
}

/// Adds to each loop its members, rising.
fn add_members(g: &Graph, innermost: &[Option<u32>], loops: &mut [Loop]) -> Result<(), AllocError>
    requires valid { IsDigraph g.now }
    requires reached { AreAllReached g.now }
    requires nesting { IsNesting g.now loops.old innermost.now }
    ensures { OnOk result (IsNest g.now loops.new) }
{
    for x in 0..g.nodes() {
        add_to_loops(g, x, innermost[x as usize], loops)?;
    }
    Ok(())
}

/// The loops with these back edges. A graph without back edges has none.
pub fn nest_by(alloc: Global, g: &Graph, back_edges: &[(u32, u32)]) -> Result<Nest, AllocError>
    requires valid { IsDigraph g.now }
    requires back_edges { AreBackEdges g.now back_edges.now }
    requires reached { AreAllReached g.now }
    ensures { IfOk result (IsNest g.now) }
{
    if back_edges.is_empty() {
        return Ok(Nest::new(Vec::new(alloc)));
    }
    let (mut loops, innermost) = nesting(alloc, g, back_edges)?;
    add_members(g, &innermost, &mut loops)?;
    Ok(Nest::new(loops))
}
