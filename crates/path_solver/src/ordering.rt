//! An order of the nodes in which every edge but the back edges leads from a node to a later one.
ghost use Rattle.std.specs.Prelude.{◌≡◌, ℕ, ◌+◌, ◌^◌, ◌<◌, ◌≤◌, ◌↔◌, ◌==◌, List, [], ◌∷◌, length, map, All, Contains, count_by, slice_index, IfOk, OnOk};
ghost use Rattle.std.specs.Prelude.{IsTrue, MatchOption, true, false};
ghost use Rattle.std.specs.List.Sorted.{IsStrictlyIncreasing};
ghost use Rattle.loop_nest.specs.Nest.{headers_of};
ghost use Rattle.loop_nest.specs.Walks.{Walk};
ghost use Rattle.path_solver.specs.Reaching.{IsFlagged};
ghost use Rattle.path_solver.specs.Ordering.{AreLoops, IsHeadedAt, NoLoopHas, ClosesLoop, AreTaken, AreApart, AreStarts, AreCountedDown, graph_of};
ghost use Rattle.path_solver.specs.Ordering.{IsForwardOrder};

use loop_nest::digraph::{Sources, arrivals, turned};
use loop_nest::loops::Loop;
use std::alloc::{AllocError, Global};

/// The number of the loop that `u` heads.
pub fn headed_loop(loops: &[Loop], u: u32) -> Option<usize>
    requires { IsStrictlyIncreasing (headers_of loops.now) }
    ensures { MatchOption result (NoLoopHas loops.now u) (IsHeadedAt loops.now u) }
{
    let i = loops.partition_point(|l| l.header() < u);
    if i < loops.len() && loops[i].header() == u {
        Some(i)
    } else {
        None
    }
}

/// Whether `u` is among these nodes.
fn has(nodes: &[u32], u: u32) -> bool
    requires { IsStrictlyIncreasing nodes.now }
    ensures { IsTrue result ↔ Contains nodes.now u }
{
    nodes.binary_search(&u).is_ok()
}

/// Whether an edge from `u` to `v` closes a loop: `v` heads a loop that has `u`.
fn closes_loop(loops: &[Loop], u: u32, v: u32) -> bool
    requires { AreLoops loops.now }
    ensures { IsTrue result ↔ ClosesLoop loops.now u v }
{
    match headed_loop(loops, v) {
        Some(i) => has(loops[i].members(), u),
        None => false,
    }
}

/// The edges to listed nodes: those that close no loop, and those that do.
#[derive(Drop)]
pub struct TakenEdges {
    pub onward: Vec<(u32, u32)>,
    pub backward: Vec<(u32, u32)>,
}

/// Of these edges those to listed nodes.
pub fn taken(
    alloc: Global,
    edges: &[(u32, u32)],
    loops: &[Loop],
    listed: &[bool],
) -> Result<TakenEdges, AllocError>
    requires loops { AreLoops loops.now }
    requires within { All (λ e. e.1 < length listed.now) edges.now }
    ensures onward { IfOk result (λ t. AreTaken edges.now loops.now listed.now false t.onward.items) }
    ensures backward { IfOk result (λ t. AreTaken edges.now loops.now listed.now true t.backward.items) }
{
    let mut onward = Vec::new(alloc);
    let mut backward = Vec::new(alloc);
    for i in 0..edges.len() {
        let (u, v) = edges[i];
        if !listed[v as usize] {
            continue;
        }
        if closes_loop(loops, u, v) {
            backward.push((u, v))?;
        } else {
            onward.push((u, v))?;
        }
    }
    Ok(TakenEdges { onward, backward })
}

/// The listed nodes for which no edge is waited for.
fn starts(alloc: Global, listed: &[bool], waiting: &[usize]) -> Result<Vec<u32>, AllocError>
    requires few { length listed.now < 2 ^ 32 }
    requires same { length waiting.now ≡ length listed.now }
    ensures { IfOk result (λ us. AreStarts listed.now waiting.now (length listed.now) us.items) }
{
    let mut nodes = Vec::new(alloc);
    for u in 0..listed.len() {
        if listed[u] && waiting[u] == 0 {
            nodes.push(u as u32)?;
        }
    }
    Ok(nodes)
}

/// Counts off an edge to each of these nodes, and adds those for which none is waited for any more.
fn count_down(
    targets: &[u32],
    waiting: &mut [usize],
    order: &mut Vec<u32>,
) -> Result<(), AllocError>
    requires within { All (λ v. v < length waiting.old) targets.now }
    requires enough { (v : ℕ) → count_by (λ x. x == v) targets.now ≤ slice_index waiting.old v }
    requires counted { (v : ℕ) → Contains order.old.items v → slice_index waiting.old v ≡ 0 }
    requires apart { AreApart order.old.items }
    ensures { OnOk result (AreCountedDown targets.now waiting.old waiting.new order.old.items order.new.items) }
{
    for v in targets {
        let left = waiting[*v as usize] - 1;
        waiting[*v as usize] = left;
        if left == 0 {
            order.push(*v)?;
        }
    }
    Ok(())
}

/// The listed nodes, each behind those from which one of these edges leads to it.
pub fn forward_order(
    alloc: Global,
    listed: &[bool],
    edges: &[(u32, u32)],
) -> Result<Vec<u32>, AllocError>
    requires few { length listed.now < 2 ^ 32 }
    requires targets { (u v : ℕ) → Contains edges.now (u, v) → IsFlagged listed.now v }
    requires sources { (u v : ℕ) → Contains edges.now (u, v) → IsFlagged listed.now u }
    requires acyclic { (u v : ℕ) (ns : List ℕ) → Contains edges.now (u, v) → ¬ Walk (graph_of (length listed.now) edges.now) v u ns }
    ensures { IfOk result (λ order. IsForwardOrder listed.now edges.now order.items) }
{
    let nodes = listed.len();
    let turned = turned(alloc, edges)?;
    let targets = Sources::by_target(alloc, nodes, &turned)?;
    let mut waiting = arrivals(alloc, nodes, edges)?;
    let mut order = starts(alloc, listed, &waiting)?;
    for i in 0..nodes {
        if i < order.len() {
            let u = order[i];
            count_down(targets.of(u), &mut waiting, &mut order)?;
        }
    }
    Ok(order)
}
