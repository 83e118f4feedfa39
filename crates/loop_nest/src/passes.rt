//! The reduction in passes over all nodes. A pass takes one step for each edge that enters a node
//! which is left, and ends the reduction of a graph without loops; loops take a pass for each depth.
//! The last pass merges none, which shows that none can be merged.
ghost use Rattle.std.specs.Prelude.{◌≡◌, ◌^◌, ◌<◌, ℕ, length, map, All, Contains, IfOk, OnOk, IfSome, IfNone};
ghost use Rattle.std.specs.Bool.{OnTrue, OnFalse};
ghost use Rattle.loop_nest.specs.Digraph.{IsDigraph};
ghost use Rattle.loop_nest.specs.Classes.{NoneCanMerge};
ghost use Rattle.loop_nest.specs.Entered.{class_of, names as names_in, edge_at, IsEnteredFromOne, IsClassList, AreBackEdgesMarked};
ghost use Rattle.loop_nest.specs.Pointers.{AreFollowed, DoEnd, ArePointers, AreIncoming, IsNameOf, AreNumbered, IsScanned, KeepsMarks, AreNames, CannotMerge};
ghost use Rattle.loop_nest.specs.Pointers.{AreFlags, AreAllNodes};

use super::digraph::{Graph, Sources, targets};
use super::merging::{Entered, unmerged};
use std::alloc::{AllocError, Global};

/// A node on a depth-first walk, and how many of its targets the walk has tried.
#[derive(Clone, Copy)]
struct Visit {
    node: u32,
    tried: usize,
}

/// The node that gives `u` its name.
fn look(into: &[u32], u: u32) -> u32
    requires within { All (λ a. a < length into.now) into.now }
    requires inside { u < length into.now }
    requires ends { DoEnd into.now }
    ensures below { result < length into.now }
    ensures name { IsNameOf into.now u result }
    ensures left { class_of into.now result ≡ result }
{
    let mut at = u;
    for _ in 0..into.len() {
        let next = into[at as usize];
        if next == at {
            return at;
        }
        at = next;
    }
    at
}

/// The name of each node.
fn names(alloc: Global, into: &[u32]) -> Result<Vec<u32>, AllocError>
    requires within { All (λ a. a < length into.now) into.now }
    requires few { length into.now < 2 ^ 32 }
    requires ends { DoEnd into.now }
    ensures { IfOk result (λ class. AreNames into.now class.items) }
{
    let mut class = Vec::with_capacity(alloc, into.len())?;
    for u in 0..into.len() {
        class.push(look(into, u as u32))?;
    }
    Ok(class)
}

/// The node from which alone `x` is entered by these edges, if there is one. Marks the edges that
/// begin among the nodes merged into `x`.
fn scan(
    edges: &[(u32, u32)],
    into: &[u32],
    numbers: &[u32],
    x: u32,
    back: &mut [bool],
) -> Option<u32>
    requires ends { All (λ e. (e.0 < length into.now) × (e.1 < length into.now)) edges.now }
    requires within { All (λ a. a < length into.now) into.now }
    requires pointers { DoEnd into.now }
    requires inside { x < length into.now }
    requires left { class_of into.now x ≡ x }
    requires numbers { All (λ i. i < length edges.now) numbers.now }
    requires to_x { (i : ℕ) → Contains numbers.now i → (edge_at edges.now i).1 ≡ x }
    requires long { length back.old ≡ length edges.now }
    ensures scanned { IfSome result
        (λ p. (c : ℕ → ℕ) → AreFollowed c into.now → IsScanned edges.now c numbers.now p x back.new) }
    ensures left { IfSome result (λ p. class_of into.now p ≡ p) }
    ensures none { IfNone result
        ((c : ℕ → ℕ) → AreFollowed c into.now → (p : ℕ) → ¬ IsEnteredFromOne (map (edge_at edges.now) numbers.now) c p x) }
    ensures kept { KeepsMarks edges.now x back.old back.new }
{
    let mut entered = Entered::Nowhere;
    for number in numbers {
        let i = *number as usize;
        let source = look(into, edges[i].0);
        back[i] = source == x;
        if source != x {
            entered = entered.and_from(source);
        }
    }
    match entered {
        Entered::From(p) => Some(p),
        _ => None,
    }
}

/// The edges' numbers, with their targets.
fn numbered(alloc: Global, edges: &[(u32, u32)]) -> Result<Vec<(u32, u32)>, AllocError>
    requires { length edges.now < 2 ^ 32 }
    ensures { IfOk result (λ numbered. AreNumbered edges.now numbered.items) }
{
    let mut numbered = Vec::with_capacity(alloc, edges.len())?;
    for i in 0..edges.len() {
        numbered.push((i as u32, edges[i].1))?;
    }
    Ok(numbered)
}

/// Merges the node `x`, if it is left and can be merged. Answers whether it was.
fn merge_one(g: &Graph, numbers: &Sources, into: &mut [u32], back: &mut [bool], x: u32) -> bool
    requires valid { IsDigraph g.now }
    requires numbers { AreIncoming g.now numbers.now }
    requires pointers { ArePointers g.now into.old back.old }
    requires below { x < g.now.nodes }
    ensures pointers { ArePointers g.now into.new back.new }
    ensures fewer { OnTrue result (length (names_in into.new) < length (names_in into.old)) }
    ensures kept { OnFalse result (into.new ≡ into.old) }
    ensures none { OnFalse result (CannotMerge g.now into.old x) }
{
    if x == 0 || into[x as usize] != x {
        return false;
    }
    match scan(g.edges(), into, numbers.of(x), x, back) {
        Some(p) => {
            into[x as usize] = p;
            true
        }
        None => false,
    }
}

/// Merges each node that is left and can be merged, in this order. Answers whether there was one.
fn pass(g: &Graph, numbers: &Sources, order: &[u32], into: &mut [u32], back: &mut [bool]) -> bool
    requires valid { IsDigraph g.now }
    requires numbers { AreIncoming g.now numbers.now }
    requires order { All (λ x. x < g.now.nodes) order.now }
    requires pointers { ArePointers g.now into.old back.old }
    ensures pointers { ArePointers g.now into.new back.new }
    ensures fewer { OnTrue result (length (names_in into.new) < length (names_in into.old)) }
    ensures kept { OnFalse result (into.new ≡ into.old) }
    ensures none { OnFalse result ((x : ℕ) → Contains order.now x → CannotMerge g.now into.old x) }
{
    let mut merged = false;
    for x in order {
        if merge_one(g, numbers, into, back, *x) {
            merged = true;
        }
    }
    merged
}

/// One step of a depth-first walk, at this visit: on to the next target, where the walk hasn't seen
/// it; or back, where the visit has tried each target, and then the node comes next in the postorder.
fn step(
    targets: &Sources,
    visit: Visit,
    seen: &mut [bool],
    stack: &mut Vec<Visit>,
    order: &mut Vec<u32>,
) -> Result<(), AllocError>
    requires targets { length targets.now ≡ length seen.old }
    requires visit { visit.node < length seen.old }
    requires stack { All (λ s. s.node < length seen.old) stack.old.items }
    requires order { All (λ x. x < length seen.old) order.old.items }
    ensures stack { OnOk result (All (λ s. s.node < length seen.old) stack.new.items) }
    ensures order { OnOk result (All (λ x. x < length seen.old) order.new.items) }
{
    let Some(v) = targets.of(visit.node).get(visit.tried).copied() else {
        order.push(visit.node)?;
        return Ok(());
    };
    stack.push(Visit {
        node: visit.node,
        tried: visit.tried + 1,
    })?;
    if (v as usize) < seen.len() && !seen[v as usize] {
        seen[v as usize] = true;
        stack.push(Visit { node: v, tried: 0 })?;
    }
    Ok(())
}

/// The nodes that a depth-first walk from node 0 reaches, in postorder. Marks them as seen.
fn postorder(alloc: Global, targets: &Sources, seen: &mut [bool]) -> Result<Vec<u32>, AllocError>
    requires targets { length targets.now ≡ length seen.old }
    requires entry { 0 < length seen.old }
    ensures { IfOk result (λ order. All (λ x. x < length seen.old) order.items) }
{
    let mut stack = Vec::new(alloc);
    let mut order = Vec::new(alloc);
    stack.push(Visit { node: 0, tried: 0 })?;
    seen[0] = true;
    for _ in 0..u64::MAX {
        let Some(visit) = stack.pop() else {
            break;
        };
        step(targets, visit, seen, &mut stack, &mut order)?;
    }
    Ok(order)
}

/// The nodes that are reached from node 0, in the reverse postorder of a depth-first walk: a node
/// stands behind those that lead to it, but for the sources of edges that close a cycle.
fn depth_first(alloc: Global, g: &Graph) -> Result<Vec<u32>, AllocError>
    ensures { IfOk result (λ order. All (λ x. x < g.now.nodes) order.items) }
{
    let targets = targets(alloc, g)?;
    let mut seen = vec![in alloc; false; g.nodes() as usize]?;
    let mut order = postorder(alloc, &targets, &mut seen)?;
    order.reverse();
    Ok(order)
}

/// For each of `nodes` nodes whether it is one of these.
fn flags_of(alloc: Global, nodes: usize, us: &[u32]) -> Result<Vec<bool>, AllocError>
    requires { All (λ u. u < nodes) us.now }
    ensures { IfOk result (λ flags. AreFlags us.now nodes flags.items) }
{
    let mut flags = vec![in alloc; false; nodes]?;
    for u in us {
        flags[*u as usize] = true;
    }
    Ok(flags)
}

/// These nodes, and behind them the others of `nodes` nodes.
fn with_others(alloc: Global, nodes: u32, order: Vec<u32>) -> Result<Vec<u32>, AllocError>
    requires { All (λ u. u < nodes) order.items }
    ensures { IfOk result (λ all. AreAllNodes nodes all.items) }
{
    let among = flags_of(alloc, nodes as usize, &order)?;
    let mut all = order;
    for u in 0..nodes {
        if !among[u as usize] {
            all.push(u)?;
        }
    }
    Ok(all)
}

/// The numbers of the edges to each node. There is no memory for more edges than 32 bits number.
fn incoming(alloc: Global, g: &Graph) -> Result<Sources, AllocError>
    ensures { IfOk result (AreIncoming g.now) }
{
    let edges = g.edges();
    if edges.len() > u32::MAX as usize {
        return Err(AllocError);
    }
    let numbered = numbered(alloc, edges)?;
    let numbers = Sources::by_target(alloc, g.nodes() as usize, &numbered)?;
    Ok(numbers)
}

/// The end of the reduction: for each node the node into which it is merged, and for each edge to a
/// node that is merged whether it is a back edge.
pub fn reduced(alloc: Global, g: &Graph) -> Result<(Vec<u32>, Vec<bool>), AllocError>
    ensures classes { IfOk result (λ r. IsClassList g.now r.0.items) }
    ensures none { IfOk result (λ r. NoneCanMerge g.now (class_of r.0.items)) }
    ensures valid { IfOk result (λ _. IsDigraph g.now) }
    ensures marked { IfOk result (λ r. AreBackEdgesMarked g.now r.0.items r.1.items) }
{
    let numbers = incoming(alloc, g)?;
    let order = with_others(alloc, g.nodes(), depth_first(alloc, g)?)?;
    let (mut class, mut back) = unmerged(alloc, g)?;
    while pass(g, &numbers, &order, &mut class, &mut back) {
        class = names(alloc, &class)?;
    }
    Ok((class, back))
}
