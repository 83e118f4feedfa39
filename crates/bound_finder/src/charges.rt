//! The bounds of the loops of a method, and which of them are charged the loads of what may run in them.
ghost use Rattle.std.specs.Prelude.{◌≡◌, ◌*◌, ◌<◌, ℕ, List, None, length, map, is_some, unwrap_or, slice_index, slice_index_or, false, true, All, IfOk, IfErr};
ghost use Rattle.std.specs.Prelude.{MatchBool, MatchOption};
ghost use Rattle.loop_nest.specs.Nest.{headers_of};
ghost use Rattle.compact_walks.specs.Moving.{moved_nest};
ghost use Rattle.bound_finder.specs.Known.{bounds_in, ForEach};
ghost use Rattle.path_solver.specs.Reaching.{IsFlagged};
ghost use Rattle.path_solver.specs.Regions.{AreRegionsApart};
ghost use Rattle.compact_walks.specs.Charging.{AreMarked, AreOutermost};
ghost use Rattle.method_flow.specs.declared.flow.Call.{Call};
ghost use Rattle.method_flow.specs.Flow.{IsCoded};
ghost use Rattle.bound_finder.specs.Prepared.{AreAllSome, AreBounds, AreCallNodes, AreCallNodesOf};
ghost use Rattle.bound_finder.specs.Prepared.{AreCandidates, AreChargesOf, IsCallAt, IsCandidate, IsNoneOf};
ghost use Rattle.bound_finder.specs.Prepared.{IsShapeOf, IsUnbounded, node_of};
ghost use Rattle.loop_nest.specs.Digraph.{Digraph};

use super::shape::Shape;
use super::task::Task;
use base::NoMemory;
use bound_rules::BoundRefusal;
use call_regions::{Region, loop_region};
use compact_walks::laws::outermost_are_apart;
use compact_walks::{numbers, outermost};
use loop_nest::loops::Loop;
use method_flow::laws::rows_are_of_their_kinds;
use method_flow::{Call, FlowMethod};
use node_costs::{bounds_of_headers, loads};
use opcodes::laws::starts_follow_one_another;
use std::alloc::Global;

/// Which loops of a nest are charged at each entry, and the loads of each of these.
#[derive(Drop)]
pub struct Charges {
    pub flags: Vec<bool>,
    pub loads: Vec<u64>,
}

/// The headers of the loops, by the numbers of nodes.
fn headers(alloc: Global, s: &Shape) -> Result<Vec<u32>, NoMemory>
    requires { (g : Digraph) × IsShapeOf g s.now }
    ensures { IfOk result (λ v. v.items ≡ headers_of (moved_nest (node_of s.now) s.now.nest)) }
{
    let mut headers = Vec::new(alloc);
    for l in s.nest.loops() {
        headers.push(s.nodes.as_slice()[l.header() as usize])?;
    }
    Ok(headers)
}

/// The first of these that is none.
fn first_none(found: &[Option<u32>]) -> Option<usize>
    ensures { MatchOption result (AreAllSome found.now) (λ i. (i < length found.now) × (slice_index_or found.now i None ≡ None)) }
{
    for i in 0..found.len() {
        if found[i].is_none() {
            return Some(i);
        }
    }
    None
}

/// The bounds that are there, and 0 for the others.
fn bounds_or_none(alloc: Global, found: &[Option<u32>]) -> Result<Vec<u32>, NoMemory>
    ensures { IfOk result (λ v. v.items ≡ map (λ o. unwrap_or o 0) found.now) }
{
    let mut bounds = Vec::new(alloc);
    for bound in found {
        bounds.push(bound.unwrap_or(0))?;
    }
    Ok(bounds)
}

/// The bounds, where each of the loops has one; else the first place that lacks one.
fn all_bounds(
    alloc: Global,
    m: u32,
    headers: &[u32],
    found: &[Option<u32>],
) -> Result<Vec<u32>, BoundRefusal>
    requires { length found.now ≡ length headers.now }
    ensures bounds { IfOk result (λ v. AreAllSome found.now × (v.items ≡ map (λ o. unwrap_or o 0) found.now)) }
    ensures cause { IfErr result (IsNoneOf m headers.now found.now) }
{
    if let Some(i) = first_none(found) {
        return Err(BoundRefusal::MissingBound(m, headers[i] / 2));
    }
    match bounds_or_none(alloc, found) {
        Ok(bounds) => Ok(bounds),
        Err(NoMemory) => Err(BoundRefusal::NoMemory),
    }
}

/// The bounds of the loops of the method `m`.
pub fn loop_bounds(
    alloc: Global,
    task: &Task<'_>,
    m: u32,
    s: &Shape,
) -> Result<Vec<u32>, BoundRefusal>
    requires method { m < length task.now.flow.methods }
    requires shape { (g : Digraph) × IsShapeOf g s.now }
    ensures bounds { IfOk result (λ v. AreBounds (bounds_in task.now) m s.now v.items) }
    ensures cause { IfErr result (IsUnbounded (bounds_in task.now) m s.now) }
{
    let Ok(headers) = headers(alloc, s) else {
        return Err(BoundRefusal::NoMemory);
    };
    match bounds_of_headers(alloc, task.flow(), task.bounds(), m, &headers) {
        Ok(found) => all_bounds(alloc, m, &headers, &found),
        Err(NoMemory) => Err(BoundRefusal::NoMemory),
    }
}

/// Flags the nodes of these calls.
fn mark_calls(calls: &[Call], flags: &mut [bool])
    requires { All (λ c. 2 * c.place < length flags.old) calls.now }
    ensures { AreMarked (map (λ c. 2 * c.place) calls.now) flags.old flags.new }
{
    for call in calls {
        flags[2 * call.place as usize] = true;
    }
}

/// For each node of a method whether it is one of its invokes.
fn call_nodes(alloc: Global, k: &FlowMethod) -> Result<Vec<bool>, NoMemory>
    ensures nodes { IfOk result (λ flags. AreCallNodes k.now.calls flags.items) }
    ensures form { IsCoded k.now }
{
    starts_follow_one_another();
    let mut flags = vec![in alloc; false; 2 * k.code().len()]?;
    mark_calls(k.calls(), &mut flags);
    Ok(flags)
}

/// Whether a node is flagged.
fn is_flagged(flags: &[bool], u: u32) -> bool
    ensures { result ≡ slice_index_or flags.now u false }
{
    flags.get(u as usize).copied().unwrap_or(false)
}

/// Whether an invoke is among these nodes, where it is said of each node whether it is one.
fn has_call(call_nodes: &[bool], members: &[u32]) -> bool
    ensures { (calls : List Call) → AreCallNodes calls call_nodes.now → MatchBool result (IsCallAt calls members.now) (¬ IsCallAt calls members.now) }
{
    for u in members {
        if is_flagged(call_nodes, *u) {
            return true;
        }
    }
    false
}

/// The loads of what may run in a loop of the method `m` with these members, if an invoke is among them and it all fits the cache.
fn candidate(
    alloc: Global,
    task: &Task<'_>,
    m: u32,
    call_nodes: &[bool],
    members: &[u32],
) -> Result<Option<u64>, NoMemory>
    requires method { m < length task.now.flow.methods }
    requires calls { AreCallNodesOf task.now m call_nodes.now }
    ensures { IfOk result (λ o. ForEach task.now (λ P. IsCandidate P task.now.timing m members.now o)) }
{
    starts_follow_one_another();
    rows_are_of_their_kinds();
    if !has_call(call_nodes, members) {
        return Ok(None);
    }
    let t = task.timing();
    match loop_region(alloc, task.flow(), m, members, t.blocks, t.block_words)? {
        Region::Fits(methods) => Ok(Some(loads(task.flow(), methods.as_slice(), t.read))),
        Region::Exceeds => Ok(None),
    }
}

/// The same of a loop of its compact graph.
fn loop_candidate(
    alloc: Global,
    task: &Task<'_>,
    m: u32,
    nodes: &[u32],
    call_nodes: &[bool],
    l: &Loop,
) -> Result<Option<u64>, NoMemory>
    requires method { m < length task.now.flow.methods }
    requires calls { AreCallNodesOf task.now m call_nodes.now }
    requires within { All (λ u. u < length nodes.now) l.now.members }
    ensures { IfOk result (λ o. ForEach task.now (λ P. IsCandidate P task.now.timing m (map (slice_index nodes.now) l.now.members) o)) }
{
    let members = numbers(alloc, nodes, l.members())?;
    candidate(alloc, task, m, call_nodes, &members)
}

/// The same of each of the loops.
fn loop_candidates(
    alloc: Global,
    task: &Task<'_>,
    m: u32,
    s: &Shape,
    call_nodes: &[bool],
) -> Result<Vec<Option<u64>>, NoMemory>
    requires method { m < length task.now.flow.methods }
    requires shape { (g : Digraph) × IsShapeOf g s.now }
    requires calls { AreCallNodesOf task.now m call_nodes.now }
    ensures long { IfOk result (λ v. length v.items ≡ length s.now.nest) }
    ensures each { IfOk result (λ v. ForEach task.now (λ P. AreCandidates P task.now.timing m s.now v.items)) }
{
    let nodes = s.nodes.as_slice();
    let mut candidates = Vec::new(alloc);
    for l in s.nest.loops() {
        candidates.push(loop_candidate(alloc, task, m, nodes, call_nodes, l)?)?;
    }
    Ok(candidates)
}

/// The same, where the invokes among the nodes are to be found.
fn candidates(
    alloc: Global,
    task: &Task<'_>,
    m: u32,
    s: &Shape,
) -> Result<Vec<Option<u64>>, NoMemory>
    requires method { m < length task.now.flow.methods }
    requires shape { (g : Digraph) × IsShapeOf g s.now }
    ensures long { IfOk result (λ v. length v.items ≡ length s.now.nest) }
    ensures each { IfOk result (λ v. ForEach task.now (λ P. AreCandidates P task.now.timing m s.now v.items)) }
{
    let call_nodes = call_nodes(alloc, task.method(m))?;
    loop_candidates(alloc, task, m, s, &call_nodes)
}

/// Which of these are there.
fn are_some(alloc: Global, candidates: &[Option<u64>]) -> Result<Vec<bool>, NoMemory>
    ensures { IfOk result (λ v. v.items ≡ map is_some candidates.now) }
{
    let mut flags = Vec::new(alloc);
    for candidate in candidates {
        flags.push(candidate.is_some())?;
    }
    Ok(flags)
}

/// The loads that are there, and 0 for the others.
fn loads_or_none(alloc: Global, candidates: &[Option<u64>]) -> Result<Vec<u64>, NoMemory>
    ensures { IfOk result (λ v. v.items ≡ map (λ o. unwrap_or o 0) candidates.now) }
{
    let mut loads = Vec::new(alloc);
    for candidate in candidates {
        loads.push(candidate.unwrap_or(0))?;
    }
    Ok(loads)
}

/// No charges.
fn no_charges(alloc: Global, loops: usize) -> Result<Charges, NoMemory>
    ensures long { IfOk result (λ c. (length c.flags.items ≡ loops) × (length c.loads.items ≡ loops)) }
    ensures none { IfOk result (λ c. (i : ℕ) → ¬ IsFlagged c.flags.items i) }
{
    let flags = vec![in alloc; false; loops]?;
    let loads = vec![in alloc; 0; loops]?;
    Ok(Charges { flags, loads })
}

/// The charges where the method's region doesn't fit the cache.
fn outermost_charges(
    alloc: Global,
    s: &Shape,
    candidates: &[Option<u64>],
) -> Result<Charges, NoMemory>
    requires shape { (g : Digraph) × IsShapeOf g s.now }
    requires long { length candidates.now ≡ length s.now.nest }
    ensures flags { IfOk result (λ c. AreOutermost s.now.nest (map is_some candidates.now) c.flags.items) }
    ensures loads { IfOk result (λ c. c.loads.items ≡ map (λ o. unwrap_or o 0) candidates.now) }
{
    let flags = are_some(alloc, candidates)?;
    let flags = outermost(alloc, &s.nest, &flags, s.graph.nodes() as usize)?;
    let loads = loads_or_none(alloc, candidates)?;
    Ok(Charges { flags, loads })
}

/// The charges of the loops of the method `m`, where it is said whether all that may run while it does fits the cache together.
pub fn charges_of(
    alloc: Global,
    task: &Task<'_>,
    m: u32,
    s: &Shape,
    fits: bool,
) -> Result<Charges, NoMemory>
    requires method { m < length task.now.flow.methods }
    requires shape { (g : Digraph) × IsShapeOf g s.now }
    ensures flags { IfOk result (λ c. length c.flags.items ≡ length s.now.nest) }
    ensures loads { IfOk result (λ c. length c.loads.items ≡ length s.now.nest) }
    ensures apart { IfOk result (λ c. AreRegionsApart s.now.nest c.flags.items) }
    ensures none { IfOk result (λ c. fits ≡ true → (i : ℕ) → ¬ IsFlagged c.flags.items i) }
    ensures charges { IfOk result (λ c. ForEach task.now (λ P. AreChargesOf P task.now.timing m s.now fits c)) }
{
    if fits {
        return no_charges(alloc, s.nest.loops().len());
    }
    outermost_are_apart();
    let candidates = candidates(alloc, task, m, s)?;
    outermost_charges(alloc, s, &candidates)
}
