//! One sweep over a graph: what iterations and walks cost at most where costs have prices.
ghost use Rattle.std.specs.Prelude.{◌≡◌, length, IfOk};
ghost use Rattle.price_search.specs.Problem.{HasSources};
ghost use Rattle.price_search.specs.Sweep.{IsWide, AreSameWidths};

use super::problem::{HeadedLoop, Problem, at, headed, members_of, set_at};
use super::reduced::Reduced;
use base::NoMemory;
use loop_nest::digraph::Sources;
use std::alloc::Global;

/// What an iteration of each loop costs at most, and not less than 0; what it costs to enter the loop that each node heads; how
/// far each listed node is, itself excluded but for its fee, and the node before it on a greatest walk; the last node of a
/// greatest walk, and what that costs.
#[derive(Drop)]
pub struct Sweep {
    pub iteration_costs: Vec<i128>,
    pub fees: Vec<i128>,
    pub dist: Vec<i128>,
    pub before: Vec<u32>,
    pub last: u32,
    pub value: i128,
}

/// The last node of a walk, and what the walk costs.
#[derive(Clone, Copy)]
pub(crate) struct End {
    pub(crate) node: u32,
    pub(crate) cost: i128,
}

/// The dearest end of the walks that end with one of these nodes, that node included.
pub(crate) fn greatest_end(nodes: &[u32], costs: &[i128], dist: &[i128]) -> Option<End> {
    let mut greatest: Option<End> = None;
    for u in nodes {
        let cost = at(costs, *u as usize).saturating_add(at(dist, *u as usize));
        let is_dearer = match greatest {
            Some(end) => end.cost < cost,
            None => true,
        };
        if is_dearer {
            greatest = Some(End { node: *u, cost });
        }
    }
    greatest
}

/// The sources of the edges to a node that close no loop.
fn forward_sources<'a>(problem: &Problem<'a>, u: u32) -> &'a [u32]
    requires { HasSources problem.now }
{
    if u < problem.graph.nodes() {
        problem.topology.forward.of(u)
    } else {
        &[]
    }
}

/// The sources of the edges to a node that close a loop.
pub(crate) fn back_sources<'a>(problem: &Problem<'a>, u: u32) -> &'a [u32]
    requires { HasSources problem.now }
{
    if u < problem.graph.nodes() {
        problem.topology.back.of(u)
    } else {
        &[]
    }
}

/// The places of these nodes but the header in the topological order, rising.
fn ranks(
    alloc: Global,
    problem: &Problem,
    members: &[u32],
    header: u32,
) -> Result<Vec<usize>, NoMemory> {
    let places = problem.topology.places.as_slice();
    let mut ranks = Vec::new(alloc);
    for u in members {
        if *u != header {
            ranks.push(places.get(*u as usize).copied().unwrap_or(0))?;
        }
    }
    ranks.sort_unstable();
    Ok(ranks)
}

/// The members of a loop but its header, in the topological order.
fn inner_in_order(
    alloc: Global,
    problem: &Problem,
    head: HeadedLoop,
) -> Result<Vec<u32>, NoMemory> {
    let members = members_of(problem, head.number);
    let ranks = ranks(alloc, problem, members, head.header)?;
    let order = problem.topology.order.as_slice();
    let mut nodes = Vec::new(alloc);
    for rank in &ranks {
        nodes.push(order.get(*rank).copied().unwrap_or(0))?;
    }
    Ok(nodes)
}

/// Writes the node before a node.
fn set_before(before: &mut [u32], u: u32, source: u32)
    ensures { length before.new ≡ length before.old }
{
    if let Some(place) = before.get_mut(u as usize) {
        *place = source;
    }
}

/// Writes how far a node is, and the node before it.
fn reach(problem: &Problem, u: u32, costs: &[i128], s: &mut Sweep)
    requires { HasSources problem.now }
    ensures { AreSameWidths s.old s.new }
{
    let fee = at(&s.fees, u as usize);
    match greatest_end(forward_sources(problem, u), costs, &s.dist) {
        Some(end) => {
            set_at(&mut s.dist, u as usize, end.cost.saturating_add(fee));
            set_before(&mut s.before, u, end.node);
        }
        None => set_at(&mut s.dist, u as usize, fee),
    }
}

/// Writes how far each of these nodes is, and the node before it.
fn spread(problem: &Problem, nodes: &[u32], costs: &[i128], s: &mut Sweep)
    requires { HasSources problem.now }
    ensures { AreSameWidths s.old s.new }
{
    for u in nodes {
        reach(problem, *u, costs, s);
    }
}

/// The end of the dearest iteration of a loop; the loops inside are done.
pub(crate) fn dearest_iteration(
    alloc: Global,
    problem: &Problem,
    head: HeadedLoop,
    costs: &[i128],
    s: &mut Sweep,
) -> Result<Option<End>, NoMemory>
    requires { HasSources problem.now }
    ensures { AreSameWidths s.old s.new }
{
    let nodes = inner_in_order(alloc, problem, head)?;
    set_at(&mut s.dist, head.header as usize, 0);
    spread(problem, &nodes, costs, s);
    Ok(greatest_end(back_sources(problem, head.header), costs, &s.dist))
}

/// Writes what an iteration of a loop and its entry cost.
pub(crate) fn close_loop(
    problem: &Problem,
    head: HeadedLoop,
    iteration_cost: i128,
    due: i128,
    s: &mut Sweep,
)
    ensures { AreSameWidths s.old s.new }
{
    let bound = problem.bounds.get(head.number).copied().unwrap_or(0);
    let iteration_cost = iteration_cost.max(0);
    set_at(&mut s.iteration_costs, head.number, iteration_cost);
    let turns = i128::from(bound).saturating_mul(iteration_cost);
    set_at(&mut s.fees, head.header as usize, turns.saturating_add(due));
}

/// Nothing is found yet.
pub(crate) fn unswept(alloc: Global, problem: &Problem) -> Result<Sweep, NoMemory>
    ensures { IfOk result (IsWide problem.now) }
{
    let nodes = problem.graph.nodes() as usize;
    let iteration_costs = vec![in alloc; 0; problem.nest.loops().len()]?;
    let fees = vec![in alloc; 0; nodes]?;
    let dist = vec![in alloc; 0; nodes]?;
    let before = vec![in alloc; 0; nodes]?;
    Ok(Sweep {
        iteration_costs,
        fees,
        dist,
        before,
        last: 0,
        value: 0,
    })
}

/// How far all nodes are, once all loops are done, and the greatest walk.
pub(crate) fn finish(problem: &Problem, costs: &[i128], s: &mut Sweep)
    requires { HasSources problem.now }
    ensures { AreSameWidths s.old s.new }
{
    spread(problem, problem.topology.order.as_slice(), costs, s);
    if let Some(end) = greatest_end(problem.graph.exits(), costs, &s.dist) {
        s.last = end.node;
        s.value = end.cost;
    }
}

/// Writes what the loop that a node heads costs, if it heads one; the loops inside are done.
fn sweep_loop(
    alloc: Global,
    problem: &Problem,
    u: u32,
    r: &Reduced,
    s: &mut Sweep,
) -> Result<(), NoMemory>
    requires { HasSources problem.now }
    ensures { AreSameWidths s.old s.new }
{
    let Some(head) = headed(problem, u) else {
        return Ok(());
    };
    let cost = match dearest_iteration(alloc, problem, head, &r.costs, s)? {
        Some(end) => end.cost,
        None => 0,
    };
    close_loop(problem, head, cost, at(&r.dues, head.number), s);
    Ok(())
}

/// The sweep over a graph with these costs: loops inside first, then all walks.
pub fn swept(alloc: Global, problem: &Problem, r: &Reduced) -> Result<Sweep, NoMemory>
    requires { HasSources problem.now }
    ensures { IfOk result (IsWide problem.now) }
{
    let mut s = unswept(alloc, problem)?;
    for u in problem.topology.order.as_slice().iter().rev() {
        sweep_loop(alloc, problem, *u, r, &mut s)?;
    }
    finish(problem, &r.costs, &mut s);
    Ok(s)
}

/// What the greatest walk costs with what an activation pays for prices, in cycles, and not less than 0.
pub fn paid_value(r: &Reduced, s: &Sweep) -> i128 {
    s.value.saturating_add(r.own_due).max(0)
}
