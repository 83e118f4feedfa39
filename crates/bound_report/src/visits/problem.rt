//! A pass over a graph, and paths along edges that close no loop, found from their ends by distances.
ghost use Rattle.std.specs.Prelude.{◌≡◌, ◌≢◌, ℕ, ◌+◌, ◌^◌, ◌<◌, ◌≤◌, List, length, All, Contains, slice_index, IfSome, IfNone};
ghost use Rattle.path_solver.specs.Distances.{AreLimited};
ghost use Rattle.bound_report.specs.Visits.Paths.{IsPosed, cost_of_node, fee_of, sources, IsReachedInside, IsPathAdded};

use loop_nest::Graph;
use loop_nest::loops::Nest;
use path_solver::pass::Pass;

/// A graph with its nest, costs, bounds and loads, and what a pass found of it.
#[derive(Clone, Copy)]
pub struct Problem<'a> {
    pub g: &'a Graph,
    pub nest: &'a Nest,
    /// Of each node, in cycles.
    pub costs: &'a [u64],
    /// Of each loop.
    pub bounds: &'a [u32],
    /// Of an entry of each loop, in cycles.
    pub loads: &'a [u64],
    pub found: &'a Pass,
}

/// One of these nodes to whose end walks cost so much.
pub(crate) fn costing(costs: &[u64], dist: &[u128], nodes: &[u32], cost: u128) -> Option<u32>
    requires same { length dist.now ≡ length costs.now }
    requires within { All (λ u. u < length costs.now) nodes.now }
    requires limited { AreLimited dist.now }
    ensures found { IfSome result (λ u. Contains nodes.now u × (slice_index costs.now u + slice_index dist.now u ≡ cost)) }
    ensures none { IfNone result ((u : ℕ) → Contains nodes.now u → slice_index costs.now u + slice_index dist.now u ≢ cost) }
{
    for u in nodes {
        if u128::from(costs[*u as usize]) + dist[*u as usize] == cost {
            return Some(*u);
        }
    }
    None
}

/// The node before `u` on a walk that costs as much as its distance says.
fn before(q: &Problem, dist: &[u128], u: u32) -> Option<u32>
    ghost inside: { List ℕ }
    requires posed { IsPosed q.now }
    requires same { length dist.now ≡ length q.now.costs.now }
    requires limited { AreLimited dist.now }
    requires within { u < q.now.g.now.nodes }
    requires reached { IsReachedInside q.now dist.now inside u }
    requires few { slice_index dist.now u < 2 ^ 65 }
    ensures found { IfSome result (λ p. Contains (sources q.now u) p
        × (cost_of_node q.now p + slice_index dist.now p + fee_of q.now u ≡ slice_index dist.now u)) }
    ensures none { IfNone result ⊥ }
{
    let arriving = dist[u as usize] - q.found.fees[u as usize];
    costing(q.costs, dist, q.found.topology.forward.of(u), arriving)
}

/// Counts the nodes of a path from `start` to `end`, each so many times, where each node but `start` has its distance by
/// nodes before it.
pub(crate) fn add_path(
    q: &Problem,
    dist: &[u128],
    start: u32,
    end: u32,
    count: u128,
    visits: &mut [u128],
)
    ghost inside: { List ℕ }
    requires posed { IsPosed q.now }
    requires same { length dist.now ≡ length q.now.costs.now }
    requires limited { AreLimited dist.now }
    requires within { (u : ℕ) → Contains inside u → u < q.now.g.now.nodes }
    requires reached { (u : ℕ) → Contains inside u → u ≢ start → IsReachedInside q.now dist.now inside u }
    requires ends { Contains inside end }
    requires few { slice_index dist.now end < 2 ^ 65 }
    requires long { length visits.old ≡ q.now.g.now.nodes }
    requires room { (u : ℕ) → slice_index visits.old u + count < 2 ^ 128 }
    ensures { IsPathAdded q.now dist.now start end count visits.old visits.new }
{
    let mut u = end;
    visits[u as usize] += count;
    while u != start {
        let Some(source) = before(q, dist, u) else {
            return;
        };
        u = source;
        visits[u as usize] += count;
    }
}
