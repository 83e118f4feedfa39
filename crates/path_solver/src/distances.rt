//! What the walks that close no loop cost at most, and what an iteration of each loop costs.

ghost use Rattle.std.specs.Prelude.{◌≡◌, ◌+◌, ◌*◌, ◌<◌, ◌≤◌, ℕ, List, length, map, All, Contains, slice_index, IfOk};
ghost use Rattle.std.specs.List.Sorted.{IsPermutation, IsNonDecreasing, IsStrictlyIncreasing};
ghost use Rattle.path_solver.specs.Ordering.{AreApart};
ghost use Rattle.path_solver.specs.Distances.{distance_limit, limited, AreLimited, IsMost, cost_through, sources_at, AreSpread};
ghost use Rattle.path_solver.specs.Distances.{LeadForward, ArePlaces, others_of};
ghost use Rattle.path_solver.specs.Distances.{ArePicked};

use loop_nest::digraph::Sources;
use std::alloc::{AllocError, Global};

/// Numbers are counted up to this one, beyond all that a section may hold.
const LIMIT: u128 = 0x4_0000_0000_0000_0000;

/// The sum, counted up to the distance_limit.
pub fn limited_sum(a: u128, b: u128) -> u128
    requires first { a ≤ distance_limit }
    requires second { b ≤ distance_limit }
    ensures { result ≡ limited (a + b) }
{
    (a + b).min(LIMIT)
}

/// The greatest cost of the walks that end with one of these nodes, that node included; 0 where there
/// are none.
pub fn greatest_end(ends: &[u32], costs: &[u64], dist: &[u128]) -> u128
    requires within { All (λ u. u < length costs.now) ends.now }
    requires same { length dist.now ≡ length costs.now }
    requires limited { AreLimited dist.now }
    ensures most { IsMost (cost_through costs.now dist.now) ends.now result }
    ensures limited { result ≤ distance_limit }
{
    let mut greatest = 0;
    for u in ends {
        let cost = u128::from(costs[*u as usize]);
        greatest = limited_sum(cost, dist[*u as usize]).max(greatest);
    }
    greatest
}

/// Writes the greatest cost of the walks to each of these nodes, that node excluded but for its fee.
pub fn spread(nodes: &[u32], sources: &Sources, costs: &[u64], fees: &[u128], dist: &mut [u128])
    requires sources { length sources.now ≡ length costs.now }
    requires ends { (u : ℕ) → All (λ v. v < length costs.now) (sources_at sources.now u) }
    requires within { All (λ u. u < length costs.now) nodes.now }
    requires fees { length fees.now ≡ length costs.now }
    requires same { length dist.old ≡ length costs.now }
    requires limited_fees { AreLimited fees.now }
    requires limited { AreLimited dist.old }
    requires apart { AreApart nodes.now }
    requires forward { LeadForward (sources_at sources.now) nodes.now }
    ensures { AreSpread (sources_at sources.now) costs.now fees.now nodes.now dist.old dist.new }
{
    for u in nodes {
        let arriving = greatest_end(sources.of(*u), costs, dist);
        dist[*u as usize] = limited_sum(arriving, fees[*u as usize]);
    }
}

/// The place of each node in the order.
pub fn places(alloc: Global, nodes: usize, order: &[u32]) -> Result<Vec<usize>, AllocError>
    requires within { All (λ u. u < nodes) order.now }
    requires apart { AreApart order.now }
    ensures { IfOk result (λ places. ArePlaces order.now nodes places.items) }
{
    let mut places = vec![in alloc; 0; nodes]?;
    for i in 0..order.len() {
        places[order[i] as usize] = i;
    }
    Ok(places)
}

/// The places of these members but the header, rising.
fn ranks(
    alloc: Global,
    places: &[usize],
    members: &[u32],
    header: u32,
) -> Result<Vec<usize>, AllocError>
    requires { All (λ u. u < length places.now) members.now }
    ensures permutation { IfOk result (λ rs. IsPermutation (map (λ u. slice_index places.now u) (others_of members.now header)) rs.items) }
    ensures sorted { IfOk result (λ rs. IsNonDecreasing rs.items) }
{
    let mut ranks = Vec::with_capacity(alloc, members.len())?;
    for u in members {
        if *u != header {
            ranks.push(places[*u as usize])?;
        }
    }
    ranks.sort_unstable();
    Ok(ranks)
}

/// These members but the header, in the order.
pub fn in_order(
    alloc: Global,
    order: &[u32],
    places: &[usize],
    members: &[u32],
    header: u32,
) -> Result<Vec<u32>, AllocError>
    requires places { ArePlaces order.now (length places.now) places.now }
    requires within { All (λ u. u < length places.now) members.now }
    requires listed { (u : ℕ) → Contains members.now u → Contains order.now u }
    requires rising { IsStrictlyIncreasing members.now }
    ensures { IfOk result (λ nodes. ArePicked order.now (others_of members.now header) nodes.items) }
{
    let ranks = ranks(alloc, places, members, header)?;
    let mut nodes = Vec::with_capacity(alloc, ranks.len())?;
    for i in &ranks {
        nodes.push(order[*i])?;
    }
    Ok(nodes)
}

/// What an entry of a loop costs, up to the distance_limit.
pub fn limited_fee(iteration_cost: u128, bound: u32, load: u64) -> u128
    requires { iteration_cost ≤ distance_limit }
    ensures { result ≡ limited (bound * iteration_cost + load) }
{
    (u128::from(bound) * iteration_cost + u128::from(load)).min(LIMIT)
}
