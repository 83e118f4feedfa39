//! What exceeds 64 bits.
ghost use Rattle.std.specs.Prelude.{◌≡◌, ◌+◌, ◌^◌, ◌<◌, ◌≤◌, ◌↔◌, length, All, IfOk, IsTrue, MatchOption};
ghost use Rattle.std.specs.List.Sorted.{IsStrictlyIncreasing};
ghost use Rattle.path_solver.specs.Distances.{distance_limit, AreLimited};
ghost use Rattle.path_solver.specs.Totals.{AreIterationsAdded, SomeIterationsExceed};

use super::distances::limited_sum;
use loop_nest::loops::Loop;
use std::alloc::{AllocError, Global};

/// Whether a number exceeds 64 bits.
pub fn exceeds(n: u128) -> bool
    ensures { IsTrue result ↔ (2 ^ 64 ≤ n) }
{
    n > u128::from(u64::MAX)
}

/// A number, where it doesn't exceed 64 bits.
pub fn within_limit(n: u128) -> Option<u64>
    ensures { MatchOption result (2 ^ 64 ≤ n) (λ value. (value ≡ n) × (n < 2 ^ 64)) }
{
    if exceeds(n) { None } else { Some(n as u64) }
}

/// Adds to each of these nodes what an iteration costs at most.
fn add_iteration_cost(members: &[u32], iteration_cost: u128, totals: &mut [u128])
    requires within { All (λ u. u < length totals.old) members.now }
    requires rising { IsStrictlyIncreasing members.now }
    requires limited { AreLimited totals.old }
    requires small { iteration_cost ≤ distance_limit }
    ensures { AreIterationsAdded members.now iteration_cost totals.old totals.new }
{
    for u in members {
        totals[*u as usize] = limited_sum(totals[*u as usize], iteration_cost);
    }
}

/// Whether one iteration of each loop that holds a node, together, exceeds 64 bits.
pub fn iterations_exceed(
    alloc: Global,
    nodes: usize,
    loops: &[Loop],
    iteration_costs: &[u128],
) -> Result<bool, AllocError>
    requires iteration_costs { length iteration_costs.now ≡ length loops.now }
    requires limited { AreLimited iteration_costs.now }
    requires rising { All (λ l. IsStrictlyIncreasing l.members) loops.now }
    requires within { All (λ l. All (λ u. u < nodes) l.members) loops.now }
    ensures { IfOk result (λ exceed. IsTrue exceed ↔ SomeIterationsExceed loops.now iteration_costs.now nodes) }
{
    let mut totals = vec![in alloc; 0; nodes]?;
    for i in 0..loops.len() {
        add_iteration_cost(loops[i].members(), iteration_costs[i], &mut totals);
    }
    Ok(totals.iter().any(|n| exceeds(*n)))
}
