//! How often a greatest walk visits each node and enters each loop.

mod problem;
mod rounds;

ghost use Rattle.std.specs.Prelude.{◌≡◌, ℕ, List, Err, length, IfOk, IfNone, IfSome, IfErr};
ghost use Rattle.loop_nest.specs.Reduction.{IsReducible};
ghost use Rattle.loop_nest.specs.Nest.{IsNest};
ghost use Rattle.section_check.specs.Bounded.{IsGreatest};
ghost use Rattle.path_solver.specs.Reaching.{ReachesExit};
ghost use Rattle.path_solver.specs.Longest.{bounded_loops, WalkExceeds};
ghost use Rattle.bound_report.specs.Visits.Counts.{AreCounts, HasCause};
ghost use Rattle.bound_report.specs.Visits.Paths.{IsPosed};

use loop_nest::Graph;
use loop_nest::loops::Nest;
use path_solver::pass::one_pass;
use path_solver::solved::SolveFault;
use problem::Problem;
use rounds::{add_walk, go_rounds};
use std::alloc::{AllocError, Global};

/// What a greatest walk costs, how often it visits each node, and how often it enters each loop.
#[derive(Drop)]
pub struct WalkCounts {
    /// In cycles.
    pub value: u64,
    /// By the numbers of the nodes.
    pub visits: Vec<u128>,
    /// In the order of the nest.
    pub entered: Vec<u128>,
}

/// The counts of a walk that costs the value that a pass found.
fn counted(alloc: Global, q: &Problem, value: u64) -> Result<WalkCounts, AllocError>
    requires posed { IsPosed q.now }
    requires value { q.now.found.now.value ≡ value }
    ensures value { IfOk result (λ k. k.value ≡ value) }
    ensures counts { let loops = bounded_loops q.now.nest.now q.now.bounds.now q.now.loads.now in
        IfOk result (λ k. AreCounts q.now.g.now q.now.costs.now loops value k.visits.items k.entered.items) }
{
    let mut visits = vec![in alloc; 0; q.costs.len()]?;
    add_walk(q, &mut visits);
    let entered = go_rounds(alloc, q, &mut visits)?;
    Ok(WalkCounts {
        value,
        visits,
        entered,
    })
}

/// The counts of one of the greatest walks from node 0 to an exit that keep all bounds, or `None` exactly where no exit
/// is reached from node 0: then there is no such walk. Arguments and time are those of `path_solver::longest`. A loop of
/// which an iteration costs nothing is not gone round.
///
/// # Errors
///
/// `TooLarge` exactly where a walk that keeps the bounds exceeds 64 bits.
pub fn walk_counts(
    alloc: Global,
    g: &Graph,
    nest: &Nest,
    costs: &[u64],
    bounds: &[u32],
    loads: &[u64],
) -> Result<Option<WalkCounts>, SolveFault>
    requires nest { IsNest g.now nest.now }
    requires reducible { IsReducible g.now }
    requires costs { length costs.now ≡ g.now.nodes }
    requires bounds { length bounds.now ≡ length nest.now }
    requires loads { length loads.now ≡ length nest.now }
    ensures unreached { IfOk result (λ o. IfNone o (¬ ReachesExit g.now 0)) }
    ensures greatest { let loops = bounded_loops nest.now bounds.now loads.now in IfOk result (λ o. IfSome o (λ k. IsGreatest g.now costs.now loops k.value)) }
    ensures counts { let loops = bounded_loops nest.now bounds.now loads.now in
        IfOk result (λ o. IfSome o (λ k. AreCounts g.now costs.now loops k.value k.visits.items k.entered.items)) }
    ensures cause { IfErr result (HasCause g.now costs.now (bounded_loops nest.now bounds.now loads.now)) }
    ensures fits { IfOk result (λ _. ¬ WalkExceeds g.now costs.now (bounded_loops nest.now bounds.now loads.now)) }
{
    let Some(found) = one_pass(alloc, g, nest, costs, bounds, loads)? else {
        return Ok(None);
    };
    let Ok(value) = u64::try_from(found.value) else {
        return Err(SolveFault::TooLarge);
    };
    let problem = Problem {
        g,
        nest,
        costs,
        bounds,
        loads,
        found: &found,
    };
    Ok(Some(counted(alloc, &problem, value)?))
}
