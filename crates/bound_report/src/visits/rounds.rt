//! Loops that a walk goes round, outer ones first.
ghost use Rattle.std.specs.Prelude.{◌≡◌, ℕ, ◌+◌, ◌*◌, ◌^◌, ◌<◌, ◌≤◌, length, All, OnOk, IfOk, slice_index};
ghost use Rattle.loop_nest.specs.Nest.{NaturalLoop};
ghost use Rattle.section_check.specs.Placing.{IsEntryAt};
ghost use Rattle.path_solver.specs.Distances.{AreLimited};
ghost use Rattle.path_solver.specs.Longest.{bounded_loops};
ghost use Rattle.path_solver.specs.Reaching.{IsFlagged};
ghost use Rattle.bound_report.specs.Visits.Counts.{AreCounts};
ghost use Rattle.bound_report.specs.Visits.Paths.{IsPosed, IsWalkAdded, IsRound};

use crate::visits::problem::{Problem, add_path, costing};
use path_solver::headed_loop;
use path_solver::loop_costs::greatest_iteration;
use std::alloc::{AllocError, Global};

/// Counts the nodes of a path from node 0 to an exit of the greatest value.
pub(crate) fn add_walk(q: &Problem, visits: &mut [u128])
    requires posed { IsPosed q.now }
    requires long { length visits.old ≡ q.now.g.now.nodes }
    requires none { All (λ n. n ≡ 0) visits.old }
    ensures { IsWalkAdded q.now visits.new }
{
    let dist = q.found.dist.as_slice();
    if let Some(end) = costing(q.costs, dist, q.g.exits(), q.found.value) {
        add_path(q, dist, 0, end, 1, visits);
    }
}

// Goes round loop `i` so often.
fn go_round(
    alloc: Global,
    q: &Problem,
    i: usize,
    count: u128,
    dist: &mut [u128],
    visits: &mut [u128],
) -> Result<(), AllocError>
    requires posed { IsPosed q.now }
    requires within { i < length q.now.nest.now }
    requires listed { (l : NaturalLoop) → IsEntryAt q.now.nest.now i l → IsFlagged q.now.found.now.listed.items l.header }
    requires small { slice_index q.now.found.now.iteration_costs.items i < 2 ^ 64 }
    requires same { length dist.old ≡ q.now.g.now.nodes }
    requires limited { AreLimited dist.old }
    requires long { length visits.old ≡ q.now.g.now.nodes }
    requires room { (u : ℕ) → slice_index visits.old u + count < 2 ^ 128 }
    ensures round { OnOk result (IsRound q.now i count visits.old visits.new) }
    ensures limited { OnOk result (AreLimited dist.new) }
{
    let topology = &q.found.topology;
    let members = q.nest.loops()[i].members();
    let header = q.nest.loops()[i].header();
    let fees = q.found.fees.as_slice();
    let cost = greatest_iteration(alloc, topology, members, header, q.costs, fees, dist)?;
    if let Some(end) = costing(q.costs, dist, topology.back.of(header), cost) {
        add_path(q, dist, header, end, count, visits);
    }
    Ok(())
}

// As many iterations at each of so many visits as the bound allows.
fn iterations(visited: u128, bound: u32) -> u128
    requires { visited ≤ 2 ^ 96 }
    ensures { result ≡ visited * bound }
{
    visited * u128::from(bound)
}

// Goes round each loop as often as it may be, at each visit of its header, and notes how often each is entered.
fn go_through(
    alloc: Global,
    q: &Problem,
    dist: &mut [u128],
    visits: &mut [u128],
    entered: &mut [u128],
) -> Result<(), AllocError>
    requires posed { IsPosed q.now }
    requires added { IsWalkAdded q.now visits.old }
    requires long { length visits.old ≡ q.now.g.now.nodes }
    requires same { length dist.old ≡ q.now.g.now.nodes }
    requires limited { AreLimited dist.old }
    requires each { length entered.old ≡ length q.now.nest.now }
    requires none { All (λ n. n ≡ 0) entered.old }
    ensures { let loops = bounded_loops q.now.nest.now q.now.bounds.now q.now.loads.now in
        OnOk result (AreCounts q.now.g.now q.now.costs.now loops q.now.found.now.value visits.new entered.new) }
{
    for u in &q.found.topology.order {
        if let Some(i) = headed_loop(q.nest.loops(), *u) {
            let visited = visits[*u as usize];
            entered[i] = visited;
            let count = iterations(visited, q.bounds[i]);
            if count > 0 && q.found.iteration_costs[i] > 0 {
                go_round(alloc, q, i, count, dist, visits)?;
            }
        }
    }
    Ok(())
}

/// Goes round each loop as often as it may be, at each visit of its header, and tells how often each is entered.
pub(crate) fn go_rounds(
    alloc: Global,
    q: &Problem,
    visits: &mut [u128],
) -> Result<Vec<u128>, AllocError>
    requires posed { IsPosed q.now }
    requires added { IsWalkAdded q.now visits.old }
    requires long { length visits.old ≡ q.now.g.now.nodes }
    ensures { let loops = bounded_loops q.now.nest.now q.now.bounds.now q.now.loads.now in
        IfOk result (λ entered. AreCounts q.now.g.now q.now.costs.now loops q.now.found.now.value visits.new entered.items) }
{
    let mut dist = vec![in alloc; 0; q.costs.len()]?;
    let mut entered = vec![in alloc; 0; q.nest.loops().len()]?;
    go_through(alloc, q, &mut dist, visits, &mut entered)?;
    Ok(entered)
}
