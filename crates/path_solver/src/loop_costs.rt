//! What an iteration of each loop costs at most.
ghost use Rattle.std.specs.Prelude.{◌≡◌, length, IfOk};
ghost use Rattle.path_solver.specs.Ordering.{AreLoops};
ghost use Rattle.path_solver.specs.Distances.{AreLimited};
ghost use Rattle.path_solver.specs.Iteration.{IsOrderly, AreOrderedMembers, IsIterationCost};
ghost use Rattle.path_solver.specs.LoopCosts.{AreLed, AreLoopCosts};

use super::distances::{greatest_end, in_order, limited_fee, spread};
use super::ordering::headed_loop;
use super::topology::TopologicalOrder;
use loop_nest::loops::Loop;
use std::alloc::{AllocError, Global};

/// What an iteration of each loop costs at most, and what it costs to enter the loop that each node
/// heads.
#[derive(Drop)]
pub struct LoopCosts {
    pub iteration_costs: Vec<u128>,
    pub fees: Vec<u128>,
}

/// What an iteration of a loop costs at most, where the fees of the loops inside are known. The distances of its members
/// from its header are written.
pub fn greatest_iteration(
    alloc: Global,
    topology: &TopologicalOrder,
    members: &[u32],
    header: u32,
    costs: &[u64],
    fees: &[u128],
    dist: &mut [u128],
) -> Result<u128, AllocError>
    requires topology { IsOrderly (length costs.now) topology.now }
    requires members { AreOrderedMembers topology.now.order.items members.now header }
    requires fees { length fees.now ≡ length costs.now }
    requires same { length dist.old ≡ length costs.now }
    requires limited_fees { AreLimited fees.now }
    requires limited { AreLimited dist.old }
    ensures { IfOk result (λ iteration_cost. IsIterationCost topology.now members.now header costs.now fees.now dist.new iteration_cost) }
{
    let nodes = in_order(alloc, &topology.order, &topology.places, members, header)?;
    dist[header as usize] = 0;
    spread(&nodes, &topology.forward, costs, fees, dist);
    Ok(greatest_end(topology.back.of(header), costs, dist))
}

/// What an iteration of each loop and its entry cost at most, loops inside first.
pub fn costs_of_loops(
    alloc: Global,
    topology: &TopologicalOrder,
    loops: &[Loop],
    costs: &[u64],
    bounds: &[u32],
    loads: &[u64],
) -> Result<LoopCosts, AllocError>
    requires topology { IsOrderly (length costs.now) topology.now }
    requires loops { AreLoops loops.now }
    requires led { AreLed topology.now.order.items loops.now }
    requires bounds { length bounds.now ≡ length loops.now }
    requires loads { length loads.now ≡ length loops.now }
    ensures { IfOk result (λ loop_costs. AreLoopCosts topology.now loops.now costs.now bounds.now loads.now loop_costs.iteration_costs.items
        loop_costs.fees.items) }
{
    let nodes = costs.len();
    let mut dist = vec![in alloc; 0; nodes]?;
    let mut fees = vec![in alloc; 0; nodes]?;
    let mut iteration_costs = vec![in alloc; 0; loops.len()]?;
    let order = topology.order.as_slice();
    for k in 0..order.len() {
        let u = order[order.len() - 1 - k];
        if let Some(i) = headed_loop(loops, u) {
            let iteration_cost = greatest_iteration(
                alloc,
                topology,
                loops[i].members(),
                u,
                costs,
                &fees,
                &mut dist,
            )?;
            iteration_costs[i] = iteration_cost;
            fees[u as usize] = limited_fee(iteration_cost, bounds[i], loads[i]);
        }
    }
    Ok(LoopCosts {
        iteration_costs,
        fees,
    })
}
