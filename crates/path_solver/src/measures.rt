//! What iterations cost at most, and how far the listed nodes are.
ghost use Rattle.std.specs.Prelude.{◌≡◌, length, IfOk};
ghost use Rattle.loop_nest.specs.Reduction.{IsReducible};
ghost use Rattle.loop_nest.specs.Nest.{IsNest};
ghost use Rattle.path_solver.specs.Reaching.{AreReaching};
ghost use Rattle.path_solver.specs.Problem.{IsMeasured};

use super::distances::spread;
use super::loop_costs::{LoopCosts, costs_of_loops};
use super::nest_laws::nest_laws;
use super::topology::{TopologicalOrder, topological_order};
use loop_nest::Graph;
use loop_nest::loops::Nest;
use std::alloc::{AllocError, Global};

/// What an iteration of each loop costs at most, and what walks to each listed node cost at most, that
/// node excluded but for its fee; with the order and the fees that give these.
#[derive(Drop)]
pub struct Measures {
    pub iteration_costs: Vec<u128>,
    pub dist: Vec<u128>,
    pub topology: TopologicalOrder,
    pub fees: Vec<u128>,
}

/// The measures of a graph of which the listed nodes reach an exit.
pub fn measure(
    alloc: Global,
    g: &Graph,
    nest: &Nest,
    listed: &[bool],
    costs: &[u64],
    bounds: &[u32],
    loads: &[u64],
) -> Result<Measures, AllocError>
    requires nest { IsNest g.now nest.now }
    requires reducible { IsReducible g.now }
    requires listed { AreReaching g.now listed.now }
    requires costs { length costs.now ≡ g.now.nodes }
    requires bounds { length bounds.now ≡ length nest.now }
    requires loads { length loads.now ≡ length nest.now }
    ensures { IfOk result (λ m. IsMeasured g.now nest.now listed.now m.topology costs.now bounds.now loads.now m.iteration_costs.items m.fees.items
        m.dist.items) }
{
    // The laws are for the proof.
    nest_laws();
    let nodes = g.nodes() as usize;
    let loops = nest.loops();
    let topology = topological_order(alloc, g, nest, listed)?;
    let LoopCosts {
        iteration_costs,
        fees,
    } = costs_of_loops(alloc, &topology, loops, costs, bounds, loads)?;
    let mut dist = vec![in alloc; 0; nodes]?;
    spread(&topology.order, &topology.forward, costs, &fees, &mut dist);
    Ok(Measures {
        iteration_costs,
        dist,
        topology,
        fees,
    })
}
