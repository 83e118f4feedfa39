//! One pass over a graph: what iterations and walks cost at most.
ghost use Rattle.std.specs.Prelude.{◌≡◌, ◌^◌, ◌<◌, length, IfOk, IfNone, IfSome};
ghost use Rattle.loop_nest.specs.Digraph.{IsDigraph};
ghost use Rattle.loop_nest.specs.Reduction.{IsReducible};
ghost use Rattle.loop_nest.specs.Nest.{IsNest};
ghost use Rattle.path_solver.specs.Reaching.{ReachesExit};
ghost use Rattle.path_solver.specs.Longest.{bounded_loops, WalksAreTooLarge};
ghost use Rattle.path_solver.specs.Pass.{IsPass};
ghost use Rattle.path_solver.specs.Problem.{IsMeasured};

use super::distances::greatest_end;
use super::measures::{Measures, measure};
use super::reaching::reaching;
use super::topology::TopologicalOrder;
use super::totals::iterations_exceed;
use loop_nest::Graph;
use loop_nest::laws::reducible_is_reached;
use loop_nest::loops::Nest;
use std::alloc::{AllocError, Global};

/// What is found of a graph of which an exit is reached from node 0: from which nodes one is reached;
/// what iterations of its loops cost at most, and how far its nodes are; the greatest cost at an exit;
/// whether iterations exceed 64 bits, one of each loop that holds a node, together; and the topological order of the
/// listed nodes, and what it costs to enter the loop that each node heads.
#[derive(Drop)]
pub struct Pass {
    pub listed: Vec<bool>,
    pub iteration_costs: Vec<u128>,
    pub dist: Vec<u128>,
    pub value: u128,
    pub turns_exceed: bool,
    pub topology: TopologicalOrder,
    pub fees: Vec<u128>,
}

/// The pass over a graph, or `None` where no exit is reached from node 0.
pub fn one_pass(
    alloc: Global,
    g: &Graph,
    nest: &Nest,
    costs: &[u64],
    bounds: &[u32],
    loads: &[u64],
) -> Result<Option<Pass>, AllocError>
    requires nest { IsNest g.now nest.now }
    requires reducible { IsReducible g.now }
    requires costs { length costs.now ≡ g.now.nodes }
    requires bounds { length bounds.now ≡ length nest.now }
    requires loads { length loads.now ≡ length nest.now }
    ensures few { g.now.nodes < 2 ^ 32 }
    ensures valid { IsDigraph g.now }
    ensures unreached { IfOk result (λ o. IfNone o (¬ ReachesExit g.now 0)) }
    ensures fits { IfOk result (λ o. IfNone o (¬ WalksAreTooLarge g.now costs.now (bounded_loops nest.now bounds.now loads.now))) }
    ensures pass { IfOk result (λ o. IfSome o (λ s. IsPass g.now nest.now costs.now bounds.now loads.now s.listed.items s.iteration_costs.items s.dist.items
        s.value s.turns_exceed)) }
    ensures measured { IfOk result (λ o. IfSome o (λ s. IsMeasured g.now nest.now s.listed.items s.topology costs.now bounds.now loads.now
        s.iteration_costs.items s.fees.items s.dist.items)) }
{
    // The law is for the proof.
    reducible_is_reached();
    let nodes = g.nodes() as usize;
    let listed = reaching(alloc, g)?;
    if !listed[0] {
        return Ok(None);
    }
    let Measures {
        iteration_costs,
        dist,
        topology,
        fees,
    } = measure(alloc, g, nest, &listed, costs, bounds, loads)?;
    let value = greatest_end(g.exits(), costs, &dist);
    let turns_exceed = iterations_exceed(alloc, nodes, nest.loops(), &iteration_costs)?;
    Ok(Some(Pass {
        listed,
        iteration_costs,
        dist,
        value,
        turns_exceed,
        topology,
        fees,
    }))
}
