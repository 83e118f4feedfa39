//! The order in which a graph is swept.
ghost use Rattle.std.specs.Prelude.{◌≡◌, length, IfOk, IfSome, IfNone};
ghost use Rattle.loop_nest.specs.Reduction.{IsReducible};
ghost use Rattle.loop_nest.specs.Nest.{IsNest};
ghost use Rattle.path_solver.specs.Reaching.{ReachesExit};

use base::NoMemory;
use loop_nest::Graph;
use loop_nest::loops::Nest;
use path_solver::pass::one_pass;
use path_solver::topology::TopologicalOrder;
use std::alloc::Global;

/// The topological order of the nodes from which an exit is reached, or `None` where none is reached from node 0. The other
/// parameters are those of `path_solver::longest`. The only error is that there is no memory.
pub fn sweep_order(
    alloc: Global,
    g: &Graph,
    nest: &Nest,
    costs: &[u64],
    bounds: &[u32],
    loads: &[u64],
) -> Result<Option<TopologicalOrder>, NoMemory>
    requires nest { IsNest g.now nest.now }
    requires reducible { IsReducible g.now }
    requires costs { length costs.now ≡ g.now.nodes }
    requires bounds { length bounds.now ≡ length nest.now }
    requires loads { length loads.now ≡ length nest.now }
    ensures unreached { IfOk result (λ o. IfNone o (¬ ReachesExit g.now 0)) }
    ensures forward { IfOk result (λ o. IfSome o (λ p. length p.forward ≡ g.now.nodes)) }
    ensures back { IfOk result (λ o. IfSome o (λ p. length p.back ≡ g.now.nodes)) }
{
    match one_pass(alloc, g, nest, costs, bounds, loads)? {
        Some(found) => Ok(Some(found.topology)),
        None => Ok(None),
    }
}
