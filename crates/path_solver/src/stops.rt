//! Greatest walks that may stop at any node.
ghost use Rattle.std.specs.Prelude.{◌≡◌, ℕ, ◌<◌, List, length, replicate, Contains, IfOk, IfErr};
ghost use Rattle.loop_nest.specs.Reduction.{IsReducible};
ghost use Rattle.loop_nest.specs.Nest.{NaturalLoop, IsNest};
ghost use Rattle.section_check.specs.Bounded.{IsGreatest};
ghost use Rattle.path_solver.specs.declared.solved.SolveFault.TheVariants.{TooLarge};
ghost use Rattle.path_solver.specs.Longest.{bounded_loops, WalkExceeds};

use super::pass::one_pass;
use super::solved::SolveFault;
use super::totals::within_limit;
use loop_nest::Graph;
use loop_nest::loops::Nest;
use std::alloc::Global;

/// What the greatest walk from node 0 costs that keeps all bounds, where a walk may stop at any node: each
/// is an exit. Entries of loops load nothing, and no matter what iterations cost.
///
/// # Errors
///
/// `TooLarge` exactly where such a walk exceeds 64 bits.
pub fn greatest_stop(
    alloc: Global,
    g: &Graph,
    nest: &Nest,
    costs: &[u64],
    bounds: &[u32],
) -> Result<u64, SolveFault>
    requires nest { IsNest g.now nest.now }
    requires reducible { IsReducible g.now }
    requires costs { length costs.now ≡ g.now.nodes }
    requires bounds { length bounds.now ≡ length nest.now }
    requires all { (u : ℕ) → u < g.now.nodes → Contains g.now.exits u }
    ensures greatest { IfOk result (IsGreatest g.now costs.now (bounded_loops nest.now bounds.now (replicate (length nest.now) 0))) }
    ensures cause { IfErr result (λ fault. fault ≡ TooLarge → WalkExceeds g.now costs.now (bounded_loops nest.now bounds.now (replicate (length nest.now) 0))) }
{
    let loads = vec![in alloc; 0; nest.loops().len()]?;
    match one_pass(alloc, g, nest, costs, bounds, &loads)? {
        Some(found) => within_limit(found.value).ok_or(SolveFault::TooLarge),
        // Node 0 is an exit.
        None => Ok(0),
    }
}
