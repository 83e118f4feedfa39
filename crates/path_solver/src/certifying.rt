//! The nodes and the loops of a section.
ghost use Rattle.std.specs.Prelude.{◌≡◌, ◌^◌, ◌<◌, length, All, IfOk};
ghost use Rattle.path_solver.specs.Distances.{AreLimited};
ghost use Rattle.path_solver.specs.Certifying.{certified};
ghost use Rattle.path_solver.specs.Potentials.{AreLeft};

use loop_nest::loops::Loop;
use section_check::section::CertLoop;
use std::alloc::{AllocError, Global};

/// The listed nodes with their potentials: what is left of the value.
pub fn potentials(
    alloc: Global,
    listed: &[bool],
    value: u64,
    dist: &[u128],
) -> Result<Vec<(u32, i128)>, AllocError>
    requires few { length listed.now < 2 ^ 32 }
    requires same { length dist.now ≡ length listed.now }
    requires limited { AreLimited dist.now }
    ensures { IfOk result (λ nodes. AreLeft listed.now value dist.now nodes.items) }
{
    let mut nodes = Vec::new(alloc);
    for u in 0..listed.len() {
        if listed[u] {
            nodes.push((u as u32, i128::from(value) - dist[u] as i128))?;
        }
    }
    Ok(nodes)
}

/// The loops, with what an iteration of each costs at most. None is marked as a region.
pub fn cert_loops(
    alloc: Global,
    loops: &[Loop],
    iteration_costs: &[u128],
) -> Result<Vec<CertLoop>, AllocError>
    requires iteration_costs { length iteration_costs.now ≡ length loops.now }
    requires small { All (λ w. w < 2 ^ 64) iteration_costs.now }
    ensures { IfOk result (λ found. found.items ≡ certified loops.now iteration_costs.now) }
{
    let mut found = Vec::new(alloc);
    for i in 0..loops.len() {
        let members = Vec::from_slice(alloc, loops[i].members())?;
        let iteration_cost = iteration_costs[i] as u64;
        found.push(CertLoop::new(loops[i].header(), iteration_cost, members, false))?;
    }
    Ok(found)
}
