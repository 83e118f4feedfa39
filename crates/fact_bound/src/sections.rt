//! The section of a method by a sweep over its live graph with prices.

use base::NoMemory;
use bound_finder::prepared::Prepared;
use certificates::{CertSection, SectionKind};
use path_solver::topology::TopologicalOrder;
use price_search::Sweep;
use section_check::section::{CertLoop, Section};
use std::alloc::Global;

/// The node with this number in the compact graph.
fn node_at(nodes: &[u32], u: u32) -> u32 {
    nodes.get(u as usize).copied().unwrap_or(0)
}

/// The listed nodes, rising, with their potentials: what is left of the greatest walk's cost.
fn potentials(
    alloc: Global,
    nodes: &[u32],
    order: &[u32],
    s: &Sweep,
) -> Result<Vec<(u32, i128)>, NoMemory> {
    let mut listed = order.to_vec(alloc)?;
    listed.sort_unstable();
    let mut potentials = Vec::new(alloc);
    for u in &listed {
        let dist = s.dist.get(*u as usize).copied().unwrap_or(0);
        potentials.push((node_at(nodes, *u), s.value.saturating_sub(dist)))?;
    }
    Ok(potentials)
}

/// The nodes with these numbers in the compact graph.
fn nodes_at(alloc: Global, nodes: &[u32], numbers: &[u32]) -> Result<Vec<u32>, NoMemory> {
    let mut found = Vec::new(alloc);
    for u in numbers {
        found.push(node_at(nodes, *u))?;
    }
    Ok(found)
}

/// What an iteration of the loop of this number costs at most, where costs past 64 bits count as 2^64 - 1.
fn iteration_cost(s: &Sweep, loop_number: usize) -> u64 {
    let cost = s.iteration_costs.get(loop_number).copied().unwrap_or(0);
    u64::try_from(cost).unwrap_or(u64::MAX)
}

/// The loops, with what an iteration of each costs at most.
fn cert_loops(alloc: Global, p: &Prepared, s: &Sweep) -> Result<Vec<CertLoop>, NoMemory> {
    let nodes = p.shape.nodes.as_slice();
    let loops = p.shape.nest.loops();
    let mut found = Vec::new(alloc);
    for i in 0..loops.len() {
        let header = node_at(nodes, loops[i].header());
        let members = nodes_at(alloc, nodes, loops[i].members())?;
        let region = p.charges.flags.get(i).copied().unwrap_or(false);
        found.push(CertLoop::new(header, iteration_cost(s, i), members, region))?;
    }
    Ok(found)
}

/// The kind of a method's section, where it is said whether all that may run while the method does fits the cache together.
fn kind_of(fits: bool) -> SectionKind {
    if fits {
        SectionKind::Inside
    } else {
        SectionKind::Loops
    }
}

/// The section of the method `m` that lists no node.
pub(crate) fn empty_section(alloc: Global, m: u32, fits: bool) -> CertSection {
    CertSection {
        kind: kind_of(fits),
        method: m,
        section: Section::new(Vec::new(alloc), Vec::new(alloc)),
    }
}

/// The section of the method `m` by a sweep in this order.
pub(crate) fn swept_section(
    alloc: Global,
    m: u32,
    p: &Prepared,
    topology: &TopologicalOrder,
    s: &Sweep,
) -> Result<CertSection, NoMemory> {
    let listed = potentials(alloc, p.shape.nodes.as_slice(), &topology.order, s)?;
    let loops = cert_loops(alloc, p, s)?;
    Ok(CertSection {
        kind: kind_of(p.fits),
        method: m,
        section: Section::new(listed, loops),
    })
}
