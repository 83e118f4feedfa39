//! Sections with other numbers of nodes.
ghost use Rattle.std.specs.Prelude.{◌≡◌, ◌^◌, ◌<◌, length, map, slice_index, All, IfOk};
ghost use Rattle.section_check.specs.Renumbering.{moved, moved_loop};

use base::NoMemory;
use section_check::section::{CertLoop, Section};
use std::alloc::Global;

/// The other numbers of these nodes.
pub fn numbers(alloc: Global, nodes: &[u32], us: &[u32]) -> Result<Vec<u32>, NoMemory>
    requires { All (λ u. u < length nodes.now) us.now }
    ensures { IfOk result (λ v. v.items ≡ map (slice_index nodes.now) us.now) }
{
    let mut numbers = Vec::new(alloc);
    for u in us {
        numbers.push(nodes[*u as usize])?;
    }
    Ok(numbers)
}

/// The listed nodes of a section, with their potentials, under their other numbers.
fn moved_nodes(
    alloc: Global,
    nodes: &[u32],
    listed: &[(u32, i128)],
) -> Result<Vec<(u32, i128)>, NoMemory>
    requires { All (λ p. p.0 < length nodes.now) listed.now }
    ensures { IfOk result (λ v. v.items ≡ map (λ p. (slice_index nodes.now p.0, p.1)) listed.now) }
{
    let mut moved = Vec::new(alloc);
    for (u, potential) in listed {
        moved.push((nodes[*u as usize], *potential))?;
    }
    Ok(moved)
}

/// A loop of a section under the other numbers.
fn moved_loop(alloc: Global, nodes: &[u32], l: &CertLoop) -> Result<CertLoop, NoMemory>
    requires header { l.now.header < length nodes.now }
    requires members { All (λ u. u < length nodes.now) l.now.members }
    ensures moved { IfOk result (λ k. k ≡ moved_loop (slice_index nodes.now) l.now) }
    ensures cost { IfOk result (λ k. k.iteration_cost < 2 ^ 64) }
{
    let members = numbers(alloc, nodes, l.members())?;
    Ok(CertLoop::new(
        nodes[l.header() as usize],
        l.iteration_cost(),
        members,
        l.region(),
    ))
}

/// The loops of a section under the other numbers.
fn moved_loops(alloc: Global, nodes: &[u32], loops: &[CertLoop]) -> Result<Vec<CertLoop>, NoMemory>
    requires headers { All (λ l. l.header < length nodes.now) loops.now }
    requires members { All (λ l. All (λ u. u < length nodes.now) l.members) loops.now }
    ensures moved { IfOk result (λ v. v.items ≡ map (moved_loop (slice_index nodes.now)) loops.now) }
    ensures costs { IfOk result (λ v. All (λ l. l.iteration_cost < 2 ^ 64) v.items) }
{
    let mut moved = Vec::new(alloc);
    for l in loops {
        moved.push(moved_loop(alloc, nodes, l)?)?;
    }
    Ok(moved)
}

/// A section under the other numbers of its nodes.
pub fn moved(alloc: Global, nodes: &[u32], s: &Section) -> Result<Section, NoMemory>
    requires listed { All (λ p. p.0 < length nodes.now) s.now.nodes }
    requires headers { All (λ l. l.header < length nodes.now) s.now.loops }
    requires members { All (λ l. All (λ u. u < length nodes.now) l.members) s.now.loops }
    ensures moved { IfOk result (λ r. r ≡ moved (slice_index nodes.now) s.now) }
    ensures costs { IfOk result (λ r. All (λ l. l.iteration_cost < 2 ^ 64) r.loops) }
{
    let listed = moved_nodes(alloc, nodes, s.nodes())?;
    let loops = moved_loops(alloc, nodes, s.loops())?;
    Ok(Section::new(listed, loops))
}
