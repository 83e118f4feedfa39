//! An order of the nodes in which each stands behind its dominators.
ghost use Rattle.std.specs.Prelude.{◌≡◌, ℕ, false, [], length, IfOk, slice_index_or};
ghost use Rattle.loop_nest.specs.Digraph.{IsDigraph, turned, AreSources};
ghost use Rattle.loop_nest.specs.Order.{AreDominatorsFirst};

use super::digraph::{Graph, Sources, targets};
use std::alloc::{AllocError, Global};

/// The nodes that are reached, none before one that dominates it: a search forwards from node 0,
/// which marks the nodes that it has seen.
fn outwards(
    alloc: Global,
    g: &Graph,
    targets: &Sources,
    seen: &mut [bool],
) -> Result<Vec<u32>, AllocError>
    requires valid { IsDigraph g.now }
    requires targets { AreSources (turned g.now.edges) g.now.nodes targets.now }
    requires long { length seen.old ≡ g.now.nodes }
    requires unseen { (u : ℕ) → slice_index_or seen.old u false ≡ false }
    ensures { IfOk result (λ order. AreDominatorsFirst g.now order.items) }
{
    let mut order = Vec::with_capacity(alloc, g.nodes() as usize)?;
    let mut stack = Vec::new(alloc);
    stack.push(0)?;
    while let Some(u) = stack.pop() {
        if !seen[u as usize] {
            seen[u as usize] = true;
            order.push(u)?;
            stack.extend_from_slice(targets.of(u))?;
        }
    }
    Ok(order)
}

/// The nodes that are reached, none before one that dominates it.
pub fn dominators_first(alloc: Global, g: &Graph) -> Result<Vec<u32>, AllocError>
    ensures { IfOk result (λ order. AreDominatorsFirst g.now order.items) }
{
    let targets = targets(alloc, g)?;
    let mut seen = vec![in alloc; false; g.nodes() as usize]?;
    outwards(alloc, g, &targets, &mut seen)
}
