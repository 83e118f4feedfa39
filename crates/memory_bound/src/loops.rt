//! The bounds of the loops that make objects.
ghost use Rattle.std.specs.Prelude.{◌≡◌, length, IfOk};
ghost use Rattle.loop_nest.specs.Digraph.{Digraph};
ghost use Rattle.memory_bound.specs.Shapes.{IsShapeIn, headers_in};
ghost use Rattle.memory_bound.specs.Loops.{AreMakingBounds, IsFirstWithout};

use super::shapes::Shape;
use base::NoMemory;
use std::alloc::Global;

/// The headers of the loops, by the numbers of nodes in the method's graph.
pub fn headers(alloc: Global, s: &Shape) -> Result<Vec<u32>, NoMemory>
    requires { (g : Digraph) × IsShapeIn g s.now }
    ensures { IfOk result (λ v. v.items ≡ headers_in s.now) }
{
    let nodes = s.nodes.as_slice();
    let mut headers = Vec::new(alloc);
    for l in s.nest.loops() {
        headers.push(nodes[l.header() as usize])?;
    }
    Ok(headers)
}

/// The place of the first header of a loop that makes objects and has no bound.
pub fn first_unbounded(making: &[bool], bounds: &[Option<u32>], headers: &[u32]) -> Option<u32>
    requires making { length making.now ≡ length headers.now }
    requires bounds { length bounds.now ≡ length headers.now }
    ensures { IsFirstWithout making.now bounds.now headers.now result }
{
    for i in 0..headers.len() {
        if making[i] && bounds[i].is_none() {
            return Some(headers[i] / 2);
        }
    }
    None
}

/// The bounds of loops that make objects, and 0 for the others.
pub fn making_bounds(
    alloc: Global,
    making: &[bool],
    bounds: &[Option<u32>],
) -> Result<Vec<u32>, NoMemory>
    requires { length bounds.now ≡ length making.now }
    ensures { IfOk result (λ v. AreMakingBounds making.now bounds.now v.items) }
{
    let mut found = Vec::new(alloc);
    for i in 0..making.len() {
        found.push(if making[i] { bounds[i].unwrap_or(0) } else { 0 })?;
    }
    Ok(found)
}
