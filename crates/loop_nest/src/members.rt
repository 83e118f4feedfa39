//! The members of a loop: a search backwards from the sources of its back edges, which stops at the
//! header.
ghost use Rattle.std.specs.Prelude.{◌≡◌, ◌<◌, ◌↔◌, length, All, Some, OnOk, IsTrue};
ghost use Rattle.loop_nest.specs.Digraph.{IsDigraph, AreSources};
ghost use Rattle.loop_nest.specs.Search.{AreFound, IsMarkedWith, AreUnmarked};

use super::digraph::{Graph, Sources};
use std::alloc::{AllocError, Global};

/// Whether this mark is that of a loop.
fn is_mark_of(mark: Option<u32>, number: u32) -> bool
    ensures { IsTrue result ↔ (mark ≡ Some number) }
{
    match mark {
        Some(other) => other == number,
        None => false,
    }
}

/// Marks with the number of a loop its header `h` and the nodes from which one of the nodes `starts`
/// is reached without visiting `h`.
pub fn mark(
    alloc: Global,
    g: &Graph,
    sources: &Sources,
    h: u32,
    starts: &[u32],
    number: u32,
    marks: &mut [Option<u32>],
) -> Result<(), AllocError>
    requires sources { AreSources g.now.edges g.now.nodes sources.now }
    requires valid { IsDigraph g.now }
    requires header { h < g.now.nodes }
    requires within { All (λ x. x < g.now.nodes) starts.now }
    requires long { length marks.old ≡ g.now.nodes }
    requires fresh { AreUnmarked number marks.old }
    ensures found { OnOk result (AreFound g.now h starts.now number marks.new) }
    ensures others { OnOk result (IsMarkedWith number marks.old marks.new) }
{
    let mut stack = Vec::from_slice(alloc, starts)?;
    marks[h as usize] = Some(number);
    while let Some(x) = stack.pop() {
        if !is_mark_of(marks[x as usize], number) {
            marks[x as usize] = Some(number);
            stack.extend_from_slice(sources.of(x))?;
        }
    }
    Ok(())
}
