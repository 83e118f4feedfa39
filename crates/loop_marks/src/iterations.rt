//! Which nodes each iteration of a loop visits.

ghost use Rattle.std.specs.Prelude.{◌≡◌, ◌↔◌, ℕ, ◌<◌, false, All, IfOk, IsTrue};
ghost use Rattle.loop_nest.specs.Digraph.{Edge};
ghost use Rattle.loop_rules.specs.Iterations.{IsOnEachIteration};
ghost use Rattle.loop_marks.specs.Marking.{AreMarksOf, AreSized, IsRest, IsWithout};
ghost use Rattle.loop_marks.specs.Reach.{AreReached, flag_at};

use crate::flags::{NodeFlags, is_flagged};
use crate::marking::LoopMarks;
use crate::routing::Routes;
use base::NoMemory;
use std::alloc::Global;

/// The nodes to which a walk among the members of a loop leads from its header without a node.
pub fn reached_without(
    alloc: Global,
    routes: &Routes,
    marks: &LoopMarks,
    node: u32,
) -> Result<NodeFlags, NoMemory>
    requires sized { AreSized routes.now marks.now }
    requires node { node < routes.now.nodes }
    ensures { IfOk result (λ flags. AreMarksOf routes.now marks.now → IsWithout routes.now marks.now.header node flags.items) }
{
    routes.reached(alloc, marks.members(), node, marks.header())
}

/// Whether none of these nodes is flagged.
fn none_flagged(flags: &NodeFlags, nodes: &[u32]) -> bool
    ensures { IsTrue result ↔ All (λ u. flag_at flags.now.items u ≡ false) nodes.now }
{
    nodes.iter().all(|u| !is_flagged(flags, u64::from(*u)))
}

/// Whether one of the nodes that are reached without another one has an edge to the header: then neither that one nor a node that isn't
/// reached without it is on each iteration.
pub fn comes_back(routes: &Routes, marks: &LoopMarks, without: &NodeFlags) -> bool
    requires { AreSized routes.now marks.now }
    ensures none { result ≡ false → (u : ℕ) → Edge routes.now u marks.now.header → flag_at without.now.items u ≡ false }
    ensures rest { (x : ℕ) → IsTrue result → IsWithout routes.now marks.now.header x without.now.items → IsRest routes.now marks.now.header without.now.items }
    ensures out { (x : ℕ) → IsTrue result → IsWithout routes.now marks.now.header x without.now.items → ¬ IsOnEachIteration routes.now marks.now.header x }
{
    loop_nest::laws::loops_are_entered_at_headers();
    !none_flagged(without, routes.sources(marks.header()))
}

/// Whether each iteration of a loop visits a node once, by the nodes that are reached without it.
pub fn is_on_each_iteration(
    routes: &Routes,
    marks: &LoopMarks,
    node: u32,
    without: &NodeFlags,
) -> bool
    requires { AreSized routes.now marks.now }
    ensures { AreMarksOf routes.now marks.now → IsWithout routes.now marks.now.header node without.now.items
        → IsTrue result ↔ IsOnEachIteration routes.now marks.now.header node }
{
    loop_nest::laws::loops_are_entered_at_headers();
    let node = u64::from(node);
    marks.has(node)
        && !marks.is_inner(node)
        && none_flagged(without, routes.sources(marks.header()))
}
