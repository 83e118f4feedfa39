//! Which nodes are reached through some nodes alone.

ghost use Rattle.std.specs.Prelude.{◌≡◌, ◌<◌, ◌≤◌, false, length, set, IfOk, IsTrue};
ghost use Rattle.loop_nest.specs.Digraph.{IsDigraph};
ghost use Rattle.flow_graph.specs.Reach.{AreSpans, ArePushed};
ghost use Rattle.loop_marks.specs.Reach.{AreReached, flag_at};

use crate::flags::{NodeFlags, is_flagged};
use base::NoMemory;
use flow_graph::push_targets;
use loop_nest::Graph;
use std::alloc::Global;

/// Whether a node is another one than `without` and allowed.
fn is_allowed(allowed: &NodeFlags, without: u32, node: u32) -> bool
    ensures flag { result ≡ flag_at (set allowed.now.items without false) node }
    ensures first { IsTrue result → allowed.now.first ≤ node }
    ensures within { IsTrue result → node < length allowed.now.items }
{
    node != without && is_flagged(allowed, u64::from(node))
}

/// The nodes that a walk from `start` through nodes that are allowed, but for `without`, leads to. `spans` has for each node where the
/// edges from it stand.
pub fn reached(
    alloc: Global,
    g: &Graph,
    spans: &[(usize, usize)],
    allowed: &NodeFlags,
    without: u32,
    start: u32,
) -> Result<NodeFlags, NoMemory>
    requires start { start < g.now.nodes }
    requires spans { AreSpans g.now.edges spans.now }
    requires each { length spans.now ≡ g.now.nodes }
    ensures { IfOk result (λ flags. AreReached g.now (set allowed.now.items without false) start flags.items) }
{
    // Its clause is for the proof alone.
    let _ = g.nodes();
    let mut flags = allowed.cleared(alloc)?;
    let mut stack = vec![in alloc; start]?;
    while let Some(x) = stack.pop() {
        if is_allowed(allowed, without, x) && !is_flagged(&flags, u64::from(x)) {
            flags.mark(x);
            push_targets(g.edges(), spans, x, &mut stack)?;
        }
    }
    Ok(flags)
}
