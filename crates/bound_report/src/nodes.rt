//! The nodes of a method with their visits, their own costs and what is called at them.
ghost use Rattle.std.specs.Prelude.{◌≡◌, ◌<◌, length, slice_index, All, IfOk};
ghost use Rattle.bound_finder.specs.Known.{IsLimited};
ghost use Rattle.bound_finder.specs.Prepared.{IsInShape};
ghost use Rattle.bound_report.specs.Callees.{callee_at};
ghost use Rattle.bound_report.specs.Nodes.{counted_nodes, counted_node, AreNodesOf};

use super::callees::{Callee, NO_CALLEE, callees_of};
use super::counts::NodeCount;
use base::NoMemory;
use bound_finder::costs::without_loads;
use bound_finder::known::Known;
use bound_finder::prepared::Prepared;
use bound_finder::task::Task;
use node_costs::own_costs;
use std::alloc::Global;

/// The counts of a node.
fn counted_node(node: u32, visits: u128, own: u64, callee: Callee) -> NodeCount
    ensures { result ≡ counted_node node visits own callee }
{
    NodeCount {
        node,
        visits,
        own,
        target: callee.target,
        loads: callee.loads,
    }
}

/// The counts of a node, where it is said of each number of a node what it takes by itself and what is called at it.
fn count_at(node: u32, visits: u128, own: &[u64], callees: &[Callee]) -> NodeCount
    ensures { result ≡ counted_node node visits (slice_index own.now node) (callee_at callees.now node) }
{
    let at = node as usize;
    let own = own.get(at).copied().unwrap_or(0);
    let callee = callees.get(at).copied().unwrap_or(NO_CALLEE);
    counted_node(node, visits, own, callee)
}

/// The counts of these nodes, where it is said of each number of a node what it takes by itself and what is called at it.
fn counted_nodes(
    alloc: Global,
    nodes: &[u32],
    visits: &[u128],
    own: &[u64],
    callees: &[Callee],
) -> Result<Vec<NodeCount>, NoMemory>
    requires { length visits.now ≡ length nodes.now }
    ensures { IfOk result (λ v. v.items ≡ counted_nodes own.now callees.now nodes.now visits.now) }
{
    let mut counted = Vec::new(alloc);
    for i in 0..nodes.len() {
        counted.push(count_at(nodes[i], visits[i], own, callees))?;
    }
    Ok(counted)
}

/// The counts of the nodes of the method `m`, which are visited so often.
pub fn nodes_of(
    alloc: Global,
    task: &Task<'_>,
    m: u32,
    table: &[Known],
    p: &Prepared,
    visits: &[u128],
) -> Result<Vec<NodeCount>, NoMemory>
    requires method { m < length task.now.flow.methods }
    requires long { length table.now ≡ length task.now.flow.methods }
    requires limited { All IsLimited table.now }
    requires shape { IsInShape p.now }
    requires visits { length visits.now ≡ length p.now.shape.nodes }
    ensures { IfOk result (λ v. AreNodesOf task.now m table.now p.now visits.now v.items) }
{
    let own = own_costs(alloc, task.method(m), task.timing())?;
    let without = without_loads(alloc, &p.shape, p.fits, &p.charges.flags)?;
    let callees = callees_of(alloc, task, m, table, &without)?;
    counted_nodes(alloc, p.shape.nodes.as_slice(), visits, &own, &callees)
}
