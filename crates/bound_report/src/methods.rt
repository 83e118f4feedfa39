//! The counts of one method.
ghost use Rattle.std.specs.Prelude.{◌≡◌, ◌<◌, Some, length, slice_get, All, IfOk, IfErr};
ghost use Rattle.method_flow.specs.Flow.{Coded, IsCoded};
ghost use Rattle.bound_finder.specs.Known.{bounds_in, ForEach, IsLimited, IsBoundSetting};
ghost use Rattle.bound_finder.specs.Prepared.{IsInShape, IsPreparedFor};
ghost use Rattle.bound_finder.specs.Ready.{IsWantOfMemory};
ghost use Rattle.bound_report.specs.Settled.{IsSettledAt, IsCountOf};

use super::counts::{MethodCounts, NodeCount};
use super::laws::{counts_are_of_walks, settled_are_walked};
use super::nodes::nodes_of;
use super::walks::{fees, walk_of};
use crate::visits::WalkCounts;
use base::NoMemory;
use bound_finder::known::Known;
use bound_finder::laws::ready_has_shape;
use bound_finder::prepared::{Prepared, prepare};
use bound_finder::task::Task;
use bound_rules::BoundRefusal;
use std::alloc::Global;

/// Says of what form the waits are and the method `m` is.
fn form_of(task: &Task<'_>, m: u32)
    requires { m < length task.now.flow.methods }
    ensures setting { IsBoundSetting task.now }
    ensures coded { (k : Coded) × (slice_get task.now.flow.methods m ≡ Some k) × IsCoded k }
{
    // Its clause is for the proof alone.
    let _timing = task.timing();
    let _code = task.method(m).code();
}

/// The counts of a method with these nodes and this walk.
fn joined(
    method: u32,
    times: u128,
    nodes: Vec<NodeCount>,
    fees: Vec<u64>,
    walk: WalkCounts,
) -> MethodCounts
    ensures method { result.method ≡ method }
    ensures times { result.times ≡ times }
    ensures nodes { result.nodes ≡ nodes }
    ensures entered { result.entered ≡ walk.entered }
    ensures fees { result.fees ≡ fees }
{
    MethodCounts {
        method,
        times,
        nodes,
        entered: walk.entered,
        fees,
    }
}

/// The counts of the method `m`, whose number counts so often, where it was prepared.
fn counts_of(
    alloc: Global,
    task: &Task<'_>,
    m: u32,
    table: &[Known],
    times: u128,
    p: &Prepared,
) -> Result<MethodCounts, BoundRefusal>
    requires method { m < length task.now.flow.methods }
    requires long { length table.now ≡ length task.now.flow.methods }
    requires limited { All IsLimited table.now }
    requires settled { ForEach task.now (λ P. IsSettledAt P task.now.timing (bounds_in task.now) table.now m) }
    requires shape { IsInShape p.now }
    requires prepared { ForEach task.now (λ P. IsPreparedFor P task.now.timing (bounds_in task.now) table.now m p.now) }
    ensures counts { IfOk result (IsCountOf task.now table.now m times) }
    ensures cause { IfErr result (λ e. ForEach task.now (λ P. IsWantOfMemory e)) }
{
    counts_are_of_walks();
    settled_are_walked();
    form_of(task, m);
    let Ok(fees) = fees(alloc, &p.charges.loads, &p.charges.flags) else {
        return Err(BoundRefusal::NoMemory);
    };
    let walk = walk_of(alloc, p, m, &fees)?;
    match nodes_of(alloc, task, m, table, p, &walk.visits) {
        Ok(nodes) => Ok(joined(m, times, nodes, fees, walk)),
        Err(NoMemory) => Err(BoundRefusal::NoMemory),
    }
}

/// The counts of the method `m`, whose number counts so often.
pub fn method_counts(
    alloc: Global,
    task: &Task<'_>,
    m: u32,
    table: &[Known],
    times: u128,
) -> Result<MethodCounts, BoundRefusal>
    requires method { m < length task.now.flow.methods }
    requires long { length table.now ≡ length task.now.flow.methods }
    requires limited { All IsLimited table.now }
    requires settled { ForEach task.now (λ P. IsSettledAt P task.now.timing (bounds_in task.now) table.now m) }
    ensures counts { IfOk result (IsCountOf task.now table.now m times) }
    ensures cause { IfErr result (λ e. ForEach task.now (λ P. IsWantOfMemory e)) }
{
    ready_has_shape();
    let p = prepare(alloc, task, m, table[m as usize].fits, table)?;
    counts_of(alloc, task, m, table, times, &p)
}
