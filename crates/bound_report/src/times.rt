//! The counts of all methods, callers first, with how often the number of each counts.
ghost use Rattle.std.specs.Prelude.{◌≡◌, ◌<◌, [], ◌∷◌, ◌++◌, if◌then◌else◌, length, All, IfOk, IfErr, OnOk};
ghost use Rattle.bound_finder.specs.Known.{bounds_in, ForEach, IsLimited};
ghost use Rattle.bound_finder.specs.Ready.{IsWantOfMemory};
ghost use Rattle.bound_report.specs.Settled.{IsSettledAt};
ghost use Rattle.bound_report.specs.Adding.{has_number, callers_of, AreMoreAt, AreTimesAdded, AddsCount, AreRootTimes, AreSettled, AreCountsOfAll};

use super::counts::{MethodCounts, NodeCount};
use super::methods::method_counts;
use super::rows::{product, sum};
use base::NoMemory;
use bound_finder::known::Known;
use bound_finder::task::Task;
use bound_rules::BoundRefusal;
use std::alloc::Global;

/// Whether a number is asked of the method.
fn has_number(table: &[Known], m: u32) -> bool
    requires { m < length table.now }
    ensures { result ≡ has_number table.now m }
{
    table[m as usize].asked.is_some()
}

/// Adds a method, where it is kept.
fn keep(methods: &mut Vec<u32>, m: u32, kept: bool) -> Result<(), NoMemory>
    ensures { OnOk result (methods.new.items ≡ methods.old.items ++ (if kept then m ∷ [] else [])) }
{
    if kept {
        methods.push(m)?;
    }
    Ok(())
}

/// Those of the methods of an order that have a number, in the other direction.
fn callers_first(alloc: Global, order: &[u32], table: &[Known]) -> Result<Vec<u32>, NoMemory>
    requires { All (λ m. m < length table.now) order.now }
    ensures { IfOk result (λ v. v.items ≡ callers_of table.now order.now) }
{
    let mut methods = Vec::new(alloc);
    for i in 0..order.len() {
        let m = order[order.len() - 1 - i];
        keep(&mut methods, m, has_number(table, m))?;
    }
    Ok(methods)
}

/// Adds so much to the times of a method.
fn add_to(times: &mut [u128], target: Option<u32>, more: u128)
    ensures { AreMoreAt times.old target more times.new }
{
    if let Some(x) = target {
        let at = x as usize;
        if at < times.len() {
            times[at] = sum(times[at], more);
        }
    }
}

/// Adds to the times of the methods that these nodes call how often they do, where the caller counts so often.
fn add_times(times: &mut [u128], count: u128, nodes: &[NodeCount])
    ensures { AreTimesAdded times.old count nodes.now times.new }
{
    for c in nodes {
        add_to(times, c.target, product(count, c.visits));
    }
}

/// The number of the root counts once, and no other as yet.
fn root_times(alloc: Global, count: u32, root: u32) -> Result<Vec<u128>, NoMemory>
    requires { root < count }
    ensures { IfOk result (λ v. AreRootTimes count root v.items) }
{
    let mut times = vec![in alloc; 0; count as usize]?;
    times[root as usize] = 1;
    Ok(times)
}

/// Adds these counts.
fn push_counts(counted: &mut Vec<MethodCounts>, counts: MethodCounts) -> Result<(), NoMemory>
    ensures { OnOk result (counted.new.items ≡ counted.old.items ++ counts ∷ []) }
{
    counted.push(counts)?;
    Ok(())
}

/// Adds the counts of the method `m`, and the times of those that it calls.
fn count_next(
    alloc: Global,
    task: &Task<'_>,
    m: u32,
    table: &[Known],
    times: &mut [u128],
    counted: &mut Vec<MethodCounts>,
) -> Result<(), BoundRefusal>
    requires method { m < length task.now.flow.methods }
    requires long { length table.now ≡ length task.now.flow.methods }
    requires limited { All IsLimited table.now }
    requires times { length times.old ≡ length task.now.flow.methods }
    requires settled { ForEach task.now (λ P. IsSettledAt P task.now.timing (bounds_in task.now) table.now m) }
    ensures counted { OnOk result (AddsCount task.now table.now m times.old counted.old.items times.new counted.new.items) }
    ensures cause { IfErr result (λ e. ForEach task.now (λ P. IsWantOfMemory e)) }
{
    let counts = method_counts(alloc, task, m, table, times[m as usize])?;
    add_times(times, counts.times, &counts.nodes);
    let Ok(()) = push_counts(counted, counts) else {
        return Err(BoundRefusal::NoMemory);
    };
    Ok(())
}

/// The counts of these methods, each of which stands before all that it may call.
fn count_all(
    alloc: Global,
    task: &Task<'_>,
    root: u32,
    methods: &[u32],
    table: &[Known],
) -> Result<Vec<MethodCounts>, BoundRefusal>
    requires root { root < length task.now.flow.methods }
    requires known { All (λ m. m < length task.now.flow.methods) methods.now }
    requires long { length table.now ≡ length task.now.flow.methods }
    requires limited { All IsLimited table.now }
    requires settled { ForEach task.now (λ P. AreSettled P task.now.timing (bounds_in task.now) table.now root methods.now) }
    ensures counts { IfOk result (λ ks. ForEach task.now
        (λ P. AreCountsOfAll P task.now.timing (bounds_in task.now) table.now root methods.now ks.items)) }
    ensures cause { IfErr result (λ e. ForEach task.now (λ P. IsWantOfMemory e)) }
{
    let Ok(mut times) = root_times(alloc, task.flow().method_count(), root) else {
        return Err(BoundRefusal::NoMemory);
    };
    let mut counted = Vec::new(alloc);
    for m in methods {
        count_next(alloc, task, *m, table, &mut times, &mut counted)?;
    }
    Ok(counted)
}

/// The counts of all methods of the order that have a number.
pub fn counts_of_all(
    alloc: Global,
    task: &Task<'_>,
    root: u32,
    order: &[u32],
    table: &[Known],
) -> Result<Vec<MethodCounts>, BoundRefusal>
    requires root { root < length task.now.flow.methods }
    requires known { All (λ m. m < length task.now.flow.methods) order.now }
    requires long { length table.now ≡ length task.now.flow.methods }
    requires limited { All IsLimited table.now }
    requires settled { ForEach task.now (λ P. AreSettled P task.now.timing (bounds_in task.now) table.now root (callers_of table.now order.now)) }
    ensures counts { IfOk result (λ ks. ForEach task.now
        (λ P. AreCountsOfAll P task.now.timing (bounds_in task.now) table.now root (callers_of table.now order.now) ks.items)) }
    ensures cause { IfErr result (λ e. ForEach task.now (λ P. IsWantOfMemory e)) }
{
    match callers_first(alloc, order, table) {
        Ok(methods) => count_all(alloc, task, root, &methods, table),
        Err(NoMemory) => Err(BoundRefusal::NoMemory),
    }
}
