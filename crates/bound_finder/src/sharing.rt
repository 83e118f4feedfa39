//! What is answered of all methods of an order, which share what is known of those that they call.
ghost use Rattle.std.specs.Prelude.{◌≡◌, ◌<◌, None, length, replicate, slice_index_or, All, IfOk};
ghost use Rattle.section_check.specs.Least.{IsLeast, lesser_of};
ghost use Rattle.bound_finder.specs.Ending.{AreKnownWithin, IsLargeWithin};
ghost use Rattle.bound_finder.specs.Known.{bounds_in, ForEach};
ghost use Rattle.bound_finder.specs.Sharing.{AreFoundFor, AreLeastCalled, AreLeastWithin, AreMethodBounds, IsBeside, IsBesideCalled, IsLargeAlone};

use super::ending::{MethodBound, method_bound};
use super::known::Known;
use super::methods::{Methods, lesser};
use super::task::Task;
use base::NoMemory;
use method_flow::{Call, FlowProgram};
use std::alloc::Global;

/// The lesser of two methods, as far as there are any.
fn lesser_of(a: Option<u32>, b: Option<u32>) -> Option<u32>
    ensures { result ≡ lesser_of a b }
{
    match b {
        Some(b) => Some(lesser(a, b)),
        None => a,
    }
}

/// The least method that stands beside one of these.
fn least_of(methods: &[u32], least: &[Option<u32>]) -> Option<u32>
    requires { All (λ m. m < length least.now) methods.now }
    ensures { IsLeast (IsBeside least.now methods.now) result }
{
    let mut found = None;
    for m in methods {
        found = lesser_of(found, least[*m as usize]);
    }
    found
}

/// The least that stands beside a method that one of these calls may run.
fn least_called(f: &FlowProgram, calls: &[Call], least: &[Option<u32>]) -> Option<u32>
    requires lists { All (λ c. c.targets < length f.now.targets) calls.now }
    requires long { length least.now ≡ length f.now.methods }
    ensures { IsLeast (IsBesideCalled f.now calls.now least.now) result }
{
    let mut found = None;
    for call in calls {
        found = lesser_of(found, least_of(f.targets(*call), least));
    }
    found
}

/// The method `m`, where a number of it is too large.
fn large_alone(m: u32, too_large: bool) -> Option<u32>
    ensures { IsLeast (IsLargeAlone m too_large) result }
{
    if too_large { Some(m) } else { None }
}

/// The least of `m` and all that may run while it does of which a number is too large, where it stands beside all that `m` may call.
fn least_within(task: &Task<'_>, m: u32, table: &[Known], least: &[Option<u32>]) -> Option<u32>
    requires method { m < length task.now.flow.methods }
    requires known { length table.now ≡ length task.now.flow.methods }
    requires long { length least.now ≡ length task.now.flow.methods }
    ensures { ForEach task.now (λ P. AreLeastCalled P table.now m least.now → IsLeast (IsLargeWithin P table.now m) result) }
{
    opcodes::laws::starts_follow_one_another();
    method_flow::laws::rows_are_of_their_kinds();
    // Its clause is for the proof alone.
    let _ = task.flow().method_count();
    let called = least_called(task.flow(), task.method(m).calls(), least);
    lesser_of(called, large_alone(m, table[m as usize].too_large))
}

/// None stands beside any of so many methods.
fn none(alloc: Global, count: u32) -> Result<Vec<Option<u32>>, NoMemory>
    ensures { IfOk result (λ v. v.items ≡ replicate count None) }
{
    Ok(vec![in alloc; None; count as usize]?)
}

/// Beside each method of the order, each of which stands behind all that it may call, the least that may run while it does of
/// which a number is too large.
fn least_of_all(
    alloc: Global,
    task: &Task<'_>,
    order: &[u32],
    table: &[Known],
) -> Result<Vec<Option<u32>>, NoMemory>
    requires known { All (λ m. m < length task.now.flow.methods) order.now }
    requires long { length table.now ≡ length task.now.flow.methods }
    ensures { IfOk result (λ v. AreLeastWithin task.now order.now table.now v.items) }
{
    let mut least = none(alloc, task.flow().method_count())?;
    for m in order {
        let found = least_within(task, *m, table, &least);
        least[*m as usize] = found;
    }
    Ok(least)
}

/// What is answered of each method of the order, beside which the least stands of which a number is too large.
fn bounds(
    alloc: Global,
    task: &Task<'_>,
    order: &[u32],
    table: &[Known],
    least: &[Option<u32>],
) -> Result<Vec<MethodBound>, NoMemory>
    requires known { All (λ m. m < length table.now) order.now }
    requires long { length least.now ≡ length table.now }
    requires within { All (λ m. ForEach task.now (λ P. AreKnownWithin P task.now.timing (bounds_in task.now) table.now
        (slice_index_or least.now m None) m)) order.now }
    ensures { IfOk result (λ bounds. AreMethodBounds task.now order.now bounds.items) }
{
    let mut bounds = Vec::new(alloc);
    for m in order {
        bounds.push(method_bound(task, table, least[*m as usize], *m))?;
    }
    Ok(bounds)
}

/// What is answered of each method of the order, once all are found.
pub fn shared(
    alloc: Global,
    task: &Task<'_>,
    order: &[u32],
    found: &Methods,
) -> Result<Vec<MethodBound>, NoMemory>
    requires known { All (λ m. m < length task.now.flow.methods) order.now }
    requires found { AreFoundFor task.now order.now found.now }
    ensures { IfOk result (λ bounds. AreMethodBounds task.now order.now bounds.items) }
{
    bound_rules::laws::one_more_meets();
    let table = found.table.as_slice();
    let least = least_of_all(alloc, task, order, table)?;
    bounds(alloc, task, order, table, &least)
}
