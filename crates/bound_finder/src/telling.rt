//! What the calls of a method are told of all that they may run.
ghost use Rattle.std.specs.Prelude.{◌≡◌, ◌≤◌, ◌<◌, length, map, All, IfOk, IfSome};
ghost use Rattle.bound_rules.specs.Costs.{greater};
ghost use Rattle.compact_walks.specs.Limited.{cycles_limit};
ghost use Rattle.bound_finder.specs.Known.{IsLimited};
ghost use Rattle.bound_finder.specs.Telling.{AreToldBy, AreToldIn, IsSmallTold, IsToldBy, with_back};

use super::known::Known;
use super::task::Task;
use base::NoMemory;
use compact_walks::limited_sum;
use method_flow::{Call, FlowProgram};
use node_costs::load;
use std::alloc::Global;

/// Of the methods that a call may run: whether one of them can end, the greatest of their numbers as far as they are asked of them,
/// and the greatest with all loads and the load of the caller when control comes back to it.
#[derive(Clone, Copy)]
pub struct Told {
    pub goes_on: bool,
    pub inside: u128,
    pub full: u128,
}

/// A number with so many cycles more.
fn with_back(back: u64, number: Option<u128>) -> Option<u128>
    requires number { IfSome number (λ n. n ≤ cycles_limit) }
    requires back { back ≤ cycles_limit }
    ensures { result ≡ with_back back number }
{
    match number {
        Some(n) => Some(limited_sum(n, back as u128)),
        None => None,
    }
}

/// The greater of two numbers, of which one that is none is less than each other.
fn greater(a: Option<u128>, b: Option<u128>) -> Option<u128>
    ensures { result ≡ greater a b }
{
    match (a, b) {
        (Some(m), Some(n)) => Some(if m < n { n } else { m }),
        (Some(m), None) => Some(m),
        (None, b) => b,
    }
}

/// What a call is told of these methods.
fn told_of(targets: &[u32], table: &[Known], back: u64) -> Told
    requires known { All (λ t. t < length table.now) targets.now }
    requires limited { All IsLimited table.now }
    requires back { back ≤ cycles_limit }
    ensures told { IsToldBy table.now back targets.now result }
    ensures small { IsSmallTold result }
{
    let mut inside = None;
    let mut full = None;
    for x in targets {
        let known = table[*x as usize];
        inside = greater(inside, known.asked);
        full = greater(full, with_back(back, known.full));
    }
    Told {
        goes_on: full.is_some(),
        inside: inside.unwrap_or(0),
        full: full.unwrap_or(0),
    }
}

/// What each of the calls is told.
fn calls_told(
    alloc: Global,
    f: &FlowProgram,
    calls: &[Call],
    table: &[Known],
    back: u64,
) -> Result<Vec<Told>, NoMemory>
    requires lists { All (λ c. c.targets < length f.now.targets) calls.now }
    requires long { length table.now ≡ length f.now.methods }
    requires limited { All IsLimited table.now }
    requires back { back ≤ cycles_limit }
    ensures told { IfOk result (λ told. AreToldBy table.now back f.now calls.now told.items) }
    ensures small { IfOk result (λ told. All IsSmallTold told.items) }
{
    let mut told = Vec::new(alloc);
    for call in calls {
        told.push(told_of(f.targets(*call), table, back))?;
    }
    Ok(told)
}

/// What each of the calls of the method `m` is told.
pub fn tell(alloc: Global, task: &Task<'_>, m: u32, table: &[Known]) -> Result<Vec<Told>, NoMemory>
    requires method { m < length task.now.flow.methods }
    requires long { length table.now ≡ length task.now.flow.methods }
    requires limited { All IsLimited table.now }
    ensures told { IfOk result (λ v. AreToldIn task.now m table.now v.items) }
{
    // Its clause is for the proof alone.
    let _ = task.flow().method_count();
    let method = task.method(m);
    let back = load(method, task.timing().read);
    calls_told(alloc, task.flow(), method.calls(), table, back)
}

/// Whether each of the calls goes on.
pub fn goes_on(alloc: Global, told: &[Told]) -> Result<Vec<bool>, NoMemory>
    ensures { IfOk result (λ goes. goes.items ≡ map (λ s. s.goes_on) told.now) }
{
    let mut goes = Vec::new(alloc);
    for told in told {
        goes.push(told.goes_on)?;
    }
    Ok(goes)
}
