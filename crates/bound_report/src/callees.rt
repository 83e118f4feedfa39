//! Which method's number is added at each call, and what is paid there for loads.
ghost use Rattle.std.specs.Prelude.{◌≡◌, ◌≤◌, ◌<◌, ◌*◌, length, false, slice_index_or, All, IfOk};
ghost use Rattle.std.specs.List.Sorted.{IsStrictlyIncreasing};
ghost use Rattle.method_flow.specs.Flow.{places_of};
ghost use Rattle.compact_walks.specs.Limited.{cycles_limit};
ghost use Rattle.bound_finder.specs.Known.{IsLimited};
ghost use Rattle.bound_report.specs.Callees.{number_by, better, loads_by, more_of, no_callee, IsGreatestTarget, IsCallee, AreCallees, AreCalleesOf};

use base::NoMemory;
use bound_finder::known::Known;
use bound_finder::task::Task;
use method_flow::{Call, FlowProgram};
use node_costs::load;
use opcodes::laws::starts_follow_one_another;
use std::alloc::Global;

/// The method whose number is added at a node, if any, and what is paid there for loads.
#[derive(Clone, Copy)]
pub struct Callee {
    pub target: Option<u32>,
    pub loads: u128,
}

/// At a node that calls nothing.
pub const NO_CALLEE: Callee = Callee {
    target: None,
    loads: 0,
};

/// The number of a method where its call pays loads, or pays none.
fn number_by(known: Known, pays: bool) -> Option<u128>
    ensures { result ≡ number_by pays known }
{
    if pays { known.full } else { known.asked }
}

/// Of two methods with their numbers that of the greater number, and the first one of equals. One without a number is none.
fn better(best: Option<(u32, u128)>, x: u32, number: Option<u128>) -> Option<(u32, u128)>
    ensures { result ≡ better best x number }
{
    match (best, number) {
        (best, None) => best,
        (None, Some(n)) => Some((x, n)),
        (Some((y, most)), Some(n)) => Some(if most < n { (x, n) } else { (y, most) }),
    }
}

/// The first of these methods with the greatest number, if one has a number.
fn greatest_target(targets: &[u32], table: &[Known], pays: bool) -> Option<u32>
    requires { All (λ t. t < length table.now) targets.now }
    ensures { IsGreatestTarget table.now pays targets.now result }
{
    let mut best = None;
    for x in targets {
        best = better(best, *x, number_by(table[*x as usize], pays));
    }
    match best {
        Some((x, _)) => Some(x),
        None => None,
    }
}

/// What a method's number with all loads has beside the one that is asked of it.
pub fn more_of(known: Known) -> u128
    ensures { result ≡ more_of known }
{
    let asked = known.asked.unwrap_or(0);
    known.full.unwrap_or(0).saturating_sub(asked)
}

/// What a call of a method pays for loads, where it pays them and the load of the caller is `back`.
fn loads_by(known: Known, pays: bool, back: u64) -> u128
    requires limited { IsLimited known }
    requires back { back ≤ cycles_limit }
    ensures { result ≡ loads_by pays back known }
{
    if pays {
        more_of(known) + back as u128
    } else {
        0
    }
}

/// What a call adds that may run these methods, where the load of the caller is `back`.
fn callee_of(targets: &[u32], table: &[Known], pays: bool, back: u64) -> Callee
    requires known { All (λ t. t < length table.now) targets.now }
    requires limited { All IsLimited table.now }
    requires back { back ≤ cycles_limit }
    ensures { IsCallee table.now pays back targets.now result }
{
    match greatest_target(targets, table, pays) {
        None => NO_CALLEE,
        Some(x) => Callee {
            target: Some(x),
            loads: loads_by(table[x as usize], pays, back),
        },
    }
}

/// Whether a node is flagged.
fn is_flagged(flags: &[bool], node: usize) -> bool
    ensures { result ≡ slice_index_or flags.now node false }
{
    flags.get(node).copied().unwrap_or(false)
}

/// Writes at the nodes of these calls what they add. At those of which it is so said they pay no loads.
fn write_callees(
    f: &FlowProgram,
    calls: &[Call],
    table: &[Known],
    back: u64,
    without_loads: &[bool],
    callees: &mut [Callee],
)
    requires lists { All (λ c. c.targets < length f.now.targets) calls.now }
    requires long { length table.now ≡ length f.now.methods }
    requires limited { All IsLimited table.now }
    requires back { back ≤ cycles_limit }
    requires rising { IsStrictlyIncreasing (places_of calls.now) }
    requires inside { All (λ c. 2 * c.place < length callees.old) calls.now }
    requires none { All (λ c. c ≡ no_callee) callees.old }
    ensures { AreCallees f.now calls.now table.now back without_loads.now callees.new }
{
    for call in calls {
        let at = 2 * call.place as usize;
        callees[at] = callee_of(
            f.targets(*call),
            table,
            !is_flagged(without_loads, at),
            back,
        );
    }
}

/// What each node of the method `m` adds by a call.
pub fn callees_of(
    alloc: Global,
    task: &Task<'_>,
    m: u32,
    table: &[Known],
    without_loads: &[bool],
) -> Result<Vec<Callee>, NoMemory>
    requires method { m < length task.now.flow.methods }
    requires long { length table.now ≡ length task.now.flow.methods }
    requires limited { All IsLimited table.now }
    ensures { IfOk result (λ v. AreCalleesOf task.now m table.now without_loads.now v.items) }
{
    starts_follow_one_another();
    // Its clause is for the proof alone.
    let _ = task.flow().method_count();
    let method = task.method(m);
    let back = load(method, task.timing().read);
    let mut callees = vec![in alloc; NO_CALLEE; 2 * method.code().len()]?;
    let calls = method.calls();
    write_callees(task.flow(), calls, table, back, without_loads, &mut callees);
    Ok(callees)
}
