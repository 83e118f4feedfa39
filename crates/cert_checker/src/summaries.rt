//! What the calls of a section's method are told of their targets, each call's in short.
ghost use Rattle.std.specs.Prelude.{◌≡◌, ◌*◌, ◌<◌, All, Contains, IfOk, Some, length, map, slice_get};
ghost use Rattle.method_flow.specs.Flow.{targets_of_call};
ghost use Rattle.bound_rules.specs.Told.{is_without_loads};
ghost use Rattle.cert_checker.specs.Telling.{AreSummaries, IsSummary, IsTeller, summary_with, told};

use super::telling::{Teller, is_without_loads, told};
use base::NoMemory;
use method_flow::Call;
use std::alloc::Global;

/// Of the targets of a call, by what the call is told of each: the least that is absent, whether there is one that may come back,
/// and the greatest number of cycles.
#[derive(Clone, Copy)]
pub struct Summary {
    pub absent: Option<u32>,
    pub goes_on: bool,
    pub added: u64,
}

/// What is told of one target more, which is above the others.
fn with_target(s: Summary, x: u32, told: Option<Option<u64>>) -> Summary
    ensures { result ≡ summary_with s x told }
{
    match told {
        Some(Some(n)) => Summary {
            absent: s.absent,
            goes_on: true,
            added: s.added.max(n),
        },
        Some(None) => s,
        None => Summary {
            absent: if s.absent.is_some() {
                s.absent
            } else {
                Some(x)
            },
            goes_on: true,
            added: s.added,
        },
    }
}

/// What the call is told of its targets.
fn summary_of(t: &Teller<'_>, call: Call) -> Summary
    requires teller { IsTeller t.now }
    requires inside { 2 * call.place < length t.now.own.now }
    requires lists { call.targets < length t.now.task.now.flow.targets }
    ensures { IsSummary (told t.now call.place) (targets_of_call t.now.task.now.flow call) result }
{
    let without_loads = is_without_loads(t, call.place);
    let mut summary = Summary {
        absent: None,
        goes_on: false,
        added: 0,
    };
    for x in t.task.flow().targets(call) {
        summary = with_target(summary, *x, told(t, call.place, without_loads, *x));
    }
    summary
}

/// What each of the calls is told of its targets.
pub fn summaries(alloc: Global, t: &Teller<'_>, calls: &[Call]) -> Result<Vec<Summary>, NoMemory>
    requires teller { IsTeller t.now }
    requires inside { All (λ c. 2 * c.place < length t.now.own.now) calls.now }
    requires lists { All (λ c. c.targets < length t.now.task.now.flow.targets) calls.now }
    ensures { IfOk result (λ summaries. AreSummaries (told t.now) t.now.task.now.flow calls.now summaries.items) }
{
    let mut summaries = Vec::new(alloc);
    for call in calls {
        summaries.push(summary_of(t, *call))?;
    }
    Ok(summaries)
}

/// Whether each of the calls goes on.
pub fn goes_on(alloc: Global, summaries: &[Summary]) -> Result<Vec<bool>, NoMemory>
    ensures { IfOk result (λ goes. goes.items ≡ map (λ s. s.goes_on) summaries.now) }
{
    let mut goes = Vec::new(alloc);
    for summary in summaries {
        goes.push(summary.goes_on)?;
    }
    Ok(goes)
}
