//! The report of a root, once all that may run while it does is found.
ghost use Rattle.std.specs.Prelude.{◌≡◌, ◌≤◌, ◌<◌, length, All, Some, None, IfOk, IfErr, IfSome, IfNone};
ghost use Rattle.method_cache.specs.Regions.Region.{AreDistinct};
ghost use Rattle.method_flow.specs.Costs.{IsPrintedOf};
ghost use Rattle.bound_finder.specs.Known.{bounds_in, known_at, ForEach, IsLimited};
ghost use Rattle.bound_finder.specs.declared.ending.MethodBound.TheVariants.{Printed};
ghost use Rattle.bound_finder.specs.Ending.{IsMethodBound};
ghost use Rattle.bound_finder.specs.Ready.{IsSizeCause, IsWantOfMemory};
ghost use Rattle.bound_report.specs.Report.{IsReportOf};
ghost use Rattle.bound_report.specs.Settled.{AreReadyIn, IsSettled};

use super::callees::more_of;
use super::parts::{greatest_invoke, loads_of};
use super::rows::{rows_of, sum};
use super::times::counts_of_all;
use crate::contents::{ReportRow, ReportTotals};
use base::NoMemory;
use bound_finder::ending::{MethodBound, method_bound};
use bound_finder::known::Known;
use bound_finder::methods::Methods;
use bound_finder::task::Task;
use bound_rules::BoundRefusal;
use node_costs::greatest_load;
use std::alloc::Global;

/// Where a bound comes from: the dearest invoke, what the nodes of the rows take by themselves, the loads, and the greatest load when
/// control comes back. All these together are the bound, so each of them is below 2^64.
#[derive(Drop)]
pub struct Report {
    pub rows: Vec<ReportRow>,
    pub totals: ReportTotals,
}

/// The report of the root, which has this bound.
fn parts_of(
    alloc: Global,
    task: &Task<'_>,
    root: u32,
    order: &[u32],
    table: &[Known],
    bound: u64,
) -> Result<Report, BoundRefusal>
    requires root { root < length task.now.flow.methods }
    requires known { All (λ m. m < length task.now.flow.methods) order.now }
    requires long { length table.now ≡ length task.now.flow.methods }
    requires limited { All IsLimited table.now }
    requires distinct { AreDistinct order.now }
    requires settled { ForEach task.now (λ P. IsSettled P task.now.timing (bounds_in task.now) root order.now table.now) }
    requires printed { ForEach task.now (λ P. IsPrintedOf P task.now.timing (known_at table.now root).full (Some bound)) }
    ensures bound { IfOk result (λ r. r.totals.bound ≡ bound) }
    ensures report { IfOk result (λ r. ForEach task.now (λ P. IsReportOf P task.now.timing (bounds_in task.now) root r)) }
    ensures cause { IfErr result (λ e. ForEach task.now (λ P. IsWantOfMemory e)) }
{
    let counts = counts_of_all(alloc, task, root, order, table)?;
    let Ok(rows) = rows_of(alloc, &counts) else {
        return Err(BoundRefusal::NoMemory);
    };
    let t = task.timing();
    let totals = ReportTotals {
        bound,
        loads: sum(more_of(table[root as usize]), loads_of(&counts)),
        invoke: greatest_invoke(t),
        back: greatest_load(task.flow(), t.read),
    };
    Ok(Report { rows, totals })
}

/// The report of the root, or `None` where it can't end; or the least method of which a number is too large.
pub fn report_of(
    alloc: Global,
    task: &Task<'_>,
    root: u32,
    order: &[u32],
    found: &Methods,
) -> Result<Option<Report>, BoundRefusal>
    requires root { root < length task.now.flow.methods }
    requires known { All (λ m. m < length task.now.flow.methods) order.now }
    requires found { AreReadyIn task.now root order.now found.now }
    ensures never { IfOk result (λ o. IfNone o (ForEach task.now (λ P. IsMethodBound P task.now.timing (bounds_in task.now) root (Printed None)))) }
    ensures printed { IfOk result (λ o. IfSome o (λ r. ForEach task.now
        (λ P. IsMethodBound P task.now.timing (bounds_in task.now) root (Printed (Some r.totals.bound))))) }
    ensures parts { IfOk result (λ o. IfSome o (λ r. ForEach task.now (λ P. IsReportOf P task.now.timing (bounds_in task.now) root r))) }
    ensures cause { IfErr result (λ e. ForEach task.now (λ P. IsSizeCause P task.now.timing (bounds_in task.now) root e)) }
{
    match method_bound(task, &found.table, found.least, root) {
        MethodBound::Printed(None) => Ok(None),
        MethodBound::Printed(Some(bound)) => {
            match parts_of(alloc, task, root, order, &found.table, bound) {
                Ok(report) => Ok(Some(report)),
                Err(fault) => Err(fault),
            }
        }
        MethodBound::TooLarge(m) => Err(BoundRefusal::TooLarge(m)),
    }
}
