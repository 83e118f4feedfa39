//! Where the bound of a method's execution time comes from: the visits of one greatest walk of each method that may run, times how often
//! the method's number counts, and what is paid for loads (JOP Reference Handbook, "Method Cache").
#![tactic(auto)]

ghost use Rattle.std.specs.Prelude.{◌≡◌, ◌≤◌, ◌<◌, ℕ, length, All, Some, None, IfOk, IfErr, IfSome, IfNone};
ghost use Rattle.bytecode_model.specs.Program.{Program};
ghost use Rattle.method_cache.specs.Regions.Region.{AreDistinct};
ghost use Rattle.method_flow.specs.Flow.{IsFlowOf};
ghost use Rattle.node_costs.specs.Costs.{bounds_of};
ghost use Rattle.bound_finder.specs.declared.ending.MethodBound.TheVariants.{Printed};
ghost use Rattle.bound_finder.specs.Ending.{IsMethodBound};
ghost use Rattle.bound_finder.specs.Ready.{IsReadyOrder, IsSizeCause};
ghost use Rattle.bound_report.specs.Report.{IsReportOf};

mod callees;
pub mod contents;
mod counts;
pub mod laws;
mod methods;
mod nodes;
mod parts;
mod reports;
mod rows;
mod times;
pub mod visits;
mod walks;

use bound_finder::methods::examine_all;
use bound_finder::task::Task;
use bound_rules::BoundRefusal;
use bound_texts::loops::Bounds;
use call_regions::Order;
use method_flow::{FlowProgram, Timing};
pub use reports::Report;
use reports::report_of;
use std::alloc::Global;

/// Where the bound of the method `root` comes from, or `None` where it can't end. The arguments, what they must be and the time that it
/// takes are those of `bound_finder::certify`. Callers stand before what they call, and the nodes of a method rise.
///
/// # Errors
///
/// `TooLarge` for the least method with a number, or iterations of its loops together, past 64 bits.
pub fn report(
    alloc: Global,
    f: &FlowProgram,
    b: &Bounds,
    t: Timing,
    root: u32,
    order: &Order,
) -> Result<Option<Report>, BoundRefusal>
    requires read { t.read ≤ 63 }
    requires write { t.write ≤ 63 }
    requires sizes { 0 < t.block_words }
    requires root { root < length f.now.methods }
    requires known { All (λ m. m < length f.now.methods) order.now.methods }
    requires distinct { AreDistinct order.now.methods }
    requires ready { (P : Program) → IsFlowOf P f.now → IsReadyOrder P (bounds_of f.now b.now) root order.now.methods }
    ensures never { IfOk result (λ o. IfNone o ((P : Program) → IsFlowOf P f.now → IsMethodBound P t (bounds_of f.now b.now) root (Printed None))) }
    ensures printed { IfOk result (λ o. IfSome o (λ r. (P : Program) → IsFlowOf P f.now
        → IsMethodBound P t (bounds_of f.now b.now) root (Printed (Some r.totals.bound)))) }
    ensures parts { IfOk result (λ o. IfSome o (λ r. (P : Program) → IsFlowOf P f.now → IsReportOf P t (bounds_of f.now b.now) root r)) }
    ensures cause { IfErr result (λ e. (P : Program) → IsFlowOf P f.now → IsSizeCause P t (bounds_of f.now b.now) root e) }
{
    let task = Task::new(f, b, t);
    let found = examine_all(alloc, &task, order.methods.as_slice())?;
    report_of(alloc, &task, root, order.methods.as_slice(), &found)
}
