//! The lines of `jop report`: where the bound of a method comes from, by the lines of the source. The definitions stand in `specs/`.
#![tactic(auto)]

ghost use Rattle.std.specs.Prelude.{◌≡◌, ◌<◌, ◌^◌, Contains, length, codes, IfOk};
ghost use Rattle.program_tables.specs.Resolved.{resolved};
ghost use Rattle.bound_report.specs.Contents.Rows.{AreOfCode, cycles_of};
ghost use Rattle.report_lines.specs.Report.{IsReportText};
ghost use Rattle.report_lines.specs.Text.{IsTextBy};
ghost use Rattle.report_lines.specs.Told.{name_told, source_told};

mod entries;
mod key;
pub mod laws;
mod lines;
mod methods;

use base::NoMemory;
use bound_report::contents::{ReportRow, ReportTotals};
use entries::entries_of;
use lines::text_of;
use methods::{MethodText, methods_of};
use program_tables::laws::methods_stand_by_number;
use resolved_program::Program;
use std::alloc::Global;

/// The text of rows, where this is told of the methods.
fn text_by(
    alloc: Global,
    methods: &[MethodText],
    rows: &[ReportRow],
    totals: ReportTotals,
) -> Result<Vec<u8>, NoMemory>
    requires known { (r : ReportRow) → Contains rows.now r → r.method < length methods.now }
    requires small { cycles_of rows.now < 2 ^ 64 }
    requires loads { totals.loads < 2 ^ 64 }
    ensures { IfOk result (λ text. IsTextBy (source_told methods.now) (name_told methods.now) rows.now totals text.items) }
{
    let entries = entries_of(alloc, methods, rows)?;
    text_of(alloc, methods, &entries, totals)
}

/// The text of a report: `bound=N`, then `FILE:LINE NAME visits=V cycles=C share=P%` for each line of the source that rows stand on,
/// and `NAME PC visits=V cycles=C share=P%` for each place where no line is told, the most cycles first and of as many the lower
/// method and place; at last `loads`, `invoke` and `return`, each with ` cycles=C share=P%`.
///
/// The visits of a line are those of its first row, its cycles those of all its rows. A share is of the bound, in percent, rounded
/// down. Rows of one method stand best together, since the text takes them in their order.
pub fn report_text(
    alloc: Global,
    program: &Program,
    rows: &[ReportRow],
    totals: ReportTotals,
) -> Result<Vec<u8>, NoMemory>
    requires known { AreOfCode (resolved program.now) rows.now }
    requires small { cycles_of rows.now < 2 ^ 64 }
    requires loads { totals.loads < 2 ^ 64 }
    ensures { IfOk result (λ text. IsReportText program.now rows.now totals text.items) }
{
    methods_stand_by_number();
    let methods = methods_of(alloc, program)?;
    text_by(alloc, &methods, rows, totals)
}

/// The text of a report on a method that never ends.
pub fn never_text(alloc: Global) -> Result<Vec<u8>, NoMemory>
    ensures { IfOk result (λ text. text.items ≡ codes "bound=never\n") }
{
    Ok(Vec::from_slice(alloc, b"bound=never\n")?)
}
