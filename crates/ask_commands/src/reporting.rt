//! The report on the bound of a method of an image: where it comes from, by the lines of the source.
ghost use Rattle.std.specs.Prelude.{◌≡◌, ◌+◌, ◌≤◌, ◌<◌, length, IfOk, IfErr};
ghost use Rattle.base.specs.Sizes.{longest_file};
ghost use Rattle.command_line.specs.Range.{AreSettings};
ghost use Rattle.method_flow.specs.Flow.{IsFlowOf};
ghost use Rattle.program_tables.specs.Resolved.{resolved};
ghost use Rattle.bound_causes.specs.Naming.{IsNamedBy};
ghost use Rattle.bound_report.specs.Contents.Rows.{AreOfCode, cycles_of};
ghost use Rattle.report_lines.specs.Report.{IsReportText};
ghost use Rattle.analysis_commands.specs.Bounding.{IsNotBounded};
ghost use Rattle.analysis_commands.specs.BoundAnswers.{IsOfProgram, IsReadyOf, IsCauseOf, IsSizeCauseOf, IsNotBoundedBy};
ghost use Rattle.ask_commands.specs.Reporting.{IsReportFor, IsReportBy, HasParts, AreReportLines, AreLinesBy, SaysReport, AnswersReport};

use crate::bounding::cause_ending;
use analysis_commands::{Analysis, NotBounded, analysis_of, asked, not_bounded};
use base::NoMemory;
use bound_causes::Asked;
use bound_report::contents::{ReportRow, ReportTotals};
use bound_report::laws::{parts_add_up, rows_are_of_code};
use bound_report::{Report, report};
use bound_rules::BoundRefusal;
use command_line::Settings;
use endings::outcome::{Answer, Ending};
use jopizer::Linked;
use report_lines::{never_text, report_text};
use resolved_program::Program;
use std::alloc::Global;

/// The report on the method of this name, by the table.
fn report_named(
    alloc: Global,
    analysis: &Analysis,
    name: &[u8],
) -> Result<Option<Report>, BoundRefusal>
    requires program { IsOfProgram analysis.now }
    requires waits { (analysis.now.timing.read ≤ 63) × (analysis.now.timing.write ≤ 63) }
    requires sizes { 0 < analysis.now.timing.block_words }
    ensures report { IfOk result (IsReportBy analysis.now (IsNamedBy analysis.now.flow name.now)) }
    ensures cause { IfErr result (IsCauseOf analysis.now (IsNamedBy analysis.now.flow name.now)) }
{
    match asked(alloc, analysis, name) {
        Ok(found) => report_asked(alloc, analysis, &found),
        Err(refusal) => Err(refusal),
    }
}

/// The report on a method that is asked for.
fn report_asked(
    alloc: Global,
    analysis: &Analysis,
    found: &Asked,
) -> Result<Option<Report>, BoundRefusal>
    requires program { IsOfProgram analysis.now }
    requires ready { IsReadyOf analysis.now found.now }
    requires waits { (analysis.now.timing.read ≤ 63) × (analysis.now.timing.write ≤ 63) }
    requires sizes { 0 < analysis.now.timing.block_words }
    ensures report { IfOk result (IsReportFor analysis.now found.now.root) }
    ensures cause { IfErr result (IsSizeCauseOf analysis.now found.now.root) }
{
    let Analysis {
        flow,
        bounds,
        timing,
    } = analysis;
    report(alloc, flow, bounds, *timing, found.root, &found.order)
}

/// The text of rows and totals that add up to the bound.
fn rows_text(
    alloc: Global,
    program: &Program,
    rows: &[ReportRow],
    totals: ReportTotals,
) -> Result<Vec<u8>, NoMemory>
    requires known { AreOfCode (resolved program.now) rows.now }
    requires sum { totals.bound ≡ totals.invoke + cycles_of rows.now + totals.loads + totals.back }
    ensures { IfOk result (λ text. IsReportText program.now rows.now totals text.items) }
{
    report_text(alloc, program, rows, totals)
}

/// The lines of a report.
fn lines_of(alloc: Global, program: &Program, report: &Option<Report>) -> Result<Vec<u8>, NoMemory>
    requires { HasParts (resolved program.now) report.now }
    ensures { IfOk result (λ text. AreReportLines program.now report.now text.items) }
{
    // The laws are for the proof.
    parts_add_up();
    rows_are_of_code();
    match report {
        Some(report) => rows_text(alloc, program, &report.rows, report.totals),
        None => never_text(alloc),
    }
}

/// The lines of the report on the method of this name, by the table of the program.
fn lines_by(
    alloc: Global,
    program: &Program,
    analysis: &Analysis,
    name: &[u8],
) -> Result<Vec<u8>, NotBounded>
    requires flow { IsFlowOf (resolved program.now) analysis.now.flow }
    requires waits { (analysis.now.timing.read ≤ 63) × (analysis.now.timing.write ≤ 63) }
    requires sizes { 0 < analysis.now.timing.block_words }
    ensures lines { IfOk result (λ text. AreLinesBy program.now analysis.now name.now text.items) }
    ensures refused { IfErr result (IsNotBoundedBy analysis.now name.now) }
{
    match report_named(alloc, analysis, name) {
        Ok(report) => match lines_of(alloc, program, &report) {
            Ok(text) => Ok(text),
            Err(NoMemory) => Err(NotBounded::NoMemory),
        },
        Err(refusal) => Err(not_bounded(alloc, analysis, name, &refusal)),
    }
}

/// The lines of the report on the method of this name of what was linked.
fn lines_in(
    alloc: Global,
    linked: &Linked,
    settings: &Settings,
    name: &[u8],
    bounds: &[u8],
) -> Result<Vec<u8>, NotBounded>
    requires settings { AreSettings settings.now }
    requires short { length bounds.now ≤ longest_file }
    ensures lines { IfOk result (λ text. SaysReport linked.now.classes settings.now bounds.now name.now text.items) }
    ensures refused { IfErr result (IsNotBounded linked.now.classes settings.now bounds.now name.now) }
{
    let verified = linked.program();
    match analysis_of(alloc, verified, settings, bounds) {
        Ok(analysis) => lines_by(alloc, verified.program(), &analysis, name),
        Err(fault) => Err(NotBounded::NoAnalysis(fault)),
    }
}

/// The lines of the report on the method of this name of what was linked, or why there are none.
pub fn report_linked(
    alloc: Global,
    linked: &Linked,
    settings: &Settings,
    name: &[u8],
    bounds: &[u8],
) -> Answer
    requires settings { AreSettings settings.now }
    requires short { length bounds.now ≤ longest_file }
    ensures { AnswersReport linked.now.classes settings.now bounds.now name.now result }
{
    match lines_in(alloc, linked, settings, name, bounds) {
        Ok(text) => Answer::Text(text),
        Err(cause) => Answer::Ends(cause_ending(settings, cause)),
    }
}
