//! The rows of a report: nodes of methods, with their visits and what they take by themselves.
ghost use Rattle.std.specs.Prelude.{◌≡◌, ◌+◌, ◌*◌, ◌<◌, ◌^◌, [], ◌∷◌, map, IfOk, OnOk};
ghost use Rattle.bound_report.specs.Rows.{AreSmallParts, AreSmallRows, HasSmallRow, AddsRows};
ghost use Rattle.bound_report.specs.Report.{row_of, rows_of};

use super::counts::{MethodCounts, NodeCount};
use crate::contents::ReportRow;
use base::NoMemory;
use std::alloc::Global;

/// The product, where it is within 128 bits.
pub fn product(a: u128, b: u128) -> u128
    ensures { a * b < 2 ^ 128 → result ≡ a * b }
{
    a.saturating_mul(b)
}

/// The sum, where it is within 128 bits.
pub fn sum(a: u128, b: u128) -> u128
    ensures { a + b < 2 ^ 128 → result ≡ a + b }
{
    a.saturating_add(b)
}

/// The row of a node of a method whose number counts so often.
fn row_of(k: &MethodCounts, c: NodeCount) -> ReportRow
    ensures { HasSmallRow k.now c → result ≡ row_of k.now c }
{
    let visits = product(k.times, c.visits);
    ReportRow {
        method: k.method,
        place: c.node / 2,
        visits,
        cycles: product(visits, c.own as u128),
    }
}

/// Adds a row, where its node is visited.
fn add_row(rows: &mut Vec<ReportRow>, row: ReportRow) -> Result<(), NoMemory>
    ensures { OnOk result (AddsRows (row ∷ []) rows.old.items rows.new.items) }
{
    if row.visits > 0 {
        rows.push(row)?;
    }
    Ok(())
}

/// Adds the rows of a method.
fn add_rows(rows: &mut Vec<ReportRow>, k: &MethodCounts) -> Result<(), NoMemory>
    ensures { OnOk result (AreSmallRows k.now → AddsRows (map (row_of k.now) k.now.nodes.items) rows.old.items rows.new.items) }
{
    for c in &k.nodes {
        add_row(rows, row_of(k, *c))?;
    }
    Ok(())
}

/// The rows of these methods.
pub fn rows_of(alloc: Global, ks: &[MethodCounts]) -> Result<Vec<ReportRow>, NoMemory>
    ensures { IfOk result (λ rows. AreSmallParts ks.now → rows.items ≡ rows_of ks.now) }
{
    let mut rows = Vec::new(alloc);
    for k in ks {
        add_rows(&mut rows, k)?;
    }
    Ok(rows)
}
