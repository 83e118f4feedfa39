//! What a report on a bound is made of: the nodes of methods on the greatest walks, and the parts of the bound that come of none.

mod rows;

pub use rows::{ReportRow, ReportTotals};
