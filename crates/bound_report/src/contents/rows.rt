//! The rows of a report, and its other parts.

/// A node of a method on the greatest walks: how often it is visited, and the cycles that it takes by itself at all these visits.
#[derive(Clone, Copy)]
pub struct ReportRow {
    /// The number of the method.
    pub method: u32,
    /// The place of its instruction in the method's code, in bytes.
    pub place: u32,
    pub visits: u128,
    pub cycles: u128,
}

/// A bound and those of its parts that come of no node, in cycles.
#[derive(Clone, Copy)]
pub struct ReportTotals {
    pub bound: u64,
    /// Of all loads of methods into the method cache but the two that follow.
    pub loads: u128,
    /// Of the dearest invocation of a method.
    pub invoke: u64,
    /// Of the greatest load when control comes back.
    pub back: u64,
}
