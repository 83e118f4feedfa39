//! What a section with prices is checked by.
use super::fact::FactPrice;
use loop_nest::Graph;
use section_check::section::Section;

/// A section over a graph, and the facts of its method that have prices.
#[derive(Clone, Copy)]
pub struct PricedView<'a> {
    pub graph: &'a Graph,
    /// Of each node, in cycles.
    pub costs: &'a [u64],
    pub section: &'a Section,
    /// Of each loop.
    pub bounds: &'a [u32],
    /// Of an entry of each loop, in cycles: none for a region that doesn't fit.
    pub loads: &'a [Option<u64>],
    /// The facts that are paid here, by the activation or by entries of loops.
    pub facts: &'a [FactPrice],
    /// The facts of these nodes that are paid elsewhere.
    pub others: &'a [FactPrice],
}
