//! Where the reduction of a graph begins and what it leaves: a node that is entered from one other node
//! alone is merged into it. Edges from a node to itself are left out, which is the same as dropping
//! them.
ghost use Rattle.std.specs.Prelude.{◌≡◌, ◌∷◌, IfOk};
ghost use Rattle.std.specs.List.{range_with_len};
ghost use Rattle.loop_nest.specs.Entered.{names, IsClassList, AreBackEdgesMarked};

use super::digraph::Graph;
use std::alloc::{AllocError, Global};

/// From where the nodes that are merged into one are entered, but from one another.
#[derive(Clone, Copy)]
pub(crate) enum Entered {
    Nowhere,
    From(u32),
    FromSeveral,
}

impl Entered {
    ghost use Rattle.loop_nest.specs.Entered.{entered_and_from};

    /// The same with an edge more, from the class `source`.
    pub(crate) fn and_from(self, source: u32) -> Entered
        ensures { result ≡ entered_and_from self source }
    {
        match self {
            Entered::Nowhere => Entered::From(source),
            Entered::From(other) if other == source => self,
            _ => Entered::FromSeveral,
        }
    }
}

/// A class for each node of the graph.
pub fn single_nodes(alloc: Global, g: &Graph) -> Result<Vec<u32>, AllocError>
    ensures classes { IfOk result (λ class. IsClassList g.now class.items) }
    ensures alone { IfOk result (λ class. class.items ≡ range_with_len 0 g.now.nodes) }
{
    let mut class = Vec::with_capacity(alloc, g.nodes() as usize)?;
    for u in 0..g.nodes() {
        class.push(u)?;
    }
    Ok(class)
}

/// The nodes that are merged into no other, but node 0.
pub fn nodes_left(alloc: Global, g: &Graph, class: &[u32]) -> Result<Vec<u32>, AllocError>
    requires { IsClassList g.now class.now }
    ensures { IfOk result (λ left. names class.now ≡ 0 ∷ left.items) }
{
    let mut left = Vec::new(alloc);
    for u in 1..g.nodes() {
        if class[u as usize] == u {
            left.push(u)?;
        }
    }
    Ok(left)
}

/// The reduction's beginning: no node is merged, and no back edge marked.
pub fn unmerged(alloc: Global, g: &Graph) -> Result<(Vec<u32>, Vec<bool>), AllocError>
    ensures classes { IfOk result (λ r. IsClassList g.now r.0.items) }
    ensures marked { IfOk result (λ r. AreBackEdgesMarked g.now r.0.items r.1.items) }
{
    let class = single_nodes(alloc, g)?;
    let back = vec![in alloc; false; g.edges().len()]?;
    Ok((class, back))
}
