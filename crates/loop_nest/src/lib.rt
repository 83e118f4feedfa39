//! The loops of a graph whose nodes are numbered and whose entry is node 0, and the reduction that
//! shows that each cycle is such a loop.
#![tactic(auto)]

ghost use Rattle.std.specs.Prelude.{IfOk, IfErr};
ghost use Rattle.loop_nest.specs.Reduction.{IsReducible};
ghost use Rattle.loop_nest.specs.Nest.{IsNest};
ghost use Rattle.loop_nest.specs.Faults.{HasCause};
ghost use Rattle.loop_nest.specs.Chains.{AreBlocks};

use base::NoMemory;
use chains::{Blocks, chains};
pub use digraph::{Graph, is_graph};
use finding::{back_edges, nest_by};
use loops::{Nest, NestFault};
use merging::nodes_left;
use passes::reduced;
use std::alloc::Global;

pub mod chains;
pub mod digraph;
mod dominance;
mod finding;
pub mod laws;
pub mod loops;
mod members;
mod merging;
mod passes;

/// The loops of a graph, where its reduction ends in node 0 alone. Otherwise the nodes beside node 0
/// that the reduction leaves.
pub fn nest(alloc: Global, g: &Graph) -> Result<Nest, NestFault>
    ensures reducible { IfOk result (λ _. IsReducible g.now) }
    ensures nest { IfOk result (IsNest g.now) }
    ensures cause { IfErr result (HasCause g.now) }
{
    let (class, back) = reduced(alloc, g)?;
    let left = nodes_left(alloc, g, &class)?;
    if !left.is_empty() {
        return Err(NestFault::Irreducible(left));
    }
    let back_edges = back_edges(alloc, g, &back)?;
    Ok(nest_by(alloc, g, &back_edges)?)
}

/// The basic blocks of a graph: the longest chains of nodes in which each node but the last has one
/// successor, each but the first has one predecessor, and node 0 is no later member. They stand in
/// the order of their first nodes. The only error is that there is no memory.
pub fn blocks(alloc: Global, g: &Graph) -> Result<Blocks, NoMemory>
    ensures { IfOk result (AreBlocks g.now) }
{
    Ok(Blocks::new(chains(alloc, g)?))
}
