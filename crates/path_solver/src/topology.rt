//! The listed nodes in order, with the edges by which each is reached.
ghost use Rattle.std.specs.Prelude.{IfOk};
ghost use Rattle.loop_nest.specs.Reduction.{IsReducible};
ghost use Rattle.loop_nest.specs.Nest.{IsNest};
ghost use Rattle.path_solver.specs.Reaching.{AreReaching};
ghost use Rattle.path_solver.specs.Topology.{IsTopologicalOrder};

use super::distances::places;
use super::ordering::{TakenEdges, forward_order, taken};
use loop_nest::Graph;
use loop_nest::digraph::Sources;
use loop_nest::laws::cycles_take_back_edges;
use loop_nest::loops::Nest;
use std::alloc::{AllocError, Global};

/// The nodes from which an exit is reached, in an order in which the edges lead forward, but for the
/// back edges; the place of each in the order; and for each node the sources of the edges to it that
/// close no loop, and of those that do.
#[derive(Drop)]
pub struct TopologicalOrder {
    pub order: Vec<u32>,
    pub places: Vec<usize>,
    pub forward: Sources,
    pub back: Sources,
}

/// The topological order of the listed nodes.
pub fn topological_order(
    alloc: Global,
    g: &Graph,
    nest: &Nest,
    listed: &[bool],
) -> Result<TopologicalOrder, AllocError>
    requires nest { IsNest g.now nest.now }
    requires reducible { IsReducible g.now }
    requires listed { AreReaching g.now listed.now }
    ensures { IfOk result (IsTopologicalOrder g.now nest.now listed.now) }
{
    cycles_take_back_edges();
    let nodes = g.nodes() as usize;
    let loops = nest.loops();
    let TakenEdges { onward, backward } = taken(alloc, g.edges(), loops, listed)?;
    let order = forward_order(alloc, listed, &onward)?;
    let places = places(alloc, nodes, &order)?;
    let forward = Sources::by_target(alloc, nodes, &onward)?;
    let back = Sources::by_target(alloc, nodes, &backward)?;
    Ok(TopologicalOrder {
        order,
        places,
        forward,
        back,
    })
}
