//! From which nodes an exit is reached.
ghost use Rattle.std.specs.Prelude.{IfOk};
ghost use Rattle.path_solver.specs.Reaching.{AreReaching};

use loop_nest::Graph;
use loop_nest::digraph::Sources;
use std::alloc::{AllocError, Global};

/// For each node whether an exit is reached from it: a search backwards from the exits.
pub fn reaching(alloc: Global, g: &Graph) -> Result<Vec<bool>, AllocError>
    ensures { IfOk result (λ flags. AreReaching g.now flags.items) }
{
    let nodes = g.nodes() as usize;
    let sources = Sources::by_target(alloc, nodes, g.edges())?;
    let mut reaching = vec![in alloc; false; nodes]?;
    let mut stack = Vec::from_slice(alloc, g.exits())?;
    while let Some(u) = stack.pop() {
        if !reaching[u as usize] {
            reaching[u as usize] = true;
            stack.extend_from_slice(sources.of(u))?;
        }
    }
    Ok(reaching)
}
