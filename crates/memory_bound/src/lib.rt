//! What a run of a program needs of memory at most (JVM Specification SE 8, 2.5.3 and 2.6): the words of the frames of the deepest
//! chain of calls, and those of all objects that it may make, where loops that make objects have bounds and arrays have lengths.
#![tactic(auto)]

ghost use Rattle.std.specs.Prelude.{◌≡◌, ◌<◌, length, IfOk, IfErr};
ghost use Rattle.bytecode_model.specs.Program.{Program};
ghost use Rattle.method_flow.specs.Flow.{IsFlowOf};
ghost use Rattle.node_costs.specs.Costs.{bounds_of};
ghost use Rattle.memory_rules.specs.Sites.{AreSitesOf};
ghost use Rattle.memory_bound.specs.Causes.{IsNeedFault, IsNeedOf};

mod causes;
mod examining;
mod found;
pub mod laws;
mod lengths;
mod loops;
mod making;
mod shapes;
mod stacks;
mod task;
mod words;

use bound_texts::loops::Bounds;
use causes::need_of;
use memory_rules::{Need, NeedFault, Sites};
use method_flow::FlowProgram;
use std::alloc::Global;
use task::Task;

/// What a run of the program needs of memory, where its loops have these bounds and its arrays these lengths. `sites` has what its
/// instructions make. Bounds are asked only for loops that make objects, and lengths for instructions alone that control reaches
/// and that make arrays of no constant length.
///
/// # Errors
///
/// The first of these causes over all methods that may run, the least method first: methods call one another in a cycle; a loop has
/// several entries; a loop that makes objects has no bound; an array has no length; the words of objects exceed 64 bits. Or there is
/// no memory.
pub fn need(
    alloc: Global,
    program: &FlowProgram,
    sites: &Sites,
    bounds: &Bounds,
    lengths: &Bounds,
) -> Result<Need, NeedFault>
    requires { length sites.now ≡ length program.now.methods }
    ensures need { IfOk result (λ n. (P : Program) → IsFlowOf P program.now → AreSitesOf P sites.now
        → IsNeedOf P (bounds_of program.now bounds.now) (bounds_of program.now lengths.now) n) }
    ensures cause { IfErr result (λ e. (P : Program) → IsFlowOf P program.now → AreSitesOf P sites.now
        → IsNeedFault P (bounds_of program.now bounds.now) (bounds_of program.now lengths.now) e) }
{
    need_of(alloc, &Task::new(program, sites, bounds, lengths))
}
