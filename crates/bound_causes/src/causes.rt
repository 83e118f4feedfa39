//! Why no bound of a method is given, in the order in which the causes are tried.
ghost use Rattle.std.specs.Prelude.{◌≡◌, ◌<◌, length, All, IfOk, IfErr, OnOk};
ghost use Rattle.std.specs.List.Sorted.{IsStrictlyIncreasing, IsPermutation};
ghost use Rattle.bytecode_model.specs.Program.{Program};
ghost use Rattle.method_cache.specs.Regions.Region.{AreDistinct};
ghost use Rattle.method_flow.specs.Flow.{IsFlowOf};
ghost use Rattle.method_flow.specs.declared.timing.Timing.{Timing};
ghost use Rattle.node_costs.specs.Costs.{bounds_of};
ghost use Rattle.call_regions.specs.Calling.{IsTargetsFirst};
ghost use Rattle.call_regions.specs.Regions.{AreKnown};
ghost use Rattle.bound_rules.specs.Bounding.{IsAsked, IsCause};
ghost use Rattle.bound_causes.specs.Naming.{IsNamedBy};
ghost use Rattle.bound_causes.specs.Causes.{IsCallCause, IsRootCause};
ghost use Rattle.bound_causes.specs.Ready.{IsReady, AreInTable};

use super::asking::asked;
use super::lines::check_loops;
use base::Items;
use bound_rules::BoundRefusal;
use bound_texts::loops::Bounds;
use call_regions::laws::order_excludes_cycles;
use call_regions::{CallFault, Order, order};
use method_flow::FlowProgram;
use std::alloc::{AllocError, Global};

/// A method that is asked for, and the methods that may run while it does.
#[derive(Drop)]
pub struct Asked {
    /// The method that is asked for.
    pub root: u32,
    /// The methods that may run, each behind all that it may run.
    pub order: Order,
    /// The same methods, rising.
    pub methods: Items<u32>,
}

/// The methods that may run while the root does, each behind all that it may run.
fn targets_first(alloc: Global, f: &FlowProgram, root: u32) -> Result<Order, BoundRefusal>
    requires { root < length f.now.methods }
    ensures order { IfOk result (λ o. (P : Program) → IsFlowOf P f.now → IsTargetsFirst P root o.methods) }
    ensures known { IfOk result (λ o. AreKnown f.now o.methods) }
    ensures cause { IfErr result (λ e. (P : Program) → IsFlowOf P f.now → IsCallCause P root e) }
{
    match order(alloc, f, root) {
        Ok(order) => Ok(order),
        Err(CallFault::Recursion(cycle)) => Err(BoundRefusal::Recursion(cycle.into_vec())),
        Err(CallFault::NoMemory) => Err(BoundRefusal::NoMemory),
    }
}

/// These numbers, rising.
fn rising(alloc: Global, numbers: &[u32]) -> Result<Vec<u32>, AllocError>
    requires { AreDistinct numbers.now }
    ensures { IfOk result (λ v. IsPermutation numbers.now v.items × IsStrictlyIncreasing v.items) }
{
    let mut rising = numbers.to_vec(alloc)?;
    rising.sort_unstable();
    Ok(rising)
}

/// What may run while the method of this number does. The error is the cause for which no bound of it is given, apart from numbers past
/// 64 bits: methods that may run call each other in a cycle; the reduction of the graph of one leaves nodes; or no bound is given for one
/// of their loops. A cause is answered only where none before it stands, and of the least method, but where there is no memory.
pub fn cause_of_root(
    alloc: Global,
    f: &FlowProgram,
    b: &Bounds,
    root: u32,
) -> Result<Asked, BoundRefusal>
    requires { root < length f.now.methods }
    ensures root { IfOk result (λ a. a.root ≡ root) }
    ensures ready { IfOk result (λ a. (P : Program) → IsFlowOf P f.now → IsReady P (bounds_of f.now b.now) a) }
    ensures known { IfOk result (AreInTable f.now) }
    ensures cause { IfErr result (λ e. (P : Program) → IsFlowOf P f.now → IsRootCause P (bounds_of f.now b.now) root e) }
{
    order_excludes_cycles();
    let order = targets_first(alloc, f, root)?;
    let methods = rising(alloc, order.methods.as_slice())?;
    check_loops(alloc, f, b, &methods)?;
    Ok(Asked {
        root,
        order,
        methods: Items::new(methods),
    })
}

/// The first method of this name, and what may run while it does. The error is the cause for which no bound of it is given, apart
/// from numbers past 64 bits: no method has the name; methods that may run call each other in a cycle; the reduction of the graph
/// of one leaves nodes; or no bound is given for one of their loops. A cause is answered only where none before it stands, and
/// of the least method, but where there is no memory.
pub fn cause_before_size(
    alloc: Global,
    f: &FlowProgram,
    b: &Bounds,
    name: &[u8],
) -> Result<Asked, BoundRefusal>
    ensures asked { IfOk result (λ a. (P : Program) → IsFlowOf P f.now → IsAsked P (IsNamedBy f.now name.now) a.root) }
    ensures ready { IfOk result (λ a. (P : Program) → IsFlowOf P f.now → IsReady P (bounds_of f.now b.now) a) }
    ensures known { IfOk result (AreInTable f.now) }
    ensures cause { IfErr result (λ e. (P : Program) (t : Timing) → IsFlowOf P f.now → IsCause P t (bounds_of f.now b.now) (IsNamedBy f.now name.now) e) }
{
    match asked(f, name) {
        Some(root) => cause_of_root(alloc, f, b, root),
        None => Err(BoundRefusal::NoMethod),
    }
}
