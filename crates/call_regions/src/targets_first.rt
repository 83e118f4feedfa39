//! An order of methods in which each stands behind all that it may run.
ghost use Rattle.std.specs.Prelude.{◌≡◌, ◌<◌, [], ◌∷◌, length, IfOk, IfErr};
ghost use Rattle.bytecode_model.specs.Program.{Program};
ghost use Rattle.method_flow.specs.Flow.{IsFlowOf};
ghost use Rattle.call_regions.specs.Walking.{IsTableOrder, IsRingCause};
ghost use Rattle.call_regions.specs.Regions.{AreKnown};
ghost use Rattle.call_regions.specs.Calling.{IsTargetsFirst, IsCallCause};

use super::answers::{CallFault, Order};
use super::laws::runs_are_calls;
use super::walk::walk_from;
use base::Items;
use method_flow::FlowProgram;
use std::alloc::{AllocError, Global};

/// A list of this method alone.
fn alone(alloc: Global, method: u32) -> Result<Vec<u32>, AllocError>
    ensures { IfOk result (λ v. v.items ≡ method ∷ []) }
{
    let mut methods = Vec::new(alloc);
    methods.push(method)?;
    Ok(methods)
}

/// The methods of the table that may run while the root does, in order; or the root alone, if it isn't in the table.
fn methods_from(alloc: Global, f: &FlowProgram, root: u32) -> Result<Vec<u32>, CallFault>
    ensures inside { IfOk result (λ v. root < length f.now.methods → IsTableOrder f.now root v.items) }
    ensures outside { IfOk result (λ v. (root < length f.now.methods → ⊥) → v.items ≡ root ∷ []) }
    ensures cause { IfErr result (IsRingCause f.now root) }
{
    if root < f.method_count() {
        walk_from(alloc, f, root)
    } else {
        Ok(alone(alloc, root)?)
    }
}

/// The methods that may run while the root does, each once, each behind all that it may run; or a cycle of them, exactly where
/// there is one. A method without code runs none.
pub fn order(alloc: Global, f: &FlowProgram, root: u32) -> Result<Order, CallFault>
    ensures order { IfOk result (λ o. (P : Program) → IsFlowOf P f.now → IsTargetsFirst P root o.methods) }
    ensures known { IfOk result (λ o. root < length f.now.methods → AreKnown f.now o.methods) }
    ensures cause { IfErr result (λ e. (P : Program) → IsFlowOf P f.now → IsCallCause P root e) }
{
    runs_are_calls();
    let methods = methods_from(alloc, f, root)?;
    Ok(Order {
        methods: Items::new(methods),
    })
}
