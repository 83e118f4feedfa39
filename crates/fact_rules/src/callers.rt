//! The load of the method to which control comes back from the root.
ghost use Rattle.std.specs.Prelude.{◌≡◌, ◌≤◌, ◌<◌, ◌^◌, ◌↔◌, ◌⊎◌, All, IsTrue, length};
ghost use Rattle.bytecode_model.specs.Program.{Program};
ghost use Rattle.method_flow.specs.Flow.{IsFlowOf};
ghost use Rattle.method_flow.specs.Recursion.{MayCall};
ghost use Rattle.method_flow.specs.Regions.{load};
ghost use Rattle.call_regions.specs.Tables.{IsTargetOf};
ghost use Rattle.fact_rules.specs.Conditions.{IsCallersLoad};

use method_flow::{Call, FlowProgram};
use node_costs::load;
use section_check::lookups::has;

/// Whether one of these calls may run the method.
fn one_may_run(f: &FlowProgram, calls: &[Call], target: u32) -> bool
    requires { All (λ c. c.targets < length f.now.targets) calls.now }
    ensures { IsTrue result ↔ IsTargetOf f.now calls.now target }
{
    for call in calls {
        if has(f.targets(*call), target) {
            return true;
        }
    }
    false
}

/// Whether the method `m` may call another.
fn may_call(f: &FlowProgram, m: u32, target: u32) -> bool
    requires { m < length f.now.methods }
    ensures { (P : Program) → IsFlowOf P f.now → IsTrue result ↔ MayCall P m target }
{
    call_regions::laws::runs_are_calls();
    // Its clause is for the proof alone.
    let _ = f.method_count();
    one_may_run(f, f.method(m).calls(), target)
}

/// The load of the method `m`, in cycles, where it may call the root, and else 0.
fn load_where_calling(f: &FlowProgram, m: u32, root: u32, read: u32) -> u64
    requires read { read ≤ 63 }
    requires method { m < length f.now.methods }
    ensures load { (P : Program) → IsFlowOf P f.now
        → (MayCall P m root × (result ≡ load P read m)) ⊎ ((¬ MayCall P m root) × (result ≡ 0)) }
    ensures small { result < 2 ^ 21 }
{
    if may_call(f, m, root) {
        load(f.method(m), read)
    } else {
        0
    }
}

/// The greatest load of a method that may call the root, in cycles, where a read waits `read` cycles; 0 where none may.
pub fn callers_load(f: &FlowProgram, root: u32, read: u32) -> u64
    requires { read ≤ 63 }
    ensures greatest { (P : Program) → IsFlowOf P f.now → IsCallersLoad P read root result }
    ensures small { result < 2 ^ 21 }
{
    let mut greatest: u64 = 0;
    for m in 0..f.method_count() {
        greatest = greatest.max(load_where_calling(f, m, root, read));
    }
    greatest
}
