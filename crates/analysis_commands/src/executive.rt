//! The executive of a program, and the methods that its slots call.
ghost use Rattle.std.specs.Prelude.{◌≡◌, ◌<◌, ◌==◌, ◌↔◌, ℕ, List, length, find, IsTrue, IfSome, MatchOption};
ghost use Rattle.class_pool.specs.declared.class.ClassFile.{ClassFile};
ghost use Rattle.program_tables.specs.Resolved.{resolved};
ghost use Rattle.section_check.specs.Least.{IsLeast};
ghost use Rattle.slot_table.specs.Executive.{call_place};
ghost use Rattle.method_flow.specs.Flow.{targets_of_call};
ghost use Rattle.bound_causes.specs.Naming.{IsNamedBy};
ghost use Rattle.analysis_commands.specs.Analysis.{named_or_number};
ghost use Rattle.analysis_commands.specs.Executive.{executive_name, IsCyclicMain};
ghost use Rattle.analysis_commands.specs.ExecutiveAnswers.{only_of, CallsOnlyIn, CallsNoneIn, IsFlowWithNames, IsExecutiveIn, IsSlotMethodIn, HasNoMethodIn};

use method_flow::{Call, FlowMethod, FlowProgram};

/// Whether the method of this number has the name of the executive's main.
fn is_cyclic_main(flow: &FlowProgram, m: u32) -> bool
    requires { m < length flow.now.methods }
    ensures { IsTrue result ↔ IsNamedBy flow.now executive_name m }
{
    let name: &[u8] = b"Cyclic.main([Ljava/lang/String;)V";
    flow.method(m).name() == name
}

/// The number of the executive, the main of the class `Cyclic`, in the table of a program: the first method with code that has its name.
pub fn executive_method(flow: &FlowProgram) -> Option<u32>
    ensures first { IsExecutiveIn flow.now result }
    ensures program { (cs : List ClassFile) → IsFlowWithNames cs flow.now → IsLeast (IsCyclicMain (resolved cs) (named_or_number cs)) result }
    ensures known { IfSome result (λ m. m < length flow.now.methods) }
{
    for m in 0..flow.method_count() {
        if is_cyclic_main(flow, m) {
            return Some(m);
        }
    }
    None
}

/// The call at a place of a method's code.
fn call_at(method: &FlowMethod, place: u32) -> Option<Call>
    ensures { result ≡ find (λ c. c.place == place) method.now.calls }
{
    method
        .calls()
        .iter()
        .copied()
        .find(|call| call.place == place)
}

/// The method that a call runs, where it runs no other.
fn only_target(flow: &FlowProgram, call: Call) -> Option<u32>
    requires { call.targets < length flow.now.targets }
    ensures { result ≡ only_of (targets_of_call flow.now call) }
{
    match flow.targets(call) {
        [method] => Some(*method),
        _ => None,
    }
}

/// The method that the call at a place of the caller's code runs, where it runs no other.
fn target_at(flow: &FlowProgram, caller: u32, place: u32) -> Option<u32>
    requires { caller < length flow.now.methods }
    ensures only { MatchOption result (CallsNoneIn flow.now caller place) (CallsOnlyIn flow.now caller place) }
    ensures known { IfSome result (λ m. m < length flow.now.methods) }
{
    // For the proof: the table and the method are of their forms.
    let _ = flow.method_count();
    let method = flow.method(caller);
    // Its clause is for the proof alone.
    let _ = method.calls();
    let call = call_at(method, place)?;
    only_target(flow, call)
}

/// The method of a slot, where the executive calls one, and no other, at the slot's place.
pub fn slot_method(flow: &FlowProgram, executive: Option<u32>, slot: u32) -> Option<u32>
    requires executive { IsExecutiveIn flow.now executive }
    requires few { slot < 64 }
    ensures method { MatchOption result (HasNoMethodIn flow.now slot) (IsSlotMethodIn flow.now slot) }
    ensures known { IfSome result (λ m. m < length flow.now.methods) }
{
    target_at(flow, executive?, 9 + 3 * slot)
}
