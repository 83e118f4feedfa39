//! The methods for which invokes select others.
ghost use Rattle.std.specs.Prelude.{◌≡◌, ℕ, ◌+◌, ◌<◌, length, Some, Contains, IfOk, slice_get};
ghost use Rattle.method_flow.specs.declared.flow.Call.{Call};
ghost use Rattle.method_flow.specs.Flow.{Coded};
ghost use Rattle.flow_table.specs.Marks.{AreMarked, HasMarks};

use base::NoMemory;
use method_flow::{Call, FlowMethod};
use std::alloc::Global;

/// Marks the methods for which these invokes select others. `coded` methods have code.
fn mark_calls(calls: &[Call], coded: u32, marks: &mut Vec<bool>)
    requires { (c : Call) → Contains calls.now c → c.targets < coded + length marks.old.items }
    ensures { AreMarked coded calls.now marks.old.items marks.new.items }
{
    for call in calls {
        let targets = call.targets;
        if targets >= coded {
            marks[(targets - coded) as usize] = true;
        }
    }
}

/// For each method of a program whether an invoke of these methods selects another for it. `coded` methods have code.
pub(crate) fn marks_of(
    alloc: Global,
    methods: &[FlowMethod],
    coded: u32,
    count: u32,
) -> Result<Vec<bool>, NoMemory>
    requires { (m : ℕ) (k : Coded) (c : Call) → slice_get methods.now m ≡ Some k → Contains k.calls c → c.targets < coded + count }
    ensures { IfOk result (λ marks. HasMarks coded count methods.now marks.items) }
{
    let mut marks = vec![in alloc; false; count as usize]?;
    for method in methods {
        mark_calls(method.calls(), coded, &mut marks);
    }
    Ok(marks)
}
