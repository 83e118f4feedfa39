//! The calls of a method of the table.
ghost use Rattle.std.specs.Prelude.{◌≡◌, ◌<◌, length, All};
ghost use Rattle.method_flow.specs.Flow.{targets_of_call};
ghost use Rattle.call_regions.specs.Tables.{HasCalls};

use method_flow::{Call, FlowProgram};

/// The calls of the method `m`; each names a list of targets.
pub fn calls_of(f: &FlowProgram, m: u32) -> &[Call]
    requires { m < length f.now.methods }
    ensures calls { HasCalls f.now m result.now }
    ensures lists { All (λ c. c.targets < length f.now.targets) result.now }
{
    // For the proof: the table is of its form.
    let _ = f.method_count();
    f.method(m).calls()
}

/// The targets of a call.
pub fn targets_of(f: &FlowProgram, call: Call) -> &[u32]
    requires { call.targets < length f.now.targets }
    ensures targets { result.now ≡ targets_of_call f.now call }
    ensures within { All (λ t. t < length f.now.methods) result.now }
{
    f.targets(call)
}
