//! The calls of a method of the table.
ghost use Rattle.std.specs.Prelude.{◌<◌, length, All};
ghost use Rattle.std.specs.List.Sorted.{IsStrictlyIncreasing};
ghost use Rattle.method_flow.specs.Flow.{places_of};
ghost use Rattle.call_regions.specs.Tables.{HasCalls};

use method_flow::{Call, FlowProgram};

/// The calls of the method `m`, rising by place; each names a list of targets.
pub(crate) fn calls_of(f: &FlowProgram, m: u32) -> &[Call]
    requires { m < length f.now.methods }
    ensures calls { HasCalls f.now m result.now }
    ensures rising { IsStrictlyIncreasing (places_of result.now) }
    ensures lists { All (λ c. c.targets < length f.now.targets) result.now }
{
    // For the proof: the table is of its form.
    let _ = f.method_count();
    f.method(m).calls()
}
