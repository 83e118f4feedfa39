//! The words of the frames of chains of calls.
ghost use Rattle.std.specs.Prelude.{◌≡◌, ◌+◌, ◌<◌, ◌≤◌, ◌^◌, ℕ, length, All, Contains, IfOk, slice_index};
ghost use Rattle.call_regions.specs.Calling.{IsTargetsFirst};
ghost use Rattle.memory_rules.specs.Stack.{IsStackNeedOf};
ghost use Rattle.memory_bound.specs.Setting.{ForEach};
ghost use Rattle.memory_bound.specs.Stacks.{IsGreatestAmong, IsCalled, AreStacks};

use super::task::Task;
use base::NoMemory;
use call_regions::laws::runs_are_calls;
use method_flow::{Call, FlowProgram};
use std::alloc::Global;

/// The greatest number at these places.
fn greatest_at(targets: &[u32], stacks: &[u64]) -> u64
    requires { All (λ t. t < length stacks.now) targets.now }
    ensures { IsGreatestAmong (Contains targets.now) (slice_index stacks.now) result }
{
    let mut greatest = 0;
    for t in targets {
        greatest = stacks[*t as usize].max(greatest);
    }
    greatest
}

/// The greatest number of what these calls may run.
fn greatest_called(f: &FlowProgram, calls: &[Call], stacks: &[u64]) -> u64
    requires lists { All (λ c. c.targets < length f.now.targets) calls.now }
    requires long { length stacks.now ≡ length f.now.methods }
    ensures { IsGreatestAmong (IsCalled f.now calls.now) (slice_index stacks.now) result }
{
    let mut greatest = 0;
    for call in calls {
        greatest = greatest_at(f.targets(*call), stacks).max(greatest);
    }
    greatest
}

/// The words of the frames of the deepest chain of calls from the method `m`, where they are known of all that it may call.
fn stack_of(task: &Task<'_>, m: u32, stacks: &[u64], most: u64) -> u64
    requires method { m < length task.now.flow.methods }
    requires long { length stacks.now ≡ length task.now.flow.methods }
    requires known { All (λ n. n ≤ most) stacks.now }
    requires most { most + 2 ^ 32 ≤ 2 ^ 64 }
    ensures most { result < most + 2 ^ 32 }
    ensures need { ForEach task.now (λ P. AreStacks P stacks.now m → IsStackNeedOf P m result) }
{
    // The law is for the proof, and the table is of its form.
    runs_are_calls();
    // Its clause is for the proof alone.
    let _ = task.flow().method_count();
    let calls = task.method(m).calls();
    u64::from(task.words(m)) + greatest_called(task.flow(), calls, stacks)
}

/// The words of the frames of the deepest chain of calls from each of these methods, by number.
pub fn stacks(alloc: Global, task: &Task<'_>, order: &[u32]) -> Result<Vec<u64>, NoMemory>
    requires known { All (λ m. m < length task.now.flow.methods) order.now }
    requires few { length order.now < 2 ^ 32 }
    ensures long { IfOk result (λ v. length v.items ≡ length task.now.flow.methods) }
    ensures need { IfOk result (λ v. ForEach task.now (λ P. IsTargetsFirst P P.boot order.now
        → (m : ℕ) → Contains order.now m → IsStackNeedOf P m (slice_index v.items m))) }
{
    let mut stacks = vec![in alloc; 0; task.flow().method_count() as usize]?;
    let mut most = 0u64;
    for m in order {
        stacks[*m as usize] = stack_of(task, *m, &stacks, most);
        most += 0x1_0000_0000;
    }
    Ok(stacks)
}
