//! Which nodes are led to past none that is barred.
ghost use Rattle.std.specs.Prelude.{◌≡◌, ◌<◌, length, IfOk};
ghost use Rattle.fact_names.specs.Reach.{AreLedTo, AreWithin};

use base::NoMemory;
use loop_nest::digraph::Sources;
use std::alloc::Global;

/// For each node whether steps lead to it from another, past none that is barred. `next` has for each node those to which
/// a step leads from it.
pub(crate) fn led_to(
    alloc: Global,
    next: &Sources,
    barred: &[bool],
    start: u32,
) -> Result<Vec<bool>, NoMemory>
    requires within { AreWithin next.now }
    requires start { start < length next.now }
    requires long { length barred.now ≡ length next.now }
    ensures { IfOk result (λ flags. AreLedTo next.now barred.now start flags.items) }
{
    let mut flags = vec![in alloc; false; barred.len()]?;
    let mut stack = vec![in alloc; start]?;
    while let Some(x) = stack.pop() {
        if !flags[x as usize] && !barred[x as usize] {
            flags[x as usize] = true;
            stack.extend_from_slice(next.of(x))?;
        }
    }
    Ok(flags)
}
