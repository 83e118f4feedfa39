//! Whether all that may run while a method does fits the cache together.
ghost use Rattle.std.specs.Prelude.{◌<◌, ◌≤◌, length, IfOk};
ghost use Rattle.compact_walks.specs.Limited.{cycles_limit};
ghost use Rattle.bound_finder.specs.Known.{ForEach};
ghost use Rattle.bound_finder.specs.Found.{IsFitOf};

use super::task::Task;
use base::NoMemory;
use call_regions::{Region, region};
use node_costs::{load, loads};
use std::alloc::Global;

/// Whether all that may run while a method does fits the cache together, and the loads that its number with all loads has beside the
/// one that is asked of it: those of all, or its own.
#[derive(Clone, Copy)]
pub struct Fit {
    pub fits: bool,
    pub more: u64,
}

/// Whether all that may run while the method `m` does fits the cache together, with loads.
pub fn fit_of(alloc: Global, task: &Task<'_>, m: u32) -> Result<Fit, NoMemory>
    requires { m < length task.now.flow.methods }
    ensures fit { IfOk result (λ fit. ForEach task.now (λ P. IsFitOf P task.now.timing m fit)) }
    ensures small { IfOk result (λ fit. fit.more ≤ cycles_limit) }
{
    let t = task.timing();
    match region(alloc, task.flow(), m, t.blocks, t.block_words)? {
        Region::Fits(methods) => Ok(Fit {
            fits: true,
            more: loads(task.flow(), methods.as_slice(), t.read),
        }),
        Region::Exceeds => Ok(Fit {
            fits: false,
            more: load(task.method(m), t.read),
        }),
    }
}
