//! What the loops of a section are charged: their bounds, and the loads of the regions among them.
ghost use Rattle.std.specs.Prelude.{◌≡◌, ◌<◌, IfOk, length};
ghost use Rattle.bytecode_model.specs.Program.{Program};
ghost use Rattle.method_flow.specs.Flow.{IsFlowOf};
ghost use Rattle.section_check.specs.Least.{IsLeast};
ghost use Rattle.node_costs.specs.Costs.{bounds_of};
ghost use Rattle.bound_rules.specs.Fitting.{header_bound};
ghost use Rattle.bound_rules.specs.Sections.{AreEntryLoads, IsEntryLoad, LacksBound, section_bounds};
ghost use Rattle.section_check.specs.Section.{HeadersRise};
ghost use Rattle.cert_checker.specs.Setting.{IsRegionFee};

use super::task::Task;
use base::NoMemory;
use call_regions::{Region, loop_region};
use certificates::{CertLoop, CertSection};
use node_costs::loads;
use std::alloc::Global;

/// The bound of the loop of a method that a node heads.
fn header_bound(task: &Task<'_>, m: u32, header: u32) -> Option<u32>
    requires { m < length task.now.flow.methods }
    ensures { result ≡ header_bound (bounds_of task.now.flow task.now.bounds) m header }
{
    if header % 2 == 0 {
        task.bound(m, header / 2)
    } else {
        None
    }
}

/// The bounds of a section's loops, 0 where none is given.
pub fn loop_bounds(alloc: Global, task: &Task<'_>, s: &CertSection) -> Result<Vec<u32>, NoMemory>
    requires { s.now.method < length task.now.flow.methods }
    ensures { IfOk result (λ bounds. bounds.items ≡ section_bounds (bounds_of task.now.flow task.now.bounds) s.now) }
{
    let mut bounds = Vec::new(alloc);
    for l in s.section.loops() {
        bounds.push(header_bound(task, s.method, l.header()).unwrap_or(0))?;
    }
    Ok(bounds)
}

/// The least node of a section that heads a loop for which no bound is given.
pub fn unbounded(task: &Task<'_>, s: &CertSection) -> Option<u32>
    requires coded { s.now.method < length task.now.flow.methods }
    requires rising { HeadersRise s.now.section.loops }
    ensures { IsLeast (LacksBound (bounds_of task.now.flow task.now.bounds) s.now) result }
{
    for l in s.section.loops() {
        if header_bound(task, s.method, l.header()).is_none() {
            return Some(l.header());
        }
    }
    None
}

/// The loads of the methods that may run in a loop of a method, where these fit the cache together.
fn region_loads(
    alloc: Global,
    task: &Task<'_>,
    m: u32,
    members: &[u32],
) -> Result<Option<u64>, NoMemory>
    requires { m < length task.now.flow.methods }
    ensures { IfOk result (λ fee. (P : Program) → IsFlowOf P task.now.flow → IsRegionFee P task.now.timing m members.now fee) }
{
    let t = task.timing();
    match loop_region(alloc, task.flow(), m, members, t.blocks, t.block_words)? {
        Region::Fits(methods) => Ok(Some(loads(task.flow(), methods.as_slice(), t.read))),
        Region::Exceeds => Ok(None),
    }
}

/// What an entry of a loop of a method pays beside the loop's iterations.
fn fee(alloc: Global, task: &Task<'_>, m: u32, l: &CertLoop) -> Result<Option<u64>, NoMemory>
    requires { m < length task.now.flow.methods }
    ensures { IfOk result (λ fee. (P : Program) → IsFlowOf P task.now.flow → IsEntryLoad P task.now.timing m l.now fee) }
{
    if l.region() {
        region_loads(alloc, task, m, l.members())
    } else {
        Ok(Some(0))
    }
}

/// The same of each loop of a section.
pub fn fees(alloc: Global, task: &Task<'_>, s: &CertSection) -> Result<Vec<Option<u64>>, NoMemory>
    requires { s.now.method < length task.now.flow.methods }
    ensures long { IfOk result (λ fees. length fees.items ≡ length s.now.section.loops) }
    ensures each { IfOk result (λ fees. (P : Program) → IsFlowOf P task.now.flow → AreEntryLoads P task.now.timing s.now fees.items) }
{
    let mut fees = Vec::new(alloc);
    for l in s.section.loops() {
        fees.push(fee(alloc, task, s.method, l)?)?;
    }
    Ok(fees)
}
