//! Whether what may run while a method, or a loop of it, does fits the method cache together.
ghost use Rattle.std.specs.Prelude.{◌≡◌, ◌<◌, length, IfOk, OnOk};
ghost use Rattle.std.specs.List.Sorted.{IsStrictlyIncreasing, IsPermutation};
ghost use Rattle.bytecode_model.specs.Program.{Program};
ghost use Rattle.method_cache.specs.Regions.Region.{AreDistinct};
ghost use Rattle.method_flow.specs.Flow.{IsFlowOf};
ghost use Rattle.method_flow.specs.Regions.{IsWithin, IsWithinNodes};
ghost use Rattle.call_regions.specs.Regions.{AreOfTable, IsRegionAnswer};
ghost use Rattle.call_regions.specs.Tables.{RunsAt};
ghost use Rattle.call_regions.specs.Searching.{IsFirst, IsWhole, IsAnswer};

use super::answers::Region;
use super::calls::calls_of;
use super::laws::runs_are_calls;
use super::search::{Cache, Search, add, add_members, add_reached, first};
use base::{Items, NoMemory};
use method_flow::FlowProgram;
use std::alloc::Global;

/// The search for all that may run while the method `m` does.
fn search_method(alloc: Global, f: &FlowProgram, m: u32, cache: Cache) -> Result<Search, NoMemory>
    requires known { m < length f.now.methods }
    requires size { 0 < cache.block_words }
    ensures { IfOk result (IsWhole f.now cache.block_words cache.blocks m (λ x. x ≡ m)) }
{
    let mut search = first(alloc, f, m, cache)?;
    fill(f, &mut search, m, cache)?;
    Ok(search)
}

/// Adds all that may run while the method `m` does, until it passes the cache.
fn fill(f: &FlowProgram, s: &mut Search, m: u32, cache: Cache) -> Result<(), NoMemory>
    requires known { m < length f.now.methods }
    requires size { 0 < cache.block_words }
    requires first { IsFirst f.now cache.block_words m s.old }
    ensures { OnOk result (IsWhole f.now cache.block_words cache.blocks m (λ x. x ≡ m) s.new) }
{
    add(f, s, m, cache)?;
    add_reached(f, s, cache)
}

/// The search for all that may run while control stays among these nodes of the method `m`.
fn search_members(
    alloc: Global,
    f: &FlowProgram,
    m: u32,
    members: &[u32],
    cache: Cache,
) -> Result<Search, NoMemory>
    requires known { m < length f.now.methods }
    requires size { 0 < cache.block_words }
    ensures { IfOk result (IsWhole f.now cache.block_words cache.blocks m (RunsAt f.now m members.now)) }
{
    let mut search = first(alloc, f, m, cache)?;
    fill_members(f, &mut search, m, members, cache)?;
    Ok(search)
}

/// Adds all that may run while control stays among these nodes of the method `m`, until it passes the cache.
fn fill_members(
    f: &FlowProgram,
    s: &mut Search,
    m: u32,
    members: &[u32],
    cache: Cache,
) -> Result<(), NoMemory>
    requires known { m < length f.now.methods }
    requires size { 0 < cache.block_words }
    requires first { IsFirst f.now cache.block_words m s.old }
    ensures { OnOk result (IsWhole f.now cache.block_words cache.blocks m (RunsAt f.now m members.now) s.new) }
{
    add_members(f, s, calls_of(f, m), members, cache)?;
    add_reached(f, s, cache)
}

/// These numbers, rising.
fn sorted(alloc: Global, numbers: &[u32]) -> Result<Vec<u32>, NoMemory>
    requires { AreDistinct numbers.now }
    ensures { IfOk result (λ v. IsPermutation numbers.now v.items × IsStrictlyIncreasing v.items) }
{
    let mut sorted = numbers.to_vec(alloc)?;
    sorted.sort_unstable();
    Ok(sorted)
}

/// The methods of a search, or that they don't fit the cache.
fn answer(alloc: Global, search: &Search, cache: Cache) -> Result<Region, NoMemory>
    requires { AreDistinct search.now.methods }
    ensures { IfOk result (IsAnswer cache.blocks search.now) }
{
    if search.fits(cache) {
        let methods = sorted(alloc, search.methods.as_slice())?;
        Ok(Region::Fits(Items::new(methods)))
    } else {
        Ok(Region::Exceeds)
    }
}

/// The methods that may run while the method `m` does, itself among them, rising; or that a cache of so many blocks of so many
/// words can't hold them all at once. The search ends where it has found too many.
pub fn region(
    alloc: Global,
    f: &FlowProgram,
    m: u32,
    blocks: u32,
    block_words: u32,
) -> Result<Region, NoMemory>
    requires m { m < length f.now.methods }
    requires block_words { 0 < block_words }
    ensures region { IfOk result (λ r. (P : Program) → IsFlowOf P f.now → IsRegionAnswer P blocks block_words (IsWithin P m) r) }
    ensures known { IfOk result (AreOfTable f.now) }
{
    runs_are_calls();
    let cache = Cache {
        blocks,
        block_words,
    };
    let search = search_method(alloc, f, m, cache)?;
    answer(alloc, &search, cache)
}

/// The same of the methods that may run while control stays among these nodes of the method `m`, itself among them. The
/// instruction at place p is node 2·p.
pub fn loop_region(
    alloc: Global,
    f: &FlowProgram,
    m: u32,
    members: &[u32],
    blocks: u32,
    block_words: u32,
) -> Result<Region, NoMemory>
    requires m { m < length f.now.methods }
    requires block_words { 0 < block_words }
    ensures region { IfOk result (λ r. (P : Program) → IsFlowOf P f.now → IsRegionAnswer P blocks block_words (IsWithinNodes P m members.now) r) }
    ensures known { IfOk result (AreOfTable f.now) }
{
    runs_are_calls();
    let cache = Cache {
        blocks,
        block_words,
    };
    let search = search_members(alloc, f, m, members, cache)?;
    answer(alloc, &search, cache)
}
