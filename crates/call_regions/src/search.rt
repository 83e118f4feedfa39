//! The search for all methods that may run. It goes on only while the methods that it found fit the method cache together:
//! as each takes a block at least, it never finds more methods than one more than there are blocks.
ghost use Rattle.std.specs.Prelude.{◌≡◌, ◌<◌, ◌≤◌, ◌^◌, ◌*◌, length, All, Contains, OnOk, IfOk, IfSome, IfNone, IsTrue, ◌↔◌, Some, slice_get};
ghost use Rattle.std.specs.List.Sorted.{IsStrictlyIncreasing};
ghost use Rattle.method_flow.specs.Flow.{places_of};
ghost use Rattle.call_regions.specs.Tables.{IsTargetOf, IsTargetAt, IsReached};
ghost use Rattle.call_regions.specs.Searching.{IsSearch, Adds, FindsAll, IsFirst};

use super::calls::calls_of;
use super::sizes::blocks;
use base::NoMemory;
use method_flow::{Call, FlowProgram};
use number_sets::NumberSet;
use std::alloc::Global;

/// So many blocks of so many words.
#[derive(Clone, Copy)]
pub(crate) struct Cache {
    pub(crate) blocks: u32,
    pub(crate) block_words: u32,
}

/// The methods that a search found: `methods` take `blocks` of the cache; what those of `queue` run is looked at in order.
#[derive(Drop)]
pub(crate) struct Search {
    pub(crate) queue: NumberSet,
    pub(crate) methods: NumberSet,
    pub(crate) blocks: u64,
}

impl Search {
    /// Whether the methods fit the cache.
    pub(crate) fn fits(&self, cache: Cache) -> bool
        ensures { IsTrue result ↔ (self.now.blocks ≤ cache.blocks) }
    {
        self.blocks <= u64::from(cache.blocks)
    }
}

/// The search that found the method `m` alone, and isn't to look at what it runs.
pub(crate) fn first(
    alloc: Global,
    f: &FlowProgram,
    m: u32,
    cache: Cache,
) -> Result<Search, NoMemory>
    requires known { m < length f.now.methods }
    requires size { 0 < cache.block_words }
    ensures { IfOk result (IsFirst f.now cache.block_words m) }
{
    let mut methods = NumberSet::new(alloc);
    methods.insert(m)?;
    Ok(Search {
        queue: NumberSet::new(alloc),
        methods,
        blocks: u64::from(blocks(f.method(m), cache.block_words)),
    })
}

/// Adds the method `t` to the methods that were found, unless it is among them.
fn find(f: &FlowProgram, s: &mut Search, t: u32, cache: Cache) -> Result<(), NoMemory>
    requires known { t < length f.now.methods }
    requires size { 0 < cache.block_words }
    requires small { s.old.blocks < 2 ^ 32 }
    requires search { IsSearch f.now cache.block_words s.old }
    ensures { OnOk result (Adds f.now cache.block_words t s.old s.new) }
{
    if !s.methods.contains(t) {
        s.blocks += u64::from(blocks(f.method(t), cache.block_words));
        s.methods.insert(t)?;
    }
    Ok(())
}

/// Adds the method `t`, what it runs to be looked at.
pub(crate) fn add(f: &FlowProgram, s: &mut Search, t: u32, cache: Cache) -> Result<(), NoMemory>
    requires known { t < length f.now.methods }
    requires size { 0 < cache.block_words }
    requires small { s.old.blocks < 2 ^ 32 }
    requires search { IsSearch f.now cache.block_words s.old }
    ensures { OnOk result (FindsAll f.now cache.block_words cache.blocks (λ x. x ≡ t) s.old s.new) }
{
    if s.queue.contains(t) {
        return Ok(());
    }
    find(f, s, t, cache)?;
    s.queue.insert(t)
}

/// Adds these methods, until they pass the cache.
fn add_all(f: &FlowProgram, s: &mut Search, targets: &[u32], cache: Cache) -> Result<(), NoMemory>
    requires known { All (λ t. t < length f.now.methods) targets.now }
    requires size { 0 < cache.block_words }
    requires search { IsSearch f.now cache.block_words s.old }
    ensures { OnOk result (FindsAll f.now cache.block_words cache.blocks (Contains targets.now) s.old s.new) }
{
    for t in targets {
        if !s.fits(cache) {
            return Ok(());
        }
        add(f, s, *t, cache)?;
    }
    Ok(())
}

/// Adds what these calls may run, until the methods pass the cache.
fn add_targets(
    f: &FlowProgram,
    s: &mut Search,
    calls: &[Call],
    cache: Cache,
) -> Result<(), NoMemory>
    requires lists { All (λ c. c.targets < length f.now.targets) calls.now }
    requires size { 0 < cache.block_words }
    requires search { IsSearch f.now cache.block_words s.old }
    ensures { OnOk result (FindsAll f.now cache.block_words cache.blocks (IsTargetOf f.now calls.now) s.old s.new) }
{
    for call in calls {
        if !s.fits(cache) {
            return Ok(());
        }
        add_all(f, s, f.targets(*call), cache)?;
    }
    Ok(())
}

/// The call at a place, among calls that rise by place.
fn call_at(calls: &[Call], place: u32) -> Option<Call>
    requires { IsStrictlyIncreasing (places_of calls.now) }
    ensures found { IfSome result (λ c. Contains calls.now c × (c.place ≡ place)) }
    ensures only { IfSome result (λ c. (d : Call) → Contains calls.now d → d.place ≡ place → d ≡ c) }
    ensures none { IfNone result ((d : Call) → Contains calls.now d → d.place ≡ place → ⊥) }
{
    match calls.binary_search_by_key(&place, |call| call.place) {
        Ok(i) => Some(calls[i]),
        Err(_) => None,
    }
}

/// The call at a node. The instruction at place p is node 2·p.
fn call_of_node(calls: &[Call], node: u32) -> Option<Call>
    requires { IsStrictlyIncreasing (places_of calls.now) }
    ensures found { IfSome result (λ c. Contains calls.now c × (2 * c.place ≡ node)) }
    ensures only { IfSome result (λ c. (d : Call) → Contains calls.now d → 2 * d.place ≡ node → d ≡ c) }
    ensures none { IfNone result ((d : Call) → Contains calls.now d → 2 * d.place ≡ node → ⊥) }
{
    if node % 2 == 0 {
        call_at(calls, node / 2)
    } else {
        None
    }
}

/// Adds what those of these calls may run that stand at these nodes, until the methods pass the cache.
pub(crate) fn add_members(
    f: &FlowProgram,
    s: &mut Search,
    calls: &[Call],
    members: &[u32],
    cache: Cache,
) -> Result<(), NoMemory>
    requires rising { IsStrictlyIncreasing (places_of calls.now) }
    requires lists { All (λ c. c.targets < length f.now.targets) calls.now }
    requires size { 0 < cache.block_words }
    requires search { IsSearch f.now cache.block_words s.old }
    ensures { OnOk result (FindsAll f.now cache.block_words cache.blocks (IsTargetAt f.now calls.now members.now) s.old s.new) }
{
    for node in members {
        if !s.fits(cache) {
            return Ok(());
        }
        if let Some(call) = call_of_node(calls, *node) {
            add_all(f, s, f.targets(call), cache)?;
        }
    }
    Ok(())
}

/// The method at a place of the queue, where the methods fit the cache.
fn next(s: &Search, at: usize, cache: Cache) -> Option<u32>
    ensures some { IfSome result (λ y. (s.now.blocks ≤ cache.blocks) × (slice_get s.now.queue at ≡ Some y)) }
    ensures none { IfNone result (s.now.blocks ≤ cache.blocks → length s.now.queue ≤ at) }
{
    if s.fits(cache) {
        s.queue.as_slice().get(at).copied()
    } else {
        None
    }
}

/// Adds what the methods of the queue may run, and what may run while these do, until the methods pass the cache.
pub(crate) fn add_reached(f: &FlowProgram, s: &mut Search, cache: Cache) -> Result<(), NoMemory>
    requires size { 0 < cache.block_words }
    requires search { IsSearch f.now cache.block_words s.old }
    ensures { OnOk result (FindsAll f.now cache.block_words cache.blocks (IsReached f.now (Contains s.old.queue)) s.old s.new) }
{
    for at in 0..cache.blocks {
        let Some(method) = next(s, at as usize, cache) else {
            return Ok(());
        };
        add_targets(f, s, calls_of(f, method), cache)?;
    }
    Ok(())
}
