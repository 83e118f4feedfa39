//! The need, or the first cause why there is none.
ghost use Rattle.std.specs.Prelude.{◌≡◌, ◌<◌, ◌^◌, ℕ, [], length, All, Contains, IfOk, IfErr, IsOk, OnOk, MatchBool, true};
ghost use Rattle.std.specs.List.Sorted.{IsStrictlyIncreasing, IsPermutation};
ghost use Rattle.bytecode_model.specs.Program.{Program};
ghost use Rattle.method_cache.specs.Regions.Region.{AreDistinct};
ghost use Rattle.method_flow.specs.Flow.{IsFlowOf};
ghost use Rattle.bound_rules.specs.Bounding.{HasNoRecursion, IsLeftWith};
ghost use Rattle.call_regions.specs.Calling.{IsTargetsFirst};
ghost use Rattle.call_regions.specs.Regions.{AreKnown};
ghost use Rattle.memory_bound.specs.Setting.{ForEach, bounds_in, lengths_in};
ghost use Rattle.memory_bound.specs.Examined.{AreFoundIn, AreToldReducible, TellsReducible};
ghost use Rattle.memory_bound.specs.Causes.{IsCallFault, IsNeedFault, IsNeedOf};
ghost use Rattle.memory_bound.specs.Needs.{HaveNoCause, IsFoundFault, IsShapeFaultOf, IsShapesFault, IsFaultIn, IsSmall, NoneLacksBound};
ghost use Rattle.memory_bound.specs.Needs.{NoneLacksLength};
ghost use Rattle.memory_bound.specs.Needs.{NoneTooLarge};

use super::examining::examine_all;
use super::found::Found;
use super::shapes::{ShapeFault, shape_of};
use super::stacks::stacks;
use super::task::Task;
use base::{Items, NoMemory};
use call_regions::laws::order_excludes_cycles;
use call_regions::{CallFault, order};
use memory_rules::{Need, NeedFault};
use method_flow::FlowProgram;
use std::alloc::{AllocError, Global};

/// The methods that may run, each behind all that it may run.
fn targets_first(alloc: Global, f: &FlowProgram) -> Result<Items<u32>, NeedFault>
    ensures order { IfOk result (λ o. (P : Program) → IsFlowOf P f.now → IsTargetsFirst P P.boot o) }
    ensures known { IfOk result (AreKnown f.now) }
    ensures cause { IfErr result (λ e. (P : Program) → IsFlowOf P f.now → IsCallFault P e) }
{
    match order(alloc, f, f.boot()) {
        Ok(order) => Ok(order.methods),
        Err(CallFault::Recursion(cycle)) => Err(NeedFault::Recursion(cycle)),
        Err(CallFault::NoMemory) => Err(NeedFault::NoMemory),
    }
}

/// These numbers, rising.
fn rising(alloc: Global, numbers: &[u32]) -> Result<Vec<u32>, AllocError>
    requires { AreDistinct numbers.now }
    ensures { IfOk result (λ v. IsPermutation numbers.now v.items × IsStrictlyIncreasing v.items) }
{
    let mut rising = numbers.to_vec(alloc)?;
    rising.sort_unstable();
    Ok(rising)
}

/// Whether each cycle of the graph of the method `m` is a loop with one entry. Its graph is made anew where this isn't found yet; where it
/// is, no memory is asked for.
fn check_shape(alloc: Global, f: &FlowProgram, m: u32, found: Found) -> Result<(), NeedFault>
    requires known { m < length f.now.methods }
    requires told { (P : Program) → IsFlowOf P f.now → TellsReducible P m found }
    ensures ok { OnOk result ((P : Program) → IsFlowOf P f.now → IsLeftWith P m []) }
    ensures cause { IfErr result (λ e. (P : Program) → IsFlowOf P f.now → IsShapeFaultOf P m e) }
    ensures found { found.reducible ≡ true → IsOk result }
{
    if found.reducible {
        return Ok(());
    }
    match shape_of(alloc, f.method(m)) {
        Ok(_) => Ok(()),
        Err(ShapeFault::Irreducible(nodes)) => Err(NeedFault::Irreducible(m, Items::new(nodes))),
        Err(ShapeFault::NoMemory) => Err(NeedFault::NoMemory),
    }
}

/// Whether each cycle of the graphs of these methods, which rise, is a loop with one entry.
fn check_shapes(
    alloc: Global,
    f: &FlowProgram,
    table: &[Found],
    methods: &[u32],
) -> Result<(), NeedFault>
    requires known { All (λ m. m < length f.now.methods) methods.now }
    requires long { length table.now ≡ length f.now.methods }
    requires rising { IsStrictlyIncreasing methods.now }
    requires told { AreToldReducible f.now methods.now table.now }
    ensures ok { OnOk result ((P : Program) → IsFlowOf P f.now → (m : ℕ) → Contains methods.now m → IsLeftWith P m []) }
    ensures cause { IfErr result (λ e. (P : Program) → IsFlowOf P f.now → IsShapesFault P methods.now e) }
{
    for m in methods {
        check_shape(alloc, f, *m, table[*m as usize])?;
    }
    Ok(())
}

/// What is found of each of these methods, by number. `methods` has those of `order`, rising.
fn examined(
    alloc: Global,
    task: &Task<'_>,
    order: &[u32],
    methods: &[u32],
) -> Result<Vec<Found>, NeedFault>
    requires order { All (λ m. m < length task.now.flow.methods) order.now }
    requires methods { IsPermutation order.now methods.now }
    requires rising { IsStrictlyIncreasing methods.now }
    ensures long { IfOk result (λ v. length v.items ≡ length task.now.flow.methods) }
    ensures reducible { OnOk result ((P : Program) → IsFlowOf P task.now.flow → (m : ℕ) → Contains methods.now m → IsLeftWith P m []) }
    ensures found { IfOk result (λ v. AreFoundIn task.now order.now v.items) }
    ensures cause { IfErr result (λ e. (P : Program) → IsFlowOf P task.now.flow → IsShapesFault P methods.now e) }
{
    let table = examine_all(alloc, task, order)?;
    check_shapes(alloc, task.flow(), &table, methods)?;
    Ok(table)
}

/// The first loop without a bound, by method and place, of these methods, which rise.
fn first_unbounded(table: &[Found], methods: &[u32]) -> Result<(), NeedFault>
    requires known { All (λ m. m < length table.now) methods.now }
    requires rising { IsStrictlyIncreasing methods.now }
    ensures ok { OnOk result (NoneLacksBound table.now methods.now) }
    ensures cause { IfErr result (IsFoundFault table.now methods.now) }
{
    for m in methods {
        if let Some(place) = table[*m as usize].unbounded {
            return Err(NeedFault::MissingBound(*m, place));
        }
    }
    Ok(())
}

/// The first instruction without a length, by method and place, of these methods, which rise.
fn first_unlimited(table: &[Found], methods: &[u32]) -> Result<(), NeedFault>
    requires known { All (λ m. m < length table.now) methods.now }
    requires rising { IsStrictlyIncreasing methods.now }
    requires bounds { NoneLacksBound table.now methods.now }
    ensures ok { OnOk result (NoneLacksLength table.now methods.now) }
    ensures cause { IfErr result (IsFoundFault table.now methods.now) }
{
    for m in methods {
        if let Some(place) = table[*m as usize].unlimited {
            return Err(NeedFault::MissingSize(*m, place));
        }
    }
    Ok(())
}

/// Whether there are words, within 64 bits.
fn are_few(words: Option<u64>) -> bool
    ensures { MatchBool result (IsSmall words) (words ≡ None) }
{
    words.is_some()
}

/// The first of these methods, which rise, whose words exceed 64 bits.
fn first_too_large(table: &[Found], methods: &[u32]) -> Result<(), NeedFault>
    requires known { All (λ m. m < length table.now) methods.now }
    requires rising { IsStrictlyIncreasing methods.now }
    requires bounds { NoneLacksBound table.now methods.now }
    requires lengths { NoneLacksLength table.now methods.now }
    ensures ok { OnOk result (NoneTooLarge table.now methods.now) }
    ensures cause { IfErr result (IsFoundFault table.now methods.now) }
{
    for m in methods {
        if !are_few(table[*m as usize].heap) {
            return Err(NeedFault::TooLarge(*m));
        }
    }
    Ok(())
}

/// The first cause that is found of these methods, which rise.
fn check_found(table: &[Found], methods: &[u32]) -> Result<(), NeedFault>
    requires known { All (λ m. m < length table.now) methods.now }
    requires rising { IsStrictlyIncreasing methods.now }
    ensures ok { OnOk result (HaveNoCause table.now methods.now) }
    ensures cause { IfErr result (IsFoundFault table.now methods.now) }
{
    first_unbounded(table, methods)?;
    first_unlimited(table, methods)?;
    first_too_large(table, methods)
}

/// The need where each cycle is a loop with one entry.
fn need_found(
    alloc: Global,
    task: &Task<'_>,
    order: &[u32],
    methods: &[u32],
    table: &[Found],
) -> Result<Need, NeedFault>
    requires order { All (λ m. m < length task.now.flow.methods) order.now }
    requires long { length table.now ≡ length task.now.flow.methods }
    requires few { length order.now < 2 ^ 32 }
    requires methods { IsPermutation order.now methods.now }
    requires rising { IsStrictlyIncreasing methods.now }
    requires found { AreFoundIn task.now order.now table.now }
    ensures need { IfOk result (λ n. ForEach task.now (λ P. IsTargetsFirst P P.boot order.now → ((m : ℕ) → Contains order.now m → IsLeftWith P m [])
        → HasNoRecursion P P.boot → IsNeedOf P (bounds_in task.now) (lengths_in task.now) n)) }
    ensures cause { IfErr result (λ e. ForEach task.now (λ P. IsTargetsFirst P P.boot order.now → ((m : ℕ) → Contains order.now m → IsLeftWith P m [])
        → IsFaultIn P (bounds_in task.now) (lengths_in task.now) e)) }
{
    check_found(table, methods)?;
    let stacks = stacks(alloc, task, order)?;
    let boot = task.flow().boot() as usize;
    Ok(Need {
        stack: stacks[boot],
        heap: table[boot].heap.unwrap_or(0),
    })
}

/// The need where no methods call one another in a cycle.
fn need_in(alloc: Global, task: &Task<'_>, order: &[u32]) -> Result<Need, NeedFault>
    requires { AreKnown task.now.flow order.now }
    ensures need { IfOk result (λ n. ForEach task.now (λ P. IsTargetsFirst P P.boot order.now
        → IsNeedOf P (bounds_in task.now) (lengths_in task.now) n)) }
    ensures cause { IfErr result (λ e. ForEach task.now (λ P. IsTargetsFirst P P.boot order.now
        → IsNeedFault P (bounds_in task.now) (lengths_in task.now) e)) }
{
    // The law is for the proof, and the table is of its form.
    order_excludes_cycles();
    // Its clause is for the proof alone.
    let _ = task.flow().method_count();
    let methods = rising(alloc, order)?;
    let table = examined(alloc, task, order, &methods)?;
    need_found(alloc, task, order, &methods, &table)
}

/// The need of a task.
pub fn need_of(alloc: Global, task: &Task<'_>) -> Result<Need, NeedFault>
    ensures need { IfOk result (λ n. ForEach task.now (λ P. IsNeedOf P (bounds_in task.now) (lengths_in task.now) n)) }
    ensures cause { IfErr result (λ e. ForEach task.now (λ P. IsNeedFault P (bounds_in task.now) (lengths_in task.now) e)) }
{
    let order = targets_first(alloc, task.flow())?;
    need_in(alloc, task, order.as_slice())
}
