//! Loops with several entries, and loops without a bound.
ghost use Rattle.std.specs.Prelude.{◌≡◌, ◌<◌, ℕ, length, find, is_none, All, IfOk, IfErr, OnOk};
ghost use Rattle.std.specs.List.Sorted.{IsStrictlyIncreasing};
ghost use Rattle.bytecode_model.specs.Program.{Program};
ghost use Rattle.method_flow.specs.Flow.{IsFlowOf};
ghost use Rattle.method_flow.specs.Regions.{IsWithin, AreMethodsOf};
ghost use Rattle.node_costs.specs.Costs.{bounds_of};
ghost use Rattle.bound_rules.specs.Bounding.{AreReducible, HaveLines};
ghost use Rattle.bound_causes.specs.Causes.{IsLoopCause, IsUnboundedIn, IsIrreducibleBy, AreSearched, IsIrreducibleAmong, found_or};

use super::shapes::{Shape, shape_of};
use base::NoMemory;
use bound_rules::BoundRefusal;
use bound_texts::loops::Bounds;
use method_flow::FlowProgram;
use node_costs::bound_at;
use std::alloc::Global;

/// The first of these places for which no bound is given.
fn first_without_line(f: &FlowProgram, b: &Bounds, m: u32, places: &[u32]) -> Option<u32>
    requires { m < length f.now.methods }
    ensures { result ≡ find (λ p. is_none (bounds_of f.now b.now m p)) places.now }
{
    places
        .iter()
        .copied()
        .find(|p| bound_at(f, b, m, *p).is_none())
}

/// The place of the first header of a loop of the method `m` for which no bound is given. An error is that the reduction of its
/// graph leaves nodes, or that there is no memory.
pub fn unbounded_in(
    alloc: Global,
    f: &FlowProgram,
    b: &Bounds,
    m: u32,
) -> Result<Option<u32>, BoundRefusal>
    requires { m < length f.now.methods }
    ensures ok { IfOk result (λ place. (P : Program) → IsFlowOf P f.now → IsUnboundedIn P (bounds_of f.now b.now) m place) }
    ensures cause { IfErr result (λ e. (P : Program) → IsFlowOf P f.now → IsIrreducibleBy P m e) }
{
    match shape_of(alloc, f.method(m)) {
        Ok(Shape::Reducible(places)) => Ok(first_without_line(f, b, m, &places)),
        Ok(Shape::Irreducible(nodes)) => Err(BoundRefusal::Irreducible(m, nodes)),
        Err(NoMemory) => Err(BoundRefusal::NoMemory),
    }
}

/// What was found before, or else the loop at the place of the method, where there is one.
fn found_or(found: Option<(u32, u32)>, m: u32, place: Option<u32>) -> Option<(u32, u32)>
    ensures { result ≡ found_or found m place }
{
    match (found, place) {
        (Some(found), _) => Some(found),
        (None, Some(place)) => Some((m, place)),
        (None, None) => None,
    }
}

/// The first loop of these methods, by method and place, for which no bound is given. An error is that the reduction of the graph
/// of one of them leaves nodes, or that there is no memory.
fn first_unbounded(
    alloc: Global,
    f: &FlowProgram,
    b: &Bounds,
    methods: &[u32],
) -> Result<Option<(u32, u32)>, BoundRefusal>
    requires known { All (λ m. m < length f.now.methods) methods.now }
    requires rising { IsStrictlyIncreasing methods.now }
    ensures ok { IfOk result (λ found. (P : Program) → IsFlowOf P f.now → AreSearched P (bounds_of f.now b.now) methods.now found) }
    ensures cause { IfErr result (λ e. (P : Program) → IsFlowOf P f.now → IsIrreducibleAmong P methods.now e) }
{
    let mut found = None;
    for m in methods {
        let place = unbounded_in(alloc, f, b, *m)?;
        found = found_or(found, *m, place);
    }
    Ok(found)
}

/// Whether each cycle of the graphs of these methods, which rise, is a loop with one entry for which a bound is given. The error
/// says of the least method of which the reduction leaves nodes which these are; else of the first loop without a bound, by method
/// and place, which it is; or that there is no memory. A method's graph is dropped before the next one is made.
pub fn check_loops(
    alloc: Global,
    f: &FlowProgram,
    b: &Bounds,
    methods: &[u32],
) -> Result<(), BoundRefusal>
    requires known { All (λ m. m < length f.now.methods) methods.now }
    requires rising { IsStrictlyIncreasing methods.now }
    ensures ok { OnOk result ((P : Program) (root : ℕ) → IsFlowOf P f.now → AreMethodsOf (IsWithin P root) methods.now
        → AreReducible P root × HaveLines P (bounds_of f.now b.now) root) }
    ensures cause { IfErr result (λ e. (P : Program) (root : ℕ) → IsFlowOf P f.now → AreMethodsOf (IsWithin P root) methods.now
        → IsLoopCause P (bounds_of f.now b.now) root e) }
{
    match first_unbounded(alloc, f, b, methods)? {
        Some((m, place)) => Err(BoundRefusal::MissingBound(m, place)),
        None => Ok(()),
    }
}
