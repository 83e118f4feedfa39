//! The first cause against a bound that lies in the loops of what may run while a method does. It is found of each method by what was
//! found of those that it may call, and of a list of targets, which all calls of one resolved method share, once.
ghost use Rattle.std.specs.Prelude.{◌≡◌, ◌⊎◌, ℕ, ◌<◌, List, [], ◌∷◌, ◌++◌, length, All, Contains, IfOk, OnOk, slice_get, slice_index_or};
ghost use Rattle.bytecode_model.specs.Program.{Program};
ghost use Rattle.method_flow.specs.Flow.{IsFlowOf, targets_of_call};
ghost use Rattle.method_flow.specs.Regions.{IsWithin};
ghost use Rattle.section_check.specs.Least.{lesser_of};
ghost use Rattle.call_regions.specs.Tables.{Runs};
ghost use Rattle.call_regions.specs.Walking.{AreBehindTargets};
ghost use Rattle.method_bounds.specs.Loops.{IsLoopCauseIn, missing_of};
ghost use Rattle.method_bounds.specs.Leasts.{no_leasts, lesser_leasts, leasts_alone, AreLeasts, AreLeastsOf, IsBelow, AreListed, AreFound};

use super::calls::{calls_of, targets_of};
use super::loops::Loops;
use answer_lines::BoundCause;
use base::NoMemory;
use call_regions::laws::runs_are_calls;
use method_flow::{Call, FlowProgram};
use std::alloc::Global;

/// Of some methods the least of which a loop has several entries, and the least of which a loop has no bound.
#[derive(Clone, Copy)]
pub struct Leasts {
    pub irreducible: Option<u32>,
    pub lacking: Option<u32>,
}

/// What was found of methods, by number, and of lists of targets; of lists past the end nothing was.
#[derive(Drop)]
pub struct Found {
    pub methods: Vec<Leasts>,
    pub lists: Vec<Option<Leasts>>,
}

/// Of no methods.
fn none() -> Leasts
    ensures { result ≡ no_leasts }
{
    Leasts {
        irreducible: None,
        lacking: None,
    }
}

/// The lesser of two methods, as far as there are any.
fn lesser_of(a: Option<u32>, b: Option<u32>) -> Option<u32>
    ensures { result ≡ lesser_of a b }
{
    match (a, b) {
        (Some(a), Some(b)) => Some(a.min(b)),
        (Some(a), None) => Some(a),
        (None, b) => b,
    }
}

/// Of the methods of both.
fn lesser(a: Leasts, b: Leasts) -> Leasts
    ensures { result ≡ lesser_leasts a b }
{
    Leasts {
        irreducible: lesser_of(a.irreducible, b.irreducible),
        lacking: lesser_of(a.lacking, b.lacking),
    }
}

/// Of the method `m` alone.
fn alone(loops: &[Loops], m: u32) -> Leasts
    requires { m < length loops.now }
    ensures { result ≡ leasts_alone m (slice_get loops.now m) }
{
    match loops[m as usize] {
        Loops::Bounded => none(),
        Loops::Lacking(_) => Leasts {
            irreducible: None,
            lacking: Some(m),
        },
        Loops::Irreducible => Leasts {
            irreducible: Some(m),
            lacking: None,
        },
    }
}

/// Of all that may run while these methods do, of each of which it was found.
fn of_targets(targets: &[u32], methods: &[Leasts]) -> Leasts
    requires { All (λ t. t < length methods.now) targets.now }
    ensures { (loops : List Loops) (P : Program) → ((t : ℕ) → Contains targets.now t → AreLeastsOf loops P methods.now t)
        → AreLeasts loops (IsBelow P targets.now) result }
{
    let mut leasts = none();
    for t in targets {
        leasts = lesser(leasts, methods[*t as usize]);
    }
    leasts
}

/// What was found of the list, if anything was.
fn listed(lists: &[Option<Leasts>], list: u32) -> Option<Leasts>
    ensures { result ≡ slice_index_or lists.now list None }
{
    lists.get(list as usize).copied().unwrap_or(None)
}

/// Writes what was found of the list.
fn set_listed(lists: &mut Vec<Option<Leasts>>, list: u32, leasts: Leasts) -> Result<(), NoMemory>
    ensures { OnOk result ((n : ℕ) (x : Leasts) → slice_index_or lists.new.items n None ≡ Some x
        → ((n ≡ list) × (x ≡ leasts)) ⊎ (slice_index_or lists.old.items n None ≡ Some x)) }
{
    let long = list as usize + 1;
    for _ in lists.len()..long {
        lists.push(None)?;
    }
    lists[list as usize] = Some(leasts);
    Ok(())
}

/// Of all that may run while the targets of the call do, of each of which it was found.
fn of_call(f: &FlowProgram, call: Call, found: &mut Found) -> Result<Leasts, NoMemory>
    requires list { call.targets < length f.now.targets }
    requires long { length found.old.methods.items ≡ length f.now.methods }
    ensures methods { OnOk result (found.new.methods.items ≡ found.old.methods.items) }
    ensures leasts { IfOk result (λ x. (loops : List Loops) (P : Program) → AreListed f.now loops P found.old.lists.items
        → ((t : ℕ) → Contains (targets_of_call f.now call) t → AreLeastsOf loops P found.old.methods.items t)
        → AreListed f.now loops P found.new.lists.items × AreLeasts loops (IsBelow P (targets_of_call f.now call)) x) }
{
    if let Some(leasts) = listed(&found.lists, call.targets) {
        return Ok(leasts);
    }
    let leasts = of_targets(targets_of(f, call), &found.methods);
    set_listed(&mut found.lists, call.targets, leasts)?;
    Ok(leasts)
}

/// Of all that may run while the method `m` does, where it was found of each that it may call.
fn of_method(
    f: &FlowProgram,
    loops: &[Loops],
    m: u32,
    found: &mut Found,
) -> Result<Leasts, NoMemory>
    requires method { m < length f.now.methods }
    requires loops { length loops.now ≡ length f.now.methods }
    requires long { length found.old.methods.items ≡ length f.now.methods }
    ensures methods { OnOk result (found.new.methods.items ≡ found.old.methods.items) }
    ensures leasts { IfOk result (λ x. (P : Program) → IsFlowOf P f.now → AreListed f.now loops.now P found.old.lists.items
        → ((t : ℕ) → Runs f.now m t → AreLeastsOf loops.now P found.old.methods.items t)
        → AreListed f.now loops.now P found.new.lists.items × AreLeasts loops.now (IsWithin P m) x) }
{
    runs_are_calls();
    let mut leasts = alone(loops, m);
    for call in calls_of(f, m) {
        leasts = lesser(leasts, of_call(f, *call, found)?);
    }
    Ok(leasts)
}

/// Finds it of the method `m`.
fn find(f: &FlowProgram, loops: &[Loops], m: u32, found: &mut Found) -> Result<(), NoMemory>
    requires method { m < length f.now.methods }
    requires loops { length loops.now ≡ length f.now.methods }
    requires long { length found.old.methods.items ≡ length f.now.methods }
    ensures long { OnOk result (length found.new.methods.items ≡ length f.now.methods) }
    ensures leasts { OnOk result ((P : Program) (done : List ℕ) → IsFlowOf P f.now → ((t : ℕ) → Runs f.now m t → Contains done t)
        → AreFound f.now loops.now P done found.old → AreFound f.now loops.now P (done ++ m ∷ []) found.new) }
{
    let leasts = of_method(f, loops, m, found)?;
    found.methods[m as usize] = leasts;
    Ok(())
}

/// Nothing was found of any method yet.
fn nothing_found(alloc: Global, f: &FlowProgram) -> Result<Found, NoMemory>
    ensures long { IfOk result (λ found. length found.methods.items ≡ length f.now.methods) }
    ensures none { IfOk result (λ found. found.lists.items ≡ []) }
{
    let methods = vec![in alloc; none(); f.method_count() as usize]?;
    Ok(Found {
        methods,
        lists: Vec::new(alloc),
    })
}

/// Of each of these methods, which stand behind all that they may call, by number, among all that may run while it does.
pub fn leasts_of(
    alloc: Global,
    f: &FlowProgram,
    loops: &[Loops],
    order: &[u32],
) -> Result<Vec<Leasts>, NoMemory>
    requires loops { length loops.now ≡ length f.now.methods }
    requires behind { AreBehindTargets f.now order.now }
    ensures long { IfOk result (λ methods. length methods.items ≡ length f.now.methods) }
    ensures leasts { IfOk result (λ methods. (P : Program) → IsFlowOf P f.now → (m : ℕ) → Contains order.now m
        → AreLeastsOf loops.now P methods.items m) }
{
    let mut found = nothing_found(alloc, f)?;
    for m in order {
        find(f, loops, *m, &mut found)?;
    }
    Ok(found.methods)
}

/// The first loop without a bound, where this is the least method that has such a loop.
fn missing_bound(loops: &[Loops], lacking: Option<u32>) -> Option<BoundCause>
    ensures { result ≡ missing_of loops.now lacking }
{
    let m = lacking?;
    match loops.get(m as usize).copied() {
        Some(Loops::Lacking(place)) => Some(BoundCause::MissingBound(m, place)),
        _ => None,
    }
}

/// The first cause that lies in the loops of some methods, of which these are the least: several entries, or else no bound.
pub fn loop_cause(loops: &[Loops], leasts: Leasts) -> Option<BoundCause>
    ensures { (P : Program) (m : ℕ) → AreLeasts loops.now (IsWithin P m) leasts → IsLoopCauseIn loops.now (IsWithin P m) result }
{
    match leasts.irreducible {
        Some(m) => Some(BoundCause::Irreducible(m)),
        None => missing_bound(loops, leasts.lacking),
    }
}
