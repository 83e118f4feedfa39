//! A depth-first walk along calls. A list of targets is shared by all calls of one resolved method: once its targets are done
//! it isn't looked at again, so that the walk takes a step for each method, each call and each target of a list.
ghost use Rattle.std.specs.Prelude.{◌≡◌, ◌⊎◌, ℕ, ◌<◌, ◌≤◌, [], ◌∷◌, ◌++◌, true, false, length, map, drop, All, Contains, OnOk, IfOk, IfErr, IfSome, IfNone};
ghost use Rattle.std.specs.Prelude.{MatchOption, IsTrue, ◌↔◌, List, slice_get, slice_index_or};
ghost use Rattle.method_flow.specs.Flow.{Flow, targets_of_call};
ghost use Rattle.call_regions.specs.Walking.{IsDone, AreWalked, AreDoneBefore, AreDoneUpTo, AreAllDone, AreMethodsDone, IsLeft, IsLeftAt, IsWalk, IsTableOrder};
ghost use Rattle.call_regions.specs.Walking.{IsRingCause, methods_of, state_of, steps_left};

use super::answers::CallFault;
use super::calls::calls_of;
use base::Items;
use method_flow::{Call, FlowProgram};
use std::alloc::{AllocError, Global};

/// Where the walk stands with a method.
#[derive(Clone, Copy)]
pub(crate) enum State {
    /// It hasn't come to it.
    New,
    /// It is on the way: what the method may run isn't all done.
    Open,
    /// The method and all that may run while it does are in the order.
    Done,
}

/// A method that is open, and the place from which its targets are still to be looked at: the number of a call, and of one of
/// its targets.
#[derive(Clone, Copy)]
pub(crate) struct Visit {
    pub(crate) method: u32,
    pub(crate) call: usize,
    pub(crate) target: usize,
}

/// A walk from a method: the state of each method, those that are open, each of which may run the next, those that are done,
/// in order, and for each list of targets whether they are all done; lists past the end aren't.
#[derive(Drop)]
pub(crate) struct Walk {
    pub(crate) root: u32,
    pub(crate) states: Vec<State>,
    pub(crate) visits: Vec<Visit>,
    pub(crate) done: Vec<u32>,
    pub(crate) walked: Vec<bool>,
}

fn is_done(state: State) -> bool
    ensures { IsTrue result ↔ (state ≡ State.Done) }
{
    matches!(state, State::Done)
}

/// The state of a method.
fn state_at(states: &[State], method: u32) -> State
    requires { method < length states.now }
    ensures { result ≡ state_of states.now method }
{
    states[method as usize]
}

/// The first of these targets from a place on that isn't done.
fn first_left(targets: &[u32], from: usize, states: &[State]) -> Option<usize>
    requires { All (λ t. t < length states.now) targets.now }
    ensures some { IfSome result (λ j. (t : ℕ) × (slice_get targets.now j ≡ Some t) × (IsDone states.now t → ⊥)) }
    ensures before { IfSome result (λ j. (i t : ℕ) → from ≤ i → i < j → slice_get targets.now i ≡ Some t → IsDone states.now t) }
    ensures none { IfNone result ((i t : ℕ) → from ≤ i → slice_get targets.now i ≡ Some t → IsDone states.now t) }
{
    for j in from..targets.len() {
        if !is_done(states[targets[j] as usize]) {
            return Some(j);
        }
    }
    None
}

/// Whether the targets of the list are known to be done.
fn is_walked(walked: &[bool], list: u32) -> bool
    ensures { result ≡ slice_index_or walked.now list false }
{
    walked.get(list as usize).copied().unwrap_or(false)
}

/// Marks the list as one whose targets are done.
fn set_walked(walked: &mut Vec<bool>, list: u32) -> Result<(), AllocError>
    ensures { OnOk result ((n : ℕ) → slice_index_or walked.new.items n false ≡ true → (n ≡ list) ⊎ (slice_index_or walked.old.items n false ≡ true)) }
{
    let long = list as usize + 1;
    for _ in walked.len()..long {
        walked.push(false)?;
    }
    walked[list as usize] = true;
    Ok(())
}

/// The first target of a call from a place on that isn't done. Those before the place are.
fn left_in(
    f: &FlowProgram,
    call: Call,
    from: usize,
    states: &[State],
    walked: &[bool],
) -> Option<usize>
    requires list { call.targets < length f.now.targets }
    requires states { length states.now ≡ length f.now.methods }
    requires walked { AreWalked f.now states.now walked.now }
    requires before { AreDoneUpTo f.now states.now call from }
    ensures some { IfSome result (λ j. (t : ℕ) × (slice_get (targets_of_call f.now call) j ≡ Some t) × (IsDone states.now t → ⊥)) }
    ensures before { IfSome result (AreDoneUpTo f.now states.now call) }
    ensures none { IfNone result (All (IsDone states.now) (targets_of_call f.now call)) }
{
    if is_walked(walked, call.targets) {
        return None;
    }
    first_left(f.targets(call), from, states)
}

/// The first place at which one of the calls from that of the visit on has a target that isn't done.
fn next_left(
    f: &FlowProgram,
    calls: &[Call],
    visit: Visit,
    states: &[State],
    walked: &mut Vec<bool>,
) -> Result<Option<Visit>, AllocError>
    requires lists { All (λ c. c.targets < length f.now.targets) calls.now }
    requires states { length states.now ≡ length f.now.methods }
    requires walked { AreWalked f.now states.now walked.old.items }
    requires before { AreDoneBefore f.now states.now calls.now visit.call visit.target }
    ensures walked { OnOk result (AreWalked f.now states.now walked.new.items) }
    ensures left { IfOk result (λ r. MatchOption r (AreAllDone f.now states.now calls.now)
        (λ v. (v.method ≡ visit.method) × AreDoneBefore f.now states.now calls.now v.call v.target
        × ((t : ℕ) × IsLeft f.now states.now calls.now v.call v.target t))) }
{
    for i in visit.call..calls.len() {
        let call = calls[i];
        let from = if i == visit.call { visit.target } else { 0 };
        if let Some(target) = left_in(f, call, from, states, walked) {
            return Ok(Some(Visit {
                method: visit.method,
                call: i,
                target,
            }));
        }
        set_walked(walked, call.targets)?;
    }
    Ok(None)
}

/// The open methods from `t` on, the newest last.
fn cycle_from(alloc: Global, visits: &[Visit], t: u32) -> Result<Vec<u32>, AllocError>
    requires { Contains (methods_of visits.now) t }
    ensures { IfOk result (λ ms. (k : ℕ) × (slice_get (methods_of visits.now) k ≡ Some t) × (ms.items ≡ drop k (methods_of visits.now))) }
{
    let mut methods = Vec::new(alloc);
    for visit in visits {
        if visit.method == t || !methods.is_empty() {
            methods.push(visit.method)?;
        }
    }
    Ok(methods)
}

/// The target at the place of a visit.
fn target_at(f: &FlowProgram, visit: Visit) -> u32
    requires { (states : List State) × (t : ℕ) × IsLeftAt f.now states visit t }
    ensures target { (states : List State) (t : ℕ) → IsLeftAt f.now states visit t → result ≡ t }
    ensures within { result < length f.now.methods }
{
    let call = calls_of(f, visit.method)[visit.call];
    f.targets(call)[visit.target]
}

/// Opens the target at the place of a visit, unless it is open already, which is a recursion.
fn enter(alloc: Global, f: &FlowProgram, walk: &mut Walk, visit: Visit) -> Result<(), CallFault>
    requires walk { IsWalk f.now walk.old (walk.old.visits.items ++ visit ∷ []) }
    requires left { (t : ℕ) × IsLeftAt f.now walk.old.states.items visit t }
    ensures walk { OnOk result (IsWalk f.now walk.new walk.new.visits.items) }
    ensures root { OnOk result (walk.new.root ≡ walk.old.root) }
    ensures fewer { OnOk result (steps_left walk.new.states.items < steps_left walk.old.states.items) }
    ensures cause { IfErr result (IsRingCause f.now walk.old.root) }
{
    let t = target_at(f, visit);
    walk.visits.push(visit)?;
    if let State::Open = state_at(&walk.states, t) {
        let cycle = cycle_from(alloc, &walk.visits, t)?;
        return Err(CallFault::Recursion(Items::new(cycle)));
    }
    walk.states[t as usize] = State::Open;
    walk.visits.push(Visit {
        method: t,
        call: 0,
        target: 0,
    })?;
    Ok(())
}

/// Closes the newest open method, all targets of which are done.
fn leave(walk: &mut Walk, visit: Visit) -> Result<(), CallFault>
    requires { visit.method < length walk.old.states.items }
    ensures walk { OnOk result ((f : Flow) → IsWalk f walk.old (walk.old.visits.items ++ visit ∷ []) → AreMethodsDone f walk.old.states.items visit.method
        → IsWalk f walk.new walk.new.visits.items) }
    ensures root { OnOk result (walk.new.root ≡ walk.old.root) }
    ensures fewer { OnOk result (state_of walk.old.states.items visit.method ≡ State.Open
        → steps_left walk.new.states.items < steps_left walk.old.states.items) }
    ensures cause { IfErr result (λ e. e ≡ CallFault.NoMemory) }
{
    walk.states[visit.method as usize] = State::Done;
    walk.done.push(visit.method)?;
    Ok(())
}

/// Goes on from the newest open method.
fn step(alloc: Global, f: &FlowProgram, walk: &mut Walk, visit: Visit) -> Result<(), CallFault>
    requires { IsWalk f.now walk.old (walk.old.visits.items ++ visit ∷ []) }
    ensures walk { OnOk result (IsWalk f.now walk.new walk.new.visits.items) }
    ensures root { OnOk result (walk.new.root ≡ walk.old.root) }
    ensures fewer { OnOk result (steps_left walk.new.states.items < steps_left walk.old.states.items) }
    ensures cause { IfErr result (IsRingCause f.now walk.old.root) }
{
    let calls = calls_of(f, visit.method);
    match next_left(f, calls, visit, &walk.states, &mut walk.walked)? {
        Some(next) => enter(alloc, f, walk, next),
        None => leave(walk, visit),
    }
}

/// A walk that has come to its first method.
fn start(alloc: Global, f: &FlowProgram, root: u32) -> Result<Walk, AllocError>
    requires { root < length f.now.methods }
    ensures walk { IfOk result (λ w. IsWalk f.now w w.visits.items) }
    ensures root { IfOk result (λ w. w.root ≡ root) }
{
    let mut states = vec![in alloc; State::New; f.method_count() as usize]?;
    states[root as usize] = State::Open;
    let mut visits = Vec::new(alloc);
    visits.push(Visit {
        method: root,
        call: 0,
        target: 0,
    })?;
    Ok(Walk {
        root,
        states,
        visits,
        done: Vec::new(alloc),
        walked: Vec::new(alloc),
    })
}

/// Goes on until no method is open.
fn run(alloc: Global, f: &FlowProgram, walk: &mut Walk) -> Result<(), CallFault>
    requires { IsWalk f.now walk.old walk.old.visits.items }
    ensures order { OnOk result (IsTableOrder f.now walk.old.root walk.new.done.items) }
    ensures cause { IfErr result (IsRingCause f.now walk.old.root) }
{
    while let Some(visit) = walk.visits.pop() {
        step(alloc, f, walk, visit)?;
    }
    Ok(())
}

/// The methods that may run while the root does, each behind its targets.
pub(crate) fn walk_from(alloc: Global, f: &FlowProgram, root: u32) -> Result<Vec<u32>, CallFault>
    requires { root < length f.now.methods }
    ensures order { IfOk result (λ order. IsTableOrder f.now root order.items) }
    ensures cause { IfErr result (IsRingCause f.now root) }
{
    let mut walk = start(alloc, f, root)?;
    run(alloc, f, &mut walk)?;
    Ok(walk.done)
}
