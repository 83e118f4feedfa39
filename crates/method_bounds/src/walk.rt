//! A depth-first walk along the calls of all methods. It orders those of which none that may run while they do may call itself again, each
//! behind all that it may call, and tells the others apart. A list of targets is shared by all calls of one resolved method: once its
//! targets are in the order it isn't looked at again, so that the walk takes a step for each method and each call, and looks at a list
//! once more for each method of it that it opens.
ghost use Rattle.std.specs.Prelude.{◌≡◌, ◌≢◌, ◌⊎◌, ℕ, ◌<◌, [], ◌∷◌, ◌++◌, true, false, length, take, All, Contains, OnOk, IfOk, IfSome, IfNone, MatchOption};
ghost use Rattle.std.specs.Prelude.{IsTrue, ◌↔◌, slice_index_or};
ghost use Rattle.method_flow.specs.Flow.{Flow, targets_of_call};
ghost use Rattle.call_regions.specs.Tables.{Runs};
ghost use Rattle.call_regions.specs.Walking.{EachRunsNext};
ghost use Rattle.method_bounds.specs.Walking.{IsOrdered, AreWalked, AreOrdered, AreTargetsOrdered, IsLeft};
ghost use Rattle.method_bounds.specs.Walking.{IsWalk, IsAtRest, GoesOn, IsSettled, methods_of, state_of};

use super::calls::{calls_of, targets_of};
use base::NoMemory;
use method_flow::{Call, FlowProgram};
use std::alloc::Global;

/// Where the walk stands with a method.
#[derive(Clone, Copy)]
pub enum State {
    /// It hasn't come to it.
    New,
    /// It is on the way: what the method may call isn't all looked at.
    Open,
    /// The method and all that may run while it does are in the order.
    Ordered,
    /// A method that may run while it does may call itself again, by however many calls.
    Recursive,
}

/// A method that is open, and the number of the first of its calls that is still to be looked at.
#[derive(Clone, Copy)]
pub struct Visit {
    pub method: u32,
    pub call: usize,
}

/// The number of a call of a method, and a target of it that isn't in the order.
#[derive(Clone, Copy)]
pub struct Left {
    pub call: usize,
    pub target: u32,
}

/// A walk: the state of each method, those that are open, each of which may call the next, those that are in the order, and for each
/// list of targets whether they are all in it; lists past the end aren't.
#[derive(Drop)]
pub struct Walk {
    pub states: Vec<State>,
    pub visits: Vec<Visit>,
    pub order: Vec<u32>,
    pub walked: Vec<bool>,
}

fn is_ordered(state: State) -> bool
    ensures { IsTrue result ↔ (state ≡ State.Ordered) }
{
    matches!(state, State::Ordered)
}

/// The state of a method.
fn state_at(states: &[State], method: u32) -> State
    requires { method < length states.now }
    ensures { result ≡ state_of states.now method }
{
    states[method as usize]
}

/// The first of these targets that isn't in the order.
fn first_left(targets: &[u32], states: &[State]) -> Option<u32>
    requires { All (λ t. t < length states.now) targets.now }
    ensures some { IfSome result (λ t. Contains targets.now t × (state_of states.now t ≢ State.Ordered)) }
    ensures within { IfSome result (λ t. t < length states.now) }
    ensures none { IfNone result (All (IsOrdered states.now) targets.now) }
{
    for t in targets {
        if !is_ordered(state_at(states, *t)) {
            return Some(*t);
        }
    }
    None
}

/// Whether the targets of the list are known to be in the order.
fn is_walked(walked: &[bool], list: u32) -> bool
    ensures { result ≡ slice_index_or walked.now list false }
{
    walked.get(list as usize).copied().unwrap_or(false)
}

/// Marks the list as one whose targets are in the order.
fn set_walked(walked: &mut Vec<bool>, list: u32) -> Result<(), NoMemory>
    ensures { OnOk result ((n : ℕ) → slice_index_or walked.new.items n false ≡ true → (n ≡ list) ⊎ (slice_index_or walked.old.items n false ≡ true)) }
{
    let long = list as usize + 1;
    for _ in walked.len()..long {
        walked.push(false)?;
    }
    walked[list as usize] = true;
    Ok(())
}

/// The first target of a call that isn't in the order.
fn left_in(f: &FlowProgram, call: Call, states: &[State], walked: &[bool]) -> Option<u32>
    requires list { call.targets < length f.now.targets }
    requires states { length states.now ≡ length f.now.methods }
    requires walked { AreWalked f.now states.now walked.now }
    ensures some { IfSome result (λ t. Contains (targets_of_call f.now call) t × (state_of states.now t ≢ State.Ordered)) }
    ensures within { IfSome result (λ t. t < length states.now) }
    ensures none { IfNone result (All (IsOrdered states.now) (targets_of_call f.now call)) }
{
    if is_walked(walked, call.targets) {
        return None;
    }
    first_left(targets_of(f, call), states)
}

/// The first of these calls from a place on that has a target that isn't in the order, and this target.
fn next_left(
    f: &FlowProgram,
    calls: &[Call],
    from: usize,
    states: &[State],
    walked: &mut Vec<bool>,
) -> Result<Option<Left>, NoMemory>
    requires lists { All (λ c. c.targets < length f.now.targets) calls.now }
    requires states { length states.now ≡ length f.now.methods }
    requires walked { AreWalked f.now states.now walked.old.items }
    requires before { AreOrdered f.now states.now (take from calls.now) }
    ensures walked { OnOk result (AreWalked f.now states.now walked.new.items) }
    ensures left { IfOk result (λ r. MatchOption r (AreOrdered f.now states.now calls.now) (IsLeft f.now states.now calls.now)) }
    ensures within { IfOk result (λ r. IfSome r (λ x. x.target < length states.now)) }
{
    for i in from..calls.len() {
        let call = calls[i];
        if let Some(target) = left_in(f, call, states, walked) {
            return Ok(Some(Left { call: i, target }));
        }
        set_walked(walked, call.targets)?;
    }
    Ok(None)
}

/// Opens the method `m`, which the newest open one may call.
fn open(walk: &mut Walk, m: u32) -> Result<(), NoMemory>
    requires { m < length walk.old.states.items }
    ensures walk { OnOk result ((f : Flow) → IsWalk f walk.old walk.old.visits.items → state_of walk.old.states.items m ≡ State.New
        → EachRunsNext f (methods_of walk.old.visits.items ++ m ∷ []) → IsWalk f walk.new walk.new.visits.items) }
    ensures goes { OnOk result (state_of walk.old.states.items m ≡ State.New → GoesOn walk.old.states.items walk.new.states.items) }
    ensures come { OnOk result (state_of walk.new.states.items m ≡ State.Open) }
{
    walk.states[m as usize] = State::Open;
    walk.visits.push(Visit { method: m, call: 0 })?;
    Ok(())
}

/// Opens the target of the method that is visited, if it is new. Else the method has a target that is open, so that it may call itself
/// again, or that runs such a method.
fn enter(walk: &mut Walk, visit: Visit, target: u32) -> Result<(), NoMemory>
    requires method { visit.method < length walk.old.states.items }
    requires target { target < length walk.old.states.items }
    ensures walk { OnOk result ((f : Flow) → IsWalk f walk.old (walk.old.visits.items ++ visit ∷ []) → Runs f visit.method target
        → state_of walk.old.states.items target ≢ State.Ordered → IsWalk f walk.new walk.new.visits.items) }
    ensures goes { OnOk result (state_of walk.old.states.items visit.method ≡ State.Open → GoesOn walk.old.states.items walk.new.states.items) }
{
    match state_at(&walk.states, target) {
        State::New => {
            walk.visits.push(visit)?;
            open(walk, target)
        }
        _ => {
            walk.states[visit.method as usize] = State::Recursive;
            Ok(())
        }
    }
}

/// Puts the newest open method behind all its targets.
fn leave(walk: &mut Walk, visit: Visit) -> Result<(), NoMemory>
    requires { visit.method < length walk.old.states.items }
    ensures walk { OnOk result ((f : Flow) → IsWalk f walk.old (walk.old.visits.items ++ visit ∷ []) → AreTargetsOrdered f walk.old.states.items visit.method
        → IsWalk f walk.new walk.new.visits.items) }
    ensures goes { OnOk result (state_of walk.old.states.items visit.method ≡ State.Open → GoesOn walk.old.states.items walk.new.states.items) }
{
    walk.states[visit.method as usize] = State::Ordered;
    walk.order.push(visit.method)?;
    Ok(())
}

/// Goes on from the newest open method.
fn step(f: &FlowProgram, walk: &mut Walk, visit: Visit) -> Result<(), NoMemory>
    requires { IsWalk f.now walk.old (walk.old.visits.items ++ visit ∷ []) }
    ensures walk { OnOk result (IsWalk f.now walk.new walk.new.visits.items) }
    ensures goes { OnOk result (GoesOn walk.old.states.items walk.new.states.items) }
{
    let calls = calls_of(f, visit.method);
    match next_left(f, calls, visit.call, &walk.states, &mut walk.walked)? {
        Some(left) => {
            let next = Visit {
                method: visit.method,
                call: left.call,
            };
            enter(walk, next, left.target)
        }
        None => leave(walk, visit),
    }
}

/// Goes on until no method is open.
fn run(f: &FlowProgram, walk: &mut Walk) -> Result<(), NoMemory>
    requires { IsWalk f.now walk.old walk.old.visits.items }
    ensures rest { OnOk result (IsAtRest f.now walk.new) }
    ensures come { OnOk result ((x : ℕ) → state_of walk.old.states.items x ≢ State.New → state_of walk.new.states.items x ≢ State.New) }
{
    while let Some(visit) = walk.visits.pop() {
        step(f, walk, visit)?;
    }
    Ok(())
}

/// Walks from the method `m`, if the walk hasn't come to it.
fn come_to(f: &FlowProgram, walk: &mut Walk, m: u32) -> Result<(), NoMemory>
    requires known { m < length f.now.methods }
    requires rest { IsAtRest f.now walk.old }
    ensures rest { OnOk result (IsAtRest f.now walk.new) }
    ensures come { OnOk result ((x : ℕ) → (x ≡ m) ⊎ (state_of walk.old.states.items x ≢ State.New) → state_of walk.new.states.items x ≢ State.New) }
{
    if let State::New = state_at(&walk.states, m) {
        open(walk, m)?;
        run(f, walk)?;
    }
    Ok(())
}

/// A walk that has come to no method.
fn begin(alloc: Global, f: &FlowProgram) -> Result<Walk, NoMemory>
    ensures { IfOk result (IsAtRest f.now) }
{
    let states = vec![in alloc; State::New; f.method_count() as usize]?;
    Ok(Walk {
        states,
        visits: Vec::new(alloc),
        order: Vec::new(alloc),
        walked: Vec::new(alloc),
    })
}

/// A walk that has come to all methods of the table.
pub fn walk_all(alloc: Global, f: &FlowProgram) -> Result<Walk, NoMemory>
    ensures { IfOk result (λ w. IsSettled f.now w.states.items w.order.items) }
{
    let mut walk = begin(alloc, f)?;
    for m in 0..f.method_count() {
        come_to(f, &mut walk, m)?;
    }
    Ok(walk)
}
