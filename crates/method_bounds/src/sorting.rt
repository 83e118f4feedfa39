//! The methods that only a size forbids a bound of, each behind all that it may call; and what forbids one of each other.
ghost use Rattle.std.specs.Prelude.{◌≡◌, ◌<◌, List, length, All, IfOk, slice_index_or};
ghost use Rattle.bound_texts.specs.Loops.Bounds.{LoopBound};
ghost use Rattle.call_regions.specs.Regions.{AreKnown};
ghost use Rattle.method_bounds.specs.Leasts.{no_leasts};
ghost use Rattle.method_bounds.specs.Loops.{AreLoopsOf};
ghost use Rattle.method_bounds.specs.Sorting.{AreSorted, IsCauseOf, AreCauses, ArePicked};

use super::causes::{Leasts, leasts_of, loop_cause};
use super::loops::Loops;
use super::walk::{State, walk_all};
use answer_lines::BoundCause;
use base::{Items, NoMemory};
use call_regions::Order;
use call_regions::laws::runs_are_calls;
use method_flow::FlowProgram;
use std::alloc::Global;

/// The methods that only a size forbids a bound of, and by number what forbids one of each other.
#[derive(Drop)]
pub struct Sorted {
    pub order: Order,
    pub causes: Vec<Option<BoundCause>>,
}

/// What forbids a bound of a method, if more than a size may: a ring of calls, or else what lies in the loops of the methods that may run
/// while it does, of which these are the least.
fn cause_of(state: State, loops: &[Loops], leasts: Leasts) -> Option<BoundCause>
    ensures { IsCauseOf loops.now state leasts result }
{
    match state {
        State::Recursive => Some(BoundCause::Recursion),
        _ => loop_cause(loops, leasts),
    }
}

/// The same of each method, by number.
fn causes_of(
    alloc: Global,
    states: &[State],
    loops: &[Loops],
    leasts: &[Leasts],
) -> Result<Vec<Option<BoundCause>>, NoMemory>
    requires { length leasts.now ≡ length states.now }
    ensures { IfOk result (λ causes. AreCauses loops.now states.now leasts.now causes.items) }
{
    let mut causes = Vec::new(alloc);
    for (m, state) in states.iter().enumerate() {
        causes.push(cause_of(*state, loops, leasts[m]))?;
    }
    Ok(causes)
}

/// Those of these methods that have no cause.
fn without_cause(
    alloc: Global,
    order: &[u32],
    causes: &[Option<BoundCause>],
) -> Result<Vec<u32>, NoMemory>
    requires { All (λ m. m < length causes.now) order.now }
    ensures { IfOk result (λ picked. ArePicked causes.now order.now picked.items) }
{
    let mut picked = Vec::new(alloc);
    for m in order {
        if causes[*m as usize].is_none() {
            picked.push(*m)?;
        }
    }
    Ok(picked)
}

/// All methods of the table, sorted, where this is said of their loops.
pub fn sort_all(alloc: Global, f: &FlowProgram, loops: &[Loops]) -> Result<Sorted, NoMemory>
    requires { length loops.now ≡ length f.now.methods }
    ensures long { IfOk result (λ s. length s.causes.items ≡ length f.now.methods) }
    ensures known { IfOk result (λ s. AreKnown f.now s.order.methods) }
    ensures sorted { IfOk result (λ s. (bounds : List LoopBound) → AreLoopsOf f.now bounds loops.now
        → AreSorted f.now bounds s.causes.items s.order.methods) }
{
    runs_are_calls();
    let walk = walk_all(alloc, f)?;
    let leasts = leasts_of(alloc, f, loops, &walk.order)?;
    let causes = causes_of(alloc, &walk.states, loops, &leasts)?;
    let methods = without_cause(alloc, &walk.order, &causes)?;
    Ok(Sorted {
        order: Order {
            methods: Items::new(methods),
        },
        causes,
    })
}
