//! What the nodes of a method cost, with what its calls may run.
ghost use Rattle.std.specs.Prelude.{◌≡◌, ◌*◌, ◌<◌, ◌≤◌, length, All, IfOk};
ghost use Rattle.std.specs.List.Sorted.{IsStrictlyIncreasing};
ghost use Rattle.method_flow.specs.Flow.{places_of};
ghost use Rattle.compact_walks.specs.Limited.{cycles_limit};
ghost use Rattle.bound_finder.specs.Telling.{AreToldAdded, IsSmallTold, added_by};
ghost use Rattle.bound_finder.specs.Prepared.{AreCostsBy, AreWithout, IsShapeOf};
ghost use Rattle.loop_nest.specs.Digraph.{Digraph};

use super::shape::Shape;
use super::telling::Told;
use base::NoMemory;
use compact_walks::{held, limited_sum};
use method_flow::Call;
use std::alloc::Global;

/// What is added at a call, where it costs nothing for loads or does.
fn added(told: Told, without_loads: bool) -> u128
    ensures { result ≡ added_by without_loads told }
{
    if without_loads {
        told.inside
    } else {
        told.full
    }
}

/// Costs in a wider type.
fn widened(alloc: Global, own: &[u64]) -> Result<Vec<u128>, NoMemory>
    ensures { IfOk result (λ v. v.items ≡ own.now) }
{
    let mut costs = Vec::new(alloc);
    for cost in own {
        costs.push(*cost as u128)?;
    }
    Ok(costs)
}

/// Adds to the costs of calls what they are told.
fn add(costs: &mut [u128], calls: &[Call], told: &[Told], without_loads: &[bool])
    requires long { length told.now ≡ length calls.now }
    requires flags { length without_loads.now ≡ length costs.old }
    requires rising { IsStrictlyIncreasing (places_of calls.now) }
    requires inside { All (λ c. 2 * c.place < length costs.old) calls.now }
    requires costs { All (λ c. c ≤ cycles_limit) costs.old }
    requires small { All IsSmallTold told.now }
    ensures { AreToldAdded costs.old calls.now told.now without_loads.now costs.new }
{
    for i in 0..calls.len() {
        let at = 2 * calls[i].place as usize;
        costs[at] = limited_sum(costs[at], added(told[i], without_loads[at]));
    }
}

/// For each node whether a call there costs nothing for loads: everything fits the cache together, or it is in a charged loop.
pub fn without_loads(
    alloc: Global,
    s: &Shape,
    fits: bool,
    flags: &[bool],
) -> Result<Vec<bool>, NoMemory>
    requires shape { (g : Digraph) × IsShapeOf g s.now }
    requires flags { length flags.now ≡ length s.now.nest }
    ensures { IfOk result (λ v. AreWithout fits s.now flags.now v.items) }
{
    if fits {
        Ok(vec![in alloc; true; s.size as usize]?)
    } else {
        held(alloc, &s.nest, flags, s.nodes.as_slice(), s.size as usize)
    }
}

/// The costs of the nodes of a method, by what its calls are told.
pub fn costs(
    alloc: Global,
    s: &Shape,
    fits: bool,
    flags: &[bool],
    own: &[u64],
    calls: &[Call],
    told: &[Told],
) -> Result<Vec<u128>, NoMemory>
    requires shape { (g : Digraph) × IsShapeOf g s.now }
    requires flags { length flags.now ≡ length s.now.nest }
    requires own { length own.now ≡ s.now.size }
    requires long { length told.now ≡ length calls.now }
    requires rising { IsStrictlyIncreasing (places_of calls.now) }
    requires inside { All (λ c. 2 * c.place < length own.now) calls.now }
    requires costs { All (λ c. c ≤ cycles_limit) own.now }
    requires small { All IsSmallTold told.now }
    ensures { IfOk result (λ v. AreCostsBy own.now calls.now told.now fits s.now flags.now v.items) }
{
    let without_loads = without_loads(alloc, s, fits, flags)?;
    let mut costs = widened(alloc, own)?;
    add(&mut costs, calls, told, &without_loads);
    Ok(costs)
}
