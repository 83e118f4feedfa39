//! What the walks of a method are asked on.
ghost use Rattle.std.specs.Prelude.{◌≡◌, ◌<◌, ◌↔◌, length, All, IfOk, IfErr, IsTrue};
ghost use Rattle.bound_rules.specs.Fitting.{RegionFits};
ghost use Rattle.bound_finder.specs.Known.{bounds_in, ForEach, CalleesAreKnown, IsLimited};
ghost use Rattle.bound_finder.specs.Prepared.{AreBounds, AreChargesOf, AreMethodCosts, AreToldWith, HasNoShapeWith, IsInShape, IsNotPrepared, IsPreparedFor};
ghost use Rattle.bound_finder.specs.Prepared.{IsShapeWith, IsUnbounded, call_count};

use super::charges::{Charges, charges_of, loop_bounds};
use super::costs::costs;
use super::known::Known;
use super::laws::{costs_are_limited, graphs_where_targets_end};
use super::shape::{Shape, shape_in, told_graph};
use super::task::Task;
use super::telling::{Told, tell};
use base::NoMemory;
use bound_rules::BoundRefusal;
use node_costs::own_costs;
use opcodes::laws::starts_follow_one_another;
use std::alloc::Global;

/// The live graph of a method with its loops, whether all that may run while the method does fits the cache together, the bounds of
/// the loops, which are charged, and what the nodes cost by their numbers, where costs past 64 bits count as 2^64.
#[derive(Drop)]
pub struct Prepared {
    pub shape: Shape,
    pub fits: bool,
    pub bounds: Vec<u32>,
    pub charges: Charges,
    pub costs: Vec<u128>,
}

/// The shape of the method `m`, where its calls are told this.
fn method_shape(
    alloc: Global,
    task: &Task<'_>,
    m: u32,
    told: &[Told],
) -> Result<Shape, BoundRefusal>
    requires method { m < length task.now.flow.methods }
    requires told { length told.now ≡ call_count task.now m }
    ensures shape { IfOk result (IsShapeWith task.now m told.now) }
    ensures cause { IfErr result (HasNoShapeWith task.now m told.now) }
{
    match told_graph(alloc, task.method(m), told) {
        Ok(graph) => shape_in(alloc, m, &graph),
        Err(NoMemory) => Err(BoundRefusal::NoMemory),
    }
}

/// The costs of the nodes of the method `m`, where its calls are told this.
fn method_costs(
    alloc: Global,
    task: &Task<'_>,
    m: u32,
    s: &Shape,
    fits: bool,
    flags: &[bool],
    told: &[Told],
) -> Result<Vec<u128>, NoMemory>
    requires method { m < length task.now.flow.methods }
    requires shape { IsShapeWith task.now m told.now s.now }
    requires flags { length flags.now ≡ length s.now.nest }
    requires told { AreToldWith task.now m told.now }
    ensures long { IfOk result (λ v. length v.items ≡ s.now.size) }
    ensures costs { IfOk result (λ v. AreMethodCosts task.now m s.now fits flags.now told.now v.items) }
{
    starts_follow_one_another();
    let method = task.method(m);
    let own = own_costs(alloc, method, task.timing())?;
    costs(alloc, s, fits, flags, &own, method.calls(), told)
}

/// What the walks are asked on, beside the shape.
fn prepare_with(
    alloc: Global,
    task: &Task<'_>,
    m: u32,
    shape: Shape,
    fits: bool,
    told: &[Told],
) -> Result<Prepared, BoundRefusal>
    requires method { m < length task.now.flow.methods }
    requires shape { IsShapeWith task.now m told.now shape }
    requires told { AreToldWith task.now m told.now }
    ensures shape { IfOk result IsInShape }
    ensures same { IfOk result (λ p. (p.shape ≡ shape) × (p.fits ≡ fits)) }
    ensures bounds { IfOk result (λ p. AreBounds (bounds_in task.now) m shape p.bounds.items) }
    ensures charges { IfOk result (λ p. ForEach task.now (λ P. AreChargesOf P task.now.timing m shape fits p.charges)) }
    ensures costs { IfOk result (λ p. AreMethodCosts task.now m shape fits p.charges.flags.items told.now p.costs.items) }
    ensures cause { IfErr result (IsUnbounded (bounds_in task.now) m shape) }
{
    let bounds = loop_bounds(alloc, task, m, &shape)?;
    let Ok(charges) = charges_of(alloc, task, m, &shape, fits) else {
        return Err(BoundRefusal::NoMemory);
    };
    match method_costs(alloc, task, m, &shape, fits, &charges.flags, told) {
        Ok(costs) => Ok(Prepared {
            shape,
            fits,
            bounds,
            charges,
            costs,
        }),
        Err(NoMemory) => Err(BoundRefusal::NoMemory),
    }
}

/// What the walks of the method `m` are asked on, where this is known of all that it may call.
pub fn prepare(
    alloc: Global,
    task: &Task<'_>,
    m: u32,
    fits: bool,
    table: &[Known],
) -> Result<Prepared, BoundRefusal>
    requires method { m < length task.now.flow.methods }
    requires long { length table.now ≡ length task.now.flow.methods }
    requires limited { All IsLimited table.now }
    requires fits { ForEach task.now (λ P. IsTrue fits ↔ RegionFits P task.now.timing m) }
    ensures shape { IfOk result IsInShape }
    ensures same { IfOk result (λ p. p.fits ≡ fits) }
    ensures bounds { IfOk result (λ p. AreBounds (bounds_in task.now) m p.shape p.bounds.items) }
    ensures prepared { IfOk result (λ p. ForEach task.now (λ P. CalleesAreKnown P task.now.timing table.now m
        → IsPreparedFor P task.now.timing (bounds_in task.now) table.now m p)) }
    ensures cause { IfErr result (λ e. ForEach task.now (λ P. CalleesAreKnown P task.now.timing table.now m → IsNotPrepared P (bounds_in task.now) m e)) }
{
    graphs_where_targets_end();
    costs_are_limited();
    // Its clause is for the proof alone.
    let _ = task.method(m).calls();
    let Ok(told) = tell(alloc, task, m, table) else {
        return Err(BoundRefusal::NoMemory);
    };
    let shape = method_shape(alloc, task, m, &told)?;
    prepare_with(alloc, task, m, shape, fits, &told)
}
