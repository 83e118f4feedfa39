//! A greatest walk of a method that was prepared.
ghost use Rattle.std.specs.Prelude.{◌≡◌, if◌then◌else◌, length, IfOk, IfErr};
ghost use Rattle.path_solver.specs.Regions.{charged};
ghost use Rattle.compact_walks.specs.Limited.{ArePicked};
ghost use Rattle.bound_finder.specs.Prepared.{IsInShape};
ghost use Rattle.bound_report.specs.Walks.{AreWalkCounts, IsNotWalked};

use crate::visits::{WalkCounts, walk_counts};
use base::NoMemory;
use bound_finder::prepared::Prepared;
use bound_rules::BoundRefusal;
use compact_walks::picked;
use path_solver::solved::SolveFault;
use std::alloc::Global;

/// What an entry of a loop is charged.
fn fee(load: u64, charged: bool) -> u64
    ensures { result ≡ (if charged then load else 0) }
{
    if charged { load } else { 0 }
}

/// What an entry of each loop is charged: its load where it is flagged, and else nothing.
pub fn fees(alloc: Global, loads: &[u64], flags: &[bool]) -> Result<Vec<u64>, NoMemory>
    requires { length flags.now ≡ length loads.now }
    ensures { IfOk result (λ fees. fees.items ≡ charged loads.now flags.now) }
{
    let mut fees = Vec::new(alloc);
    for i in 0..loads.len() {
        fees.push(fee(loads[i], flags[i]))?;
    }
    Ok(fees)
}

/// The counts of a greatest walk of the method `m`, where each node costs less than 2^64.
fn walk_with(
    alloc: Global,
    p: &Prepared,
    m: u32,
    costs: &[u64],
    fees: &[u64],
) -> Result<WalkCounts, BoundRefusal>
    requires shape { IsInShape p.now }
    requires picked { ArePicked p.now.shape.nodes p.now.costs.items costs.now }
    requires fees { fees.now ≡ charged p.now.charges.loads.items p.now.charges.flags.items }
    ensures counts { IfOk result (AreWalkCounts p.now) }
    ensures cause { IfErr result (IsNotWalked p.now) }
{
    let nest = &p.shape.nest;
    match walk_counts(alloc, &p.shape.graph, nest, costs, &p.bounds, fees) {
        Ok(Some(counts)) => Ok(counts),
        Ok(None) => Err(BoundRefusal::TooLarge(m)),
        Err(SolveFault::TooLarge) => Err(BoundRefusal::TooLarge(m)),
        Err(SolveFault::NoMemory) => Err(BoundRefusal::NoMemory),
    }
}

/// The counts of a greatest walk of the method `m`. Where it can end, and none of its numbers is too large, there is one.
pub fn walk_of(
    alloc: Global,
    p: &Prepared,
    m: u32,
    fees: &[u64],
) -> Result<WalkCounts, BoundRefusal>
    requires shape { IsInShape p.now }
    requires fees { fees.now ≡ charged p.now.charges.loads.items p.now.charges.flags.items }
    ensures counts { IfOk result (AreWalkCounts p.now) }
    ensures cause { IfErr result (IsNotWalked p.now) }
{
    match picked(alloc, &p.costs, p.shape.nodes.as_slice()) {
        Ok(Some(costs)) => walk_with(alloc, p, m, &costs, fees),
        Ok(None) => Err(BoundRefusal::TooLarge(m)),
        Err(NoMemory) => Err(BoundRefusal::NoMemory),
    }
}
