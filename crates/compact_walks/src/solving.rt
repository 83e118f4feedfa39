//! What is found of a graph whose loops are bounded and charged.
ghost use Rattle.std.specs.Prelude.{◌≡◌, if◌then◌else◌, length, IfOk};
ghost use Rattle.loop_nest.specs.Reduction.{IsReducible};
ghost use Rattle.loop_nest.specs.Nest.{IsNest};
ghost use Rattle.path_solver.specs.Longest.{WalksAreTooLarge, bounded_loops};
ghost use Rattle.path_solver.specs.Regions.{charged};
ghost use Rattle.compact_walks.specs.Solving.{IsWalkAnswer, IsLargeAnswer, answer_of};

use base::NoMemory;
use loop_nest::Graph;
use loop_nest::loops::Nest;
use path_solver::greatest;
use path_solver::regions::longest_with_regions;
use path_solver::solved::{SolveFault, Solved};
use std::alloc::Global;

/// What is found of a graph.
#[derive(Drop)]
pub enum Answer {
    /// No exit is reached from node 0.
    Never,
    /// The greatest walk, with a section that shows it. Neither a walk nor iterations exceed 64 bits.
    Shown(Solved),
    /// A walk exceeds 64 bits, and then there is no number; or the greatest walk costs so many cycles, and iterations exceed 64
    /// bits together, one of each loop that holds a node from which an exit is reached.
    Exceeds(Option<u64>),
}

/// What an entry of a loop is charged.
fn charge(load: u64, region: bool) -> u64
    ensures { result ≡ (if region then load else 0) }
{
    if region { load } else { 0 }
}

/// What an entry of each loop is charged: its load where it is a region, and else nothing.
fn fees(alloc: Global, loads: &[u64], regions: &[bool]) -> Result<Vec<u64>, NoMemory>
    requires { length regions.now ≡ length loads.now }
    ensures { IfOk result (λ fees. fees.items ≡ charged loads.now regions.now) }
{
    let mut fees = Vec::new(alloc);
    for i in 0..loads.len() {
        fees.push(charge(loads[i], regions[i]))?;
    }
    Ok(fees)
}

/// The answer where no number is too large.
fn answer_of(found: Option<Solved>) -> Answer
    ensures { result ≡ answer_of found }
{
    match found {
        Some(solved) => Answer::Shown(solved),
        None => Answer::Never,
    }
}

/// The answer where numbers are too large.
fn exceeding(
    alloc: Global,
    g: &Graph,
    nest: &Nest,
    costs: &[u64],
    bounds: &[u32],
    fees: &[u64],
) -> Result<Answer, NoMemory>
    requires nest { IsNest g.now nest.now }
    requires reducible { IsReducible g.now }
    requires costs { length costs.now ≡ g.now.nodes }
    requires bounds { length bounds.now ≡ length nest.now }
    requires fees { length fees.now ≡ length nest.now }
    requires large { WalksAreTooLarge g.now costs.now (bounded_loops nest.now bounds.now fees.now) }
    ensures { IfOk result (IsLargeAnswer g.now costs.now (bounded_loops nest.now bounds.now fees.now)) }
{
    match greatest(alloc, g, nest, costs, bounds, fees)? {
        Some(found) => Ok(Answer::Exceeds(found.value)),
        None => Ok(Answer::Never),
    }
}

/// What is found of a graph where the loops that are regions are charged their loads at each entry.
pub fn solve(
    alloc: Global,
    g: &Graph,
    nest: &Nest,
    costs: &[u64],
    bounds: &[u32],
    loads: &[u64],
    regions: &[bool],
) -> Result<Answer, NoMemory>
    requires nest { IsNest g.now nest.now }
    requires reducible { IsReducible g.now }
    requires costs { length costs.now ≡ g.now.nodes }
    requires bounds { length bounds.now ≡ length nest.now }
    requires loads { length loads.now ≡ length nest.now }
    requires regions { length regions.now ≡ length nest.now }
    ensures { IfOk result (IsWalkAnswer (record {
      graph = g.now;
      nest = nest.now;
      costs = costs.now;
      bounds = bounds.now;
      loads = loads.now;
      regions
          = regions.now;
    })) }
{
    match longest_with_regions(alloc, g, nest, costs, bounds, loads, regions) {
        Ok(found) => Ok(answer_of(found)),
        Err(SolveFault::TooLarge) => {
            let fees = fees(alloc, loads, regions)?;
            exceeding(alloc, g, nest, costs, bounds, &fees)
        }
        Err(SolveFault::NoMemory) => Err(NoMemory),
    }
}
