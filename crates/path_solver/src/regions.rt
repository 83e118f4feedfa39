//! Greatest walks where some loops are regions.
ghost use Rattle.std.specs.Prelude.{◌≡◌, ℕ, if◌then◌else◌, List, Option, Some, Ok, length, map, IfOk, IfErr, IfNone, IfSome, OnSome};
ghost use Rattle.loop_nest.specs.Reduction.{IsReducible};
ghost use Rattle.loop_nest.specs.Nest.{IsNest};
ghost use Rattle.section_check.specs.Bounded.{IsGreatest};
ghost use Rattle.section_check.specs.Section.{IsInForm};
ghost use Rattle.section_check.specs.Conditions.{IsSectionAnswer};
ghost use Rattle.path_solver.specs.Reaching.{ReachesExit};
ghost use Rattle.path_solver.specs.Longest.{bounded_loops, WalksAreTooLarge, HasSolveCause};
ghost use Rattle.path_solver.specs.Regions.{charged, AreRegionsApart, AreMarkedLoopsOf};

use super::longest;
use super::solved::{SolveFault, Solved};
use loop_nest::Graph;
use loop_nest::loops::Nest;
use section_check::laws::marked_stays_accepted;
use std::alloc::{AllocError, Global};

/// What an entry of a loop is charged.
fn charge(load: u64, region: bool) -> u64
    ensures { result ≡ (if region then load else 0) }
{
    if region { load } else { 0 }
}

/// What an entry of each loop is charged: its load where it is a region, and else nothing.
fn charged(alloc: Global, loads: &[u64], regions: &[bool]) -> Result<Vec<u64>, AllocError>
    requires { length regions.now ≡ length loads.now }
    ensures { IfOk result (λ found. found.items ≡ charged loads.now regions.now) }
{
    let mut found = Vec::new(alloc);
    for i in 0..loads.len() {
        found.push(charge(loads[i], regions[i]))?;
    }
    Ok(found)
}

/// What `longest` finds where only some loops are regions: the others are charged no load, whatever
/// `loads` has for them. The section marks the regions. It is accepted where none of them lies in
/// another.
///
/// # Errors
///
/// As for `longest`.
pub fn longest_with_regions(
    alloc: Global,
    g: &Graph,
    nest: &Nest,
    costs: &[u64],
    bounds: &[u32],
    loads: &[u64],
    regions: &[bool],
) -> Result<Option<Solved>, SolveFault>
    requires nest { IsNest g.now nest.now }
    requires reducible { IsReducible g.now }
    requires costs { length costs.now ≡ g.now.nodes }
    requires bounds { length bounds.now ≡ length nest.now }
    requires loads { length loads.now ≡ length nest.now }
    requires regions { length regions.now ≡ length nest.now }
    ensures unreached { IfOk result (λ o. IfNone o (¬ ReachesExit g.now 0)) }
    ensures reached { IfOk result (λ o. OnSome o (ReachesExit g.now 0)) }
    ensures greatest { let loops = bounded_loops nest.now bounds.now (charged loads.now regions.now) in
        IfOk result (λ o. IfSome o (λ s. IsGreatest g.now costs.now loops s.value)) }
    ensures loops { IfOk result (λ o. IfSome o (λ s. AreMarkedLoopsOf nest.now regions.now s.section.loops)) }
    ensures form { let fitting : List (Option ℕ) = map Some (charged loads.now regions.now) in
        IfOk result (λ o. IfSome o (λ s. IsInForm s.section bounds.now fitting)) }
    ensures shown { let fitting : List (Option ℕ) = map Some (charged loads.now regions.now) in
        IfOk result (λ o. IfSome o (λ s. AreRegionsApart nest.now regions.now
        → IsSectionAnswer g.now costs.now s.section bounds.now fitting (Ok (Some s.value)))) }
    ensures cause { IfErr result (HasSolveCause g.now costs.now (bounded_loops nest.now bounds.now (charged loads.now regions.now))) }
    ensures fits { IfOk result (λ _. ¬ WalksAreTooLarge g.now costs.now (bounded_loops nest.now bounds.now (charged loads.now regions.now))) }
{
    // The law is for the proof.
    marked_stays_accepted();
    let charged = charged(alloc, loads, regions)?;
    match longest(alloc, g, nest, costs, bounds, &charged)? {
        Some(solved) => Ok(Some(solved.with_regions(regions))),
        None => Ok(None),
    }
}
