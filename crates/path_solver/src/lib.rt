//! Greatest walks through a graph whose loops are bounded, with and without sections that show them.
#![tactic(auto)]

ghost use Rattle.std.specs.Prelude.{◌≡◌, ℕ, ◌^◌, ◌<◌, ◌↔◌, List, Option, Some, Ok, length, map, All, IfOk, IfErr, IfNone, IfSome, OnSome, MatchOption, IsTrue};
ghost use Rattle.loop_nest.specs.Reduction.{IsReducible};
ghost use Rattle.loop_nest.specs.Nest.{IsNest};
ghost use Rattle.section_check.specs.Bounded.{IsBoundedWalk, IsGreatest};
ghost use Rattle.path_solver.specs.Reaching.{ReachesExit};
ghost use Rattle.path_solver.specs.Longest.{bounded_loops, AreLoopsOf, WalkExceeds, IterationsExceed, WalksAreTooLarge, HasSolveCause};
ghost use Rattle.path_solver.specs.Distances.{AreLimited};
ghost use Rattle.path_solver.specs.Certifying.{certified};
ghost use Rattle.path_solver.specs.Potentials.{AreLeft};
ghost use Rattle.section_check.specs.Section.{IsInForm};
ghost use Rattle.section_check.specs.Conditions.{IsSectionAnswer};

mod certifying;
mod distances;
pub mod laws;
pub mod loop_costs;
mod measures;
mod nest_laws;
mod ordering;
pub mod pass;
mod reaching;
pub mod regions;
pub mod solved;
pub mod stops;
pub mod topology;
mod totals;

use base::NoMemory;
use certifying::{cert_loops, potentials};
use loop_nest::Graph;
use loop_nest::loops::Nest;
pub use ordering::headed_loop;
use pass::{Pass, one_pass};
use section_check::section::Section;
pub use section_check::{check_section, form, section};
use solved::{SolveFault, Solved};
use std::alloc::{AllocError, Global};
use totals::{exceeds, within_limit};

/// The section of a pass in which nothing exceeds 64 bits.
fn section_of(alloc: Global, nest: &Nest, value: u64, found: &Pass) -> Result<Section, AllocError>
    requires few { length found.now.listed.items < 2 ^ 32 }
    requires same { length found.now.dist.items ≡ length found.now.listed.items }
    requires limited { AreLimited found.now.dist.items }
    requires iteration_costs { length found.now.iteration_costs.items ≡ length nest.now }
    requires small { All (λ w. w < 2 ^ 64) found.now.iteration_costs.items }
    ensures nodes { IfOk result (λ s. AreLeft found.now.listed.items value found.now.dist.items s.nodes) }
    ensures loops { IfOk result (λ s. s.loops ≡ certified nest.now found.now.iteration_costs.items) }
{
    let potentials = potentials(alloc, &found.listed, value, &found.dist)?;
    let loops = cert_loops(alloc, nest.loops(), &found.iteration_costs)?;
    Ok(Section::new(potentials, loops))
}

/// The greatest walk from node 0 to an exit that keeps all bounds, with a section that shows that none
/// costs more, or `None` exactly where no exit is reached from node 0: then there is no such walk.
/// `costs` has the cost of each node in cycles, `bounds` the bound of each loop, and `loads` the cycles
/// that an entry of it loads, 0 where it loads nothing. The section has the loops of the nest, in its
/// order, and marks none as a region: `longest_with_regions` does. The time is near linear in
/// the edges and the members of the loops.
///
/// # Errors
///
/// `TooLarge` exactly where a walk that keeps the bounds exceeds 64 bits, or iterations do together, one
/// of each loop that holds a node from which an exit is reached.
pub fn longest(
    alloc: Global,
    g: &Graph,
    nest: &Nest,
    costs: &[u64],
    bounds: &[u32],
    loads: &[u64],
) -> Result<Option<Solved>, SolveFault>
    requires nest { IsNest g.now nest.now }
    requires reducible { IsReducible g.now }
    requires costs { length costs.now ≡ g.now.nodes }
    requires bounds { length bounds.now ≡ length nest.now }
    requires loads { length loads.now ≡ length nest.now }
    ensures none { let loops = bounded_loops nest.now bounds.now loads.now in
        IfOk result (λ o. IfNone o ((ns : List ℕ) → ¬ IsBoundedWalk g.now loops ns)) }
    ensures unreached { IfOk result (λ o. IfNone o (¬ ReachesExit g.now 0)) }
    ensures reached { IfOk result (λ o. OnSome o (ReachesExit g.now 0)) }
    ensures greatest { let loops = bounded_loops nest.now bounds.now loads.now in
        IfOk result (λ o. IfSome o (λ s. IsGreatest g.now costs.now loops s.value)) }
    ensures loops { IfOk result (λ o. IfSome o (λ s. AreLoopsOf nest.now s.section.loops)) }
    ensures form { IfOk result (λ o. IfSome o (λ s. IsInForm s.section bounds.now (map Some loads.now))) }
    ensures shown { let fitting : List (Option ℕ) = map Some loads.now in
        IfOk result (λ o. IfSome o (λ s. IsSectionAnswer g.now costs.now s.section bounds.now fitting (Ok (Some s.value)))) }
    ensures cause { IfErr result (HasSolveCause g.now costs.now (bounded_loops nest.now bounds.now loads.now)) }
    ensures fits { IfOk result (λ _. ¬ WalksAreTooLarge g.now costs.now (bounded_loops nest.now bounds.now loads.now)) }
{
    let Some(found) = one_pass(alloc, g, nest, costs, bounds, loads)? else {
        return Ok(None);
    };
    if exceeds(found.value) || found.turns_exceed {
        return Err(SolveFault::TooLarge);
    }
    let value = found.value as u64;
    let section = section_of(alloc, nest, value, &found)?;
    Ok(Some(Solved::new(value, section)))
}

/// What the greatest walk from node 0 to an exit costs that keeps all bounds, or `None` exactly where no
/// exit is reached from node 0: then there is no such walk. There is a value exactly where no such walk
/// exceeds 64 bits, whatever iterations cost: in a loop of bound 0 an iteration may cost more than any
/// walk. `costs`, `bounds` and `loads` are as for `longest`, which answers `TooLarge` exactly where there
/// is no value, or iterations exceed 64 bits. The time is that of `longest`.
///
/// # Errors
///
/// Want of memory alone.
pub fn greatest(
    alloc: Global,
    g: &Graph,
    nest: &Nest,
    costs: &[u64],
    bounds: &[u32],
    loads: &[u64],
) -> Result<Option<solved::Greatest>, NoMemory>
    requires nest { IsNest g.now nest.now }
    requires reducible { IsReducible g.now }
    requires costs { length costs.now ≡ g.now.nodes }
    requires bounds { length bounds.now ≡ length nest.now }
    requires loads { length loads.now ≡ length nest.now }
    ensures none { let loops = bounded_loops nest.now bounds.now loads.now in
        IfOk result (λ o. IfNone o ((ns : List ℕ) → ¬ IsBoundedWalk g.now loops ns)) }
    ensures unreached { IfOk result (λ o. IfNone o (¬ ReachesExit g.now 0)) }
    ensures reached { IfOk result (λ o. OnSome o (ReachesExit g.now 0)) }
    ensures value { let loops = bounded_loops nest.now bounds.now loads.now in
        IfOk result (λ o. IfSome o (λ s. MatchOption s.value (WalkExceeds g.now costs.now loops) (IsGreatest g.now costs.now loops))) }
    ensures turns { let loops = bounded_loops nest.now bounds.now loads.now in
        IfOk result (λ o. IfSome o (λ s. IsTrue s.turns_exceed ↔ IterationsExceed g.now costs.now loops)) }
{
    match one_pass(alloc, g, nest, costs, bounds, loads)? {
        Some(found) => Ok(Some(solved::Greatest {
            value: within_limit(found.value),
            turns_exceed: found.turns_exceed,
        })),
        None => Ok(None),
    }
}
