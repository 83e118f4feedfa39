//! Whether the potentials of a section descend along the edges, and what the exits and the start say.
ghost use Rattle.std.specs.Prelude.{◌≡◌, ◌^◌, ◌<◌, ◌↔◌, pos, ◌+ℤ◌, ◌≤ℤ◌, ◌<ℤ◌, length, IsTrue, MatchOption};
ghost use Rattle.std.specs.List.Sorted.{IsStrictlyIncreasing};
ghost use Rattle.section_check.specs.Section.{priced, listed, IsPotential, ArePotentials, IsInForm};
ghost use Rattle.section_check.specs.Placing.{ExceedsLimit};
ghost use Rattle.section_check.specs.Conditions.{EdgeHolds, ExitHolds, EdgesHold, ExitsHold, IsFirstFailingEdge, IsFirstFailingExit, value_of};

use super::lookups::{find_header, find_potential, has};
use super::prices::{fee, signed_value};
use super::section::Section;
use loop_nest::Graph;

/// Whether the potential above, with what an iteration costs at most, covers a cost, the potential below
/// and a fee.
fn covers(above: i128, iteration: u64, cost: u64, below: i128, fee: i128) -> bool
    requires above { IsPotential above }
    requires below { IsPotential below }
    requires least { pos 0 ≤ℤ fee }
    requires most { fee <ℤ pos (2 ^ 97) }
    ensures { IsTrue result ↔ ((pos cost +ℤ below) +ℤ fee) ≤ℤ (above +ℤ pos iteration) }
{
    i128::from(cost) + below + fee <= above + i128::from(iteration)
}

/// Whether the condition of the edge from `u` to `v` holds.
fn edge_holds(
    costs: &[u64],
    bounds: &[u32],
    loads: &[Option<u64>],
    s: &Section,
    u: u32,
    v: u32,
) -> bool
    requires source { u < length costs.now }
    requires form { IsInForm s.now bounds.now loads.now }
    ensures { IsTrue result ↔ EdgeHolds costs.now s.now (priced s.now.loops bounds.now loads.now) u v }
{
    let Some(below) = find_potential(s.nodes(), v) else {
        return true;
    };
    let Some(above) = find_potential(s.nodes(), u) else {
        return false;
    };
    let cost = costs[u as usize];
    let Some(i) = find_header(s.loops(), v) else {
        return covers(above, 0, cost, below, 0);
    };
    let l = &s.loops()[i];
    if has(l.members(), u) {
        covers(above, l.iteration_cost(), cost, below, 0)
    } else {
        covers(
            above,
            0,
            cost,
            below,
            fee(l.iteration_cost(), bounds[i], loads[i]),
        )
    }
}

/// The first edge whose condition fails.
pub fn failing_edge(
    g: &Graph,
    costs: &[u64],
    bounds: &[u32],
    loads: &[Option<u64>],
    s: &Section,
) -> Option<(u32, u32)>
    requires costs { length costs.now ≡ g.now.nodes }
    requires form { IsInForm s.now bounds.now loads.now }
    ensures { let ls = priced s.now.loops bounds.now loads.now in
        MatchOption result (EdgesHold g.now costs.now s.now ls) (λ e. IsFirstFailingEdge g.now costs.now s.now ls e.0 e.1) }
{
    let edges = g.edges();
    for i in 0..edges.len() {
        let (u, v) = edges[i];
        if !edge_holds(costs, bounds, loads, s, u, v) {
            return Some((u, v));
        }
    }
    None
}

/// Whether exit `u` is listed with a potential that covers its cost.
fn exit_holds(costs: &[u64], s: &Section, u: u32) -> bool
    requires exit { u < length costs.now }
    requires nodes { IsStrictlyIncreasing (listed s.now.nodes) }
    requires potentials { ArePotentials s.now.nodes }
    ensures { IsTrue result ↔ ExitHolds costs.now s.now u }
{
    match find_potential(s.nodes(), u) {
        Some(p) => i128::from(costs[u as usize]) <= p,
        None => false,
    }
}

/// The first exit whose condition fails.
pub fn failing_exit(g: &Graph, costs: &[u64], s: &Section) -> Option<u32>
    requires costs { length costs.now ≡ g.now.nodes }
    requires nodes { IsStrictlyIncreasing (listed s.now.nodes) }
    requires potentials { ArePotentials s.now.nodes }
    ensures { MatchOption result (ExitsHold g.now costs.now s.now) (IsFirstFailingExit g.now costs.now s.now) }
{
    let exits = g.exits();
    for i in 0..exits.len() {
        if !exit_holds(costs, s, exits[i]) {
            return Some(exits[i]);
        }
    }
    None
}

/// The value of a section. There is none where node 0 isn't listed or the value is below 0.
pub fn value(s: &Section, bounds: &[u32], loads: &[Option<u64>]) -> Option<u64>
    requires form { IsInForm s.now bounds.now loads.now }
    requires limit { ¬ ExceedsLimit s.now bounds.now loads.now }
    ensures { result ≡ value_of s.now (priced s.now.loops bounds.now loads.now) }
{
    let value = signed_value(s, bounds, loads)?;
    if value >= 0 { Some(value as u64) } else { None }
}
