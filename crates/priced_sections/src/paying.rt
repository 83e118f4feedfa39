//! Whether edges and exits pay, and the value of a section.
ghost use Rattle.std.specs.Prelude.{◌≡◌, ◌^◌, ◌<◌, ◌↔◌, ℤ, pos, ◌+ℤ◌, ◌-ℤ◌, ◌≤ℤ◌, ◌<ℤ◌, IsTrue, MatchOption, IfSome, option_map, Option, slice_index};
ghost use Rattle.section_check.specs.Section.{entry_fee};
ghost use Rattle.priced_sections.specs.Paid.{EdgePays, ExitPays, EdgesPay, ExitsPay};
ghost use Rattle.priced_sections.specs.Answers.{IsFirstUnpaidEdge, IsFirstUnpaidExit};
ghost use Rattle.priced_sections.specs.Views.{graph_of, costs_of, section_of, back_of, loops_in, headed_in, left_of, price_along, value_in};
ghost use Rattle.priced_sections.specs.Views.{IsView, AreCredits, AreFees};

use super::tables::own_dues;
use super::view::PricedView;
use section_check::lookups::{find_header, find_potential, has};

/// What a node leaves of its potential: with what a visit gives back, less its cost.
fn left(q: &PricedView, credits: &[u128], u: u32) -> Option<i128>
    requires view { IsView q.now }
    requires credits { AreCredits q.now credits.now }
    requires node { u < (graph_of q.now).nodes }
    ensures value { result ≡ left_of q.now u }
    ensures least { IfSome result (λ z. pos 0 ≤ℤ (z +ℤ pos (2 ^ 66))) }
    ensures most { IfSome result (λ z. z <ℤ pos (2 ^ 91)) }
{
    let p = find_potential(q.section.nodes(), u)?;
    let i = u as usize;
    Some(p + credits[i] as i128 - i128::from(q.costs[i]))
}

/// What going from `u` to `v` costs beside the nodes: the fee of the loop that is entered, or less an
/// iteration of the loop that is gone around.
fn edge_price(q: &PricedView, fees: &[u128], u: u32, v: u32) -> i128
    requires view { IsView q.now }
    requires fees { AreFees q.now fees.now }
    ensures value { result ≡ price_along (headed_in q.now v) u }
    ensures least { pos 0 ≤ℤ (result +ℤ pos (2 ^ 64)) }
    ensures most { result <ℤ pos (2 ^ 122) }
{
    let Some(i) = find_header(q.section.loops(), v) else {
        return 0;
    };
    let l = &q.section.loops()[i];
    if has(l.members(), u) {
        -i128::from(l.iteration_cost())
    } else {
        fees[i] as i128
    }
}

/// Whether the condition of the edge from `u` to `v` holds.
fn edge_pays(q: &PricedView, credits: &[u128], fees: &[u128], u: u32, v: u32) -> bool
    requires view { IsView q.now }
    requires credits { AreCredits q.now credits.now }
    requires fees { AreFees q.now fees.now }
    requires source { u < (graph_of q.now).nodes }
    ensures { IsTrue result ↔ EdgePays (costs_of q.now) (back_of q.now) (section_of q.now) (loops_in q.now) u v }
{
    let Some(below) = find_potential(q.section.nodes(), v) else {
        return true;
    };
    let Some(left) = left(q, credits, u) else {
        return false;
    };
    below + edge_price(q, fees, u, v) <= left
}

/// The first edge whose condition fails.
pub fn failing_edge(q: &PricedView, credits: &[u128], fees: &[u128]) -> Option<(u32, u32)>
    requires view { IsView q.now }
    requires credits { AreCredits q.now credits.now }
    requires fees { AreFees q.now fees.now }
    ensures { MatchOption result (EdgesPay (graph_of q.now) (costs_of q.now) (back_of q.now) (section_of q.now) (loops_in q.now))
        (λ e. IsFirstUnpaidEdge (graph_of q.now) (costs_of q.now) (back_of q.now) (section_of q.now) (loops_in q.now) e.0 e.1) }
{
    let edges = q.graph.edges();
    for i in 0..edges.len() {
        let (u, v) = edges[i];
        if !edge_pays(q, credits, fees, u, v) {
            return Some((u, v));
        }
    }
    None
}

/// Whether the condition of the exit `u` holds.
fn exit_pays(q: &PricedView, credits: &[u128], u: u32) -> bool
    requires view { IsView q.now }
    requires credits { AreCredits q.now credits.now }
    requires exit { u < (graph_of q.now).nodes }
    ensures { IsTrue result ↔ ExitPays (costs_of q.now) (back_of q.now) (section_of q.now) u }
{
    match left(q, credits, u) {
        Some(left) => left >= 0,
        None => false,
    }
}

/// The first exit whose condition fails.
pub fn failing_exit(q: &PricedView, credits: &[u128]) -> Option<u32>
    requires view { IsView q.now }
    requires credits { AreCredits q.now credits.now }
    ensures { MatchOption result (ExitsPay (graph_of q.now) (costs_of q.now) (back_of q.now) (section_of q.now))
        (IsFirstUnpaidExit (graph_of q.now) (costs_of q.now) (back_of q.now) (section_of q.now)) }
{
    let exits = q.graph.exits();
    for i in 0..exits.len() {
        if !exit_pays(q, credits, exits[i]) {
            return Some(exits[i]);
        }
    }
    None
}

/// What the start costs beside node 0.
fn start_fee(q: &PricedView, fees: &[u128]) -> u128
    requires view { IsView q.now }
    requires fees { AreFees q.now fees.now }
    ensures value { result ≡ entry_fee (loops_in q.now) 0 }
    ensures small { entry_fee (loops_in q.now) 0 < 2 ^ 122 }
{
    match find_header(q.section.loops(), 0) {
        Some(i) => fees[i],
        None => 0,
    }
}

/// The potential of node 0 with what the start costs and the activation pays, where node 0 is listed.
pub fn signed_value(q: &PricedView, fees: &[u128]) -> Option<i128>
    requires view { IsView q.now }
    requires fees { AreFees q.now fees.now }
    ensures { result ≡ value_in q.now }
{
    let p = find_potential(q.section.nodes(), 0)?;
    Some(p + start_fee(q, fees) as i128 + own_dues(q.facts) as i128)
}
