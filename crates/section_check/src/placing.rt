//! Which nodes are misplaced among the listed nodes and the loops of a section.
ghost use Rattle.std.specs.Prelude.{◌≡◌, ◌↔◌, IsTrue};
ghost use Rattle.std.specs.List.Sorted.{IsStrictlyIncreasing};
ghost use Rattle.section_check.specs.Section.{listed, MembersRise, IsInForm};
ghost use Rattle.section_check.specs.Placing.{EntersAside, HeadsFaulty, HoldsEntry, ExceedsLimit, IsMisplaced};
ghost use Rattle.section_check.specs.Least.{IsLeast, lesser_of, IsBeyond, IsMemberBeyond, LeadsAside, IsWrongEntry};

use super::lookups::has;
use super::prices::signed_value;
use super::section::{CertLoop, Section};
use loop_nest::Graph;

/// The lesser of two nodes, or the one that there is.
pub fn lesser(a: Option<u32>, b: Option<u32>) -> Option<u32>
    ensures { result ≡ lesser_of a b }
{
    match (a, b) {
        (Some(m), Some(n)) => Some(m.min(n)),
        (Some(m), None) => Some(m),
        (None, n) => n,
    }
}

/// The first of these nodes that isn't below `n`.
fn first_beyond(nodes: &[u32], n: u32) -> Option<u32>
    requires { IsStrictlyIncreasing nodes.now }
    ensures { IsLeast (IsBeyond n nodes.now) result }
{
    let i = nodes.partition_point(|u| *u < n);
    if i < nodes.len() {
        Some(nodes[i])
    } else {
        None
    }
}

/// The first listed node that isn't below `n`.
fn first_listed_beyond(nodes: &[(u32, i128)], n: u32) -> Option<u32>
    requires { IsStrictlyIncreasing (listed nodes.now) }
    ensures { IsLeast (IsBeyond n (listed nodes.now)) result }
{
    let i = nodes.partition_point(|p| p.0 < n);
    if i < nodes.len() {
        Some(nodes[i].0)
    } else {
        None
    }
}

/// The least member of a loop that isn't below `n`.
pub fn first_member_beyond(loops: &[CertLoop], n: u32) -> Option<u32>
    requires { MembersRise loops.now }
    ensures { IsLeast (IsMemberBeyond n loops.now) result }
{
    let mut least = None;
    for i in 0..loops.len() {
        least = lesser(least, first_beyond(loops[i].members(), n));
    }
    least
}

/// Whether an edge from `u` to `v` enters a loop elsewhere than at its header.
fn enters_aside(loops: &[CertLoop], u: u32, v: u32) -> bool
    requires { MembersRise loops.now }
    ensures { IsTrue result ↔ EntersAside loops.now u v }
{
    for i in 0..loops.len() {
        let l = &loops[i];
        if v != l.header() && has(l.members(), v) && !has(l.members(), u) {
            return true;
        }
    }
    false
}

/// The least node from which an edge enters a loop elsewhere than at its header.
pub fn leads_aside(g: &Graph, loops: &[CertLoop]) -> Option<u32>
    requires { MembersRise loops.now }
    ensures { IsLeast (LeadsAside g.now loops.now) result }
{
    let edges = g.edges();
    for i in 0..edges.len() {
        let (u, v) = edges[i];
        if enters_aside(loops, u, v) {
            return Some(u);
        }
    }
    None
}

/// Whether a loop with another header holds node 0.
fn holds_entry(loops: &[CertLoop]) -> bool
    requires { MembersRise loops.now }
    ensures { IsTrue result ↔ HoldsEntry loops.now }
{
    for i in 0..loops.len() {
        let l = &loops[i];
        if l.header() != 0 && has(l.members(), 0) {
            return true;
        }
    }
    false
}

/// Whether the section's value exceeds 64 bits.
fn exceeds_limit(s: &Section, bounds: &[u32], loads: &[Option<u64>]) -> bool
    requires { IsInForm s.now bounds.now loads.now }
    ensures { IsTrue result ↔ ExceedsLimit s.now bounds.now loads.now }
{
    match signed_value(s, bounds, loads) {
        Some(value) => value > i128::from(u64::MAX),
        None => false,
    }
}

/// Node 0, where it is misplaced as the entry.
fn wrong_entry(s: &Section, bounds: &[u32], loads: &[Option<u64>]) -> Option<u32>
    requires { IsInForm s.now bounds.now loads.now }
    ensures { IsLeast (IsWrongEntry s.now bounds.now loads.now) result }
{
    if holds_entry(s.loops()) || exceeds_limit(s, bounds, loads) {
        Some(0)
    } else {
        None
    }
}

/// The least node that is misplaced, where the least header of a faulty loop and the least node from
/// which an edge enters a loop aside are known.
pub fn misplaced(
    g: &Graph,
    s: &Section,
    bounds: &[u32],
    loads: &[Option<u64>],
    faulty: Option<u32>,
    aside: Option<u32>,
) -> Option<u32>
    requires form { IsInForm s.now bounds.now loads.now }
    requires faulty { IsLeast (HeadsFaulty s.now.loops loads.now) faulty }
    requires aside { IsLeast (LeadsAside g.now s.now.loops) aside }
    ensures { IsLeast (IsMisplaced g.now s.now bounds.now loads.now) result }
{
    let no_node = lesser(
        first_listed_beyond(s.nodes(), g.nodes()),
        first_member_beyond(s.loops(), g.nodes()),
    );
    let loops = lesser(faulty, aside);
    lesser(lesser(no_node, loops), wrong_entry(s, bounds, loads))
}
