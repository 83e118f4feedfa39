//! The nodes of a section: those to which control comes, and numbers that a section says and that are none.
ghost use Rattle.std.specs.Prelude.{◌≡◌, IfOk, Contains, false};
ghost use Rattle.section_check.specs.Least.{IsLeast};
ghost use Rattle.section_check.specs.Placing.{IsInLoop};
ghost use Rattle.section_check.specs.Section.{listed, MembersRise};
ghost use Rattle.std.specs.List.Sorted.{IsStrictlyIncreasing};
ghost use Rattle.flow_graph.specs.Reach.{flag_at};
ghost use Rattle.cert_checker.specs.Prepared.{AreComeTo, IsUnflagged};

use base::NoMemory;
use certificates::{CertLoop, Section};
use loop_nest::Graph;
pub use section_check::placing::lesser;
use std::alloc::Global;

/// For each node of a graph whether it is node 0, or an edge leads to it.
pub fn come_to(alloc: Global, g: &Graph) -> Result<Vec<bool>, NoMemory>
    ensures { IfOk result (λ flags. AreComeTo g.now flags.items) }
{
    let mut flags = vec![in alloc; false; g.nodes() as usize]?;
    flags[0] = true;
    for edge in g.edges() {
        flags[edge.1 as usize] = true;
    }
    Ok(flags)
}

/// Whether a number is flagged.
pub fn is_flagged(flags: &[bool], u: u32) -> bool
    ensures { result ≡ flag_at flags.now u }
{
    let u = u as usize;
    u < flags.len() && flags[u]
}

/// The least of the listed nodes that isn't flagged.
fn first_listed(nodes: &[(u32, i128)], flags: &[bool]) -> Option<u32>
    requires { IsStrictlyIncreasing (listed nodes.now) }
    ensures { IsLeast (λ u. Contains (listed nodes.now) u × (flag_at flags.now u ≡ false)) result }
{
    for node in nodes {
        if !is_flagged(flags, node.0) {
            return Some(node.0);
        }
    }
    None
}

/// The least of some members that isn't flagged.
fn first_member(members: &[u32], flags: &[bool]) -> Option<u32>
    requires { IsStrictlyIncreasing members.now }
    ensures { IsLeast (λ u. Contains members.now u × (flag_at flags.now u ≡ false)) result }
{
    for u in members {
        if !is_flagged(flags, *u) {
            return Some(*u);
        }
    }
    None
}

/// The least member of a loop that isn't flagged.
fn first_held(loops: &[CertLoop], flags: &[bool]) -> Option<u32>
    requires { MembersRise loops.now }
    ensures { IsLeast (λ u. IsInLoop loops.now u × (flag_at flags.now u ≡ false)) result }
{
    let mut least = None;
    for l in loops {
        least = lesser(least, first_member(l.members(), flags));
    }
    least
}

/// The least number that is listed, or a member of a loop, and isn't flagged.
pub fn unflagged(s: &Section, flags: &[bool]) -> Option<u32>
    requires nodes { IsStrictlyIncreasing (listed s.now.nodes) }
    requires members { MembersRise s.now.loops }
    ensures { IsLeast (IsUnflagged s.now flags.now) result }
{
    lesser(first_listed(s.nodes(), flags), first_held(s.loops(), flags))
}
