//! What a section has of a node.
ghost use Rattle.std.specs.Prelude.{◌≡◌, ◌<◌, ◌↔◌, length, Contains, IsTrue, MatchOption, IfSome};
ghost use Rattle.std.specs.List.Sorted.{IsStrictlyIncreasing};
ghost use Rattle.section_check.specs.Section.{potential, listed, ArePotentials, IsPotential, HeadersRise};
ghost use Rattle.section_check.specs.Heading.{NoneHeads, IsFirstHeaded};

use super::section::CertLoop;

/// Whether `u` is in the range from the first to the last of these nodes.
fn spans(nodes: &[u32], u: u32) -> bool
    requires { IsStrictlyIncreasing nodes.now }
    ensures { Contains nodes.now u → IsTrue result }
{
    match (nodes.first(), nodes.last()) {
        (Some(first), Some(last)) => *first <= u && u <= *last,
        _ => false,
    }
}

/// Whether `u` is among these nodes.
pub fn has(nodes: &[u32], u: u32) -> bool
    requires { IsStrictlyIncreasing nodes.now }
    ensures { IsTrue result ↔ Contains nodes.now u }
{
    spans(nodes, u) && nodes.binary_search(&u).is_ok()
}

/// The potential of `u`, if it is listed.
pub fn find_potential(nodes: &[(u32, i128)], u: u32) -> Option<i128>
    requires nodes { IsStrictlyIncreasing (listed nodes.now) }
    requires potentials { ArePotentials nodes.now }
    ensures value { result ≡ potential nodes.now u }
    ensures range { IfSome result IsPotential }
{
    let i = nodes.partition_point(|n| n.0 < u);
    if i < nodes.len() && nodes[i].0 == u {
        Some(nodes[i].1)
    } else {
        None
    }
}

/// The number of the first loop that `u` heads.
pub fn find_header(loops: &[CertLoop], u: u32) -> Option<usize>
    requires { HeadersRise loops.now }
    ensures { MatchOption result (NoneHeads loops.now u) (IsFirstHeaded loops.now u) }
{
    let i = loops.partition_point(|l| l.header() < u);
    if i < loops.len() && loops[i].header() == u {
        Some(i)
    } else {
        None
    }
}
