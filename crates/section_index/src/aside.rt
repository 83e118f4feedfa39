//! Edges that enter loops elsewhere than at their headers.
ghost use Rattle.std.specs.Prelude.{◌≡◌, ◌↔◌, ◌<◌, length, IsTrue};
ghost use Rattle.section_check.specs.Section.{MembersRise};
ghost use Rattle.section_check.specs.Placing.{EntersAside};
ghost use Rattle.section_check.specs.Least.{IsLeast, LeadsAside};
ghost use Rattle.section_index.specs.Numbering.{AreNumbers, AreHolders};

use super::numbering::place;
use loop_nest::Graph;
use loop_nest::digraph::Sources;
use section_check::lookups::has;
use section_check::section::CertLoop;

/// Whether an edge from `u` to `v` enters a loop elsewhere than at its header. Only the loops that
/// hold `v` are looked at.
fn enters_aside(loops: &[CertLoop], numbers: &[u32], holders: &Sources, u: u32, v: u32) -> bool
    requires members { MembersRise loops.now }
    requires numbers { AreNumbers loops.now numbers.now }
    requires holders { AreHolders numbers.now loops.now holders.now }
    ensures { IsTrue result ↔ EntersAside loops.now u v }
{
    let Some(p) = place(numbers, v) else {
        return false;
    };
    let around = holders.of(p as u32);
    for k in around {
        let l = &loops[*k as usize];
        if v != l.header() && !has(l.members(), u) {
            return true;
        }
    }
    false
}

/// The least node from which an edge enters a loop elsewhere than at its header.
pub fn leads_aside(g: &Graph, loops: &[CertLoop], numbers: &[u32], holders: &Sources) -> Option<u32>
    requires members { MembersRise loops.now }
    requires numbers { AreNumbers loops.now numbers.now }
    requires holders { AreHolders numbers.now loops.now holders.now }
    ensures { IsLeast (LeadsAside g.now loops.now) result }
{
    let edges = g.edges();
    for i in 0..edges.len() {
        let (u, v) = edges[i];
        if enters_aside(loops, numbers, holders, u, v) {
            return Some(u);
        }
    }
    None
}
