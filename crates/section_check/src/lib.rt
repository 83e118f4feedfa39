//! Sections of a certificate: potentials of nodes and loops that show what walks cost at most, and the
//! check of the conditions on them.
#![tactic(auto)]

ghost use Rattle.std.specs.Prelude.{◌≡◌, length, IfOk};
ghost use Rattle.section_check.specs.Section.{IsInForm};
ghost use Rattle.section_check.specs.Placing.{HeadsFaulty};
ghost use Rattle.section_check.specs.Least.{IsLeast, LeadsAside};
ghost use Rattle.section_check.specs.Conditions.{IsSectionAnswer};
ghost use Rattle.section_check.specs.Laws.{BoundsWalks, loops_of};

mod descent;
pub mod faulty;
pub mod form;
pub mod laws;
pub mod lookups;
pub mod placing;
mod prices;
pub mod section;

use descent::{failing_edge, failing_exit, value};
use faulty::faulty_header;
use loop_nest::Graph;
use placing::{leads_aside, misplaced};
use section::{Section, SectionFault};

/// Checks the conditions on a section: its value, which bounds each walk from node 0 to an exit that
/// keeps all bounds, or the first condition that fails. `None` says that there is no such walk.
/// `costs` has the cost of each node, `bounds` the bound of each loop of the section, and `loads` what
/// an entry of it loads: `None` for a region that doesn't fit, 0 for a loop that is no region.
/// `form::is_in_form` tells whether a section can be checked.
pub fn check_section(
    g: &Graph,
    costs: &[u64],
    bounds: &[u32],
    loads: &[Option<u64>],
    s: &Section,
) -> Result<Option<u64>, SectionFault>
    requires costs { length costs.now ≡ g.now.nodes }
    requires form { IsInForm s.now bounds.now loads.now }
    ensures answers { IsSectionAnswer g.now costs.now s.now bounds.now loads.now result }
    ensures bounds { IfOk result (BoundsWalks g.now costs.now (loops_of s.now bounds.now loads.now)) }
{
    let faulty = faulty_header(s.loops(), loads);
    let aside = leads_aside(g, s.loops());
    check_further(g, costs, bounds, loads, s, faulty, aside)
}

/// Checks the further conditions on a section, where it is known which least node heads a faulty loop,
/// and from which least node an edge enters a loop elsewhere than at its header.
pub fn check_further(
    g: &Graph,
    costs: &[u64],
    bounds: &[u32],
    loads: &[Option<u64>],
    s: &Section,
    faulty: Option<u32>,
    aside: Option<u32>,
) -> Result<Option<u64>, SectionFault>
    requires costs { length costs.now ≡ g.now.nodes }
    requires form { IsInForm s.now bounds.now loads.now }
    requires faulty { IsLeast (HeadsFaulty s.now.loops loads.now) faulty }
    requires aside { IsLeast (LeadsAside g.now s.now.loops) aside }
    ensures answers { IsSectionAnswer g.now costs.now s.now bounds.now loads.now result }
    ensures bounds { IfOk result (BoundsWalks g.now costs.now (loops_of s.now bounds.now loads.now)) }
{
    if let Some(u) = misplaced(g, s, bounds, loads, faulty, aside) {
        return Err(SectionFault::Member(u));
    }
    if let Some((u, v)) = failing_edge(g, costs, bounds, loads, s) {
        return Err(SectionFault::Edge(u, v));
    }
    if let Some(u) = failing_exit(g, costs, s) {
        return Err(SectionFault::Exit(u));
    }
    Ok(value(s, bounds, loads))
}
