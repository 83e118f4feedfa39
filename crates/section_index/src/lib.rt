//! The check of a section with memory: the answer of `check_section`, in time near linear in the
//! section, the graph and the members of its loops.
#![tactic(auto)]

ghost use Rattle.std.specs.Prelude.{◌≡◌, length, IfOk};
ghost use Rattle.section_check.specs.Section.{HeadersRise, MembersRise, IsInForm};
ghost use Rattle.section_check.specs.Placing.{HeadsFaulty};
ghost use Rattle.section_check.specs.Least.{IsLeast, LeadsAside};
ghost use Rattle.section_check.specs.Conditions.{IsSectionAnswer};
ghost use Rattle.section_check.specs.Laws.{BoundsWalks, loops_of};

mod aside;
mod crossing_sets;
mod faulty;
mod holders;
mod numbering;

use aside::leads_aside;
use base::NoMemory;
use faulty::faulty_header;
use holders::{crossing, holders};
use loop_nest::Graph;
use numbering::{numbered, numbers};
use section_check::check_further;
use section_check::section::{CertLoop, Section, SectionFault};
use std::alloc::Global;

/// The least header of a faulty loop, and the least node from which an edge enters a loop elsewhere than
/// at its header.
pub fn wrong_loops(
    alloc: Global,
    g: &Graph,
    loops: &[CertLoop],
    loads: &[Option<u64>],
) -> Result<(Option<u32>, Option<u32>), NoMemory>
    requires headers { HeadersRise loops.now }
    requires members { MembersRise loops.now }
    requires loads { length loads.now ≡ length loops.now }
    ensures faulty { IfOk result (λ found. IsLeast (HeadsFaulty loops.now loads.now) found.0) }
    ensures aside { IfOk result (λ found. IsLeast (LeadsAside g.now loops.now) found.1) }
{
    // The loops are numbered in 32 bits.
    let Ok(count) = u32::try_from(loops.len()) else {
        return Ok((
            section_check::faulty::faulty_header(loops, loads),
            section_check::placing::leads_aside(g, loops),
        ));
    };
    let numbers = numbers(alloc, loops, g.nodes())?;
    let family = numbered(alloc, loops, &numbers)?;
    let crossing = crossing(alloc, loops, &numbers, &family)?;
    let holders = holders(alloc, loops, count, &numbers, &family)?;
    let faulty = faulty_header(loops, loads, &numbers, &holders, crossing);
    let aside = leads_aside(g, loops, &numbers, &holders);
    Ok((faulty, aside))
}

/// Checks the conditions on a section, as `check_section` does, and with the same answer. It takes
/// memory for the loops that hold each node. `form::is_in_form` tells whether a section can be checked.
pub fn check_with_index(
    alloc: Global,
    g: &Graph,
    costs: &[u64],
    bounds: &[u32],
    loads: &[Option<u64>],
    s: &Section,
) -> Result<Result<Option<u64>, SectionFault>, NoMemory>
    requires costs { length costs.now ≡ g.now.nodes }
    requires form { IsInForm s.now bounds.now loads.now }
    ensures answers { IfOk result (IsSectionAnswer g.now costs.now s.now bounds.now loads.now) }
    ensures bounds { IfOk result (λ answer. IfOk answer (BoundsWalks g.now costs.now (loops_of s.now bounds.now loads.now))) }
{
    let (faulty, aside) = wrong_loops(alloc, g, s.loops(), loads)?;
    Ok(check_further(g, costs, bounds, loads, s, faulty, aside))
}
