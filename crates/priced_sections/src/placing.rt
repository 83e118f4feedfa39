//! Which nodes are out of place: misplaced as in a section without prices, the header of a fact that isn't
//! held, or the entry where the value is too large.
ghost use Rattle.std.specs.Prelude.{◌≡◌, ◌^◌, ◌<◌, ◌↔◌, ℕ, List, Option, length, IsTrue, pos, ◌<ℤ◌, IfSome};
ghost use Rattle.section_check.specs.Section.{priced, headed_by, HeadersRise, MembersRise};
ghost use Rattle.section_check.specs.Placing.{HeadsFaulty};
ghost use Rattle.section_check.specs.Least.{IsLeast, LeadsAside};
ghost use Rattle.priced_sections.specs.Paid.{HoldsAll};
ghost use Rattle.priced_sections.specs.Answers.{HeadsUnheld, IsOutOfPlace};
ghost use Rattle.priced_sections.specs.Views.{IsView, loops_in, plain_in, facts_of, value_in, section_of, graph_of, IsTooLarge};

use super::fact::FactPrice;
use super::view::PricedView;
use section_check::lookups::{find_header, has};
use section_check::placing::{lesser, misplaced};

/// Whether the loop that `header` heads holds the node of the fact.
fn is_held(q: &PricedView, fact: &FactPrice, header: u32) -> bool
    requires { IsView q.now }
    ensures { IsTrue result ↔ HoldsAll (headed_by header (plain_in q.now)) fact.now.nodes }
{
    match find_header(q.section.loops(), header) {
        Some(i) => has(q.section.loops()[i].members(), fact.node()),
        None => false,
    }
}

/// The header of the fact, where it isn't held.
fn unheld(q: &PricedView, fact: &FactPrice) -> Option<u32>
    requires { IsView q.now }
    ensures { IsLeast (λ h. (fact.now.header ≡ Some h) × (¬ HoldsAll (headed_by h (plain_in q.now)) fact.now.nodes)) result }
{
    let header = fact.header()?;
    if is_held(q, fact, header) {
        None
    } else {
        Some(header)
    }
}

/// The least header of a fact that isn't held.
fn least_unheld(q: &PricedView) -> Option<u32>
    requires { IsView q.now }
    ensures { IsLeast (HeadsUnheld (plain_in q.now) (facts_of q.now)) result }
{
    let mut least = None;
    for fact in q.facts {
        least = lesser(least, unheld(q, fact));
    }
    least
}

/// Node 0, where the value has more than 64 bits.
fn wrong_entry(value: Option<i128>) -> Option<u32>
    ensures { IsLeast (λ u. (u ≡ 0) × IsTooLarge value) result }
{
    match value {
        Some(z) if z > i128::from(u64::MAX) => Some(0),
        _ => None,
    }
}

/// The least node that is out of place, where the least header of a faulty loop and the least node from
/// which an edge enters a loop aside are known.
pub fn out_of_place(
    q: &PricedView,
    value: Option<i128>,
    faulty: Option<u32>,
    aside: Option<u32>,
) -> Option<u32>
    requires view { IsView q.now }
    requires value { value ≡ value_in q.now }
    requires faulty { IsLeast (HeadsFaulty (section_of q.now).loops q.now.loads.now) faulty }
    requires aside { IsLeast (LeadsAside (graph_of q.now) (section_of q.now).loops) aside }
    ensures { IsLeast (IsOutOfPlace (graph_of q.now) (section_of q.now) q.now.bounds.now q.now.loads.now (facts_of q.now)) result }
{
    let wrong = misplaced(q.graph, q.section, q.bounds, q.loads, faulty, aside);
    lesser(lesser(wrong, least_unheld(q)), wrong_entry(value))
}
