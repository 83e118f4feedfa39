//! Sections whose facts have prices: a fact says how often a node of a method is visited at most, each
//! visit gives the price of the fact back, and the activation, or each entry of a loop, pays it as often
//! as the fact allows visits.
#![tactic(auto)]

ghost use Rattle.std.specs.Prelude.{◌≡◌, IfOk, option_map};
ghost use Rattle.section_check.specs.Placing.{HeadsFaulty};
ghost use Rattle.section_check.specs.Least.{IsLeast, LeadsAside};
ghost use Rattle.priced_sections.specs.Paid.{at_least_zero};
ghost use Rattle.priced_sections.specs.Answers.{IsPaidAnswer};
ghost use Rattle.priced_sections.specs.Views.{IsView, AreCredits, AreFees, graph_of, costs_of, back_of, section_of, facts_of, IsTooLarge};

pub mod fact;
pub mod laws;
mod paying;
mod placing;
mod tables;
mod view;

use paying::{failing_edge, failing_exit, signed_value};
use placing::out_of_place;
use section_check::section::SectionFault;
use std::alloc::{AllocError, Global};
use tables::{credits, fees};
pub use view::PricedView;

/// A number of 64 bits, where there is one: a negative one counts as 0.
fn natural(value: Option<i128>) -> Option<u64>
    requires { ¬ IsTooLarge value }
    ensures { result ≡ option_map at_least_zero value }
{
    let z = value?;
    if z < 0 { Some(0) } else { Some(z as u64) }
}

/// Checks the conditions on a section whose facts have prices, by what visits give back and what entries
/// pay.
fn check_by(
    q: &PricedView,
    credits: &[u128],
    fees: &[u128],
    faulty: Option<u32>,
    aside: Option<u32>,
) -> Result<Option<u64>, SectionFault>
    requires view { IsView q.now }
    requires credits { AreCredits q.now credits.now }
    requires fees { AreFees q.now fees.now }
    requires faulty { IsLeast (HeadsFaulty (section_of q.now).loops q.now.loads.now) faulty }
    requires aside { IsLeast (LeadsAside (graph_of q.now) (section_of q.now).loops) aside }
    ensures { IsPaidAnswer (graph_of q.now) (costs_of q.now) (back_of q.now) (section_of q.now) q.now.bounds.now q.now.loads.now (facts_of q.now) result }
{
    let value = signed_value(q, fees);
    if let Some(u) = out_of_place(q, value, faulty, aside) {
        return Err(SectionFault::Member(u));
    }
    if let Some((u, v)) = failing_edge(q, credits, fees) {
        return Err(SectionFault::Edge(u, v));
    }
    if let Some(u) = failing_exit(q, credits) {
        return Err(SectionFault::Exit(u));
    }
    Ok(natural(value))
}

/// Checks the conditions on a section whose facts have prices: its value, which bounds each walk from node
/// 0 to an exit that keeps all bounds and facts, or the first condition that fails. `None` says that there
/// is no such walk. It is known which least node heads a faulty loop, and from which least node an edge
/// enters a loop elsewhere than at its header. There are fewer than 2^24 facts of either kind.
pub fn check_priced(
    alloc: Global,
    q: &PricedView,
    faulty: Option<u32>,
    aside: Option<u32>,
) -> Result<Result<Option<u64>, SectionFault>, AllocError>
    requires view { IsView q.now }
    requires faulty { IsLeast (HeadsFaulty (section_of q.now).loops q.now.loads.now) faulty }
    requires aside { IsLeast (LeadsAside (graph_of q.now) (section_of q.now).loops) aside }
    ensures { IfOk result
        (IsPaidAnswer (graph_of q.now) (costs_of q.now) (back_of q.now) (section_of q.now) q.now.bounds.now q.now.loads.now (facts_of q.now)) }
{
    let credits = credits(alloc, q)?;
    let fees = fees(alloc, q)?;
    Ok(check_by(q, &credits, &fees, faulty, aside))
}
