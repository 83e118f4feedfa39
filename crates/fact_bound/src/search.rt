//! A certificate by prices of facts.
ghost use Rattle.std.specs.Prelude.{◌≡◌, [], IfOk, IfSome};
ghost use Rattle.priced_cert.specs.Certificate.{IsPricedInGrammar};

use super::grammar::certificate_in_grammar;
use super::methods::{PricedMethods, examine_all};
use super::plain::with_callers_load;
use base::NoMemory;
use bound_finder::known::Known;
use bound_finder::task::Task;
use call_regions::Order;
use flow_facts::Facts;
use priced_cert::PricedCert;
use std::alloc::Global;

/// A bound in 64 bits, where it is within them.
fn narrowed(bound: Option<u128>) -> Option<Option<u64>> {
    match bound {
        Some(cycles) => Some(Some(u64::try_from(cycles).ok()?)),
        None => Some(None),
    }
}

/// The number of a method with all loads, by what is known of all.
fn full_of(table: &[Known], m: u32) -> Option<u128> {
    match table.get(m as usize) {
        Some(known) => known.full,
        None => None,
    }
}

/// The last line of a certificate of the root, whose number with all loads is this; or `None` where it is past 64 bits.
fn last_line(task: &Task<'_>, root: u32, full: Option<u128>) -> Option<Option<u64>> {
    let printed = narrowed(task.printed(narrowed(full)?))?;
    let t = task.timing();
    Some(with_callers_load(task.flow(), t, root, printed))
}

/// A certificate of the method `root` by prices of facts, if one is found: of facts that count in an activation of their
/// method, or from each entry of a loop to the next, in the methods of this order, each of which stands behind all that it may
/// call. Whether it meets its conditions isn't known. The only error is that there is no memory.
pub fn priced_certificate(
    alloc: Global,
    task: &Task<'_>,
    facts: &Facts,
    order: &Order,
    root: u32,
) -> Result<Option<PricedCert>, NoMemory>
    ensures { IfOk result (λ found. IfSome found (λ c. IsPricedInGrammar c × (c.plain.root ≡ root) × (c.root_prices ≡ []))) }
{
    let Some(all) = examine_all(alloc, task, facts, order.methods.as_slice())? else {
        return Ok(None);
    };
    let PricedMethods {
        table,
        sections,
        prices,
    } = all;
    match last_line(task, root, full_of(&table, root)) {
        Some(bound) => Ok(certificate_in_grammar(alloc, root, sections, prices, bound)),
        None => Ok(None),
    }
}
