//! What is found with prices of all methods that may run while one does.
ghost use Rattle.std.specs.Prelude.{◌≡◌, ◌<◌, length, replicate, slice_set, IfOk, IfSome, OnOk};
ghost use Rattle.price_search.specs.Problem.{HasSources};
ghost use Rattle.bound_finder.specs.Known.{IsLimited, unknown};
ghost use Rattle.bound_finder.specs.Prepared.{IsInShape};
ghost use Rattle.fact_bound.specs.Search.{IsTable};

use super::placing::{
    MethodFacts, PlacedFact, facts_by_method, placed_facts, section_prices, visits,
};
use super::sections::{empty_section, swept_section};
use base::NoMemory;
use bound_finder::fit::{Fit, fit_of};
use bound_finder::known::{Known, UNKNOWN};
use bound_finder::prepared::{Prepared, prepare};
use bound_finder::task::Task;
use certificates::CertSection;
use compact_walks::picked;
use flow_facts::Facts;
use price_search::{
    Problem, VisitFact, found_prices, loops_by_header, paid_value, sweep_order, swept, with_prices,
};
use priced_cert::Prices;
use std::alloc::Global;

/// What is found of a method: what is known of it, its section, and the prices of its facts there.
#[derive(Drop)]
struct PricedMethod {
    known: Known,
    section: CertSection,
    prices: Prices,
}

/// What is found of a method by a sweep: its section, the prices of its facts there, and what its walks and what an
/// activation pays for prices cost at most.
#[derive(Drop)]
struct PricedWalks {
    section: CertSection,
    prices: Prices,
    value: i128,
}

/// What is known of each method, and the sections and prices of those that were looked at.
#[derive(Drop)]
pub(crate) struct PricedMethods {
    pub(crate) table: Vec<Known>,
    pub(crate) sections: Vec<CertSection>,
    pub(crate) prices: Vec<Prices>,
}

/// The load of each loop that is charged, and 0 of the others.
fn charged_loads(alloc: Global, p: &Prepared) -> Result<Vec<u64>, NoMemory>
    ensures { IfOk result (λ loads. length loads.items ≡ length p.now.charges.loads.items) }
{
    let loads = p.charges.loads.as_slice();
    let mut charged = Vec::new(alloc);
    for i in 0..loads.len() {
        let is_charged = p.charges.flags.get(i).copied().unwrap_or(false);
        charged.push(if is_charged { loads[i] } else { 0 })?;
    }
    Ok(charged)
}

/// What is known of a method that can't end.
fn endless(fits: bool) -> Known
    ensures { IsLimited result }
{
    Known {
        fits,
        asked: None,
        full: None,
        too_large: false,
    }
}

/// What is known of a method whose number is this, where its numbers are within 64 bits.
fn known_of(fit: Fit, value: i128) -> Option<Known>
    ensures { IfSome result IsLimited }
{
    let asked = u64::try_from(value).ok()?;
    let full = asked.checked_add(fit.more)?;
    Some(Known {
        fits: fit.fits,
        asked: Some(u128::from(asked)),
        full: Some(u128::from(full)),
        too_large: false,
    })
}

/// The facts of a method that may have prices, and the prices that are found of them.
#[derive(Drop)]
struct PricedFacts {
    placed: Vec<PlacedFact>,
    visits: Vec<VisitFact>,
    prices: Vec<u64>,
}

/// The facts of the method `m` that may have prices, with prices that are found.
fn priced_facts(
    alloc: Global,
    m: u32,
    p: &Prepared,
    problem: &Problem,
    facts: &MethodFacts<'_>,
) -> Result<PricedFacts, NoMemory>
    requires { HasSources problem.now }
{
    let placed = placed_facts(alloc, problem, p.shape.nodes.as_slice(), m, facts)?;
    let visits = visits(alloc, &placed)?;
    let prices = found_prices(alloc, problem, &visits)?;
    Ok(PricedFacts {
        placed,
        visits,
        prices,
    })
}

/// What a sweep with these prices finds of the method `m`.
fn priced_walks(
    alloc: Global,
    m: u32,
    p: &Prepared,
    problem: &Problem,
    facts: &PricedFacts,
) -> Result<PricedWalks, NoMemory>
    requires { HasSources problem.now }
{
    let reduced = with_prices(alloc, problem, &facts.visits, &facts.prices)?;
    let sweep = swept(alloc, problem, &reduced)?;
    let section = swept_section(alloc, m, p, problem.topology, &sweep)?;
    let prices = section_prices(alloc, &facts.placed, &facts.prices)?;
    Ok(PricedWalks {
        section,
        prices,
        value: paid_value(&reduced, &sweep),
    })
}

/// What is found of the walks of the method `m` where its nodes cost so much, or `None` where none ends.
fn swept_method(
    alloc: Global,
    m: u32,
    p: &Prepared,
    costs: &[u64],
    facts: &MethodFacts<'_>,
) -> Result<Option<PricedWalks>, NoMemory>
    requires shape { IsInShape p.now }
    requires costs { length costs.now ≡ p.now.shape.graph.nodes }
{
    let (graph, nest) = (&p.shape.graph, &p.shape.nest);
    let loads = charged_loads(alloc, p)?;
    let Some(topology) = sweep_order(alloc, graph, nest, costs, &p.bounds, &loads)? else {
        return Ok(None);
    };
    let heads = loops_by_header(alloc, graph.nodes() as usize, nest)?;
    let problem = Problem {
        graph,
        nest,
        topology: &topology,
        heads: &heads,
        costs,
        bounds: &p.bounds,
        loads: &loads,
    };
    let facts = priced_facts(alloc, m, p, &problem, facts)?;
    Ok(Some(priced_walks(alloc, m, p, &problem, &facts)?))
}

/// What is found of a method by its walks, where its numbers are within 64 bits.
fn numbered(fit: Fit, walks: PricedWalks) -> Option<PricedMethod>
    ensures { IfSome result (λ f. IsLimited f.known) }
{
    let PricedWalks {
        section,
        prices,
        value,
    } = walks;
    match known_of(fit, value) {
        Some(known) => Some(PricedMethod {
            known,
            section,
            prices,
        }),
        None => None,
    }
}

/// What is found of the method `m` where it can't end.
fn never(alloc: Global, m: u32, fits: bool) -> PricedMethod
    ensures { IsLimited result.known }
{
    PricedMethod {
        known: endless(fits),
        section: empty_section(alloc, m, fits),
        prices: Prices::new(Vec::new(alloc)),
    }
}

/// What is found of the method `m` where its nodes cost so much.
fn examine_with(
    alloc: Global,
    m: u32,
    fit: Fit,
    p: &Prepared,
    costs: &[u64],
    facts: &MethodFacts<'_>,
) -> Result<Option<PricedMethod>, NoMemory>
    requires shape { IsInShape p.now }
    requires costs { length costs.now ≡ p.now.shape.graph.nodes }
    ensures { IfOk result (λ o. IfSome o (λ f. IsLimited f.known)) }
{
    match swept_method(alloc, m, p, costs, facts)? {
        Some(walks) => Ok(numbered(fit, walks)),
        None => Ok(Some(never(alloc, m, fit.fits))),
    }
}

/// What is found of the method `m`, where this is known of all that it may call, and `None` where a number is past 64 bits
/// or the bounds of loops aren't known.
fn examine(
    alloc: Global,
    task: &Task<'_>,
    facts: &MethodFacts<'_>,
    m: u32,
    table: &[Known],
) -> Result<Option<PricedMethod>, NoMemory>
    requires method { m < length task.now.flow.methods }
    requires table { IsTable task.now table.now }
    ensures { IfOk result (λ o. IfSome o (λ f. IsLimited f.known)) }
{
    let fit = fit_of(alloc, task, m)?;
    let Ok(p) = prepare(alloc, task, m, fit.fits, table) else {
        return Ok(None);
    };
    match picked(alloc, &p.costs, p.shape.nodes.as_slice())? {
        Some(costs) => examine_with(alloc, m, fit, &p, &costs, facts),
        None => Ok(None),
    }
}

/// Adds what is found of the method `m`.
fn add(all: &mut PricedMethods, m: u32, found: PricedMethod) -> Result<(), NoMemory>
    requires { m < length all.old.table.items }
    ensures { OnOk result (all.new.table.items ≡ slice_set all.old.table.items m found.known) }
{
    let PricedMethod {
        known,
        section,
        prices,
    } = found;
    all.table[m as usize] = known;
    all.sections.push(section)?;
    all.prices.push(prices)?;
    Ok(())
}

/// Finds the method `m` and adds it; whether it is found.
fn find(
    alloc: Global,
    task: &Task<'_>,
    facts: &MethodFacts<'_>,
    all: &mut PricedMethods,
    m: u32,
) -> Result<bool, NoMemory>
    requires { IsTable task.now all.old.table.items }
    ensures { OnOk result (IsTable task.now all.new.table.items) }
{
    if m >= task.flow().method_count() {
        return Ok(false);
    }
    match examine(alloc, task, facts, m, &all.table)? {
        Some(found) => {
            add(all, m, found)?;
            Ok(true)
        }
        None => Ok(false),
    }
}

/// Nothing is found yet, of so many methods.
fn none(alloc: Global, count: u32) -> Result<PricedMethods, NoMemory>
    ensures { IfOk result (λ all. all.table.items ≡ replicate count unknown) }
{
    let table = vec![in alloc; UNKNOWN; count as usize]?;
    Ok(PricedMethods {
        table,
        sections: Vec::new(alloc),
        prices: Vec::new(alloc),
    })
}

/// What is found of these methods, each of which stands behind all that it may call; `None` where one isn't found.
pub(crate) fn examine_all(
    alloc: Global,
    task: &Task<'_>,
    facts: &Facts,
    order: &[u32],
) -> Result<Option<PricedMethods>, NoMemory> {
    let methods = task.flow().method_count();
    let facts = facts_by_method(alloc, facts, methods)?;
    let mut all = none(alloc, methods)?;
    for m in order {
        if !find(alloc, task, &facts, &mut all, *m)? {
            return Ok(None);
        }
    }
    Ok(Some(all))
}
