//! What is printed of prices of facts.
ghost use Rattle.std.specs.Prelude.{◌≡◌, length, vec_len};
ghost use Rattle.loop_nest.specs.Nest.{IsNest};
ghost use Rattle.loop_nest.specs.Reduction.{IsReducible};
ghost use Rattle.price_search.specs.Problem.{HasSources};

use crate::question::Problem;
use base::NoMemory;
use loop_nest::loops::Nest;
use price_search::{
    VisitFact, found_prices, loops_by_header, paid_value, sweep_order, swept, with_prices,
};
use std::alloc::{AllocError, Global};
use std::io;

/// What the greatest walk costs without prices and with those that are found, in cycles.
#[derive(Clone, Copy)]
struct Paid {
    without: i128,
    with: i128,
}

/// What the greatest walk costs with these prices.
fn value_with(
    alloc: Global,
    problem: &price_search::Problem,
    facts: &[VisitFact],
    prices: &[u64],
) -> Result<i128, NoMemory>
    requires { HasSources problem.now }
{
    let reduced = with_prices(alloc, problem, facts, prices)?;
    let sweep = swept(alloc, problem, &reduced)?;
    Ok(paid_value(&reduced, &sweep))
}

/// What the greatest walk costs, or `None` where there is none.
fn paid_of(
    alloc: Global,
    problem: &Problem,
    nest: &Nest,
    loads: &[u64],
    facts: &[VisitFact],
) -> Result<Option<Paid>, NoMemory>
    requires nest { IsNest problem.now.graph nest.now }
    requires reducible { IsReducible problem.now.graph }
    requires costs { vec_len problem.now.costs ≡ problem.now.graph.nodes }
    requires bounds { vec_len problem.now.bounds ≡ length nest.now }
    requires loads { length loads.now ≡ length nest.now }
{
    let (graph, costs, bounds) = (&problem.graph, &problem.costs, &problem.bounds);
    let Some(topology) = sweep_order(alloc, graph, nest, costs, bounds, loads)? else {
        return Ok(None);
    };
    let heads = loops_by_header(alloc, costs.len(), nest)?;
    let asked = price_search::Problem {
        graph,
        nest,
        topology: &topology,
        heads: &heads,
        costs,
        bounds,
        loads,
    };
    let prices = found_prices(alloc, &asked, facts)?;
    Ok(Some(Paid {
        without: value_with(alloc, &asked, facts, &[])?,
        with: value_with(alloc, &asked, facts, &prices)?,
    }))
}

/// Prints what the greatest walk costs without prices and with those that are found.
pub fn show_prices(
    rt: &HostRuntime,
    problem: &Problem,
    nest: &Nest,
    loads: &[u64],
    facts: &[VisitFact],
) -> io::Result<()>
    requires nest { IsNest problem.now.graph nest.now }
    requires reducible { IsReducible problem.now.graph }
    requires costs { vec_len problem.now.costs ≡ problem.now.graph.nodes }
    requires bounds { vec_len problem.now.bounds ≡ length nest.now }
    requires loads { length loads.now ≡ length nest.now }
{
    match paid_of(rt.alloc(), problem, nest, loads, facts) {
        Ok(Some(paid)) => println!(rt; "  without {}, with {}", paid.without, paid.with),
        Ok(None) => println!(rt; "  no walk"),
        Err(NoMemory) => Err(io::Error::from(AllocError)),
    }
}
