//! What is printed of the greatest walk.
ghost use Rattle.std.specs.Prelude.{◌≡◌, length, vec_len};
ghost use Rattle.loop_nest.specs.Nest.{IsNest};
ghost use Rattle.loop_nest.specs.Reduction.{IsReducible};

use crate::prices::show_prices;
use crate::question::Problem;
use crate::walks::{Greatest, greatest_walk};
use loop_nest::loops::Nest;
use loop_nest::{Graph, blocks, is_graph, nest};
use path_solver::regions::longest_with_regions;
use path_solver::solved::{SolveFault, Solved};
use path_solver::{check_section, greatest, longest};
use price_search::VisitFact;
use std::alloc::{AllocError, Global};
use std::io;

/// What is printed of the greatest walk.
#[derive(Clone, Copy)]
pub enum Asked<'a> {
    /// Its value.
    Value,
    /// Its value, and the section that shows it.
    Section,
    /// Its value, and which loops are regions in its section, where it is said of each loop whether it is one.
    Regions(&'a [bool]),
    /// Its value, found in several ways.
    Walks,
    /// Its value without prices of facts and with them.
    Prices(&'a [VisitFact]),
}

/// Prints the value of the greatest walk, and the listed nodes with their potentials.
fn show_potentials(rt: &HostRuntime, solved: &Solved) -> io::Result<()> {
    print!(rt; "  value {}, potentials", solved.value())?;
    for (u, p) in solved.section().nodes() {
        print!(rt; " {u}:{p}")?;
    }
    println!(rt; "")
}

/// Prints the value of the greatest walk, and the section that shows it.
fn show_section(rt: &HostRuntime, solved: &Solved) -> io::Result<()> {
    show_potentials(rt, solved)?;
    for l in solved.section().loops() {
        println!(rt;
            "  loop {}, an iteration costs {}",
            l.header(),
            l.iteration_cost()
        )?;
    }
    Ok(())
}

/// Prints the value of the greatest walk, and which loops are regions in its section.
fn show_loop_kinds(rt: &HostRuntime, solved: &Solved) -> io::Result<()> {
    println!(rt; "  value {}", solved.value())?;
    for l in solved.section().loops() {
        let article = if l.region() { "a" } else { "no" };
        println!(rt; "  loop {}, {article} region", l.header())?;
    }
    Ok(())
}

/// Prints why there is no greatest walk.
fn show_none(rt: &HostRuntime, fault: Option<SolveFault>) -> io::Result<()> {
    match fault {
        None => println!(rt; "  no walk"),
        Some(SolveFault::TooLarge) => println!(rt; "  too large"),
        Some(SolveFault::NoMemory) => Err(io::Error::from(AllocError)),
    }
}

/// Prints the greatest walk, without its section where only its value is asked.
fn show_longest(
    rt: &HostRuntime,
    problem: &Problem,
    nest: &Nest,
    loads: &[u64],
    value_alone: bool,
) -> io::Result<()>
    requires nest { IsNest problem.now.graph nest.now }
    requires reducible { IsReducible problem.now.graph }
    requires costs { vec_len problem.now.costs ≡ problem.now.graph.nodes }
    requires bounds { vec_len problem.now.bounds ≡ length nest.now }
    requires loads { length loads.now ≡ length nest.now }
{
    let (g, costs, bounds) = (&problem.graph, &problem.costs, &problem.bounds);
    match longest(rt.alloc(), g, nest, costs, bounds, loads) {
        Ok(Some(solved)) => {
            if value_alone {
                println!(rt; "  value {}", solved.value())
            } else {
                show_section(rt, &solved)
            }
        }
        Ok(None) => show_none(rt, None),
        Err(fault) => show_none(rt, Some(fault)),
    }
}

/// Prints the greatest walk where some loops are regions.
fn show_regions(
    rt: &HostRuntime,
    problem: &Problem,
    nest: &Nest,
    loads: &[u64],
    regions: &[bool],
) -> io::Result<()>
    requires nest { IsNest problem.now.graph nest.now }
    requires reducible { IsReducible problem.now.graph }
    requires costs { vec_len problem.now.costs ≡ problem.now.graph.nodes }
    requires bounds { vec_len problem.now.bounds ≡ length nest.now }
    requires loads { length loads.now ≡ length nest.now }
{
    if regions.len() != nest.loops().len() {
        return println!(rt; "  bad line");
    }
    let (g, costs, bounds) = (&problem.graph, &problem.costs, &problem.bounds);
    match longest_with_regions(rt.alloc(), g, nest, costs, bounds, loads, regions) {
        Ok(Some(solved)) => show_loop_kinds(rt, &solved),
        Ok(None) => show_none(rt, None),
        Err(fault) => show_none(rt, Some(fault)),
    }
}

/// Prints the value of the greatest walk, and whether the section that shows it is accepted.
fn show_accepted(rt: &HostRuntime, problem: &Problem, nest: &Nest, loads: &[u64]) -> io::Result<()>
    requires nest { IsNest problem.now.graph nest.now }
    requires reducible { IsReducible problem.now.graph }
    requires costs { vec_len problem.now.costs ≡ problem.now.graph.nodes }
    requires bounds { vec_len problem.now.bounds ≡ length nest.now }
    requires loads { length loads.now ≡ length nest.now }
{
    let (g, costs, bounds) = (&problem.graph, &problem.costs, &problem.bounds);
    match longest(rt.alloc(), g, nest, costs, bounds, loads) {
        Ok(Some(solved)) => {
            let fitting: Vec<Option<u64>> = loads
                .iter()
                .map(|load| Some(*load))
                .collect(rt.alloc())?;
            let value = solved.value();
            let shown = check_section(g, costs, bounds, &fitting, solved.section());
            println!(rt; "  longest {value}, accepted {}", shown == Ok(Some(value)))
        }
        Ok(None) => println!(rt; "  longest none"),
        Err(SolveFault::TooLarge) => println!(rt; "  longest too large"),
        Err(SolveFault::NoMemory) => Err(io::Error::from(AllocError)),
    }
}

/// Prints the value of the greatest walk, whatever iterations cost, and whether they exceed 64 bits.
fn show_greatest(rt: &HostRuntime, problem: &Problem, nest: &Nest, loads: &[u64]) -> io::Result<()>
    requires nest { IsNest problem.now.graph nest.now }
    requires reducible { IsReducible problem.now.graph }
    requires costs { vec_len problem.now.costs ≡ problem.now.graph.nodes }
    requires bounds { vec_len problem.now.bounds ≡ length nest.now }
    requires loads { length loads.now ≡ length nest.now }
{
    let (g, costs, bounds) = (&problem.graph, &problem.costs, &problem.bounds);
    let Ok(found) = greatest(rt.alloc(), g, nest, costs, bounds, loads) else {
        return Err(io::Error::from(AllocError));
    };
    let Some(found) = found else {
        return println!(rt; "  greatest none");
    };
    let iterations = if found.turns_exceed {
        ", iterations exceed"
    } else {
        ""
    };
    match found.value {
        Some(value) => println!(rt; "  greatest {value}{iterations}"),
        None => println!(rt; "  greatest too large{iterations}"),
    }
}

/// Prints the greatest walk as it is found in several ways.
fn show_walks(rt: &HostRuntime, problem: &Problem, nest: &Nest, loads: &[u64]) -> io::Result<()>
    requires nest { IsNest problem.now.graph nest.now }
    requires reducible { IsReducible problem.now.graph }
    requires costs { vec_len problem.now.costs ≡ problem.now.graph.nodes }
    requires bounds { vec_len problem.now.bounds ≡ length nest.now }
    requires loads { length loads.now ≡ length nest.now }
{
    show_accepted(rt, problem, nest, loads)?;
    show_greatest(rt, problem, nest, loads)?;
    match greatest_walk(rt.alloc(), problem, nest, loads)? {
        Greatest::Value(value) => println!(rt; "  walks {value}"),
        Greatest::NoWalk => println!(rt; "  walks none"),
        Greatest::CutOff => println!(rt; "  walks cut off"),
    }
}

/// Prints what is asked of the greatest walk.
pub fn show_found(rt: &HostRuntime, problem: &Problem, asked: Asked<'_>) -> io::Result<()> {
    match nest(rt.alloc(), &problem.graph) {
        Ok(nest) => show_asked(rt, problem, &nest, asked),
        Err(_) => println!(rt; "  no nest"),
    }
}

/// What an entry of each loop loads: nothing for a region that doesn't fit.
fn loads_of(alloc: Global, problem: &Problem) -> Result<Vec<u64>, AllocError> {
    let mut loads = Vec::new(alloc);
    for load in &problem.loads {
        loads.push(load.unwrap_or(0))?;
    }
    Ok(loads)
}

/// Prints what is asked of the greatest walk of a graph with these loops.
fn show_asked(rt: &HostRuntime, problem: &Problem, nest: &Nest, asked: Asked<'_>) -> io::Result<()>
    requires nest { IsNest problem.now.graph nest.now }
    requires reducible { IsReducible problem.now.graph }
{
    let loads = loads_of(rt.alloc(), problem)?;
    let loops = nest.loops().len();
    let are_costs = problem.costs.len() == problem.graph.nodes() as usize;
    if !are_costs || problem.bounds.len() != loops || loads.len() != loops {
        return println!(rt; "  bad line");
    }
    match asked {
        Asked::Value => show_longest(rt, problem, nest, &loads, true),
        Asked::Section => show_longest(rt, problem, nest, &loads, false),
        Asked::Regions(regions) => show_regions(rt, problem, nest, &loads, regions),
        Asked::Walks => show_walks(rt, problem, nest, &loads),
        Asked::Prices(facts) => show_prices(rt, problem, nest, &loads, facts),
    }
}

/// So many nodes of cost 1, one after another, if there are any.
fn chain(alloc: Global, nodes: u32) -> Result<Option<Problem>, AllocError> {
    let mut edges = Vec::new(alloc);
    for u in 1..nodes {
        edges.push((u - 1, u))?;
    }
    let exits = vec![in alloc; nodes.saturating_sub(1)]?;
    if !is_graph(nodes, &edges, &exits) {
        return Ok(None);
    }
    Ok(Some(Problem {
        graph: Graph::new(nodes, edges, exits),
        costs: vec![in alloc; 1; nodes as usize]?,
        bounds: Vec::new(alloc),
        loads: Vec::new(alloc),
    }))
}

/// Prints how many basic blocks a graph has, and how many nodes the first has.
fn show_first_block(rt: &HostRuntime, g: &Graph) -> io::Result<()> {
    let Ok(blocks) = blocks(rt.alloc(), g) else {
        return Err(io::Error::from(AllocError));
    };
    let chains = blocks.chains();
    let nodes = match chains {
        [first, ..] => first.len(),
        [] => 0,
    };
    println!(rt; "  blocks {}, the first of {nodes} nodes", chains.len())
}

/// Prints the blocks and the value of the greatest walk of so many nodes, one after another, of cost 1.
pub fn show_chain(rt: &HostRuntime, nodes: u32) -> io::Result<()> {
    let Some(problem) = chain(rt.alloc(), nodes)? else {
        return println!(rt; "  bad line");
    };
    show_first_block(rt, &problem.graph)?;
    show_found(rt, &problem, Asked::Value)
}
