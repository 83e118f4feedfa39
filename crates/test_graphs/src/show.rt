//! What is printed of a graph: its loops, its basic blocks and what the checks of a section say.

use crate::question::Problem;
use loop_nest::loops::{Loop, NestFault};
use loop_nest::{Graph, blocks, nest};
use path_solver::check_section;
use path_solver::form::is_in_form;
use path_solver::section::{Section, SectionFault};
use section_index::check_with_index;
use std::alloc::AllocError;
use std::io;

/// Prints nodes, each behind a blank.
fn show_nodes(rt: &HostRuntime, nodes: &[u32]) -> io::Result<()> {
    for u in nodes {
        print!(rt; " {u}")?;
    }
    Ok(())
}

/// The next loop around a loop.
fn outer_of<'a>(loops: &'a [Loop], l: &Loop) -> Option<&'a Loop> {
    loops.get(l.outer()? as usize)
}

/// Prints a loop and the next loop around it.
fn show_loop(rt: &HostRuntime, loops: &[Loop], l: &Loop) -> io::Result<()> {
    print!(rt; "  loop {}:", l.header())?;
    show_nodes(rt, l.members())?;
    match outer_of(loops, l) {
        Some(outer) => println!(rt; ", in loop {}", outer.header()),
        None => println!(rt; ""),
    }
}

/// Prints loops.
fn show_loops(rt: &HostRuntime, loops: &[Loop]) -> io::Result<()> {
    for l in loops {
        show_loop(rt, loops, l)?;
    }
    Ok(())
}

/// Prints nodes behind a title, and ends the line.
fn show_titled(rt: &HostRuntime, title: &str, nodes: &[u32]) -> io::Result<()> {
    print!(rt; "  {title}")?;
    show_nodes(rt, nodes)?;
    println!(rt; "")
}

/// Prints the loops of a graph, or what its reduction leaves.
pub fn show_nest(rt: &HostRuntime, g: &Graph) -> io::Result<()> {
    match nest(rt.alloc(), g) {
        Ok(nest) => show_loops(rt, nest.loops()),
        Err(NestFault::Irreducible(left)) => show_titled(rt, "irreducible:", &left),
        Err(NestFault::NoMemory) => Err(io::Error::from(AllocError)),
    }
}

/// Prints basic blocks.
fn show_chains(rt: &HostRuntime, chains: &[Vec<u32>]) -> io::Result<()> {
    for chain in chains {
        show_titled(rt, "block", chain)?;
    }
    Ok(())
}

/// Prints the basic blocks of a graph.
pub fn show_blocks(rt: &HostRuntime, g: &Graph) -> io::Result<()> {
    match blocks(rt.alloc(), g) {
        Ok(blocks) => show_chains(rt, blocks.chains()),
        Err(_) => Err(io::Error::from(AllocError)),
    }
}

/// Prints how many loops and basic blocks a graph has.
pub fn show_counts(rt: &HostRuntime, g: &Graph) -> io::Result<()> {
    let Ok(nest) = nest(rt.alloc(), g) else {
        return println!(rt; "  no nest");
    };
    match blocks(rt.alloc(), g) {
        Ok(blocks) => {
            println!(rt;
                "  loops {}, blocks {}",
                nest.loops().len(),
                blocks.chains().len()
            )
        }
        Err(_) => Err(io::Error::from(AllocError)),
    }
}

/// Prints what a check of a section says.
fn show_answer(rt: &HostRuntime, answer: Result<Option<u64>, SectionFault>) -> io::Result<()> {
    match answer {
        Ok(Some(value)) => println!(rt; "  value {value}"),
        Ok(None) => println!(rt; "  no value"),
        Err(SectionFault::Member(u)) => println!(rt; "  node {u} is misplaced"),
        Err(SectionFault::Edge(u, v)) => println!(rt; "  edge {u}-{v} fails"),
        Err(SectionFault::Exit(u)) => println!(rt; "  exit {u} fails"),
    }
}

/// Prints what the check of a section says that has an index of its loops, and, where `both` says so, whether the check
/// without an index says the same.
pub fn show_check(
    rt: &HostRuntime,
    problem: &Problem,
    section: &Section,
    both: bool,
) -> io::Result<()> {
    let (g, costs) = (&problem.graph, &problem.costs);
    let (bounds, loads) = (&problem.bounds, &problem.loads);
    if costs.len() != g.nodes() as usize || !is_in_form(section, bounds, loads) {
        return println!(rt; "  bad line");
    }
    let Ok(answer) = check_with_index(rt.alloc(), g, costs, bounds, loads, section) else {
        return Err(io::Error::from(AllocError));
    };
    if both && check_section(g, costs, bounds, loads, section) != answer {
        return println!(rt; "  the two checks differ");
    }
    show_answer(rt, answer)
}
