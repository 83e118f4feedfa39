//! Graphs of methods, and what is shown of them.
ghost use Rattle.std.specs.Prelude.{◌<◌, length};

use crate::calls::{name_of, show_calls};
use crate::regions::show_regions;
use flow_graph::{MethodGraph, graph_of};
use loop_nest::loops::{Loop, NestFault};
use loop_nest::nest;
use method_flow::FlowProgram;
use std::alloc::{AllocError, Global};
use test_rows::RowFault;

/// Writes a node behind a mark.
fn show_node(out: &mut String, graph: &MethodGraph, mark: &str, u: u32) -> Result<(), AllocError> {
    match graph.nodes.as_slice().get(u as usize) {
        Some((place, false)) => write!(out, "{mark}{place}"),
        Some((place, true)) => write!(out, "{mark}{place}r"),
        None => write!(out, "{mark}none"),
    }
}

/// Writes nodes, and ends the line.
fn show_nodes(out: &mut String, graph: &MethodGraph, nodes: &[u32]) -> Result<(), AllocError> {
    for u in nodes {
        show_node(out, graph, " ", *u)?;
    }
    writeln!(out, "")
}

/// Writes the nodes, the edges and the exits of a graph.
fn show_graph(alloc: Global, out: &mut String, graph: &MethodGraph) -> Result<(), AllocError> {
    let nodes: Vec<u32> = (0..graph.graph.nodes()).collect(alloc)?;
    write!(out, "  nodes")?;
    show_nodes(out, graph, &nodes)?;
    write!(out, "  edges")?;
    for (u, v) in graph.graph.edges() {
        show_node(out, graph, " ", *u)?;
        show_node(out, graph, "-", *v)?;
    }
    write!(out, "\n  exits")?;
    show_nodes(out, graph, graph.graph.exits())
}

/// The next loop around a loop.
fn outer_of<'a>(loops: &'a [Loop], l: &Loop) -> Option<&'a Loop> {
    loops.get(l.outer()? as usize)
}

/// Writes a loop of a method, and its region.
fn show_loop(
    alloc: Global,
    out: &mut String,
    f: &FlowProgram,
    m: u32,
    graph: &MethodGraph,
    loops: &[Loop],
    l: &Loop,
) -> Result<(), RowFault>
    requires { m < length f.now.methods }
{
    show_node(out, graph, "  loop ", l.header())?;
    if let Some(outer) = outer_of(loops, l) {
        show_node(out, graph, " in ", outer.header())?;
    }
    write!(out, ":")?;
    show_nodes(out, graph, l.members())?;
    let mut members = Vec::new(alloc);
    for u in l.members() {
        if let Some((place, raised)) = graph.nodes.as_slice().get(*u as usize) {
            members.push(place.saturating_mul(2).saturating_add(u32::from(*raised)))?;
        }
    }
    show_regions(alloc, out, f, m, Some(&members), "  ")
}

/// Writes the loops of a method, or the nodes that the reduction of its graph leaves.
fn show_loops(
    alloc: Global,
    out: &mut String,
    f: &FlowProgram,
    m: u32,
    graph: &MethodGraph,
) -> Result<(), RowFault>
    requires { m < length f.now.methods }
{
    match nest(alloc, &graph.graph) {
        Ok(nest) => {
            for l in nest.loops() {
                show_loop(alloc, out, f, m, graph, nest.loops(), l)?;
            }
            Ok(())
        }
        Err(NestFault::Irreducible(left)) => {
            write!(out, "  irreducible")?;
            Ok(show_nodes(out, graph, &left)?)
        }
        Err(NestFault::NoMemory) => Err(RowFault::NoMemory),
    }
}

/// What is found of a method.
fn method_text(alloc: Global, f: &FlowProgram, m: u32) -> Result<String, RowFault>
    requires { m < length f.now.methods }
{
    let mut out = String::new(alloc);
    let graph = graph_of(alloc, f.method(m))?;
    show_graph(alloc, &mut out, &graph)?;
    show_calls(&mut out, f, m)?;
    show_regions(alloc, &mut out, f, m, None, "")?;
    show_loops(alloc, &mut out, f, m, &graph)?;
    Ok(out)
}

/// Whether a name is that of a method of the core classes.
fn is_of_core(name: &str) -> bool {
    name.starts_with("java/") || name.starts_with("jop/Io.")
}

/// Prints what is found of the methods but those of the core classes, or of all.
pub fn show_methods(rt: &HostRuntime, f: &FlowProgram, all: bool) -> Result<(), RowFault> {
    for m in 0..f.method_count() {
        let name = name_of(f, m);
        if all || !is_of_core(name) {
            let text = method_text(rt.alloc(), f, m)?;
            print!(*rt; "method {name}\n{text}")?;
        }
    }
    Ok(())
}
