//! Which nodes edges reach from node 0.
ghost use Rattle.std.specs.Prelude.{◌≡◌, ◌<◌, ◌++◌, ◌^◌, length, IfOk, OnOk};
ghost use Rattle.loop_nest.specs.Digraph.{targets_of};
ghost use Rattle.flow_graph.specs.Reach.{ArePushed, AreReached, AreSpans, AreWithin, span_with};

use base::NoMemory;
use std::alloc::Global;

/// The span that has a place more, where an empty one ends at 0.
fn span_with(span: (usize, usize), place: usize) -> (usize, usize)
    requires { place < 2 ^ 63 }
    ensures { result ≡ span_with span place }
{
    let first = if span.1 == 0 { place } else { span.0 };
    (first, place + 1)
}

/// For each of `nodes` nodes from where and up to where among the edges those from it stand. In rising edges no others are between.
pub fn spans(
    alloc: Global,
    nodes: usize,
    edges: &[(u32, u32)],
) -> Result<Vec<(usize, usize)>, NoMemory>
    requires within { AreWithin nodes edges.now }
    ensures spans { IfOk result (λ spans. AreSpans edges.now spans.items) }
    ensures long { IfOk result (λ spans. length spans.items ≡ nodes) }
{
    let mut spans = vec![in alloc; (0, 0); nodes]?;
    for i in 0..edges.len() {
        let source = edges[i].0 as usize;
        spans[source] = span_with(spans[source], i);
    }
    Ok(spans)
}

/// Puts the targets of those of the edges that come from a node on a stack.
fn push_from(edges: &[(u32, u32)], node: u32, stack: &mut Vec<u32>) -> Result<(), NoMemory>
    ensures { OnOk result (stack.new.items ≡ stack.old.items ++ targets_of edges.now node) }
{
    for edge in edges {
        if edge.0 == node {
            stack.push(edge.1)?;
        }
    }
    Ok(())
}

/// Puts the targets of the edges from a node on a stack.
pub fn push_targets(
    edges: &[(u32, u32)],
    spans: &[(usize, usize)],
    node: u32,
    stack: &mut Vec<u32>,
) -> Result<(), NoMemory>
    requires spans { AreSpans edges.now spans.now }
    requires node { node < length spans.now }
    ensures { OnOk result (ArePushed edges.now node stack.old.items stack.new.items) }
{
    let (first, end) = spans[node as usize];
    push_from(&edges[first..end], node, stack)
}

/// The nodes that are reached.
fn search(
    alloc: Global,
    nodes: usize,
    edges: &[(u32, u32)],
    spans: &[(usize, usize)],
) -> Result<Vec<bool>, NoMemory>
    requires entry { 0 < nodes }
    requires within { AreWithin nodes edges.now }
    requires spans { AreSpans edges.now spans.now }
    requires long { length spans.now ≡ nodes }
    ensures { IfOk result (λ flags. AreReached edges.now nodes flags.items) }
{
    let mut flags = vec![in alloc; false; nodes]?;
    let mut stack = vec![in alloc; 0]?;
    while let Some(x) = stack.pop() {
        if !flags[x as usize] {
            flags[x as usize] = true;
            push_targets(edges, spans, x, &mut stack)?;
        }
    }
    Ok(flags)
}

/// For each of `nodes` nodes whether edges reach it from node 0.
pub fn reached(alloc: Global, nodes: usize, edges: &[(u32, u32)]) -> Result<Vec<bool>, NoMemory>
    requires entry { 0 < nodes }
    requires within { AreWithin nodes edges.now }
    ensures { IfOk result (λ flags. AreReached edges.now nodes flags.items) }
{
    let spans = spans(alloc, nodes, edges)?;
    search(alloc, nodes, edges, &spans)
}
