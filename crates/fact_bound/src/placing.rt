//! The facts of a method that may have prices, and the prices that they have.

use base::NoMemory;
use flow_facts::{CountFact, Facts, Scope};
use price_search::{Problem, VisitFact};
use priced_cert::{Price, Prices};
use std::alloc::Global;

/// Facts of visits by method: of each method the place of one in the list, and of each fact that of the next one of its
/// method.
#[derive(Drop)]
pub(crate) struct MethodFacts<'a> {
    counts: &'a [CountFact],
    first: Vec<Option<usize>>,
    next: Vec<Option<usize>>,
}

/// The facts of visits of so many methods.
pub(crate) fn facts_by_method(
    alloc: Global,
    facts: &Facts,
    methods: u32,
) -> Result<MethodFacts<'_>, NoMemory> {
    let counts = facts.counts();
    let mut first: Vec<Option<usize>> = vec![in alloc; None; methods as usize]?;
    let mut next = Vec::new(alloc);
    for i in 0..counts.len() {
        match first.get_mut(counts[i].method() as usize) {
            Some(head) => {
                next.push(*head)?;
                *head = Some(i);
            }
            None => next.push(None)?,
        }
    }
    Ok(MethodFacts {
        counts,
        first,
        next,
    })
}

/// A fact of a node of a method's live graph: under the node's number in the compact graph, and the node and the header
/// that its price names.
#[derive(Clone, Copy)]
pub(crate) struct PlacedFact {
    visit: VisitFact,
    node: u32,
    header: Option<u32>,
}

/// The number of a node in the compact graph, if it has the node.
fn compact_number(nodes: &[u32], node: u32) -> Option<u32> {
    for i in 0..nodes.len() {
        if nodes[i] == node {
            return u32::try_from(i).ok();
        }
    }
    None
}

/// The number of the loop with this header, if it has the node.
fn held_loop(problem: &Problem, header: u32, node: u32) -> Option<usize> {
    let number = problem.heads.get(header as usize).copied().flatten()?;
    let held = problem.nest.loops().get(number)?;
    if held.members().contains(&node) {
        Some(number)
    } else {
        None
    }
}

/// A fact of visits in an activation.
fn own_fact(nodes: &[u32], node: u32, most: u32) -> Option<PlacedFact> {
    let number = compact_number(nodes, node)?;
    Some(PlacedFact {
        visit: VisitFact {
            node: number,
            most,
            loop_number: None,
        },
        node,
        header: None,
    })
}

/// A fact of visits from each entry of a loop to the next, where the loop has the node.
fn loop_fact(
    problem: &Problem,
    nodes: &[u32],
    node: u32,
    most: u32,
    header: u32,
) -> Option<PlacedFact> {
    let number = compact_number(nodes, node)?;
    let loop_number = held_loop(problem, compact_number(nodes, header)?, number)?;
    Some(PlacedFact {
        visit: VisitFact {
            node: number,
            most,
            loop_number: Some(loop_number),
        },
        node,
        header: Some(header),
    })
}

/// A fact of the method, where it may have a price in the method's section.
fn placed_fact(problem: &Problem, nodes: &[u32], fact: &CountFact) -> Option<PlacedFact> {
    let [node] = fact.nodes() else {
        return None;
    };
    match fact.scope() {
        Scope::Own => own_fact(nodes, *node, fact.most()),
        Scope::Per(place) => {
            loop_fact(problem, nodes, *node, fact.most(), place.checked_mul(2)?)
        }
        Scope::In(_) => None,
    }
}

/// The fact at this place of the list, where it may have a price in its method's section.
fn placed_at(
    problem: &Problem,
    nodes: &[u32],
    facts: &MethodFacts<'_>,
    place: usize,
) -> Option<PlacedFact> {
    placed_fact(problem, nodes, facts.counts.get(place)?)
}

/// The facts of the method `m` that may have prices in its section, in the order in which prices stand there. `nodes` are the
/// nodes of the problem's graph by their numbers in it.
pub(crate) fn placed_facts(
    alloc: Global,
    problem: &Problem,
    nodes: &[u32],
    m: u32,
    facts: &MethodFacts<'_>,
) -> Result<Vec<PlacedFact>, NoMemory> {
    let mut placed = Vec::new(alloc);
    let mut place = facts.first.get(m as usize).copied().flatten();
    for _ in 0..facts.counts.len() {
        let Some(i) = place else {
            break;
        };
        if let Some(fact) = placed_at(problem, nodes, facts, i) {
            placed.push(fact)?;
        }
        place = facts.next.get(i).copied().flatten();
    }
    placed.sort_unstable_by_key(|f| (f.header.is_some(), f.node, f.header.unwrap_or(0)));
    Ok(placed)
}

/// The facts under the numbers of the compact graph.
pub(crate) fn visits(alloc: Global, facts: &[PlacedFact]) -> Result<Vec<VisitFact>, NoMemory> {
    let mut visits = Vec::new(alloc);
    for fact in facts {
        visits.push(fact.visit)?;
    }
    Ok(visits)
}

/// The prices that aren't 0, of these facts in their order.
pub(crate) fn section_prices(
    alloc: Global,
    facts: &[PlacedFact],
    prices: &[u64],
) -> Result<Prices, NoMemory> {
    let mut found = Vec::new(alloc);
    for i in 0..facts.len() {
        let price = prices.get(i).copied().unwrap_or(0);
        if price > 0 {
            found.push(Price {
                node: facts[i].node,
                header: facts[i].header,
                price,
            })?;
        }
    }
    Ok(Prices::new(found))
}
