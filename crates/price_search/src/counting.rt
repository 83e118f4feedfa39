//! How often a greatest walk visits nodes and enters loops.
ghost use Rattle.price_search.specs.Problem.{HasSources};

use super::problem::{HeadedLoop, Problem, VisitFact, add_at, at, headed};
use super::sweep::{Sweep, back_sources, greatest_end};
use base::NoMemory;
use std::alloc::Global;

/// How often each node is visited, and each loop entered.
#[derive(Drop)]
pub(crate) struct Counts {
    pub(crate) visits: Vec<i128>,
    pub(crate) entries: Vec<i128>,
}

/// A way through a graph that is taken so many times. Its first node enters the loop that it heads or not.
#[derive(Clone, Copy)]
struct Way {
    first: u32,
    last: u32,
    times: i128,
    enters: bool,
}

/// Counts a visit of a node on a way.
fn count_node(problem: &Problem, way: Way, u: u32, c: &mut Counts) {
    add_at(&mut c.visits, u as usize, way.times);
    if let Some(head) = headed(problem, u) {
        if way.enters || u != way.first {
            add_at(&mut c.entries, head.number, way.times);
        }
    }
}

/// Counts a way, from its last node on.
fn count_way(problem: &Problem, before: &[u32], way: Way, c: &mut Counts) {
    let mut u = way.last;
    for _ in 0..before.len() {
        count_node(problem, way, u, c);
        if u == way.first {
            return;
        }
        u = before.get(u as usize).copied().unwrap_or(way.first);
    }
}

/// Counts the iterations of a loop; its entries are counted.
fn count_iterations(problem: &Problem, head: HeadedLoop, costs: &[i128], s: &Sweep, c: &mut Counts)
    requires { HasSources problem.now }
{
    let bound = i128::from(problem.bounds.get(head.number).copied().unwrap_or(0));
    let times = bound.saturating_mul(at(&c.entries, head.number));
    if times <= 0 || at(&s.iteration_costs, head.number) <= 0 {
        return;
    }
    if let Some(end) = greatest_end(back_sources(problem, head.header), costs, &s.dist) {
        let way = Way {
            first: head.header,
            last: end.node,
            times,
            enters: false,
        };
        count_way(problem, &s.before, way, c);
    }
}

/// The counts of a greatest walk.
pub(crate) fn counted(
    alloc: Global,
    problem: &Problem,
    costs: &[i128],
    s: &Sweep,
) -> Result<Counts, NoMemory>
    requires { HasSources problem.now }
{
    let visits = vec![in alloc; 0; problem.graph.nodes() as usize]?;
    let entries = vec![in alloc; 0; problem.nest.loops().len()]?;
    let mut c = Counts { visits, entries };
    let way = Way {
        first: 0,
        last: s.last,
        times: 1,
        enters: true,
    };
    count_way(problem, &s.before, way, &mut c);
    for u in &problem.topology.order {
        if let Some(head) = headed(problem, *u) {
            count_iterations(problem, head, costs, s, &mut c);
        }
    }
    Ok(c)
}

/// How many visits the fact allows more than there are.
pub(crate) fn slack(fact: VisitFact, c: &Counts) -> i128 {
    let most = i128::from(fact.most);
    let allowed = match fact.loop_number {
        Some(i) => most.saturating_mul(at(&c.entries, i)),
        None => most,
    };
    allowed.saturating_sub(at(&c.visits, fact.node as usize))
}
