//! Prices that are guessed on the way of one sweep.
ghost use Rattle.std.specs.Prelude.{◌≡◌, length, IfOk};
ghost use Rattle.price_search.specs.Problem.{HasSources};

use super::problem::{HeadedLoop, Problem, VisitFact, at, headed, members_of};
use super::reduced::{Reduced, give};
use super::sweep::{End, Sweep, close_loop, dearest_iteration};
use base::NoMemory;
use std::alloc::Global;

/// What the guess knows and what it has found: for each node the number of the least loop that has it, and for each fact
/// whether it still wants a price, and its price; what is swept so far, and the costs with the prices so far.
#[derive(Drop)]
pub(crate) struct Guess {
    pub(crate) innermost: Vec<Option<usize>>,
    pub(crate) wanted: Vec<bool>,
    pub(crate) prices: Vec<u64>,
    pub(crate) sweep: Sweep,
    pub(crate) reduced: Reduced,
}

/// Writes a loop's number at those of its nodes of which no smaller loop is known.
fn mark_members(problem: &Problem, loop_number: usize, innermost: &mut [Option<usize>])
    ensures { length innermost.new ≡ length innermost.old }
{
    let members = members_of(problem, loop_number);
    for u in members {
        if let Some(least) = innermost.get_mut(*u as usize) {
            let is_least = match *least {
                Some(other) => members.len() < members_of(problem, other).len(),
                None => true,
            };
            if is_least {
                *least = Some(loop_number);
            }
        }
    }
}

/// For each node the number of the least loop that has it.
pub(crate) fn innermost_loops(
    alloc: Global,
    problem: &Problem,
) -> Result<Vec<Option<usize>>, NoMemory> {
    let nodes = problem.graph.nodes() as usize;
    let mut innermost: Vec<Option<usize>> = vec![in alloc; None; nodes]?;
    for i in 0..problem.nest.loops().len() {
        mark_members(problem, i, &mut innermost);
    }
    Ok(innermost)
}

/// Whether the walk that comes to `last` from `first` has the node.
fn is_on_way(before: &[u32], first: u32, last: u32, node: u32) -> bool {
    let mut u = last;
    for _ in 0..before.len() {
        if u == node {
            return true;
        }
        if u == first {
            return false;
        }
        u = before.get(u as usize).copied().unwrap_or(first);
    }
    false
}

/// Of the facts that want a price the first whose node is on the dearest iteration of its least loop.
fn fact_on_way(facts: &[VisitFact], head: HeadedLoop, last: u32, guess: &Guess) -> Option<usize> {
    let before = guess.sweep.before.as_slice();
    for f in 0..facts.len() {
        let node = facts[f].node;
        let is_wanted = guess.wanted.get(f).copied().unwrap_or(false);
        let inner = guess.innermost.get(node as usize).copied().flatten();
        if is_wanted && inner == Some(head.number) && is_on_way(before, head.header, last, node) {
            return Some(f);
        }
    }
    None
}

/// The price that an iteration costs, 0 where it costs less.
fn price_of(cost: i128) -> u64 {
    if cost <= 0 {
        return 0;
    }
    u64::try_from(cost).unwrap_or(u64::MAX)
}

/// Gives a fact its price, once and for all.
fn set_price(guess: &mut Guess, f: usize, fact: VisitFact, price: u64)
    ensures { length guess.new.prices.items ≡ length guess.old.prices.items }
{
    if let Some(wanted) = guess.wanted.get_mut(f) {
        *wanted = false;
    }
    if let Some(place) = guess.prices.get_mut(f) {
        *place = price;
    }
    give(&mut guess.reduced, fact, price);
}

/// Gives the first wanted fact on the dearest iteration its cost as its price; whether there was one.
fn price_iteration(facts: &[VisitFact], head: HeadedLoop, last: End, guess: &mut Guess) -> bool
    ensures { length guess.new.prices.items ≡ length guess.old.prices.items }
{
    if last.cost <= 0 {
        return false;
    }
    let Some(f) = fact_on_way(facts, head, last.node, guess) else {
        return false;
    };
    let Some(fact) = facts.get(f) else {
        return false;
    };
    set_price(guess, f, *fact, price_of(last.cost));
    true
}

/// What the dearest iteration costs once the facts on it have their prices.
fn priced_iteration(
    alloc: Global,
    problem: &Problem,
    facts: &[VisitFact],
    head: HeadedLoop,
    guess: &mut Guess,
) -> Result<i128, NoMemory>
    requires { HasSources problem.now }
    ensures { length guess.new.prices.items ≡ length guess.old.prices.items }
{
    let mut cost = 0;
    for _ in 0..=facts.len() {
        let costs = guess.reduced.costs.as_slice();
        let Some(last) = dearest_iteration(alloc, problem, head, costs, &mut guess.sweep)? else {
            return Ok(0);
        };
        cost = last.cost;
        if !price_iteration(facts, head, last, guess) {
            break;
        }
    }
    Ok(cost)
}

/// Prices the facts on the dearest iteration of the loop that a node heads, if it heads one; the loops inside are done.
fn guess_loop(
    alloc: Global,
    problem: &Problem,
    facts: &[VisitFact],
    u: u32,
    guess: &mut Guess,
) -> Result<(), NoMemory>
    requires { HasSources problem.now }
    ensures { length guess.new.prices.items ≡ length guess.old.prices.items }
{
    let Some(head) = headed(problem, u) else {
        return Ok(());
    };
    let cost = priced_iteration(alloc, problem, facts, head, guess)?;
    let due = at(&guess.reduced.dues, head.number);
    close_loop(problem, head, cost, due, &mut guess.sweep);
    Ok(())
}

/// Prices the wanted facts by what the dearest iterations cost, loops inside first.
pub(crate) fn guess_prices(
    alloc: Global,
    problem: &Problem,
    facts: &[VisitFact],
    guess: &mut Guess,
) -> Result<(), NoMemory>
    requires { HasSources problem.now }
    ensures { length guess.new.prices.items ≡ length guess.old.prices.items }
{
    for u in problem.topology.order.as_slice().iter().rev() {
        guess_loop(alloc, problem, facts, *u, guess)?;
    }
    Ok(())
}
