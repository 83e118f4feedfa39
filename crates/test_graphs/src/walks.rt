//! All walks from node 0 that keep the bounds of loops, made one after another.

use crate::question::Problem;
use loop_nest::loops::Nest;
use std::alloc::{AllocError, Global};

/// How many walks are made at most.
const MOST_WALKS: u32 = 100_000;

/// A loop, how often a stay in it may come to its header again, and what an entry of it loads.
#[derive(Clone, Copy)]
struct BoundedLoop<'a> {
    header: u32,
    members: &'a [u32],
    bound: u32,
    load: u64,
}

/// A walk from node 0, as far as it has come.
#[derive(Drop)]
struct Walk {
    node: u32,
    cost: u128,
    // How often the walk may still come to the header of each loop, where it stands in the loop.
    iterations_left: Vec<Option<u32>>,
}

/// Loops with their bounds and loads.
fn bounded_loops<'a>(
    alloc: Global,
    nest: &'a Nest,
    bounds: &[u32],
    loads: &[u64],
) -> Result<Vec<BoundedLoop<'a>>, AllocError> {
    let mut loops = Vec::new(alloc);
    for ((l, bound), load) in nest.loops().iter().zip(bounds).zip(loads) {
        loops.push(BoundedLoop {
            header: l.header(),
            members: l.members(),
            bound: *bound,
            load: *load,
        })?;
    }
    Ok(loops)
}

/// What a node costs.
fn cost_of(problem: &Problem, node: u32) -> u64 {
    match problem.costs.get(node as usize) {
        Some(cost) => *cost,
        None => 0,
    }
}

impl Walk {
    /// The walk that has come to no node yet, and goes on to node 0.
    fn new(alloc: Global, loops: &[BoundedLoop<'_>]) -> Result<Walk, AllocError> {
        Ok(Walk {
            node: 0,
            cost: 0,
            iterations_left: vec![in alloc; None; loops.len()]?,
        })
    }

    /// The walk that goes on to a node, unless a bound isn't kept there.
    fn onward(
        &self,
        alloc: Global,
        problem: &Problem,
        loops: &[BoundedLoop<'_>],
        node: u32,
    ) -> Result<Option<Walk>, AllocError> {
        let mut cost = self.cost.saturating_add(u128::from(cost_of(problem, node)));
        let mut iterations_left = Vec::new(alloc);
        for (l, left) in loops.iter().zip(&self.iterations_left) {
            let is_header = node == l.header;
            let left = match *left {
                _ if !l.members.contains(&node) => None,
                None => {
                    cost = cost.saturating_add(u128::from(l.load));
                    Some(l.bound)
                }
                Some(0) if is_header => return Ok(None),
                Some(left) if is_header => Some(left - 1),
                Some(left) => Some(left),
            };
            iterations_left.push(left)?;
        }
        Ok(Some(Walk {
            node,
            cost,
            iterations_left,
        }))
    }
}

/// What all walks to an exit come to.
#[derive(Clone, Copy)]
pub enum Greatest {
    /// What the greatest costs.
    Value(u128),
    /// There is none.
    NoWalk,
    /// There are too many to make them all.
    CutOff,
}

/// Puts the walks that go on from a walk's node onto the unfinished ones.
fn go_on(
    alloc: Global,
    problem: &Problem,
    loops: &[BoundedLoop<'_>],
    walk: &Walk,
    unfinished: &mut Vec<Walk>,
) -> Result<(), AllocError> {
    for (u, v) in problem.graph.edges() {
        if *u == walk.node {
            if let Some(next) = walk.onward(alloc, problem, loops, *v)? {
                unfinished.push(next)?;
            }
        }
    }
    Ok(())
}

/// What the greatest walk to an exit costs among the unfinished ones and those that go on from them.
fn greatest_of(
    alloc: Global,
    problem: &Problem,
    loops: &[BoundedLoop<'_>],
    unfinished: &mut Vec<Walk>,
) -> Result<Greatest, AllocError> {
    let mut greatest = None;
    for _ in 0..MOST_WALKS {
        let Some(walk) = unfinished.pop() else {
            return Ok(greatest.map_or(Greatest::NoWalk, Greatest::Value));
        };
        if problem.graph.exits().contains(&walk.node) {
            greatest = greatest.max(Some(walk.cost));
        }
        go_on(alloc, problem, loops, &walk, unfinished)?;
    }
    Ok(Greatest::CutOff)
}

/// What the greatest walk to an exit costs, found by making all walks.
pub fn greatest_walk(
    alloc: Global,
    problem: &Problem,
    nest: &Nest,
    loads: &[u64],
) -> Result<Greatest, AllocError> {
    let loops = bounded_loops(alloc, nest, &problem.bounds, loads)?;
    let mut unfinished = Vec::new(alloc);
    if let Some(walk) = Walk::new(alloc, &loops)?.onward(alloc, problem, &loops, 0)? {
        unfinished.push(walk)?;
    }
    greatest_of(alloc, problem, &loops, &mut unfinished)
}
