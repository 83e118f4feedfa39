//! What prices are searched for.
ghost use Rattle.std.specs.Prelude.{◌≡◌, length, IfOk};

use base::NoMemory;
use loop_nest::Graph;
use loop_nest::loops::Nest;
use path_solver::topology::TopologicalOrder;
use std::alloc::Global;

/// A node is visited at most so often: in an activation, or from each entry of the loop of this number to the next.
#[derive(Clone, Copy)]
pub struct VisitFact {
    /// The node.
    pub node: u32,
    /// How often it is visited.
    pub most: u32,
    /// The number of the loop in the nest, if visits are counted from entry to entry.
    pub loop_number: Option<usize>,
}

/// A graph with its loops and the order of the nodes from which an exit is reached.
#[derive(Clone, Copy)]
pub struct Problem<'a> {
    pub graph: &'a Graph,
    pub nest: &'a Nest,
    pub topology: &'a TopologicalOrder,
    /// The number of the loop that each node heads.
    pub heads: &'a [Option<usize>],
    /// Of each node, in cycles.
    pub costs: &'a [u64],
    /// Of each loop.
    pub bounds: &'a [u32],
    /// Of an entry of each loop, in cycles.
    pub loads: &'a [u64],
}

/// For each of so many nodes the number of the loop that it heads.
pub fn loops_by_header(
    alloc: Global,
    nodes: usize,
    nest: &Nest,
) -> Result<Vec<Option<usize>>, NoMemory>
    ensures { IfOk result (λ heads. length heads.items ≡ nodes) }
{
    let mut heads: Vec<Option<usize>> = vec![in alloc; None; nodes]?;
    let loops = nest.loops();
    for i in 0..loops.len() {
        if let Some(head) = heads.get_mut(loops[i].header() as usize) {
            *head = Some(i);
        }
    }
    Ok(heads)
}

/// A loop of a graph: its number in the nest and its header.
#[derive(Clone, Copy)]
pub(crate) struct HeadedLoop {
    pub(crate) number: usize,
    pub(crate) header: u32,
}

/// The loop that a node heads.
pub(crate) fn headed(problem: &Problem, u: u32) -> Option<HeadedLoop> {
    match problem.heads.get(u as usize) {
        Some(Some(number)) => Some(HeadedLoop {
            number: *number,
            header: u,
        }),
        _ => None,
    }
}

/// The nodes of the loop of this number, none if there is no such loop.
pub(crate) fn members_of<'a>(problem: &Problem<'a>, loop_number: usize) -> &'a [u32] {
    match problem.nest.loops().get(loop_number) {
        Some(l) => l.members(),
        None => &[],
    }
}

/// The number at a place, 0 past the end.
pub(crate) fn at(numbers: &[i128], place: usize) -> i128 {
    numbers.get(place).copied().unwrap_or(0)
}

/// Writes a number at a place, if there is one.
pub(crate) fn set_at(numbers: &mut [i128], place: usize, next: i128)
    ensures { length numbers.new ≡ length numbers.old }
{
    if let Some(number) = numbers.get_mut(place) {
        *number = next;
    }
}

/// Adds to the number at a place, if there is one.
pub(crate) fn add_at(numbers: &mut [i128], place: usize, more: i128)
    ensures { length numbers.new ≡ length numbers.old }
{
    let sum = at(numbers, place).saturating_add(more);
    set_at(numbers, place, sum);
}
