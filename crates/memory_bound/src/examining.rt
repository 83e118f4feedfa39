//! What is found of each method, in an order in which a method stands behind all that it may run.
ghost use Rattle.std.specs.Prelude.{◌≡◌, ◌<◌, ℕ, [], length, replicate, All, Contains, IfOk, MatchOption};
ghost use Rattle.bytecode_model.specs.Program.{Program};
ghost use Rattle.loop_nest.specs.Digraph.{Digraph};
ghost use Rattle.method_flow.specs.Flow.{IsFlowOf};
ghost use Rattle.path_solver.specs.Longest.{WalkExceeds, bounded_loops};
ghost use Rattle.section_check.specs.Bounded.{IsGreatest};
ghost use Rattle.bound_rules.specs.Bounding.{IsLeftWith};
ghost use Rattle.bound_rules.specs.Laws.{ReachesStarts};
ghost use Rattle.call_regions.specs.Calling.{IsTargetsFirst};
ghost use Rattle.memory_bound.specs.Setting.{ForEach, bounds_in, lengths_in};
ghost use Rattle.memory_rules.specs.Heap.{OfMethod};
ghost use Rattle.memory_bound.specs.Found.{AreFound, HaveBoundsWithin, IsMemoryFoundOf, IsMostOr, found_at};
ghost use Rattle.memory_bound.specs.Examined.{AreFoundIn, AreToldReducible, TellsReducible};
ghost use Rattle.memory_bound.specs.Shapes.{IsShapeIn, IsShapeOf};
ghost use Rattle.memory_bound.specs.Loops.{AreBoundsOf, AreLoopsFound};

use super::found::{Found, UNKNOWN};
use super::laws::{heap_laws, leaves_nodes_or_none};
use super::lengths::first_unlimited;
use super::loops::{first_unbounded, headers, making_bounds};
use super::making::{making_loops, some_node_makes};
use super::shapes::{Shape, ShapeFault, shape_of};
use super::task::Task;
use super::words::words_of;
use base::NoMemory;
use method_flow::laws::rows_are_of_their_kinds;
use node_costs::bounds_of_headers;
use opcodes::laws::starts_follow_one_another;
use path_solver::solved::SolveFault;
use path_solver::stops::greatest_stop;
use std::alloc::Global;

/// The loops that make objects: which is the first without a bound, and the bounds of all, 0 for those that make none.
#[derive(Drop)]
pub struct MakingLoops {
    pub unbounded: Option<u32>,
    pub bounds: Vec<u32>,
}

/// Says that control comes from the first instruction of the method `m` to instructions of the code alone.
fn starts_are_reached(task: &Task<'_>, m: u32)
    requires { m < length task.now.flow.methods }
    ensures { ForEach task.now (λ P. ReachesStarts P m) }
{
    // The laws are for the proof.
    starts_follow_one_another();
    rows_are_of_their_kinds();
    // Its clause is for the proof alone.
    let _code = task.method(m).code();
}

/// What the greatest walk makes, or `None` where it exceeds 64 bits.
fn greatest(
    alloc: Global,
    s: &Shape,
    words: &[u64],
    bounds: &[u32],
) -> Result<Option<u64>, NoMemory>
    requires shape { (g : Digraph) × IsShapeIn g s.now }
    requires words { length words.now ≡ length s.now.nodes }
    requires bounds { length bounds.now ≡ length s.now.nest }
    ensures { let loops = bounded_loops s.now.nest bounds.now (replicate (length s.now.nest) 0) in
        IfOk result (λ o. MatchOption o (WalkExceeds s.now.graph words.now loops) (IsGreatest s.now.graph words.now loops)) }
{
    match greatest_stop(alloc, &s.graph, &s.nest, words, bounds) {
        Ok(words) => Ok(Some(words)),
        Err(SolveFault::TooLarge) => Ok(None),
        Err(SolveFault::NoMemory) => Err(NoMemory),
    }
}

/// The loops of the method `m` that make objects.
fn loops_of(
    alloc: Global,
    task: &Task<'_>,
    m: u32,
    making: &[bool],
    s: &Shape,
) -> Result<MakingLoops, NoMemory>
    requires method { m < length task.now.flow.methods }
    requires shape { (g : Digraph) × IsShapeIn g s.now }
    requires making { length making.now ≡ length s.now.nest }
    ensures { IfOk result (λ l. AreLoopsFound (bounds_in task.now) m making.now s.now l) }
{
    let headers = headers(alloc, s)?;
    let bounds = bounds_of_headers(alloc, task.flow(), task.bounds(), m, &headers)?;
    Ok(MakingLoops {
        unbounded: first_unbounded(making, &bounds, &headers),
        bounds: making_bounds(alloc, making, &bounds)?,
    })
}

/// What the method `m` makes, where it is known what each loop does.
fn heap_of(
    alloc: Global,
    task: &Task<'_>,
    m: u32,
    table: &[Found],
    s: &Shape,
    bounds: &[u32],
) -> Result<Option<u64>, NoMemory>
    requires method { m < length task.now.flow.methods }
    requires long { length table.now ≡ length task.now.flow.methods }
    requires shape { (g : Digraph) × IsShapeIn g s.now }
    requires bounds { length bounds.now ≡ length s.now.nest }
    ensures { IfOk result (λ o. ForEach task.now (λ P. IsShapeOf P m s.now → AreFound P (bounds_in task.now) (lengths_in task.now) table.now m
        → HaveBoundsWithin P (bounds_in task.now) m → AreBoundsOf P (bounds_in task.now) m s.now bounds.now
        → IsMostOr P (bounds_in task.now) (lengths_in task.now) (OfMethod m) o)) }
{
    // The laws are for the proof.
    heap_laws();
    starts_are_reached(task, m);
    let nodes = s.nodes.as_slice();
    match words_of(alloc, task, m, table, nodes)? {
        Some(words) => greatest(alloc, s, &words, bounds),
        None => Ok(None),
    }
}

/// What is found of the method `m` of this shape.
fn examine_shape(
    alloc: Global,
    task: &Task<'_>,
    m: u32,
    table: &[Found],
    s: &Shape,
) -> Result<Found, NoMemory>
    requires method { m < length task.now.flow.methods }
    requires long { length table.now ≡ length task.now.flow.methods }
    requires shape { (g : Digraph) × IsShapeIn g s.now }
    ensures { IfOk result (λ x. ForEach task.now (λ P. IsShapeOf P m s.now → AreFound P (bounds_in task.now) (lengths_in task.now) table.now m
        → IsMemoryFoundOf P (bounds_in task.now) (lengths_in task.now) m x)) }
{
    // The laws are for the proof.
    heap_laws();
    starts_are_reached(task, m);
    let making = making_loops(alloc, task, m, table, s)?;
    let loops = loops_of(alloc, task, m, &making, s)?;
    let heap = heap_of(alloc, task, m, table, s, &loops.bounds)?;
    let nodes = s.nodes.as_slice();
    Ok(Found {
        reducible: true,
        makes: some_node_makes(task, m, table, nodes),
        unbounded: loops.unbounded,
        unlimited: first_unlimited(task, m, nodes),
        heap,
    })
}

/// What is found of the method `m`, where this is found of all that it may call.
fn examine(alloc: Global, task: &Task<'_>, m: u32, table: &[Found]) -> Result<Found, NoMemory>
    requires method { m < length task.now.flow.methods }
    requires long { length table.now ≡ length task.now.flow.methods }
    ensures reducible { IfOk result (λ x. (P : Program) → IsFlowOf P task.now.flow → TellsReducible P m x) }
    ensures found { IfOk result (λ x. ForEach task.now (λ P. IsLeftWith P m [] → AreFound P (bounds_in task.now) (lengths_in task.now) table.now m
        → IsMemoryFoundOf P (bounds_in task.now) (lengths_in task.now) m x)) }
{
    // The law is for the proof.
    leaves_nodes_or_none();
    match shape_of(alloc, task.method(m)) {
        Ok(shape) => examine_shape(alloc, task, m, table, &shape),
        Err(ShapeFault::Irreducible(_)) => Ok(UNKNOWN),
        Err(ShapeFault::NoMemory) => Err(NoMemory),
    }
}

/// What is found of each of these methods, by number.
pub fn examine_all(alloc: Global, task: &Task<'_>, order: &[u32]) -> Result<Vec<Found>, NoMemory>
    requires { All (λ m. m < length task.now.flow.methods) order.now }
    ensures long { IfOk result (λ v. length v.items ≡ length task.now.flow.methods) }
    ensures reducible { IfOk result (λ v. AreToldReducible task.now.flow order.now v.items) }
    ensures found { IfOk result (λ v. AreFoundIn task.now order.now v.items) }
{
    let mut table = vec![in alloc; UNKNOWN; task.flow().method_count() as usize]?;
    for m in order {
        let found = examine(alloc, task, *m, &table)?;
        table[*m as usize] = found;
    }
    Ok(table)
}
