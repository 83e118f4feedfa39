//! Which instructions, loops and methods make objects.
ghost use Rattle.std.specs.Prelude.{◌≡◌, ◌<◌, ◌↔◌, ◌*◌, ℕ, length, true, All, Any, Contains, IfOk, IsTrue};
ghost use Rattle.loop_nest.specs.Digraph.{Digraph};
ghost use Rattle.method_flow.specs.Calls.{IsStartOf};
ghost use Rattle.memory_rules.specs.Heap.{LoopMakesObjects, PlaceMakesObjects};
ghost use Rattle.memory_bound.specs.Setting.{ForEach};
ghost use Rattle.memory_bound.specs.Found.{BeginInstructions, KnowMaking, found_at};
ghost use Rattle.memory_bound.specs.Shapes.{IsShapeIn, IsShapeOf, members_in};
ghost use Rattle.memory_bound.specs.Loops.{AreMakingLoops};

use super::found::Found;
use super::laws::heap_laws;
use super::shapes::Shape;
use super::task::Task;
use base::NoMemory;
use compact_walks::numbers;
use loop_nest::loops::Loop;
use std::alloc::Global;

/// Whether one of these methods makes objects.
fn some_makes(targets: &[u32], table: &[Found]) -> bool
    requires { All (λ t. t < length table.now) targets.now }
    ensures { IsTrue result ↔ Any (λ t. (found_at table.now t).makes ≡ true) targets.now }
{
    for t in targets {
        if table[*t as usize].makes {
            return true;
        }
    }
    false
}

/// Whether the instruction at a place of the method `m` makes an object, or may run a method that does.
fn place_makes(task: &Task<'_>, m: u32, table: &[Found], place: u32) -> bool
    requires method { m < length task.now.flow.methods }
    requires long { length table.now ≡ length task.now.flow.methods }
    ensures { ForEach task.now (λ P. IsStartOf P m place → KnowMaking P table.now m → IsTrue result ↔ PlaceMakesObjects P m place) }
{
    task.made_at(m, place).is_some() || some_makes(task.targets_at(m, place), table)
}

/// Whether a node of the method's graph is such an instruction.
fn node_makes(task: &Task<'_>, m: u32, table: &[Found], node: u32) -> bool
    requires method { m < length task.now.flow.methods }
    requires long { length table.now ≡ length task.now.flow.methods }
    ensures { ForEach task.now (λ P. ((p : ℕ) → 2 * p ≡ node → IsStartOf P m p) → KnowMaking P table.now m
        → IsTrue result ↔ ((p : ℕ) × (2 * p ≡ node) × PlaceMakesObjects P m p)) }
{
    node % 2 == 0 && place_makes(task, m, table, node / 2)
}

/// Whether one of these nodes of the method's graph is such an instruction.
pub fn some_node_makes(task: &Task<'_>, m: u32, table: &[Found], nodes: &[u32]) -> bool
    requires method { m < length task.now.flow.methods }
    requires long { length table.now ≡ length task.now.flow.methods }
    ensures { ForEach task.now (λ P. BeginInstructions P m nodes.now → KnowMaking P table.now m
        → IsTrue result ↔ ((p : ℕ) × Contains nodes.now (2 * p) × PlaceMakesObjects P m p)) }
{
    for node in nodes {
        if node_makes(task, m, table, *node) {
            return true;
        }
    }
    false
}

/// Whether a loop of the method `m` makes objects.
fn loop_makes(
    alloc: Global,
    task: &Task<'_>,
    m: u32,
    table: &[Found],
    nodes: &[u32],
    l: &Loop,
) -> Result<bool, NoMemory>
    requires method { m < length task.now.flow.methods }
    requires long { length table.now ≡ length task.now.flow.methods }
    requires within { All (λ u. u < length nodes.now) l.now.members }
    ensures { IfOk result (λ b. ForEach task.now (λ P. BeginInstructions P m (members_in nodes.now l.now) → KnowMaking P table.now m
        → IsTrue b ↔ ((p : ℕ) × Contains (members_in nodes.now l.now) (2 * p) × PlaceMakesObjects P m p))) }
{
    let members = numbers(alloc, nodes, l.members())?;
    Ok(some_node_makes(task, m, table, &members))
}

/// For each loop of the method `m` whether it makes objects.
pub fn making_loops(
    alloc: Global,
    task: &Task<'_>,
    m: u32,
    table: &[Found],
    s: &Shape,
) -> Result<Vec<bool>, NoMemory>
    requires method { m < length task.now.flow.methods }
    requires long { length table.now ≡ length task.now.flow.methods }
    requires shape { (g : Digraph) × IsShapeIn g s.now }
    ensures long { IfOk result (λ v. length v.items ≡ length s.now.nest) }
    ensures making { IfOk result (λ v. ForEach task.now (λ P. IsShapeOf P m s.now → BeginInstructions P m s.now.nodes → KnowMaking P table.now m
        → AreMakingLoops P m s.now v.items)) }
{
    // The laws are for the proof.
    heap_laws();
    let nodes = s.nodes.as_slice();
    let mut making = Vec::new(alloc);
    for l in s.nest.loops() {
        making.push(loop_makes(alloc, task, m, table, nodes, l)?)?;
    }
    Ok(making)
}
