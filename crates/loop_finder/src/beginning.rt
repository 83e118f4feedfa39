//! With what local variables begin in loops, by whichever edge a loop is entered (JVM Specification SE 8, 2.6.1).

ghost use Rattle.std.specs.Prelude.{◌≡◌, ℕ, ◌<◌, List, [], ◌∷◌, ◌++◌, All, IfOk, OnOk, Some};
ghost use Rattle.bytecode_model.specs.Program.{Program};
ghost use Rattle.loop_nest.specs.Digraph.{Edge, sources_of};
ghost use Rattle.method_flow.specs.Graphs.{IsGraphOf};
ghost use Rattle.method_flow.specs.Nodes.{IsEdge, IsReached, Node, number_of};
ghost use Rattle.loop_rules.specs.Further.Beginning.{BeginsAt};
ghost use Rattle.loop_rules.specs.Further.Known.{Known};
ghost use Rattle.loop_rules.specs.Further.Last.{AreLastWrites};
ghost use Rattle.loop_acts.specs.Acts.{AreActs, act_at};
ghost use Rattle.loop_acts.specs.Rules.{Given, rules_by};
ghost use Rattle.loop_marks.specs.Marking.{AreMarksOf, AreSized};
ghost use Rattle.loop_acts.specs.Writing.{AreWriters, IsOnly, IsStoredByAll, IsWriterAt, StoresAt, stored_by};
ghost use Rattle.loop_finder.specs.Beginning.{AddsBeginnings, AllStore, IsBodyOf, IsJoined, IsKnownBeginning, IsSteppedAt};
ghost use Rattle.loop_finder.specs.Skipping.{AreBacksPast};

use crate::body::{Beginning, MethodBody};
use crate::counting::only_step;
use base::NoMemory;
use loop_acts::{Act, act_at, stored_by_all, writer_at, writers};
use loop_marks::{LoopMarks, Routes};
use loop_rules::further::{LastWrites, Stops};
use std::alloc::Global;

/// Stops a search at the instructions that write a local variable.
#[derive(Drop)]
struct Writers<'a> {
    acts: &'a [Act],
    local: u32,
}

impl Stops for Writers<'_> {
    ghost stops_at = { λ w x. (p : ℕ) × IsWriterAt w.acts.now x w.local p };

    fn is_stop(&self, node: u32) -> bool {
        writer_at(self.acts, node, self.local).is_some()
    }
}

/// What may have written the local variable last once control has come to a node and passed it. `backs` has for each node the one to
/// which the search may skip back from it.
fn last_at(
    alloc: Global,
    acts: &[Act],
    routes: &Routes,
    backs: &[u32],
    local: u32,
    node: u32,
) -> Result<LastWrites, NoMemory>
    requires within { node < routes.now.nodes }
    requires backs { AreBacksPast acts.now routes.now backs.now }
    ensures { IfOk result (λ found. (P : Program) (given : Given) (m : ℕ) (u : Node) → IsGraphOf P m routes.now → AreActs P (rules_by P given) m acts.now
        → number_of u ≡ node → IsReached (IsEdge P m) u → AreLastWrites P m local u found) }
{
    code_lines::laws::lines_follow_one_another();
    routes.last_writes(alloc, backs, &Writers { acts, local }, node)
}

/// The int that each instruction stores which may have written the local variable last once control has passed a node.
fn stored_last(
    alloc: Global,
    body: &MethodBody,
    local: u32,
    node: u32,
) -> Result<Option<i32>, NoMemory>
    requires { node < body.now.graph.nodes }
    ensures { IfOk result (λ value. (P : Program) (known : Known) (m : ℕ) (u : Node) → IsBodyOf P known m body.now → number_of u ≡ node
        → IsReached (IsEdge P m) u → IsOnly (AllStore P known m local u) value) }
{
    code_lines::laws::lines_follow_one_another();
    loop_rules::further::laws::last_writes_are_reached();
    loop_rules::further::laws::last_writes_exist();
    loop_rules::further::laws::pushed_are_one();
    let last = last_at(alloc, &body.acts, &body.routes, &body.backs, local, node)?;
    if last.unwritten {
        return Ok(None);
    }
    Ok(stored_by_all(&body.acts, &last.places))
}

/// What is known of the int with which a local variable begins in a loop, by some of the edges to the loop's header.
#[derive(Clone, Copy)]
enum SoFar {
    /// The loop is entered by none of them.
    NotEntered,
    /// If it begins with an int, then with this one.
    One(i32),
    /// It begins with no int.
    Unknown,
}

/// What is known once the loop is entered by one edge more, with this int or with none.
fn joined(so_far: SoFar, value: Option<i32>) -> SoFar
    ensures { IsJoined so_far value result }
{
    match (so_far, value) {
        (SoFar::NotEntered, Some(value)) => SoFar::One(value),
        (SoFar::One(earlier), Some(value)) => {
            if earlier == value {
                SoFar::One(value)
            } else {
                SoFar::Unknown
            }
        }
        _ => SoFar::Unknown,
    }
}

/// What is known by the edge from one node more.
fn with_source(
    alloc: Global,
    body: &MethodBody,
    marks: &LoopMarks,
    local: u32,
    node: u32,
    so_far: SoFar,
) -> Result<SoFar, NoMemory>
    requires { node < body.now.graph.nodes }
    ensures { IfOk result (λ new. (P : Program) (known : Known) (m : ℕ) (us : List ℕ) → IsBodyOf P known m body.now → AreMarksOf body.now.graph marks.now
        → Edge body.now.graph node marks.now.header → IsKnownBeginning P known m body.now.graph marks.now.header local us so_far
        → IsKnownBeginning P known m body.now.graph marks.now.header local (us ++ node ∷ []) new) }
{
    if marks.has(u64::from(node)) {
        return Ok(so_far);
    }
    match so_far {
        SoFar::Unknown => Ok(so_far),
        _ => Ok(joined(so_far, stored_last(alloc, body, local, node)?)),
    }
}

/// What is known by all edges to the header.
fn by_sources(
    alloc: Global,
    body: &MethodBody,
    marks: &LoopMarks,
    local: u32,
) -> Result<SoFar, NoMemory>
    requires { AreSized body.now.graph marks.now }
    ensures { IfOk result (λ so_far. (P : Program) (known : Known) (m : ℕ) → IsBodyOf P known m body.now → AreMarksOf body.now.graph marks.now
        → IsKnownBeginning P known m body.now.graph marks.now.header local (sources_of body.now.graph.edges marks.now.header) so_far) }
{
    let mut so_far = SoFar::NotEntered;
    for node in body.routes.sources(marks.header()) {
        so_far = with_source(alloc, body, marks, local, *node, so_far)?;
    }
    Ok(so_far)
}

/// The int with which the local variable begins in the loop, by whichever edge it is entered.
fn known_beginning(
    alloc: Global,
    body: &MethodBody,
    marks: &LoopMarks,
    local: u32,
) -> Result<Option<i32>, NoMemory>
    requires { AreSized body.now.graph marks.now }
    ensures { IfOk result (λ value. (P : Program) (known : Known) (m : ℕ) → IsBodyOf P known m body.now → AreMarksOf body.now.graph marks.now
        → IsOnly (BeginsAt P known m body.now.graph marks.now.header local) value) }
{
    loop_nest::laws::headers_dominate_members();
    loop_nest::laws::walks_lead_on();
    loop_rules::further::laws::last_writes_are_reached();
    // The method begins with its first instruction, to which control comes by no edge.
    if marks.header() == 0 {
        return Ok(None);
    }
    match by_sources(alloc, body, marks, local)? {
        SoFar::One(value) => Ok(Some(value)),
        _ => Ok(None),
    }
}

/// The local variable that has its only step in the loop at a node, where no inner loop has the node.
fn stepped_at(body: &MethodBody, marks: &LoopMarks, writers: &[u32], node: u32) -> Option<u32>
    ensures { AreMarksOf body.now.graph marks.now → AreWriters body.now.acts marks.now.nodes writers.now
        → (local : ℕ) → IsSteppedAt body.now marks.now.header local node → result ≡ Some local }
{
    if node % 2 == 1 {
        return None;
    }
    // What an inner loop has is not on each iteration of this one.
    if marks.is_inner(u64::from(node)) {
        return None;
    }
    match act_at(&body.acts, node / 2) {
        Act::Step(local, _) => {
            only_step(body, writers, local)?;
            Some(local)
        }
        _ => None,
    }
}

/// Adds with what the local variable begins in the loop, if it is known.
fn add_beginning(
    alloc: Global,
    body: &MethodBody,
    marks: &LoopMarks,
    local: u32,
    found: &mut Vec<Beginning>,
) -> Result<(), NoMemory>
    requires { AreSized body.now.graph marks.now }
    ensures { OnOk result ((P : Program) (known : Known) (m : ℕ) → IsBodyOf P known m body.now → AreMarksOf body.now.graph marks.now
        → AddsBeginnings P known m body.now.graph marks.now.header (λ k. k ≡ local) found.old.items found.new.items) }
{
    if let Some(value) = known_beginning(alloc, body, marks, local)? {
        found.push(Beginning {
            header: marks.header(),
            local,
            value,
        })?;
    }
    Ok(())
}

/// Adds with what the local variable begins that has its only step in the loop at a node.
fn add_stepped(
    alloc: Global,
    body: &MethodBody,
    marks: &LoopMarks,
    writers: &[u32],
    node: u32,
    found: &mut Vec<Beginning>,
) -> Result<(), NoMemory>
    requires { AreSized body.now.graph marks.now }
    ensures { OnOk result ((P : Program) (known : Known) (m : ℕ) → IsBodyOf P known m body.now → AreMarksOf body.now.graph marks.now
        → AreWriters body.now.acts marks.now.nodes writers.now
        → AddsBeginnings P known m body.now.graph marks.now.header (λ k. IsSteppedAt body.now marks.now.header k node) found.old.items found.new.items) }
{
    match stepped_at(body, marks, writers, node) {
        Some(local) => add_beginning(alloc, body, marks, local, found),
        None => Ok(()),
    }
}

/// Adds with what the local variables begin that have their only steps in a loop.
pub fn add_of_loop(
    alloc: Global,
    body: &MethodBody,
    marks: &LoopMarks,
    found: &mut Vec<Beginning>,
) -> Result<(), NoMemory>
    requires { AreSized body.now.graph marks.now }
    ensures { OnOk result ((P : Program) (known : Known) (m : ℕ) → IsBodyOf P known m body.now → AreMarksOf body.now.graph marks.now
        → AddsBeginnings P known m body.now.graph marks.now.header (λ k. (u : ℕ) × IsSteppedAt body.now marks.now.header k u)
        found.old.items found.new.items) }
{
    let writers = writers(alloc, &body.acts, marks.nodes())?;
    for node in &writers {
        add_stepped(alloc, body, marks, &writers, *node, found)?;
    }
    Ok(())
}
