//! The nodes of a loop, as marks.

ghost use Rattle.std.specs.Prelude.{◌≡◌, ◌≢◌, ◌↔◌, ℕ, ◌<◌, ◌≤◌, true, length, map, All, Contains, IfOk, IsTrue, Some, slice_index};
ghost use Rattle.loop_nest.specs.Digraph.{Digraph};
ghost use Rattle.loop_nest.specs.Nest.{IsNest, header_at};
ghost use Rattle.compact_walks.specs.Moving.{IsMoved};
ghost use Rattle.loop_marks.specs.Flags.{AreMarkedAmong, Flags};
ghost use Rattle.loop_marks.specs.Marking.{AreHeldDirectly, AreInnerFlagged, AreMarksOfLoop, AreMembersFlagged, AreSized};
ghost use Rattle.loop_marks.specs.Reach.{flag_at};

use crate::flags::{NodeFlags, is_flagged};
use base::NoMemory;
use compact_walks::numbers;
use loop_nest::loops::{Loop, Nest};
use std::alloc::Global;
use std::marker::Model;

/// A loop of a graph: its header, its nodes, and for each node whether it is one of them, and whether an inner loop has it. The flags are
/// kept for the loop's own span of nodes.
#[derive(Drop)]
pub struct LoopMarks {
    header: u32,
    nodes: Vec<u32>,
    members: NodeFlags,
    inner: NodeFlags,
}

impl Model for LoopMarks {
    ghost use Rattle.loop_marks.specs.Marking.{Marks};

    ghost Value = { Marks };

    ghost view = { λ k. record { header = k.header; nodes = k.nodes.items; members = k.members.items; inner = k.inner.items } };
}

/// Where the span of some nodes and another one begins and ends.
fn span_of(node: u32, others: &[u32]) -> (u32, usize)
    ensures node { (result.0 ≤ node) × (node < result.1) }
    ensures others { All (λ u. (result.0 ≤ u) × (u < result.1)) others.now }
{
    let mut first = node;
    let mut end = node as usize + 1;
    for other in others {
        first = first.min(*other);
        end = end.max(*other as usize + 1);
    }
    (first, end)
}

/// For each node whether it is one of these, of which `header` is one.
fn member_flags(alloc: Global, header: u32, nodes: &[u32]) -> Result<NodeFlags, NoMemory>
    ensures { IfOk result (λ flags. (x : ℕ) → (flag_at flags.items x ≡ true) ↔ Contains nodes.now x) }
{
    let (first, end) = span_of(header, nodes);
    let mut flags = NodeFlags::new(alloc, first, end)?;
    for node in nodes {
        flags.mark(*node);
    }
    Ok(flags)
}

/// Whether a loop's next outer loop has this number.
fn is_within(l: &Loop, index: usize) -> bool
    ensures { IsTrue result ↔ (l.now.outer ≡ Some index) }
{
    match l.outer() {
        Some(outer) => outer as usize == index,
        None => false,
    }
}

/// Marks the other numbers of these nodes, of those that are flagged as members.
fn mark_among(us: &[u32], nodes: &[u32], members: &NodeFlags, marks: &mut NodeFlags)
    requires nodes { All (λ u. u < length nodes.now) us.now }
    requires first { marks.old.first ≡ members.now.first }
    requires long { length marks.old.items ≡ length members.now.items }
    ensures first { marks.new.first ≡ marks.old.first }
    ensures marked { AreMarkedAmong members.now.items (map (slice_index nodes.now) us.now) marks.old.items marks.new.items }
{
    for u in us {
        let node = nodes[*u as usize];
        if is_flagged(members, u64::from(node)) {
            marks.mark(node);
        }
    }
}

/// The same of the nodes of a loop, where it is directly within the one of this number.
fn mark_within(l: &Loop, index: usize, nodes: &[u32], members: &NodeFlags, marks: &mut NodeFlags)
    requires nodes { All (λ u. u < length nodes.now) l.now.members }
    requires first { marks.old.first ≡ members.now.first }
    requires long { length marks.old.items ≡ length members.now.items }
    ensures first { marks.new.first ≡ marks.old.first }
    ensures marked { l.now.outer ≡ Some index → AreMarkedAmong members.now.items (map (slice_index nodes.now) l.now.members) marks.old.items marks.new.items }
    ensures kept { l.now.outer ≢ Some index → marks.new.items ≡ marks.old.items }
{
    if is_within(l, index) {
        mark_among(l.members(), nodes, members, marks);
    }
}

/// For each node that is flagged as a member whether a loop directly within the one of this number has it, where `nodes` gives the
/// numbers of the nodes in the whole graph.
fn held_directly(
    alloc: Global,
    nest: &Nest,
    nodes: &[u32],
    index: usize,
    members: &NodeFlags,
) -> Result<NodeFlags, NoMemory>
    requires { All (λ l. All (λ u. u < length nodes.now) l.members) nest.now }
    ensures { IfOk result (λ flags. AreHeldDirectly (slice_index nodes.now) nest.now index (length nest.now) members.now.items flags.items) }
{
    let mut marks = members.cleared(alloc)?;
    for l in nest.loops() {
        mark_within(l, index, nodes, members, &mut marks);
    }
    Ok(marks)
}

/// For each node whether an inner loop of the loop of this number has it.
fn inner_flags(
    alloc: Global,
    nest: &Nest,
    nodes: &[u32],
    index: usize,
    members: &NodeFlags,
) -> Result<NodeFlags, NoMemory>
    requires index { index < length nest.now }
    requires within { All (λ l. All (λ u. u < length nodes.now) l.members) nest.now }
    ensures { IfOk result (λ flags. (g d : Digraph) → IsMoved g d (slice_index nodes.now) → IsNest d nest.now
        → AreMembersFlagged g (slice_index nodes.now (header_at nest.now index)) members.now.items
        → AreInnerFlagged g (slice_index nodes.now (header_at nest.now index)) flags.items) }
{
    loop_nest::laws::headers_dominate_members();
    loop_nest::laws::loops_are_nested();
    loop_nest::laws::dominance_is_antisymmetric();
    held_directly(alloc, nest, nodes, index, members)
}

/// What the loop of this number has, where `nodes` gives the numbers of the nodes in the whole graph.
pub fn marks_of(
    alloc: Global,
    nest: &Nest,
    nodes: &[u32],
    index: usize,
) -> Result<LoopMarks, NoMemory>
    requires index { index < length nest.now }
    requires within { All (λ l. All (λ u. u < length nodes.now) l.members) nest.now }
    requires headers { All (λ l. l.header < length nodes.now) nest.now }
    ensures sized { IfOk result (λ k. (g : Digraph) → All (λ x. x < g.nodes) nodes.now → AreSized g k) }
    ensures marks { IfOk result (λ k. (g d : Digraph) → IsMoved g d (slice_index nodes.now) → IsNest d nest.now
        → AreMarksOfLoop g (slice_index nodes.now) nest.now index k) }
{
    let l = &nest.loops()[index];
    let header = nodes[l.header() as usize];
    let own = numbers(alloc, nodes, l.members())?;
    let members = member_flags(alloc, header, &own)?;
    let inner = inner_flags(alloc, nest, nodes, index, &members)?;
    Ok(LoopMarks {
        header,
        nodes: own,
        members,
        inner,
    })
}

impl LoopMarks {
    /// The node at which the loop is entered.
    pub fn header(&self) -> u32
        ensures { result ≡ self.now.header }
    {
        self.header
    }

    /// The nodes of the loop.
    pub fn nodes(&self) -> &[u32]
        ensures { result.now ≡ self.now.nodes }
    {
        &self.nodes
    }

    /// For each node whether the loop has it.
    pub(crate) fn members(&self) -> &NodeFlags
        ensures { result.now.items ≡ self.now.members }
    {
        &self.members
    }

    /// Whether the loop has the node.
    pub fn has(&self, node: u64) -> bool
        ensures { result ≡ flag_at self.now.members node }
    {
        is_flagged(&self.members, node)
    }

    /// Whether an inner loop has the node.
    pub fn is_inner(&self, node: u64) -> bool
        ensures { result ≡ flag_at self.now.inner node }
    {
        is_flagged(&self.inner, node)
    }
}
