//! Which loops of a nest are charged, and which nodes they have.
ghost use Rattle.std.specs.Prelude.{◌≡◌, ◌<◌, ◌&&◌, not, length, map, slice_index, All, IfOk, MatchBool};
ghost use Rattle.std.specs.List.Sorted.{IsStrictlyIncreasing};
ghost use Rattle.loop_nest.specs.Nest.{headers_of};
ghost use Rattle.compact_walks.specs.Charging.{AreHeld, AreInner, AreMarked, AreMarkedBut, AreOutermost};

use base::NoMemory;
use loop_nest::loops::{Loop, Nest};
use std::alloc::Global;

/// Marks these nodes, but for one.
fn mark_but(members: &[u32], header: u32, marks: &mut [bool])
    requires { All (λ u. u < length marks.old) members.now }
    ensures { AreMarkedBut members.now header marks.old marks.new }
{
    for u in members {
        if *u != header {
            marks[*u as usize] = true;
        }
    }
}

/// Marks the nodes of a loop but for its header, where so is said.
fn mark_inner(flag: bool, l: &Loop, marks: &mut [bool])
    requires { All (λ u. u < length marks.old) l.now.members }
    ensures { MatchBool flag (AreMarkedBut l.now.members l.now.header marks.old marks.new) (marks.new ≡ marks.old) }
{
    if flag {
        mark_but(l.members(), l.header(), marks);
    }
}

/// For each of so many nodes whether a flagged loop has it, and not as its header.
fn inner(alloc: Global, loops: &[Loop], flags: &[bool], size: usize) -> Result<Vec<bool>, NoMemory>
    requires long { length flags.now ≡ length loops.now }
    requires within { All (λ l. All (λ u. u < size) l.members) loops.now }
    ensures { IfOk result (λ inner. AreInner loops.now flags.now size inner.items) }
{
    let mut marks = vec![in alloc; false; size]?;
    for i in 0..loops.len() {
        mark_inner(flags[i], &loops[i], &mut marks);
    }
    Ok(marks)
}

/// Whether a candidate is outermost.
fn is_outermost(candidate: bool, inner: bool) -> bool
    ensures { result ≡ candidate && not inner }
{
    candidate && !inner
}

/// Of the candidates, those whose header is in no other.
fn outermost_but(
    alloc: Global,
    loops: &[Loop],
    candidates: &[bool],
    inner: &[bool],
) -> Result<Vec<bool>, NoMemory>
    requires long { length candidates.now ≡ length loops.now }
    requires rising { IsStrictlyIncreasing (headers_of loops.now) }
    requires headers { All (λ l. l.header < length inner.now) loops.now }
    requires inner { AreInner loops.now candidates.now (length inner.now) inner.now }
    ensures { IfOk result (λ flags. AreOutermost loops.now candidates.now flags.items) }
{
    let mut flags = Vec::new(alloc);
    for i in 0..loops.len() {
        let inner = inner[loops[i].header() as usize];
        flags.push(is_outermost(candidates[i], inner))?;
    }
    Ok(flags)
}

/// Of the loops of which it is said that they are candidates, those around which there is no other of them.
pub fn outermost(
    alloc: Global,
    nest: &Nest,
    candidates: &[bool],
    size: usize,
) -> Result<Vec<bool>, NoMemory>
    requires long { length candidates.now ≡ length nest.now }
    requires rising { IsStrictlyIncreasing (headers_of nest.now) }
    requires within { All (λ l. All (λ u. u < size) l.members) nest.now }
    requires headers { All (λ l. l.header < size) nest.now }
    ensures { IfOk result (λ flags. AreOutermost nest.now candidates.now flags.items) }
{
    let loops = nest.loops();
    let inner = inner(alloc, loops, candidates, size)?;
    outermost_but(alloc, loops, candidates, &inner)
}

/// Marks the other numbers of these nodes.
fn mark(members: &[u32], nodes: &[u32], marks: &mut [bool])
    requires members { All (λ u. u < length nodes.now) members.now }
    requires nodes { All (λ x. x < length marks.old) nodes.now }
    ensures { AreMarked (map (slice_index nodes.now) members.now) marks.old marks.new }
{
    for u in members {
        marks[nodes[*u as usize] as usize] = true;
    }
}

/// Marks the other numbers of the nodes of a loop, where so is said.
fn mark_held(flag: bool, l: &Loop, nodes: &[u32], marks: &mut [bool])
    requires members { All (λ u. u < length nodes.now) l.now.members }
    requires nodes { All (λ x. x < length marks.old) nodes.now }
    ensures { MatchBool flag (AreMarked (map (slice_index nodes.now) l.now.members) marks.old marks.new) (marks.new ≡ marks.old) }
{
    if flag {
        mark(l.members(), nodes, marks);
    }
}

/// For each of so many numbers whether a flagged loop has the node of this number.
pub fn held(
    alloc: Global,
    nest: &Nest,
    flags: &[bool],
    nodes: &[u32],
    size: usize,
) -> Result<Vec<bool>, NoMemory>
    requires long { length flags.now ≡ length nest.now }
    requires within { All (λ l. All (λ u. u < length nodes.now) l.members) nest.now }
    requires nodes { All (λ x. x < size) nodes.now }
    ensures { IfOk result (λ held. AreHeld (slice_index nodes.now) nest.now flags.now size held.items) }
{
    let loops = nest.loops();
    let mut marks = vec![in alloc; false; size]?;
    for i in 0..loops.len() {
        mark_held(flags[i], &loops[i], nodes, &mut marks);
    }
    Ok(marks)
}
