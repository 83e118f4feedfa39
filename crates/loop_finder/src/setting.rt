//! What a local variable was set to before a loop is entered.

ghost use Rattle.std.specs.Prelude.{◌≡◌, ◌↔◌, ◌⊎◌, ℕ, ◌*◌, ◌<◌, [], length, slice_index, true, false, IsTrue, IfOk, IfSome, OnOk, All, Contains, MatchOption};
ghost use Rattle.loop_acts.specs.Acts.{act_at, written};
ghost use Rattle.loop_nest.specs.Digraph.{Digraph};
ghost use Rattle.loop_acts.specs.Writing.{AreWriters, IsAddedWriter, IsIdle, IsOnly, IsOnlyOf, WritesAt, stored_by};
ghost use Rattle.loop_marks.specs.Marking.{AreMarksOf, AreSized};
ghost use Rattle.loop_marks.specs.Reach.{flag_at};
ghost use Rattle.loop_finder.specs.Setting.{AreWritesBefore, IsAddedWrite, IsFirstWrite, IsOnlyEntry, IsOnlySource, IsSetTo};

use base::NoMemory;
use loop_acts::{Act, act_at, write_at, writes_at};
use loop_marks::{LoopMarks, Routes};
use std::alloc::Global;

/// Whether each of these nodes is this one.
fn are_all(nodes: &[u32], node: u32) -> bool
    ensures { IsTrue result ↔ All (λ u. u ≡ node) nodes.now }
{
    nodes.iter().all(|u| *u == node)
}

/// The one node that stands in the list, however often.
fn one_of(nodes: &[u32]) -> Option<u32>
    ensures { IsOnlyOf (Contains nodes.now) result }
{
    if nodes.len() == 0 {
        return None;
    }
    let first = nodes[0];
    if are_all(nodes, first) {
        Some(first)
    } else {
        None
    }
}

/// The one node from which another one is entered.
fn only_source(routes: &Routes, node: u32) -> Option<u32>
    requires { node < routes.now.nodes }
    ensures { MatchOption result ((w : ℕ) → ¬ IsOnlySource routes.now node w) (IsOnlySource routes.now node) }
{
    if node == 0 {
        return None;
    }
    one_of(routes.sources(node))
}

/// The first of these nodes that is no member of a loop.
fn first_outside(marks: &LoopMarks, nodes: &[u32]) -> Option<u32>
    ensures { MatchOption result (All (λ u. flag_at marks.now.members u ≡ true) nodes.now) (λ u. Contains nodes.now u × (flag_at marks.now.members u ≡ false)) }
{
    for u in nodes {
        if !marks.has(u64::from(*u)) {
            return Some(*u);
        }
    }
    None
}

/// Whether each of these nodes is a member of a loop or this one.
fn are_within_but(marks: &LoopMarks, nodes: &[u32], node: u32) -> bool
    ensures { IsTrue result ↔ All (λ u. (flag_at marks.now.members u ≡ true) ⊎ (u ≡ node)) nodes.now }
{
    nodes.iter().all(|u| marks.has(u64::from(*u)) || *u == node)
}

/// The one node outside a loop from which it is entered.
pub fn only_entry(routes: &Routes, marks: &LoopMarks) -> Option<u32>
    requires { AreSized routes.now marks.now }
    ensures entry { AreMarksOf routes.now marks.now → MatchOption result ((u : ℕ) → ¬ IsOnlyEntry routes.now marks.now.header u)
        (IsOnlyEntry routes.now marks.now.header) }
    ensures within { IfSome result (λ u. u < routes.now.nodes) }
{
    let sources = routes.sources(marks.header());
    let first = first_outside(marks, sources)?;
    if are_within_but(marks, sources, first) {
        Some(first)
    } else {
        None
    }
}

/// Puts the place of the instruction at a node behind others, where it writes a local variable.
fn add_write(acts: &[Act], node: u32, places: &mut Vec<u32>) -> Result<(), NoMemory>
    ensures { OnOk result (IsAddedWrite acts.now node places.old.items places.new.items) }
{
    if let Some(place) = write_at(acts, node) {
        places.push(place)?;
    }
    Ok(())
}

/// The places of the instructions that write local variables on the one way to a node, the last first.
pub fn writes_before(
    alloc: Global,
    acts: &[Act],
    routes: &Routes,
    from: u32,
) -> Result<Vec<u32>, NoMemory>
    requires { from < routes.now.nodes }
    ensures { IfOk result (λ places. AreWritesBefore acts.now routes.now from places.items) }
{
    let mut places = Vec::new(alloc);
    let mut node = from;
    // No way without a node twice has more nodes.
    for _step in 0..routes.nodes() {
        add_write(acts, node, &mut places)?;
        match only_source(routes, node) {
            Some(source) => node = source,
            None => return Ok(places),
        }
    }
    Ok(places)
}

/// The first of these places that writes the local variable.
fn first_write(acts: &[Act], places: &[u32], local: u32) -> Option<u32>
    ensures { MatchOption result ((i : ℕ) → i < length places.now → ¬ WritesAt acts.now local (slice_index places.now i))
        (IsFirstWrite acts.now local places.now) }
{
    for place in places {
        if writes_at(acts, *place, local) {
            return Some(*place);
        }
    }
    None
}

/// The constant that the local variable is set to before a loop, by the writes before it.
pub fn set_before(acts: &[Act], before: &[u32], local: u32) -> Option<i32>
    ensures { (g : Digraph) (h entry : ℕ) → IsOnlyEntry g h entry → AreWritesBefore acts.now g entry before.now → IsOnly (IsSetTo acts.now g h local) result }
{
    let place = first_write(acts, before, local)?;
    match act_at(acts, place) {
        Act::Set(_, constant) => constant,
        _ => None,
    }
}
