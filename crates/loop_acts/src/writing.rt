//! Which instructions of a method write local variables, and which ints they store.

ghost use Rattle.std.specs.Prelude.{◌≡◌, ◌↔◌, ℕ, ◌*◌, [], All, Contains, IfOk, IsTrue, MatchOption, OnOk};
ghost use Rattle.loop_acts.specs.Acts.{act_at, written};
ghost use Rattle.loop_acts.specs.Writing.{AreWriters, IsAddedWriter, IsIdle, IsOnlyOf, IsStoredByAll, IsWriterAmong, IsWriterAt, StoresAt};
ghost use Rattle.loop_acts.specs.Writing.{WritesAt, is_other, stored_by};

use crate::effects::Act;
use base::NoMemory;
use std::alloc::Global;

/// What the instruction at a place does.
pub fn act_at(acts: &[Act], place: u32) -> Act
    ensures { result ≡ act_at acts.now place }
{
    let index = place as usize;
    if index < acts.len() {
        acts[index]
    } else {
        Act::Other
    }
}

/// Whether an instruction that does this writes the local variable.
fn writes(act: Act, local: u32) -> bool
    ensures { IsTrue result ↔ Contains (written act) local }
{
    match act {
        Act::Step(written, _) | Act::Set(written, _) | Act::SetReference(written) => {
            written == local
        }
        Act::SetLong(first) => first == local || u64::from(first) + 1 == u64::from(local),
        Act::Test(_) | Act::Other => false,
    }
}

/// Whether the instruction at a place writes the local variable.
pub fn writes_at(acts: &[Act], place: u32, local: u32) -> bool
    ensures { IsTrue result ↔ WritesAt acts.now local place }
{
    writes(act_at(acts, place), local)
}

/// Whether an instruction that does this writes no local variable.
fn writes_nothing(act: Act) -> bool
    ensures { IsTrue result ↔ (written act ≡ []) }
{
    match act {
        Act::Step(_, _) | Act::Set(_, _) | Act::SetLong(_) | Act::SetReference(_) => false,
        Act::Test(_) | Act::Other => true,
    }
}

/// The place of the instruction at a node, where it writes a local variable.
pub fn write_at(acts: &[Act], node: u32) -> Option<u32>
    ensures { MatchOption result (IsIdle acts.now node) (λ p. node ≡ 2 * p) }
{
    if node % 2 == 1 || writes_nothing(act_at(acts, node / 2)) {
        None
    } else {
        Some(node / 2)
    }
}

/// Whether a node is no instruction that writes a local variable.
pub fn is_idle(acts: &[Act], node: u32) -> bool
    ensures { IsTrue result → IsIdle acts.now node }
{
    match write_at(acts, node) {
        Some(_) => false,
        None => true,
    }
}

/// Puts a node behind others, where it is an instruction that writes a local variable.
fn add_writer(acts: &[Act], node: u32, found: &mut Vec<u32>) -> Result<(), NoMemory>
    ensures { OnOk result (IsAddedWriter acts.now node found.old.items found.new.items) }
{
    if !is_idle(acts, node) {
        found.push(node)?;
    }
    Ok(())
}

/// The nodes among these that are instructions which write local variables.
pub fn writers(alloc: Global, acts: &[Act], nodes: &[u32]) -> Result<Vec<u32>, NoMemory>
    ensures { IfOk result (λ found. AreWriters acts.now nodes.now found.items) }
{
    let mut found = Vec::new(alloc);
    for node in nodes {
        add_writer(acts, *node, &mut found)?;
    }
    Ok(found)
}

/// The place of the instruction at a node, where it writes the local variable.
pub fn writer_at(acts: &[Act], node: u32, local: u32) -> Option<u32>
    ensures { MatchOption result ((p : ℕ) → ¬ IsWriterAt acts.now node local p) (IsWriterAt acts.now node local) }
{
    if node % 2 == 1 {
        return None;
    }
    let place = node / 2;
    if writes_at(acts, place, local) {
        Some(place)
    } else {
        None
    }
}

/// Whether another place was found earlier.
fn is_other(found: Option<u32>, place: u32) -> bool
    ensures { result ≡ is_other found place }
{
    match found {
        Some(earlier) => earlier != place,
        None => false,
    }
}

/// The place of the only instruction of a loop that writes the local variable.
pub fn only_writer(acts: &[Act], nodes: &[u32], local: u32) -> Option<u32>
    ensures { IsOnlyOf (IsWriterAmong acts.now nodes.now local) result }
{
    let mut found = None;
    for node in nodes {
        if let Some(place) = writer_at(acts, *node, local) {
            if is_other(found, place) {
                return None;
            }
            found = Some(place);
        }
    }
    found
}

/// The int that the instruction at a place stores, where it is known.
fn stored_at(acts: &[Act], place: u32) -> Option<i32>
    ensures { result ≡ stored_by (act_at acts.now place) }
{
    match act_at(acts, place) {
        Act::Set(_, value) => value,
        _ => None,
    }
}

/// Whether the instruction at a place stores this int.
fn stores(acts: &[Act], place: u32, value: i32) -> bool
    ensures { IsTrue result ↔ StoresAt acts.now value place }
{
    match stored_at(acts, place) {
        Some(stored) => stored == value,
        None => false,
    }
}

/// Whether each of these instructions stores this int.
fn all_store(acts: &[Act], places: &[u32], value: i32) -> bool
    ensures { IsTrue result ↔ All (StoresAt acts.now value) places.now }
{
    places.iter().all(|place| stores(acts, *place, value))
}

/// The int that each of these instructions stores.
pub fn stored_by_all(acts: &[Act], places: &[u32]) -> Option<i32>
    ensures { IsStoredByAll acts.now places.now result }
{
    if places.len() == 0 {
        return None;
    }
    let value = stored_at(acts, places[0])?;
    if all_store(acts, places, value) {
        Some(value)
    } else {
        None
    }
}
