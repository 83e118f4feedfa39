//! Numbers among which the members of a section's loops stand.
ghost use Rattle.std.specs.Prelude.{◌≡◌, ◌≤◌, ℕ, length, map, Contains, IfOk, IfSome, MatchOption};
ghost use Rattle.std.specs.List.Sorted.{IsStrictlyIncreasing};
ghost use Rattle.section_check.specs.Section.{MembersRise};
ghost use Rattle.section_index.specs.Numbering.{AreNodes, AreNumbers, IsPlaced, ArePlaces, ArePlaced};

use crate::crossing_sets::family::Family;
use section_check::placing::first_member_beyond;
use section_check::section::CertLoop;
use std::alloc::{AllocError, Global};

/// Numbers that rise, among them all members of the loops: all nodes, where each member is one.
pub fn numbers(alloc: Global, loops: &[CertLoop], nodes: u32) -> Result<Vec<u32>, AllocError>
    requires { MembersRise loops.now }
    ensures { IfOk result (λ numbers. AreNumbers loops.now numbers.items) }
{
    if first_member_beyond(loops, nodes).is_none() {
        return all_nodes(alloc, nodes);
    }
    members(alloc, loops)
}

/// The nodes, rising.
fn all_nodes(alloc: Global, nodes: u32) -> Result<Vec<u32>, AllocError>
    ensures { IfOk result (λ found. AreNodes nodes found.items) }
{
    let mut found = Vec::new(alloc);
    for u in 0..nodes {
        found.push(u)?;
    }
    Ok(found)
}

/// All members of the loops, rising.
fn members(alloc: Global, loops: &[CertLoop]) -> Result<Vec<u32>, AllocError>
    ensures { IfOk result (λ members. AreNumbers loops.now members.items) }
{
    let mut members = Vec::new(alloc);
    for i in 0..loops.len() {
        members.extend_from_slice(loops[i].members())?;
    }
    members.sort_unstable();
    members.dedup();
    Ok(members)
}

/// The place of `u` among the numbers. Where they are all numbers from 0 on, it is `u` itself.
pub fn place(numbers: &[u32], u: u32) -> Option<usize>
    requires { IsStrictlyIncreasing numbers.now }
    ensures place { MatchOption result (¬ Contains numbers.now u) (IsPlaced numbers.now u) }
    ensures low { IfSome result (λ p. p ≤ u) }
{
    let guess = u as usize;
    if guess < numbers.len() && numbers[guess] == u {
        return Some(guess);
    }
    match numbers.binary_search(&u) {
        Ok(p) => Some(p),
        Err(_) => None,
    }
}

/// The place of a number that is among them.
fn place_among(numbers: &[u32], u: u32) -> u32
    requires rising { IsStrictlyIncreasing numbers.now }
    requires among { Contains numbers.now u }
    ensures { IsPlaced numbers.now u result }
{
    match place(numbers, u) {
        Some(p) => p as u32,
        None => 0,
    }
}

/// The places of these members among the numbers.
fn places(alloc: Global, numbers: &[u32], members: &[u32]) -> Result<Vec<u32>, AllocError>
    requires rising { IsStrictlyIncreasing numbers.now }
    requires all { (x : ℕ) → Contains members.now x → Contains numbers.now x }
    ensures { IfOk result (λ places. ArePlaces numbers.now members.now places.items) }
{
    let mut places = Vec::with_capacity(alloc, members.len())?;
    for i in 0..members.len() {
        places.push(place_among(numbers, members[i]))?;
    }
    Ok(places)
}

/// For each loop the places of its members.
fn placed(alloc: Global, loops: &[CertLoop], numbers: &[u32]) -> Result<Vec<Vec<u32>>, AllocError>
    requires { AreNumbers loops.now numbers.now }
    ensures { IfOk result (λ sets. ArePlaced numbers.now loops.now (map (λ s. s.items) sets.items)) }
{
    let mut sets = Vec::with_capacity(alloc, loops.len())?;
    for i in 0..loops.len() {
        sets.push(places(alloc, numbers, loops[i].members())?)?;
    }
    Ok(sets)
}

/// The family of the sets of the places of each loop's members.
pub fn numbered(alloc: Global, loops: &[CertLoop], numbers: &[u32]) -> Result<Family, AllocError>
    requires members { MembersRise loops.now }
    requires numbers { AreNumbers loops.now numbers.now }
    ensures size { IfOk result (λ f. f.size ≡ length numbers.now) }
    ensures sets { IfOk result (λ f. ArePlaced numbers.now loops.now f.sets) }
{
    let sets = placed(alloc, loops, numbers)?;
    Ok(Family::new(sets, numbers.len()))
}
