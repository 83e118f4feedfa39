//! The first class that is its own superclass or superinterface (JVM Specification SE 8, 4.1 and 5.3.5).

ghost use Rattle.std.specs.Prelude.{◌≡◌, ℕ, ◌||◌, ◌<◌, ◌≤◌, ◌^◌, false, length, slice_index, IsTrue, IfOk, OnOk};
ghost use Rattle.std.specs.List.{find, range_with_len};
ghost use Rattle.lists.specs.Numbers.{is_among};
ghost use Rattle.class_lookup.specs.Hierarchy.{direct_supertypes, is_on_a_cycle, IsAcyclic};
ghost use Rattle.number_sets.specs.Numbers.{entry};
ghost use Rattle.class_hierarchy.specs.Cycles.{Grows};

use crate::acyclic::direct_of;
use base::{Items, NoMemory};
use class_lookup::Classes;
use number_sets::{NumberSet, ranks_of};
use std::alloc::Global;

/// Adds those of the numbers that aren't among them behind the others.
fn add_each(found: &mut NumberSet, numbers: &[u32]) -> Result<(), NoMemory>
    ensures among { OnOk result ((x : ℕ) → is_among found.new x ≡ (is_among found.old x || is_among numbers.now x)) }
    ensures behind { OnOk result (Grows found.old found.new) }
{
    for number in numbers {
        found.insert(*number)?;
    }
    Ok(())
}

/// Whether a class is its own superclass or superinterface: whether it is found on the way up from it.
fn is_on_cycle(
    alloc: Global,
    classes: &Classes,
    above: &[Items<u32>],
    class: u32,
) -> Result<bool, NoMemory>
    requires class { class < length classes.now }
    requires long { length above.now ≡ length classes.now }
    requires direct { (c : ℕ) → entry above.now c ≡ direct_supertypes classes.now c }
    ensures { IfOk result (λ is. is ≡ is_on_a_cycle classes.now class) }
{
    // The contract alone speaks of it.
    let _ = classes;
    let mut found = NumberSet::new(alloc);
    add_each(&mut found, above[class as usize].as_slice())?;
    found.is_distinct();
    let mut next = 0;
    while next < found.as_slice().len() {
        let upper = found.as_slice()[next];
        add_each(&mut found, above[upper as usize].as_slice())?;
        found.is_distinct();
        next += 1;
    }
    Ok(found.contains(class))
}

/// The rank of a class.
fn rank_of(ranks: &[u32], class: u32) -> u32
    ensures { result ≡ slice_index ranks.now class }
{
    match ranks.get(class as usize) {
        Some(rank) => *rank,
        None => 0,
    }
}

/// Whether the ranks of all these classes are below a limit.
fn are_below(ranks: &[u32], numbers: &[u32], limit: u64) -> bool
    ensures { IsTrue result → (d : ℕ) → IsTrue (is_among numbers.now d) → slice_index ranks.now d < limit }
{
    for number in numbers {
        if u64::from(rank_of(ranks, *number)) >= limit {
            return false;
        }
    }
    true
}

/// Whether the ranks rise from no class to one directly above it.
fn never_rise(above: &[Items<u32>], ranks: &[u32]) -> bool
    requires { length above.now < 2 ^ 32 }
    ensures { IsTrue result → (c d : ℕ) → IsTrue (is_among (entry above.now c) d) → slice_index ranks.now d ≤ slice_index ranks.now c }
{
    for (class, upper) in above.iter().enumerate() {
        let limit = u64::from(rank_of(ranks, class as u32)) + 1;
        if !are_below(ranks, upper.as_slice(), limit) {
            return false;
        }
    }
    true
}

/// A class below which none is on a cycle: the first from which the ranks don't fall to each that is directly above it, where
/// they never rise.
fn first_level(classes: &Classes, above: &[Items<u32>], ranks: &[u32]) -> u32
    requires long { length above.now ≡ length classes.now }
    requires direct { (c : ℕ) → entry above.now c ≡ direct_supertypes classes.now c }
    requires short { length above.now < 2 ^ 32 }
    ensures none { (c : ℕ) → c < result → is_on_a_cycle classes.now c ≡ false }
    ensures within { result ≤ length classes.now }
{
    if !never_rise(above, ranks) {
        return 0;
    }
    for class in 0..classes.class_count() {
        let limit = u64::from(rank_of(ranks, class));
        if !are_below(ranks, above[class as usize].as_slice(), limit) {
            return class;
        }
    }
    classes.class_count()
}

/// The first class that is its own superclass or superinterface. The time is linear in what the classes name.
pub fn first_on_cycle(alloc: Global, classes: &Classes) -> Result<Option<u32>, NoMemory>
    ensures first { IfOk result (λ first. first ≡ find (is_on_a_cycle classes.now) (range_with_len 0 (length classes.now))) }
    // Where there are classes and none is, they have an order.
    ensures none { IfOk result (λ first. 0 < length classes.now → first ≡ None → IsAcyclic classes.now) }
{
    let above = direct_of(alloc, classes)?;
    let ranks = ranks_of(alloc, &above, classes.class_count())?;
    let from = first_level(classes, &above, &ranks);
    for class in from..classes.class_count() {
        if is_on_cycle(alloc, classes, &above, class)? {
            return Ok(Some(class));
        }
    }
    Ok(None)
}
