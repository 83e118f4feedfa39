//! The loops that hold each number, and the first loop that crosses another.
ghost use Rattle.std.specs.Prelude.{◌≡◌, ◌++◌, ℕ, length, map, All, IfOk, OnOk, ◌<◌};
ghost use Rattle.section_check.specs.Section.{MembersRise};
ghost use Rattle.section_check.specs.Least.{IsLeast};
ghost use Rattle.section_index.specs.Numbering.{AreNumbers, ArePlaced, ArePairs, AreHolders, Crosses};

use crate::crossing_sets::family::Family;
use crate::crossing_sets::first_crossing;
use loop_nest::digraph::Sources;
use section_check::section::CertLoop;
use std::alloc::{AllocError, Global};

/// The first loop that crosses another.
pub fn crossing(
    alloc: Global,
    loops: &[CertLoop],
    numbers: &[u32],
    family: &Family,
) -> Result<Option<usize>, AllocError>
    requires numbers { AreNumbers loops.now numbers.now }
    requires placed { ArePlaced numbers.now loops.now family.now.sets }
    ensures { IfOk result (IsLeast (Crosses loops.now)) }
{
    first_crossing(alloc, family)
}

/// Adds the pairs of a set and each of its numbers.
fn add_pairs(pairs: &mut Vec<(u32, u32)>, i: u32, set: &[u32]) -> Result<(), AllocError>
    ensures { OnOk result (pairs.new.items ≡ pairs.old.items ++ map (λ p. (i, p)) set.now) }
{
    for p in set {
        pairs.push((i, *p))?;
    }
    Ok(())
}

/// The pairs of a set and one of its numbers.
fn pairs(alloc: Global, family: &Family, count: u32) -> Result<Vec<(u32, u32)>, AllocError>
    requires { count ≡ length family.now.sets }
    ensures { IfOk result (λ pairs. ArePairs family.now.sets pairs.items) }
{
    let mut pairs = Vec::new(alloc);
    for i in 0..count {
        add_pairs(&mut pairs, i, family.set(i as usize))?;
    }
    Ok(pairs)
}

/// For each number the loops that hold it.
pub fn holders(
    alloc: Global,
    loops: &[CertLoop],
    count: u32,
    numbers: &[u32],
    family: &Family,
) -> Result<Sources, AllocError>
    requires numbers { AreNumbers loops.now numbers.now }
    requires placed { ArePlaced numbers.now loops.now family.now.sets }
    requires size { family.now.size ≡ length numbers.now }
    requires count { count ≡ length loops.now }
    ensures { IfOk result (AreHolders numbers.now loops.now) }
{
    let pairs = pairs(alloc, family, count)?;
    Sources::by_target(alloc, numbers.len(), &pairs)
}
