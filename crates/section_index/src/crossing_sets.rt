//! Families of sets of numbers, and the first set that crosses another.

ghost use Rattle.std.specs.Prelude.{IfOk};
ghost use Rattle.section_index.specs.Crossing.{CrossesAnother, IsLeast};

mod classes;
pub mod family;
mod order;
mod splitting;

use family::Family;
use order::larger_first;
use splitting::{least_split, least_splitting, lesser};
use std::alloc::{AllocError, Global};

/// The least number of a set that crosses another: they have a common number, and neither is within the
/// other. It takes the time of a sort of the sets, and some passes over their numbers where two cross.
/// The only error is that there is no memory.
pub fn first_crossing(alloc: Global, family: &Family) -> Result<Option<usize>, AllocError>
    ensures { IfOk result (IsLeast (CrossesAnother family.now.sets)) }
{
    // Of two sets that cross, the larger one splits the other.
    let order = larger_first(alloc, family)?;
    let Some(split) = least_split(alloc, family, &order, family.len())? else {
        return Ok(None);
    };
    let splitting = least_splitting(alloc, family, &order)?;
    Ok(Some(lesser(splitting, split)))
}
