//! The order in which sets are looked at.
ghost use Rattle.std.specs.Prelude.{IfOk};
ghost use Rattle.section_index.specs.Splitting.{AreLargerFirst};

use super::family::Family;
use std::alloc::{AllocError, Global};

/// The numbers of the sets, those of larger sets first.
pub fn larger_first(alloc: Global, family: &Family) -> Result<Vec<usize>, AllocError>
    ensures { IfOk result (λ order. AreLargerFirst family.now.sets order.items) }
{
    let mut ranked = Vec::with_capacity(alloc, family.len())?;
    for i in 0..family.len() {
        ranked.push((usize::MAX - family.set(i).len(), i))?;
    }
    ranked.sort_unstable_by_key(|rank| rank.0);
    let mut order = Vec::with_capacity(alloc, ranked.len())?;
    for rank in &ranked {
        order.push(rank.1)?;
    }
    Ok(order)
}
