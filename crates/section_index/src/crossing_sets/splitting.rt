//! Which sets of a family split others that stand behind them in an order.
ghost use Rattle.std.specs.Prelude.{◌≡◌, ◌<◌, length, All, IfOk};
ghost use Rattle.section_index.specs.Crossing.{IsLeast};
ghost use Rattle.section_index.specs.Splitting.{IsSplit, SplitsLater, lesser_of};

use super::classes::Classes;
use super::family::Family;
use std::alloc::{AllocError, Global};

/// The lesser of two numbers, of which there may be the second alone.
pub fn lesser(a: Option<usize>, b: usize) -> usize
    ensures { result ≡ lesser_of a b }
{
    match a {
        Some(m) => m.min(b),
        None => b,
    }
}

/// The least number of a set that is split by one before it, whose number is `last` at most.
pub fn least_split(
    alloc: Global,
    family: &Family,
    order: &[usize],
    last: usize,
) -> Result<Option<usize>, AllocError>
    requires { All (λ i. i < length family.now.sets) order.now }
    ensures { IfOk result (IsLeast (IsSplit family.now.sets order.now last)) }
{
    let mut classes = Classes::new(alloc, family.size())?;
    let mut least = None;
    for p in 0..order.len() {
        let i = order[p];
        let set = family.set(i);
        if !classes.has_together(set) {
            least = Some(lesser(least, i));
        }
        if i <= last {
            classes.split(set)?;
        }
    }
    Ok(least)
}

/// The least number of a set that splits one behind it, found by halves.
pub fn least_splitting(
    alloc: Global,
    family: &Family,
    order: &[usize],
) -> Result<Option<usize>, AllocError>
    requires { All (λ i. i < length family.now.sets) order.now }
    ensures { IfOk result (IsLeast (SplitsLater family.now.sets order.now)) }
{
    let (mut low, mut high) = (0, family.len());
    while low < high {
        let middle = low + (high - low) / 2;
        if least_split(alloc, family, order, middle)?.is_some() {
            high = middle;
        } else {
            low = middle + 1;
        }
    }
    if low < family.len() {
        Ok(Some(low))
    } else {
        Ok(None)
    }
}
