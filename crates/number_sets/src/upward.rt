//! What stands above each number, from what stands directly above it.

ghost use Rattle.std.specs.Prelude.{◌≡◌, ℕ, ◌<◌, ◌≤◌, ◌∷◌, false, length, IfOk};
ghost use Rattle.std.specs.List.{flat_map};
ghost use Rattle.lists.specs.Numbers.{is_among, reached};
ghost use Rattle.number_sets.specs.Numbers.{entry, IsSameSearch, IsTransitive, IsPeeled, HasAll};

use crate::marked::MarkedSet;
use crate::{NumberSet, empty_sets};
use base::{Items, NoMemory};
use std::alloc::Global;

/// A number, and what the table has for those directly above it.
fn upward_list(
    alloc: Global,
    above: &[u32],
    table: &[NumberSet],
    number: u32,
) -> Result<NumberSet, NoMemory>
    requires through { IsTransitive table.now }
    requires apart { is_among above.now number ≡ false }
    ensures { IfOk result (λ set. IsSameSearch set (number ∷ flat_map (entry table.now) above.now)) }
{
    let mut set = MarkedSet::new(alloc, table.len())?;
    set.insert(number)?;
    set.insert_lists(above, table)?;
    Ok(set.into_set())
}

/// For each number: itself, and what stands above those directly above it, in their order.
pub fn upward_lists(
    alloc: Global,
    above: &[Items<u32>],
    order: &[u32],
) -> Result<Vec<NumberSet>, NoMemory>
    requires peeled { IsPeeled above.now order.now }
    requires all { HasAll (length above.now) order.now }
    requires few { length order.now ≤ length above.now }
    ensures long { IfOk result (λ table. length table.items ≡ length above.now) }
    ensures through { IfOk result (λ table. IsTransitive table.items) }
    ensures reached { IfOk result (λ table. (c : ℕ) → c < length above.now
        → IsSameSearch (entry table.items c) (reached (entry above.now) (length above.now) c)) }
{
    let mut table = empty_sets(alloc, above.len())?;
    for number in order {
        let index = *number as usize;
        let set = upward_list(alloc, above[index].as_slice(), &table, *number)?;
        table[index] = set;
    }
    Ok(table)
}
