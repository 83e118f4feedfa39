//! An order in which each number stands behind all that are directly above it.

ghost use Rattle.std.specs.Prelude.{◌≡◌, ℕ, ◌^◌, ◌<◌, ◌≤◌, ◌++◌, ◌∷◌, [], false, length, IsTrue, IfOk, OnOk};
ghost use Rattle.std.specs.Bool.{MatchBool};
ghost use Rattle.lists.specs.Numbers.{is_among};
ghost use Rattle.number_sets.specs.Numbers.{IsPeeled, IsWaiting, IsStuck, HasAll, HasRanks};

use crate::hint::hint_of;
use crate::number_set::NumberSet;
use base::{Items, NoMemory};
use std::alloc::Global;

/// Whether all of these are among the numbers.
fn has_each(order: &NumberSet, numbers: &[u32]) -> bool
    ensures { MatchBool result ((d : ℕ) → IsTrue (is_among numbers.now d) → IsTrue (is_among order.now d))
        ((d : ℕ) × IsTrue (is_among numbers.now d) × (is_among order.now d ≡ false)) }
{
    for number in numbers {
        if !order.contains(*number) {
            return false;
        }
    }
    true
}

/// Takes the number where it isn't taken yet and all that are directly above it are, and answers whether it took it.
fn take_number(order: &mut NumberSet, above: &[Items<u32>], number: u32) -> Result<bool, NoMemory>
    requires within { number < length above.now }
    requires peeled { IsPeeled above.now order.old }
    ensures peeled { OnOk result (IsPeeled above.now order.new) }
    ensures taken { IfOk result (λ taken. MatchBool taken (order.new ≡ order.old ++ number ∷ [])
        ((order.new ≡ order.old) × IsWaiting above.now order.old number)) }
{
    if !order.contains(number) && has_each(order, above[number as usize].as_slice()) {
        order.insert(number)?;
        Ok(true)
    } else {
        Ok(false)
    }
}

/// Takes what it can of these numbers, in their order.
fn take_each(order: &mut NumberSet, above: &[Items<u32>], numbers: &[u32]) -> Result<(), NoMemory>
    requires { IsPeeled above.now order.old }
    ensures { OnOk result (IsPeeled above.now order.new) }
{
    for number in numbers {
        if (*number as usize) < above.len() {
            take_number(order, above, *number)?;
        }
    }
    Ok(())
}

/// Takes what it can of all numbers, from the least on, and answers whether it took any.
fn take_round(order: &mut NumberSet, above: &[Items<u32>]) -> Result<bool, NoMemory>
    requires short { length above.now < 2 ^ 32 }
    requires peeled { IsPeeled above.now order.old }
    ensures peeled { OnOk result (IsPeeled above.now order.new) }
    ensures few { OnOk result (length order.new ≤ length above.now) }
    ensures taken { IfOk result (λ taken. MatchBool taken (length order.old < length order.new) (IsStuck above.now order.new)) }
{
    let mut any = false;
    for number in 0..above.len() as u32 {
        if take_number(order, above, number)? {
            any = true;
        }
    }
    order.is_distinct();
    Ok(any)
}

/// Takes numbers until none can be taken any more: each behind all that are directly above it.
pub fn order_of(alloc: Global, above: &[Items<u32>]) -> Result<NumberSet, NoMemory>
    requires { length above.now < 2 ^ 32 }
    ensures peeled { IfOk result (λ order. IsPeeled above.now order) }
    ensures stuck { IfOk result (λ order. IsStuck above.now order) }
    ensures few { IfOk result (λ order. length order ≤ length above.now) }
    ensures ranked { IfOk result (λ order. HasAll (length above.now) order → 0 < length above.now → HasRanks above.now) }
{
    let mut order = NumberSet::new(alloc);
    // The hint is such an order where there is one, so that a single round is left.
    let hint = hint_of(alloc, above)?;
    take_each(&mut order, above, &hint)?;
    while take_round(&mut order, above)? {}
    Ok(order)
}
