//! Guesses in which order numbers can be taken. What is proved of an order that was taken so doesn't depend on the guess; only
//! the time does.

ghost use Rattle.std.specs.Prelude.{◌<◌, ◌^◌, length};

use base::{Items, NoMemory};
use std::alloc::Global;

/// What stands directly below each number, as often as it is named there.
fn below_of(alloc: Global, above: &[Items<u32>]) -> Result<Vec<Vec<u32>>, NoMemory>
    requires { length above.now < 2 ^ 32 }
{
    let mut below = Vec::new(alloc);
    for _ in above {
        below.push(Vec::new(alloc))?;
    }
    for (i, numbers) in above.iter().enumerate() {
        for number in numbers.as_slice() {
            let upper = *number as usize;
            if upper < below.len() {
                below[upper].push(i as u32)?;
            }
        }
    }
    Ok(below)
}

/// Of how many that are directly above it each number waits.
fn waiting_of(alloc: Global, above: &[Items<u32>]) -> Result<Vec<usize>, NoMemory> {
    let mut waiting = Vec::new(alloc);
    for numbers in above {
        waiting.push(numbers.as_slice().len())?;
    }
    Ok(waiting)
}

/// These wait for one less; the ones that then wait for none are added to the hint.
fn release(lower: &[u32], waiting: &mut Vec<usize>, hint: &mut Vec<u32>) -> Result<(), NoMemory> {
    for number in lower {
        let index = *number as usize;
        if index < waiting.len() && waiting[index] > 0 {
            waiting[index] -= 1;
            if waiting[index] == 0 {
                hint.push(*number)?;
            }
        }
    }
    Ok(())
}

/// All numbers, each behind all that are directly above it, where there is such an order; else those that can be put so.
pub(crate) fn hint_of(alloc: Global, above: &[Items<u32>]) -> Result<Vec<u32>, NoMemory>
    requires { length above.now < 2 ^ 32 }
{
    let below = below_of(alloc, above)?;
    let mut waiting = waiting_of(alloc, above)?;
    let mut hint = Vec::new(alloc);
    for (i, count) in waiting.iter().enumerate() {
        if *count == 0 && i < above.len() {
            hint.push(i as u32)?;
        }
    }
    for i in 0..above.len() {
        if i < hint.len() {
            let upper = hint[i] as usize;
            if upper < below.len() {
                release(&below[upper], &mut waiting, &mut hint)?;
            }
        }
    }
    Ok(hint)
}
