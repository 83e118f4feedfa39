//! Sums of sizes, and the places behind one another that they give.
ghost use Rattle.std.specs.Prelude.{◌≡◌, ℕ, ◌+◌, ◌*◌, List, take, sum, IfOk};
ghost use Rattle.image_builder.specs.Runs.{IsRun};

use base::NoMemory;
use std::alloc::Global;

/// The sum, where it is a number of 32 bits; so many words are more than memory has.
pub fn add(a: u32, b: u32) -> Result<u32, NoMemory>
    ensures { IfOk result (λ n. n ≡ a + b) }
{
    match a.checked_add(b) {
        Some(n) => Ok(n),
        None => Err(NoMemory),
    }
}

/// The product, where it is a number of 32 bits.
pub fn times(a: u32, b: u32) -> Result<u32, NoMemory>
    ensures { IfOk result (λ n. n ≡ a * b) }
{
    match a.checked_mul(b) {
        Some(n) => Ok(n),
        None => Err(NoMemory),
    }
}

/// The number of items, where it is one of 32 bits.
pub fn count(n: usize) -> Result<u32, NoMemory>
    ensures { IfOk result (λ word. word ≡ n) }
{
    match u32::try_from(n) {
        Ok(word) => Ok(word),
        Err(_) => Err(NoMemory),
    }
}

/// The places of items that lie one behind another, and the place behind the last.
#[derive(Drop)]
pub struct Run {
    pub places: Vec<u32>,
    pub end: u32,
}

/// The places of items of these sizes from a place on.
pub fn run_from(alloc: Global, start: u32, sizes: &[u32]) -> Result<Run, NoMemory>
    ensures { IfOk result (IsRun start sizes.now) }
{
    let mut places = Vec::new(alloc);
    let mut end = start;
    for size in sizes {
        places.push(end)?;
        end = add(end, *size)?;
    }
    Ok(Run { places, end })
}

impl Run {
    /// The place of the item of this index, or behind the last one.
    pub fn at(&self, index: u32) -> u32
        ensures { (start : ℕ) (sizes : List ℕ) → IsRun start sizes self.now → result ≡ start + sum (take index sizes) }
    {
        let index = index as usize;
        if index < self.places.len() {
            self.places[index]
        } else {
            self.end
        }
    }
}
