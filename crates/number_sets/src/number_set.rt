//! A set of numbers, as a list without repetition.

ghost use Rattle.std.specs.Prelude.{◌≡◌, ℕ, ◌++◌, [], nat_eq, replicate, IfOk, OnOk};
ghost use Rattle.std.specs.List.{IsDistinct};
ghost use Rattle.lists.specs.Numbers.{is_among};
ghost use Rattle.number_sets.specs.Numbers.{with_number, IsSameSearch};

use base::NoMemory;
use indexmap::IndexSet;
use std::alloc::Global;
use std::marker::Model;

/// Numbers, each once, in the order in which they came. Contracts see it as their list.
#[derive(Drop)]
pub struct NumberSet {
    numbers: IndexSet<u32>,
}

impl Model for NumberSet {
    ghost use Rattle.std.specs.Prelude.{ℕ, List};

    ghost Value = { List ℕ };

    ghost view = { λ a. a.numbers.keys };
}

impl NumberSet {
    pub fn new(alloc: Global) -> Self
        ensures { result ≡ [] }
    {
        NumberSet {
            numbers: IndexSet::new(alloc),
        }
    }

    /// The numbers.
    pub fn as_slice(&self) -> &[u32]
        ensures { result.now ≡ self.now }
    {
        self.numbers.as_slice()
    }

    /// No number stands twice. It does nothing; a caller whose proof needs the fact calls it.
    pub fn is_distinct(&self)
        ensures { IsDistinct nat_eq self.now }
    {
        // Its clause is for the proof alone.
        let _ = self.numbers.len();
    }

    /// Whether the number is among them.
    pub fn contains(&self, number: u32) -> bool
        ensures { result ≡ is_among self.now number }
    {
        self.numbers.contains(&number)
    }

    /// Adds the number, unless it is among them.
    pub fn insert(&mut self, number: u32) -> Result<(), NoMemory>
        ensures { OnOk result (self.new ≡ with_number self.old number) }
    {
        self.numbers.insert(number)?;
        Ok(())
    }

    /// Adds those of the numbers that aren't among them.
    pub fn insert_all(&mut self, numbers: &[u32]) -> Result<(), NoMemory>
        ensures { OnOk result (IsSameSearch self.new (self.old ++ numbers.now)) }
    {
        for number in numbers {
            self.insert(*number)?;
        }
        Ok(())
    }
}

/// So many empty sets.
pub fn empty_sets(alloc: Global, count: usize) -> Result<Vec<NumberSet>, NoMemory>
    ensures { IfOk result (λ sets. sets.items ≡ replicate count []) }
{
    let mut sets = Vec::new(alloc);
    for _index in 0..count {
        sets.push(NumberSet::new(alloc))?;
    }
    Ok(sets)
}
