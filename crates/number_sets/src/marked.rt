//! A set whose members are marked.

ghost use Rattle.std.specs.Prelude.{◌≡◌, ◌++◌, [], OnOk, IfOk};
ghost use Rattle.std.specs.List.{flat_map};
ghost use Rattle.lists.specs.Numbers.{is_among, entry, IsSameSearch};
ghost use Rattle.number_sets.specs.Numbers.{with_number, IsTransitive, HasWhole};

use crate::NumberSet;
use base::NoMemory;
use std::alloc::Global;
use std::marker::Model;

/// Numbers, each once, in the order in which they came, of which the smaller ones are marked: a mark is told sooner than the set
/// is searched. Contracts see it as the list of the numbers.
#[derive(Drop)]
pub struct MarkedSet {
    set: NumberSet,
    /// By number, whether it is among them; a number without a mark may be.
    marks: Vec<bool>,
}

impl Model for MarkedSet {
    ghost use Rattle.std.specs.Prelude.{ℕ, List};
    ghost use Rattle.number_sets.specs.Marks.{AreAmong};

    ghost Value = { List ℕ };

    ghost view = { λ a. a.set };

    ghost invariant = { λ a. AreAmong a.marks.items a.set };
}

impl MarkedSet {
    /// No number, and marks for so many.
    pub fn new(alloc: Global, count: usize) -> Result<Self, NoMemory>
        ensures { IfOk result (λ made. made ≡ []) }
    {
        let marks = vec![in alloc; false; count]?;
        Ok(MarkedSet {
            set: NumberSet::new(alloc),
            marks,
        })
    }

    /// The numbers.
    pub fn into_set(self) -> NumberSet
        ensures { result ≡ self }
    {
        self.set
    }

    /// Whether the number is among them.
    pub fn contains(&self, number: u32) -> bool
        ensures { result ≡ is_among self.now number }
    {
        match self.marks.get(number as usize) {
            Some(true) => true,
            _ => self.set.contains(number),
        }
    }

    /// Adds the number, unless it is among them.
    #[tactic(auto, using(crate::proofs::MarkLemmas::marked_more, crate::proofs::MarkLemmas::kept_more, crate::proofs::MarkLemmas::none_marked))]
    pub fn insert(&mut self, number: u32) -> Result<(), NoMemory>
        ensures { OnOk result (self.new ≡ with_number self.old number) }
    {
        match self.set.insert(number) {
            Ok(()) => {
                if (number as usize) < self.marks.len() {
                    self.marks[number as usize] = true;
                }
                Ok(())
            }
            Err(fault) => {
                // Nothing is known of the set then.
                self.marks.clear();
                Err(fault)
            }
        }
    }

    /// Adds those of the numbers that aren't among them.
    pub fn insert_all(&mut self, numbers: &[u32]) -> Result<(), NoMemory>
        ensures { OnOk result (IsSameSearch self.new (self.old ++ numbers.now)) }
    {
        for number in numbers {
            if !self.contains(*number) {
                self.insert(*number)?;
            }
        }
        Ok(())
    }

    /// Adds what the table has for each of these numbers, in their order. What it has for one that is among them is so already.
    pub fn insert_lists(&mut self, numbers: &[u32], table: &[NumberSet]) -> Result<(), NoMemory>
        requires through { IsTransitive table.now }
        requires whole { HasWhole table.now numbers.now self.old }
        ensures { OnOk result (IsSameSearch self.new (self.old ++ flat_map (entry table.now) numbers.now)) }
    {
        for number in numbers {
            let index = *number as usize;
            if !self.contains(*number) && index < table.len() {
                self.insert_all(table[index].as_slice())?;
            }
        }
        Ok(())
    }
}
