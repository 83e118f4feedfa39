//! Rows of bits, one for each number.

ghost use Rattle.std.specs.Prelude.{◌≡◌, ℕ, ◌||◌, ◌&&◌, ◌==◌, ◌<◌, ◌≤◌, ◌*◌, ◌+◌, false, length, take, drop, Some, IfOk, OnErr, OnOk};
ghost use Rattle.std.specs.Option.{option_map_or};
ghost use Rattle.number_sets.specs.Bits.Bits.{has, is_pair, is_in};
ghost use Rattle.number_sets.specs.Bits.Table.{columns, start_of};

use base::NoMemory;
use indexmap::IndexMap;
use std::alloc::Global;
use std::marker::Model;

/// One row of bits. Contracts see which are set.
#[derive(Clone, Copy)]
pub struct Row<'a> {
    words: &'a [u64],
}

/// Rows of bits, each of the same number of columns, by pairs of numbers. Contracts see which bits are set.
#[derive(Drop)]
pub struct BitRows {
    /// Where among the words each row starts.
    starts: IndexMap<(u32, u32), usize>,
    words: Vec<u64>,
    /// How many words a row has.
    width: u32,
}

impl Model for BitRows {
    ghost use Rattle.number_sets.specs.Bits.Table.{BitTable, AreApart};

    ghost Value = { BitTable };

    ghost view = { λ a. record { width = a.width; starts = a.starts.entries; words = a.words.items } };

    ghost invariant = { λ a. AreApart (record { width = a.width; starts = a.starts.entries; words = a.words.items }) };
}

/// So many words from a place on.
fn part(words: &[u64], start: usize, count: usize) -> &[u64]
    requires { start + count ≤ length words.now }
    ensures { result.now ≡ take count (drop start words.now) }
{
    &words[start..start + count]
}

impl Row<'_> {
    /// Whether the bit of a column is set; none is beyond the last column.
    pub fn has(self, column: u32) -> bool
        ensures { result ≡ is_in self.entry column }
    {
        match self.words.get((column / 64) as usize) {
            Some(word) => (*word >> (column % 64)) % 2 == 1,
            None => false,
        }
    }
}

impl BitRows {
    /// Rows of at least so many columns, with no bit set.
    pub fn new(alloc: Global, least: u32) -> Self
        ensures none { (p : ℕ × ℕ) (c : ℕ) → has result p c ≡ false }
        ensures wide { least ≤ columns result }
    {
        BitRows {
            starts: IndexMap::new(alloc),
            words: Vec::new(alloc),
            width: least / 64 + 1,
        }
    }

    /// The row of this pair; none where no bit of it was ever set.
    pub fn row(&self, pair: (u32, u32)) -> Option<Row<'_>>
        ensures { (c : ℕ) → has self.now pair c ≡ option_map_or (λ row. is_in row c) result false }
    {
        let start = *self.starts.get(&pair)?;
        Some(Row {
            words: part(&self.words, start, self.width as usize),
        })
    }

    /// Where the row of this pair starts, which is made if there is none.
    fn start(&mut self, pair: (u32, u32)) -> Result<usize, NoMemory>
        ensures start { IfOk result (λ start. start_of self.new pair ≡ Some start) }
        ensures same { (p : ℕ × ℕ) (c : ℕ) → has self.new p c ≡ has self.old p c }
        ensures width { self.new.width ≡ self.old.width }
    {
        if let Some(start) = self.starts.get(&pair) {
            return Ok(*start);
        }
        let start = self.words.len();
        self.words.resize(start + self.width as usize, 0)?;
        self.starts.insert(pair, start)?;
        Ok(start)
    }

    /// Sets the bit of a column in the row of this pair, and no other bit. Where memory is wanting, no bit changes.
    pub fn set(&mut self, pair: (u32, u32), column: u32) -> Result<(), NoMemory>
        requires { column < columns self.old }
        ensures set { OnOk result ((p : ℕ × ℕ) (c : ℕ) → has self.new p c ≡ (has self.old p c || (is_pair p pair && c == column))) }
        ensures unchanged { OnErr result ((p : ℕ × ℕ) (c : ℕ) → has self.new p c ≡ has self.old p c) }
        ensures columns { columns self.new ≡ columns self.old }
    {
        let start = self.start(pair)?;
        self.words[start + (column / 64) as usize] |= 1 << (column % 64);
        Ok(())
    }
}
