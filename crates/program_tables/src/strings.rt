//! The string literals of a program, each once.

ghost use Rattle.std.specs.Prelude.{◌≡◌, ◌+◌, ◌<◌, ◌^◌, [], ◌∷◌, ◌++◌, length, None, Some, IfOk, IfSome, OnOk, slice_get};
ghost use Rattle.bytecode_model.specs.Lists.{onto, index_of};
ghost use Rattle.class_lookup.specs.Parts.{same_text};
ghost use Rattle.program_tables.specs.Lists.{with_item};
ghost use Rattle.program_tables.specs.Tables.{numbers_among};

use base::NoMemory;
use class_lookup::Classes;
use std::alloc::Global;
use std::collections::BTreeMap;
use std::marker::Model;

/// The most strings whose objects have numbers of 32 bits.
const MOST_STRINGS: usize = (1 << 30) - 1;

/// String literals by number. Contracts see them as the list of their units.
///
/// Each string is in memory twice: by number, and in the order of texts, where it is looked up.
#[derive(Drop)]
pub struct Strings {
    texts: Vec<Vec<u16>>,
    numbers: BTreeMap<Vec<u16>, u32>,
}

impl Model for Strings {
    ghost use Rattle.std.specs.Prelude.{ℕ, List, ◌<◌, ◌^◌, length, map};
    ghost use Rattle.class_lookup.specs.Numbered.{HasNumbers};

    ghost Value = { List (List ℕ) };

    ghost view = { λ a. map (λ k. k.items) a.texts.items };

    ghost invariant = { λ a. (length a.texts.items < 2 ^ 30) × HasNumbers (map (λ k. k.items) a.texts.items) a.numbers };
}

impl Strings {
    /// No strings.
    pub(crate) fn new(alloc: Global) -> Self
        ensures { result ≡ [] }
    {
        Strings {
            texts: Vec::new(alloc),
            numbers: BTreeMap::new(alloc),
        }
    }

    /// How many there are: fewer than 2^30.
    pub fn count(&self) -> u32
        ensures count { result ≡ length self.now }
        ensures few { result < 1073741824 }
    {
        self.texts.len() as u32
    }

    /// The units of the string of this number.
    pub fn at(&self, number: u32) -> &[u16]
        requires { number < length self.now }
        ensures { slice_get self.now number ≡ Some result.now }
    {
        self.texts[number as usize].as_slice()
    }

    /// The number of a string.
    pub fn number(&self, units: &[u16]) -> Option<u32>
        ensures number { result ≡ index_of (same_text units.now) self.now }
        ensures few { IfSome result (λ number. number < 1073741824) }
    {
        self.numbers.get(units).copied()
    }

    /// Puts a string last, unless it is there.
    pub(crate) fn insert(&mut self, alloc: Global, units: &[u16]) -> Result<(), NoMemory>
        ensures { OnOk result (self.new ≡ with_item same_text self.old units.now) }
    {
        if self.number(units).is_some() {
            return Ok(());
        }
        let number = self.texts.len();
        if number >= MOST_STRINGS {
            return Err(NoMemory);
        }
        let by_number = Vec::from_slice(alloc, units)?;
        let in_order = Vec::from_slice(alloc, units)?;
        self.add(number as u32, by_number, in_order)
    }

    /// Puts a new string last, of which two copies are given.
    fn add(&mut self, number: u32, by_number: Vec<u16>, in_order: Vec<u16>) -> Result<(), NoMemory>
        requires same { by_number.items ≡ in_order.items }
        requires new { index_of (same_text by_number.items) self.old ≡ None }
        requires number { number ≡ length self.old }
        requires few { number + 1 < 2 ^ 30 }
        ensures { OnOk result (self.new ≡ self.old ++ by_number.items ∷ []) }
    {
        self.texts.reserve(1)?;
        self.numbers.insert(in_order, number)?;
        self.texts.push_reserved(by_number);
        Ok(())
    }
}

/// The numbers of the strings that the texts of classes are, by symbol. Contracts see them as the list.
#[derive(Drop)]
pub struct StringNumbers {
    numbers: Vec<Option<u32>>,
}

impl Model for StringNumbers {
    ghost use Rattle.std.specs.Prelude.{◌≡◌, ◌<◌, ◌^◌, ℕ, List, Option, Some, slice_get};

    ghost Value = { List (Option ℕ) };

    ghost view = { λ a. a.numbers.items };

    ghost invariant = { λ a. (n k : ℕ) → slice_get a.numbers.items n ≡ Some (Some k) → k < 2 ^ 30 };
}

impl StringNumbers {
    /// The number of each text of the classes among the strings.
    pub fn new(alloc: Global, classes: &Classes, strings: &Strings) -> Result<Self, NoMemory>
        ensures { IfOk result (λ made. made ≡ numbers_among strings.now classes.now) }
    {
        let mut numbers = Vec::new(alloc);
        for number in 0..classes.symbol_count() {
            numbers.push(strings.number(classes.text(number)))?;
        }
        Ok(StringNumbers { numbers })
    }

    /// The number of the string that the text of this symbol is.
    pub fn number(&self, symbol: u32) -> Option<u32>
        ensures number { result ≡ onto (slice_get self.now symbol) (λ number. number) }
        ensures few { IfSome result (λ number. number < 1073741824) }
    {
        match self.numbers.get(symbol as usize) {
            Some(number) => *number,
            None => None,
        }
    }
}
