//! Guesses at the numbers of texts, which spare most searches for a text.
use base::NoMemory;
use std::alloc::Global;

/// How many guesses there are at first. Their number stays a power of two.
const FIRST_GUESSES: usize = 64;

/// How many guesses there are for each text, at least.
const GUESSES_PER_TEXT: usize = 4;

/// How many units at its end the place of a text depends on.
const PLACING_UNITS: usize = 32;

/// An odd multiplier near 2^64 divided by the golden ratio, which spreads a difference of two texts over the upper bits.
const MULTIPLIER: u64 = 0x9E37_79B9_7F4A_7C15;

/// For each place the number of the text of that place that was put last.
///
/// Nothing is promised of a guess: texts share places, so that whoever takes one compares the text. Texts that are chosen for one
/// place thus cost their searches, and no more.
#[derive(Drop)]
pub(crate) struct Guesses {
    numbers: Vec<u32>,
}

impl Guesses {
    /// All guesses are 0.
    pub(crate) fn new(alloc: Global) -> Result<Self, NoMemory> {
        let numbers = vec![in alloc; 0; FIRST_GUESSES]?;
        Ok(Guesses { numbers })
    }

    /// The place of a text: bits of a hash of its length and its last units, from the lowest up. So where the guesses become twice as
    /// many, each text's place stays or goes up by their number, and a copy of the guesses keeps them.
    fn place(&self, text: &[u16]) -> usize {
        let start = text.len().saturating_sub(PLACING_UNITS);
        let mut hash = text.len() as u64;
        for unit in &text[start..] {
            hash = (hash ^ u64::from(*unit)).wrapping_mul(MULTIPLIER);
        }
        (hash >> 32) as usize & self.numbers.len().wrapping_sub(1)
    }

    /// The guess at the number of a text.
    pub(crate) fn get(&self, text: &[u16]) -> Option<u32> {
        self.numbers.get(self.place(text)).copied()
    }

    /// Makes this the guess at the number of the text. Texts have the numbers from 0.
    pub(crate) fn put(&mut self, text: &[u16], number: u32) -> Result<(), NoMemory> {
        if number as usize >= self.numbers.len() / GUESSES_PER_TEXT {
            self.numbers.extend_from_within(..)?;
        }
        let place = self.place(text);
        if let Some(guess) = self.numbers.get_mut(place) {
            *guess = number;
        }
        Ok(())
    }
}
