//! Texts, each once, by number.

ghost use Rattle.std.specs.Prelude.{◌≡◌, ℕ, ◌+◌, ◌<◌, ◌^◌, List, [], ◌∷◌, ◌++◌, length, None, Some, slice_get, IfOk, OnOk, OnErr, IfSome, IsTrue, unwrap_or};
ghost use Rattle.std.specs.Prelude.{if◌then◌else◌};
ghost use Rattle.class_lookup.specs.Parts.{same_text};
ghost use Rattle.class_lookup.specs.Lists.{with_item};
ghost use Rattle.class_lookup.specs.Numbered.{number_in, number_of};

use crate::guesses::Guesses;
use base::NoMemory;
use std::alloc::Global;
use std::collections::BTreeMap;
use std::marker::Model;

/// The most texts whose numbers, and the number of them, fit 32 bits.
const MOST_TEXTS: usize = 4_294_967_295;

/// Texts, each once, with a number for each: its place in the order in which they came. Contracts see them as their list.
///
/// Each text is in memory twice: by number, and in the order of texts, where it is looked up. So a look-up among n texts
/// compares at most some multiple of log n of them, whichever texts they are; where the guess is right, one.
#[derive(Drop)]
pub(crate) struct Texts {
    texts: Vec<Vec<u16>>,
    numbers: BTreeMap<Vec<u16>, u32>,
    guesses: Guesses,
}

impl Model for Texts {
    ghost use Rattle.std.specs.Prelude.{ℕ, List, ◌<◌, ◌^◌, length, map};
    ghost use Rattle.class_lookup.specs.Numbered.{AreNumbered, HasNumbers};

    ghost Value = { List (List ℕ) };

    ghost view = { λ a. map (λ k. k.items) a.texts.items };

    ghost invariant = { λ a. (length a.texts.items < 2 ^ 32)
        × AreNumbered (map (λ k. k.items) a.texts.items)
        × HasNumbers (map (λ k. k.items) a.texts.items) a.numbers };
}

impl Texts {
    /// The empty text alone.
    pub(crate) fn new(alloc: Global) -> Result<Self, NoMemory>
        ensures { IfOk result (λ texts. texts ≡ ([] ∷ [])) }
    {
        let mut texts = Vec::new(alloc);
        texts.push(Vec::new(alloc))?;
        let mut numbers = BTreeMap::new(alloc);
        numbers.insert(Vec::new(alloc), 0)?;
        let guesses = Guesses::new(alloc)?;
        Ok(Texts {
            texts,
            numbers,
            guesses,
        })
    }

    /// How many there are.
    pub(crate) fn count(&self) -> u32
        ensures { result ≡ length self.now }
    {
        self.texts.len() as u32
    }

    /// The text of a number.
    pub(crate) fn text(&self, number: u32) -> &[u16]
        requires { number < length self.now }
        ensures text { slice_get self.now number ≡ Some result.now }
        ensures number { number_in self.now result.now ≡ Some number }
    {
        self.texts[number as usize].as_slice()
    }

    /// The number of a text, if it is among them.
    pub(crate) fn number(&self, text: &[u16]) -> Option<u32>
        ensures { result ≡ number_in self.now text.now }
    {
        match self.guessed(text) {
            Some(number) => Some(number),
            None => self.searched(text),
        }
    }

    /// The guess at the number of a text, if it is right.
    fn guessed(&self, text: &[u16]) -> Option<u32>
        ensures { IfSome result (λ number. number_in self.now text.now ≡ Some number) }
    {
        match self.guesses.get(text) {
            Some(guess) if self.is_text(guess, text) => Some(guess),
            _ => None,
        }
    }

    /// Whether the text has this number.
    fn is_text(&self, number: u32, text: &[u16]) -> bool
        ensures { IsTrue result → number_in self.now text.now ≡ Some number }
    {
        number < self.count() && self.text(number) == text
    }

    /// The number of a text, if it is among them, without a guess.
    fn searched(&self, text: &[u16]) -> Option<u32>
        ensures { result ≡ number_in self.now text.now }
    {
        self.numbers.get(text).copied()
    }

    /// Adds the text, unless it is among them, and answers its number.
    pub(crate) fn insert(&mut self, alloc: Global, text: &[u16]) -> Result<u32, NoMemory>
        ensures texts { OnOk result (self.new ≡ with_item same_text self.old text.now) }
        ensures number { IfOk result (λ number. number_in self.new text.now ≡ Some number) }
    {
        if let Some(number) = self.guessed(text) {
            return Ok(number);
        }
        let number = self.insert_searched(alloc, text)?;
        self.guesses.put(text, number)?;
        Ok(number)
    }

    /// Adds the text, unless it is among them, and answers its number, without a guess.
    fn insert_searched(&mut self, alloc: Global, text: &[u16]) -> Result<u32, NoMemory>
        ensures texts { OnOk result (self.new ≡ with_item same_text self.old text.now) }
        ensures number { IfOk result (λ number. number_in self.new text.now ≡ Some number) }
    {
        let next = self.texts.len();
        if next >= MOST_TEXTS {
            return self.searched(text).ok_or(NoMemory);
        }
        let by_number = Vec::from_slice(alloc, text)?;
        let in_order = Vec::from_slice(alloc, text)?;
        self.add(next as u32, by_number, in_order)
    }

    /// Adds the text, of which two copies are given, unless it is among them, and answers its number.
    fn add(&mut self, next: u32, by_number: Vec<u16>, in_order: Vec<u16>) -> Result<u32, NoMemory>
        requires same { by_number.items ≡ in_order.items }
        requires next { next ≡ length self.old }
        requires few { next + 1 < 2 ^ 32 }
        ensures texts { OnOk result (self.new ≡ with_item same_text self.old by_number.items) }
        ensures number { IfOk result (λ number. number_in self.new by_number.items ≡ Some number) }
    {
        self.texts.reserve(1)?;
        let number = number_or(&mut self.numbers, in_order, next)?;
        if number < next {
            return Ok(number);
        }
        self.texts.push_reserved(by_number);
        Ok(number)
    }
}

/// The number that a text has, or else this one, which it gets.
fn number_or(
    numbers: &mut BTreeMap<Vec<u16>, u32>,
    text: Vec<u16>,
    number: u32,
) -> Result<u32, NoMemory>
    ensures found { IfOk result (λ found. found ≡ unwrap_or (number_of numbers.old text.items) number) }
    ensures written { IfOk result (λ found. (t : List ℕ) → number_of numbers.new t ≡ (if same_text t text.items then Some found else number_of numbers.old t)) }
    ensures kept { OnErr result ((t : List ℕ) → number_of numbers.new t ≡ number_of numbers.old t) }
{
    Ok(*numbers.entry(text)?.or_insert(number))
}
