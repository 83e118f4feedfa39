//! The stack, the on-chip words and the bytes of the method.
ghost use Rattle.std.specs.Prelude.{◌≡◌, ◌<◌, ◌%◌, length};
ghost use Rattle.jop_core.specs.Operations.{pushed, popped, stored, word_at, place_of};
ghost use Rattle.jop_core.specs.Cycle.{byte_at};
ghost use Rattle.jop_core.specs.Meaning.{bytes_of};

use crate::machine::Machine;
use base::byte_of_word;

impl<const N: usize> Machine<N> {
    /// A place among the on-chip words.
    pub(super) fn place(&self, place: u64) -> u32
        ensures place { result ≡ place_of self.now place }
        ensures within { result < N }
    {
        // The contract alone speaks of it.
        let _ = &self.sp;
        (place % N as u64) as u32
    }

    pub(super) fn push(&mut self, x: u32)
        ensures { self.new ≡ pushed x self.old }
    {
        let place = self.place(self.sp as u64 + 1);
        let below = self.b;
        self.stack.write(place, below);
        self.sp = place;
        self.b = self.a;
        self.a = x;
    }

    /// Pops the top word.
    pub(super) fn pop(&mut self) -> u32
        ensures popped { self.new ≡ popped self.old }
        ensures top { result ≡ self.old.a }
    {
        let top = self.a;
        let below = self.word(self.sp as u64);
        let place = self.place(self.sp as u64 + (N as u64 - 1));
        self.a = self.b;
        self.b = below;
        self.sp = place;
        top
    }

    pub(super) fn word(&self, place: u64) -> u32
        ensures { result ≡ word_at self.now place }
    {
        self.stack.read(self.place(place))
    }

    pub(super) fn push_word(&mut self, place: u64)
        ensures { self.new ≡ pushed (word_at self.old place) self.old }
    {
        let word = self.word(place);
        self.push(word);
    }

    /// Pops into the on-chip word at a place.
    pub(super) fn store(&mut self, place: u64)
        ensures { self.new ≡ stored place self.old }
    {
        let place = self.place(place);
        let top = self.pop();
        self.stack.write(place, top);
    }

    /// The byte at jpc. Its word is fetched where it isn't the one that was fetched last.
    #[inline(always)]
    #[tactic(auto, using(crate::proofs::Fetching::byte_among), unfolding(crate::specs::Meaning::IsFetched))]
    pub(super) fn byte(&mut self) -> u8
        ensures byte { result ≡ byte_at self.old }
        ensures unchanged { self.new ≡ self.old }
    {
        let place = self.jpc as u32;
        if place / 4 != self.fetched_place {
            self.fetched = bytes_of_word(self.cache.word(self.method, place / 4));
            self.fetched_place = place / 4;
        }
        self.fetched[(place % 4) as usize]
    }
}

fn bytes_of_word(word: u32) -> [u8; 4]
    ensures { result ≡ bytes_of word }
{
    [
        byte_of_word(word, 0),
        byte_of_word(word, 1),
        byte_of_word(word, 2),
        byte_of_word(word, 3),
    ]
}
