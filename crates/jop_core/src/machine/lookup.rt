//! The look-up of a method, and its load into the cache.
ghost use Rattle.std.specs.Prelude.{◌≡◌, true, Some, None, if◌then◌else◌};
ghost use Rattle.method_cache.specs.Contents.{is_cached};
ghost use Rattle.jop_core.specs.Operations.{switched, looked_up, can_switch, code_place, code_words};

use crate::code::code_at;
use crate::machine::{Machine, NOT_FETCHED};

impl<const N: usize> Machine<N> {
    /// Makes the method at A's place the current one, and loads it where the cache doesn't hold it.
    pub(super) fn switch(&mut self)
        ensures { self.new ≡ switched self.old }
    {
        let m = self.a;
        let extent = self.extent(m);
        let _ = self.pop();
        if let Some((place, words)) = extent {
            self.look_up(m, place, words);
        }
    }

    /// Where the code of a method begins and how many words it has, if it can be switched to.
    fn extent(&self, m: u32) -> Option<(u32, u32)>
        ensures { result ≡ (if can_switch self.now m then Some (code_place self.now.port.words m, code_words self.now.port.words m) else None) }
    {
        let end = self.memory.word_count() as u64;
        if m as u64 + 4 > end {
            return None;
        }
        let code = code_at(m, self.memory.peek(m + 1), self.memory.peek(m + 3));
        if self.cache.can_load(code.words) && code.place + code.words as u64 <= end {
            Some((code.place as u32, code.words))
        } else {
            None
        }
    }

    /// Looks up a method whose code lies at a place of memory.
    #[tactic(auto, using(crate::proofs::Fetching::not_fetched, crate::proofs::Pausing::paused_at))]
    fn look_up(&mut self, m: u32, place: u32, words: u32)
        requires can { can_switch self.old m ≡ true }
        requires at { place ≡ code_place self.old.port.words m }
        requires count { words ≡ code_words self.old.port.words m }
        ensures { self.new ≡ looked_up (is_cached m self.old.cache) m self.old }
    {
        self.method = m;
        self.fetched_place = NOT_FETCHED;
        if self.cache.select(m) {
            self.hits = self.hits.wrapping_add(1);
        } else {
            self.cache.load(m, self.memory.words(place, words));
            self.misses = self.misses.wrapping_add(1);
            self.stall = 4 + words * (2 + self.memory.read_wait());
            self.paused = true;
        }
    }
}
