//! Which calls fail.

// Which calls on files in memory fail, and on which words they failed.
ghost use Rattle.std.specs.Prelude.{◌≡◌, ◌<◌, ◌≤◌, ◌+◌, ◌^◌, ◌++◌, ◌∷◌, ◌↔◌, ◌==◌, [], length, take, drop, vec_len, count_by, slice_index, Contains, IsErr};
ghost use Rattle.std.specs.Prelude.{OnErr, OnOk};
ghost use Rattle.outside.specs.Memory.{FailingState, SameLaterCalls, next_call};

use crate::Failed;
use std::marker::Model;

/// The numbers of the calls that are to fail, and the words of those that did.
/// The words of the failed calls stand in front of the numbers that are left. Each takes the place of the number
/// of its call, so that a call that fails takes no memory.
#[derive(Drop)]
pub struct FailingCalls {
    list: Vec<u64>,
    failed: usize,
    calls: u64,
}

impl Model for FailingCalls {
    ghost Value = { FailingState };

    ghost view = { λ c. record { failing = drop c.failed c.list.items; calls = c.calls; failed = take c.failed c.list.items } };

    ghost invariant = { λ c. c.failed ≤ vec_len c.list };
}

impl FailingCalls {
    pub fn new(failing: Vec<u64>) -> Self
        ensures { result ≡ record { failing = failing.items; calls = 0; failed = [] } }
    {
        FailingCalls {
            list: failing,
            failed: 0,
            calls: 0,
        }
    }

    /// Counts a call on a word, which fails where its number is listed.
    pub fn count_call(&mut self, word: u32) -> Result<(), Failed>
        ensures listed { IsErr result ↔ Contains self.old.failing self.old.calls }
        ensures counted { self.new.calls ≡ next_call self.old.calls }
        ensures later { SameLaterCalls self.old.calls self.old.failing self.new.failing }
        ensures failed { OnErr result (self.new.failed ≡ self.old.failed ++ word ∷ []) }
        ensures same { OnOk result (self.new.failed ≡ self.old.failed) }
        // A count of them fits.
        ensures few { length self.new.failed < 2 ^ 64 }
    {
        let call = self.calls;
        self.calls = call.saturating_add(1);
        match self.list[self.failed..]
            .iter()
            .position(|number| *number == call)
        {
            Some(at) => {
                replace_first(&mut self.list, self.failed, self.failed + at, word as u64);
                self.failed += 1;
                Err(Failed)
            }
            None => Ok(()),
        }
    }

    /// How many calls on a word failed by their numbers.
    pub fn faults(&self, word: u32) -> u64
        ensures { result ≡ count_by (λ k. k == word) self.now.failed }
    {
        let word = word as u64;
        self.list[..self.failed]
            .iter()
            .filter(|k| **k == word)
            .count() as u64
    }
}

/// Puts the first number of a part of the list in the place of another one, and a new number in the place of the
/// first.
fn replace_first(list: &mut Vec<u64>, first: usize, at: usize, number: u64)
    requires before { first ≤ at }
    requires within { at < vec_len list.old }
    ensures front { take (first + 1) list.new.items ≡ take first list.old.items ++ number ∷ [] }
    ensures later { SameLaterCalls (slice_index list.old.items at) (drop first list.old.items)
        (drop (first + 1) list.new.items) }
    ensures length { vec_len list.new ≡ vec_len list.old }
{
    list[at] = list[first];
    list[first] = number;
}
