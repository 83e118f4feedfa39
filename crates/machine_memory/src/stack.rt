//! The on-chip memory of the core, which holds scratch words, constants and the top of the stack
//! (JOP Reference Handbook, "Stack Cache").
//!
//! A caller sees it as the list of its `N` words.

ghost use Rattle.std.specs.Prelude.{◌≡◌, ℕ, ◌+◌, ◌<◌, List, length, replicate, vec_len, slice_index, slice_set, IfOk};
ghost use Rattle.machine_memory.specs.Stack.Size.{IsSize, HoldsWords};

use base::NoMemory;
use std::alloc::Global;
use std::marker::Model;

/// The words that frames may not use: 64 below the stack, and 16 at the end for the microcode.
pub const RESERVED_WORDS: usize = 80;

/// An on-chip memory of `N` words, of which there are 256, 512 or 1,024.
#[derive(Drop)]
pub struct StackCache<const N: usize> {
    words: Vec<u32>,
}

impl<const N: usize> Model for StackCache<N> {
    ghost Value = { List ℕ };

    ghost view = { λ s. s.words.items };

    ghost invariant = { λ s. HoldsWords N s.words.items × IsSize N };
}

impl<const N: usize> StackCache<N> {
    /// A memory whose words are all 0. The only error is that there is no memory for them.
    pub fn new(alloc: Global) -> Result<Self, NoMemory>
        requires { IsSize N }
        ensures { IfOk result (λ s. s ≡ replicate N 0) }
    {
        Ok(StackCache {
            words: vec![in alloc; 0; N]?,
        })
    }

    /// The word at place `i`.
    pub fn read(&self, i: u32) -> u32
        requires { i < N }
        ensures word { result ≡ slice_index self.now i }
        ensures words { HoldsWords N self.now }
    {
        self.words[i as usize]
    }

    /// Puts `v` at place `i`, and changes no other word.
    pub fn write(&mut self, i: u32, v: u32)
        requires { i < N }
        ensures after { self.new ≡ slice_set self.old i v }
        ensures words { HoldsWords N self.new }
    {
        self.words[i as usize] = v;
    }

    /// How many words the frames may use.
    pub fn limit(&self) -> u32
        ensures limit { result + RESERVED_WORDS ≡ N }
        ensures words { HoldsWords N self.now }
        ensures permitted { IsSize N }
    {
        // The contract alone speaks of it.
        let _ = &self.words;
        (N - RESERVED_WORDS) as u32
    }
}
