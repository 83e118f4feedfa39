//! The method cache of the core, which holds copies of the methods that were loaded last
//! (JOP Reference Handbook, "Method Cache").
//!
//! A caller sees it as the list of the methods that it holds, newest first. The words lie in a ring
//! of blocks: a load takes the blocks from the pointer on, writes its own words and moves no other.
#![tactic(auto)]

ghost use Rattle.std.specs.Prelude.{◌≡◌, ℕ, ◌<◌, ◌≤◌, ◌↔◌, false, length, Some, Contains, IfOk, IsTrue};
ghost use Rattle.method_cache.specs.Laws.{FittingIsLongest};
ghost use Rattle.method_cache.specs.declared.TheConstants.{MAX_BLOCKS, MAX_BLOCK_WORDS};

use base::NoMemory;
use blocks::{Extent, Tag, find, method_in, store, word_at};
use std::alloc::Global;
use std::marker::Model;

mod blocks;
pub mod regions;

/// The most blocks of a cache.
pub const MAX_BLOCKS: u32 = 256;
/// The most words of a block.
pub const MAX_BLOCK_WORDS: u32 = 1024;

/// A method cache.
#[derive(Drop)]
pub struct MethodCache {
    blocks: usize,
    block_words: usize,
    // What each block holds.
    tags: Vec<Option<Tag>>,
    // The words of all blocks, one block after another.
    words: Vec<u32>,
    // The block with which the next load begins.
    next: usize,
    // Where the method lies that was selected or loaded last.
    selected: Option<Extent>,
}

impl Model for MethodCache {
    ghost use Rattle.std.specs.Prelude.{ℕ};
    ghost use Rattle.method_cache.specs.Contents.{Cache};

    ghost Value = { Cache };

    ghost use Rattle.method_cache.specs.Meaning.{cache_of, IsRing};

    ghost view = { cache_of };

    ghost invariant = { IsRing };
}

impl MethodCache {
    ghost use Rattle.method_cache.specs.Contents.{empty, is_cached, word_of, can_load, loaded, methods_of, tag_of, Occupies, blocks_for, IsCache};

    /// A cache of `blocks` blocks of `block_words` words that holds no method. The only error is
    /// that there is no memory for the blocks.
    pub fn new(alloc: Global, blocks: u32, block_words: u32) -> Result<Self, NoMemory>
        requires some_blocks { 0 < blocks }
        requires most_blocks { blocks ≤ MAX_BLOCKS }
        requires some_words { 0 < block_words }
        requires most_words { block_words ≤ MAX_BLOCK_WORDS }
        ensures { IfOk result (λ c. c ≡ empty blocks block_words) }
    {
        let blocks = blocks as usize;
        let block_words = block_words as usize;
        let mut tags = Vec::new(alloc);
        tags.resize(blocks, None)?;
        Ok(MethodCache {
            blocks,
            block_words,
            tags,
            words: vec![in alloc; 0; blocks * block_words]?,
            next: 0,
            selected: None,
        })
    }

    /// Whether the cache holds method `m`.
    pub fn look(&self, m: u32) -> bool
        ensures value { result ≡ is_cached m self.now }
        ensures member { IsTrue result ↔ Contains (methods_of self.now) m }
    {
        find(&self.tags, self.block_words, m).is_some()
    }

    /// Whether the cache holds method `m`, as `look`. If it does, its words cost no search from now
    /// on, until another method is selected or loaded.
    pub fn select(&mut self, m: u32) -> bool
        ensures found { result ≡ is_cached m self.old }
        ensures unchanged { self.new ≡ self.old }
    {
        match find(&self.tags, self.block_words, m) {
            Some(extent) => {
                self.selected = Some(extent);
                true
            }
            None => false,
        }
    }

    /// Whether a method of so many words can be loaded: it has a word, and its blocks are at most
    /// those that there are.
    pub fn can_load(&self, words: u32) -> bool
        ensures value { result ≡ can_load words self.now }
        ensures least { IsTrue result → 0 < words }
        ensures most { IsTrue result → blocks_for self.now.block_words words ≤ self.now.blocks }
    {
        words > 0 && (words as usize).div_ceil(self.block_words) <= self.blocks
    }

    /// Loads method `m`, whose words are `words`. It becomes the newest, and the oldest methods that
    /// don't fit any more are gone. It is the selected method from now on.
    pub fn load(&mut self, m: u32, words: &[u32])
        requires absent { is_cached m self.old ≡ false }
        requires least { 0 < length words.now }
        requires most { blocks_for self.old.block_words (length words.now) ≤ self.old.blocks }
        ensures after { self.new ≡ loaded m words.now self.old }
        ensures valid { IsCache self.new }
    {
        let end = store(
            &mut self.tags,
            &mut self.words,
            self.next,
            self.block_words,
            m,
            words,
        );
        self.selected = Some(Extent {
            method: m,
            first: self.next * self.block_words,
            words: words.len(),
        });
        self.next = end;
    }

    /// Word `i` of method `m`. It is 0 past the method's words, and where the cache doesn't hold the
    /// method. It costs no search for the method that was selected or loaded last.
    #[inline(always)]
    pub fn word(&self, m: u32, i: u32) -> u32
        ensures { result ≡ word_of m i self.now }
    {
        match self.selected {
            Some(extent) if extent.method == m => word_at(&self.words, extent, i as usize),
            _ => self.searched_word(m, i),
        }
    }

    /// The same of any method, by a search for it.
    #[cold]
    #[inline(never)]
    fn searched_word(&self, m: u32, i: u32) -> u32
        ensures { result ≡ word_of m i self.now }
    {
        match find(&self.tags, self.block_words, m) {
            Some(extent) => word_at(&self.words, extent, i as usize),
            None => 0,
        }
    }

    /// How many blocks there are.
    pub fn blocks(&self) -> u32
        ensures { result ≡ self.now.blocks }
    {
        self.blocks as u32
    }

    /// The method that lies in a block, if there is one.
    pub fn tag(&self, block: u32) -> Option<u32>
        requires { block < self.now.blocks }
        ensures value { result ≡ tag_of block self.now }

        // The methods lie backwards from the pointer, newest first, each in consecutive blocks.
        ensures occupied { (m : ℕ) → (result ≡ Some m) ↔ Occupies block m self.now }
    {
        method_in(self.tags[block as usize])
    }

    /// The block with which the next load begins.
    pub fn next(&self) -> u32
        ensures next { result ≡ self.now.next }
        ensures valid { IsCache self.now }
    {
        self.next as u32
    }
}

/// The law of what stays in a cache: the methods that fit are the longest prefix whose blocks sum
/// to at most the blocks that there are. It holds of every list, and the call does nothing.
pub fn fitting_methods_are_longest()
    ensures { FittingIsLongest }
{}
