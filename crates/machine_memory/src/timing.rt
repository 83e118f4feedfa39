//! The main memory behind its port, which takes some cycles for a read and for a write, and the
//! settings of a machine (JOP Reference Handbook, "Memory").
//!
//! A read or a write acts on the words at the moment of its start. The port is busy from then on,
//! and ready again when its wait and one more cycle have passed.

ghost use Rattle.std.specs.Prelude.{◌≡◌, ◌+◌, ◌≤◌, ◌↔◌, [], length, slice_index, slice_range, IsTrue, IfOk};
ghost use Rattle.machine_memory.specs.Timing.Port.{ReadIsReadyInTime, WriteIsReadyInTime, ReadStays};
ghost use Rattle.machine_memory.specs.declared.timing.TheConstants.{MIN_MEMORY, MAX_MEMORY, MAX_WAIT, MIN_BLOCKS, MAX_BLOCKS, MIN_BLOCK_WORDS, MAX_BLOCK_WORDS};

use base::NoMemory;
use std::alloc::Global;
use std::marker::Model;

/// The fewest words of main memory.
pub const MIN_MEMORY: u32 = 16;
/// The most words of main memory.
pub const MAX_MEMORY: u32 = 16_777_216;
/// The most cycles that a read or a write waits.
pub const MAX_WAIT: u32 = 63;
/// The fewest blocks of the method cache.
pub const MIN_BLOCKS: u32 = 1;
/// The most blocks of the method cache.
pub const MAX_BLOCKS: u32 = 256;
/// The fewest words of a block.
pub const MIN_BLOCK_WORDS: u32 = 1;
/// The most words of a block.
pub const MAX_BLOCK_WORDS: u32 = 1024;

/// The settings of a machine that its user chooses.
#[derive(Clone, Copy)]
pub struct Config {
    /// The words of main memory.
    pub memory: u32,
    /// The cycles that a read waits.
    pub read: u32,
    /// The cycles that a write waits.
    pub write: u32,
    /// The blocks of the method cache.
    pub blocks: u32,
    /// The words of a block.
    pub block_words: u32,
    pub ghost least_memory: { MIN_MEMORY ≤ memory },
    pub ghost most_memory: { memory ≤ MAX_MEMORY },
    pub ghost most_read: { read ≤ MAX_WAIT },
    pub ghost most_write: { write ≤ MAX_WAIT },
    pub ghost least_blocks: { MIN_BLOCKS ≤ blocks },
    pub ghost most_blocks: { blocks ≤ MAX_BLOCKS },
    pub ghost least_block_words: { MIN_BLOCK_WORDS ≤ block_words },
    pub ghost most_block_words: { block_words ≤ MAX_BLOCK_WORDS },
}

impl Default for Config {
    ghost use Rattle.machine_memory.specs.Timing.Setting.{IsDefault};

    ghost is_default = { IsDefault };

    fn default() -> Self {
        Config {
            memory: 262_144,
            read: 1,
            write: 2,
            blocks: 16,
            block_words: 64,
        }
    }
}

/// The main memory behind its port.
#[derive(Drop)]
pub struct Memory {
    words: Vec<u32>,
    read: u32,
    write: u32,
    // Cycles until the port is ready.
    count: u32,
    // The word that was read last.
    value: u32,
}

impl Model for Memory {
    ghost use Rattle.machine_memory.specs.Timing.Port.{Port, IsInRange};

    ghost Value = { Port };

    ghost view = { λ m. record {
      words = m.words.items;
      read = m.read;
      write = m.write;
      count = m.count;
      value = m.value;
    } };

    ghost invariant = { λ m. IsInRange (record {
      words = m.words.items;
      read = m.read;
      write = m.write;
      count = m.count;
      value = m.value;
    }) };
}

impl Memory {
    ghost use Rattle.machine_memory.specs.Timing.Port.{IsInRange, IsReady, idle, padded, read_started, write_started, ticked, word_set};

    /// A memory of `words` words that are all 0, behind an idle port. A read waits `r` cycles, and
    /// a write `w`. The only error is that there is no memory for the words.
    pub fn new(alloc: Global, words: u32, r: u32, w: u32) -> Result<Self, NoMemory>
        requires read { r ≤ MAX_WAIT }
        requires write { w ≤ MAX_WAIT }
        ensures { IfOk result (λ m. m ≡ idle (padded [] words) r w) }
    {
        Self::with_image(alloc, &[], words, r, w)
    }

    /// A memory of `words` words that begins with those of `image` and goes on with 0, behind an
    /// idle port. Times and error are those of `new`.
    pub fn with_image(
        alloc: Global,
        image: &[u32],
        words: u32,
        r: u32,
        w: u32,
    ) -> Result<Self, NoMemory>
        requires fits { length image.now ≤ words }
        requires read { r ≤ MAX_WAIT }
        requires write { w ≤ MAX_WAIT }
        ensures { IfOk result (λ m. m ≡ idle (padded image.now words) r w) }
    {
        let mut all = Vec::with_capacity(alloc, words as usize)?;
        all.extend_from_slice(image)?;
        all.resize(words as usize, 0)?;
        Ok(Memory {
            words: all,
            read: r,
            write: w,
            count: 0,
            value: 0,
        })
    }

    /// Starts a read at place `a`. Past the end it reads 0.
    pub fn start_read(&mut self, a: u32)
        ensures after { self.new ≡ read_started a self.old }
        ensures range { IsInRange self.new }
    {
        self.value = self.peek(a);
        self.count = self.read + 1;
    }

    /// Starts the write of `v` at place `a`. Past the end it writes nothing.
    pub fn start_write(&mut self, a: u32, v: u32)
        ensures after { self.new ≡ write_started a v self.old }
        ensures range { IsInRange self.new }
    {
        self.set(a, v);
        self.count = self.write + 1;
    }

    /// Lets a cycle pass.
    pub fn tick(&mut self)
        ensures after { self.new ≡ ticked self.old }
        ensures range { IsInRange self.new }
    {
        self.count = self.count.saturating_sub(1);
    }

    /// Whether the port is ready.
    pub fn ready(&self) -> bool
        ensures { IsTrue result ↔ IsReady self.now }
    {
        self.count == 0
    }

    /// The word that was read last, and 0 before the first read.
    pub fn value(&self) -> u32
        ensures { result ≡ self.now.value }
    {
        self.value
    }

    /// The word at place `a` without use of the port. Past the end it is 0.
    pub fn peek(&self, a: u32) -> u32
        ensures { result ≡ slice_index self.now.words a }
    {
        self.words.get(a as usize).copied().unwrap_or(0)
    }

    /// Puts `v` at place `a` without use of the port. Past the end nothing changes.
    pub fn set(&mut self, a: u32, v: u32)
        ensures after { self.new ≡ word_set a v self.old }
        ensures range { IsInRange self.new }
    {
        let at = a as usize;
        if at < self.words.len() {
            self.words[at] = v;
        }
    }

    /// The `n` words from place `a` on.
    pub fn words(&self, a: u32, n: u32) -> &[u32]
        requires { a + n ≤ length self.now.words }
        ensures { result.now ≡ slice_range self.now.words a (a + n) }
    {
        let start = a as usize;
        &self.words[start..start + n as usize]
    }

    /// The cycles that a read waits.
    pub fn read_wait(&self) -> u32
        ensures wait { result ≡ self.now.read }
        ensures range { IsInRange self.now }
    {
        self.read
    }

    /// How many words there are.
    pub fn word_count(&self) -> u32
        ensures count { result ≡ length self.now.words }
        ensures range { IsInRange self.now }
    {
        self.words.len() as u32
    }
}

/// The law of the port: a read and a write are ready when their wait and one more cycle have
/// passed, and not before, and what was read stays. It holds of every port, and the call does
/// nothing.
pub fn port_keeps_its_waits()
    ensures read { ReadIsReadyInTime }
    ensures write { WriteIsReadyInTime }
    ensures stays { ReadStays }
{}
