//! A block RAM clock by clock.

ghost use Rattle.std.specs.Prelude.{◌≡◌, ◌++◌, ◌-◌, length, replicate, IfOk, slice_index_or, slice_set};
ghost use Rattle.netlist.specs.Evaluation.{after_edge, word_given};
ghost use Rattle.netlist.specs.Meaning.{first_ram};

use crate::parts::BlockRam;
use base::NoMemory;
use std::alloc::Global;
use std::marker::Model;

/// The words on the ports of a block RAM at a clock.
#[derive(Clone, Copy)]
pub struct PortWords {
    /// 1 where it writes.
    pub writes: u64,
    /// The place that is written.
    pub place: u64,
    /// The word that is written.
    pub word: u64,
    /// 1 where it reads.
    pub reads: u64,
    /// The place that is read.
    pub read_place: u64,
}

/// A block RAM: its words, and the word in its output register.
#[derive(Drop)]
pub struct Ram {
    words: Vec<u64>,
    read_out: u64,
}

impl Model for Ram {
    ghost use Rattle.netlist.specs.Meaning.{RamState};

    ghost Value = { RamState };

    ghost view = { λ m. record { words = m.words.items; read_out = m.read_out } };
}

/// The words of a block RAM at the start.
fn first_words(alloc: Global, m: &BlockRam) -> Result<Vec<u64>, NoMemory>
    ensures { IfOk result (λ words. words.items ≡ m.now.first ++ replicate (m.now.words - length m.now.first) 0) }
{
    let first = m.first.as_slice();
    let zeros = vec![in alloc; 0u64; m.words.saturating_sub(first.len())]?;
    let mut words = Vec::from_slice(alloc, first)?;
    words.extend_from_slice(&zeros)?;
    Ok(words)
}

impl Ram {
    /// A block RAM at the start, with this word in its output register.
    pub fn new(alloc: Global, m: &BlockRam, read_out: u64) -> Result<Ram, NoMemory>
        ensures { IfOk result (λ ram. ram ≡ first_ram (m.now, read_out)) }
    {
        let words = first_words(alloc, m)?;
        Ok(Ram { words, read_out })
    }

    /// The word in its output register.
    pub fn read_out(&self) -> u64
        ensures { result ≡ self.now.read_out }
    {
        self.read_out
    }

    /// The word that it reads.
    fn word_given(&self, ports: &PortWords, unknown: u64) -> u64
        ensures { result ≡ word_given ports.now unknown self.now.words }
    {
        if ports.writes == 1 && ports.place == ports.read_place {
            return unknown;
        }
        self.words
            .as_slice()
            .get(ports.read_place as usize)
            .copied()
            .unwrap_or(unknown)
    }

    /// Puts a word at a place, where there is such a place.
    fn put(&mut self, place: u64, word: u64)
        ensures words { self.new.words ≡ slice_set self.old.words place word }
        ensures read_out { self.new.read_out ≡ self.old.read_out }
    {
        if (place as usize) < self.words.len() {
            self.words[place as usize] = word;
        }
    }

    /// Passes a clock's edge. `unknown` is what the RAM gives where its place doesn't tell.
    pub fn pass_edge(&mut self, ports: &PortWords, unknown: u64)
        ensures { self.new ≡ after_edge ports.now unknown self.old }
    {
        if ports.reads == 1 {
            self.read_out = self.word_given(ports, unknown);
        }
        if ports.writes == 1 {
            self.put(ports.place, ports.word);
        }
    }
}
