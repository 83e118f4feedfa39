//! The words of a line.
ghost use Rattle.std.specs.Prelude.{◌≡◌, ◌≢◌, ◌++◌, ℕ, List, codes, map, IfOk, IfSome, IfNone, IsTrue, ◌↔◌};
ghost use Rattle.bound_texts.specs.Loops.Lines.{IsNumber};
ghost use Rattle.flow_facts.specs.Lines.{words_in, NamesNode, SaysMost};
ghost use Rattle.flow_facts.specs.Adding.{FindsOneThat};

use crate::line::NodeName;
use ascii_text::read_u64;
use base::NoMemory;
use std::alloc::Global;

/// The words of a line, between its spaces.
pub(crate) fn words_of<'a>(alloc: Global, line: &'a [u8]) -> Result<Vec<&'a [u8]>, NoMemory>
    ensures { IfOk result (λ words. map (λ w. w.now) words.items ≡ words_in line.now) }
{
    Ok(line.split(|byte| *byte == b' ').collect(alloc)?)
}

/// Whether a word is this one.
pub(crate) fn is(word: &[u8], other: &[u8]) -> bool
    ensures { IsTrue result ↔ (word.now ≡ other.now) }
{
    word == other
}

/// The node that a word names, if it names one.
pub(crate) fn node_name(word: &[u8]) -> Option<NodeName>
    ensures { FindsOneThat (NamesNode word.now) result }
{
    match word.strip_suffix(b"r") {
        Some(digits) => Some(NodeName::RaiseStep(read_u32(digits)?)),
        None => Some(NodeName::Instruction(read_u32(word)?)),
    }
}

/// The number behind `total<=`, if the word is these.
pub(crate) fn most_of(word: &[u8]) -> Option<u32>
    ensures { FindsOneThat (SaysMost word.now) result }
{
    read_u32(word.strip_prefix(b"total<=")?)
}

/// The value of a decimal number of 32 bits.
pub(crate) fn read_u32(word: &[u8]) -> Option<u32>
    ensures { FindsOneThat (IsNumber word.now) result }
{
    match read_u64(word) {
        Some(number) => u32::try_from(number).ok(),
        None => None,
    }
}
