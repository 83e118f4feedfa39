//! The nets of the method cache, its tags, what a look-up finds, and what a cycle does to it; and those of the registers behind the
//! cycle.

ghost use Rattle.std.specs.Prelude.{◌≡◌, ◌≤◌};

use circuit_core::Word;
use netlist::Net;

/// The tag of a block.
#[derive(Clone, Copy)]
pub(crate) struct Tag {
    /// Whether a method begins in the block that the cache holds.
    pub begins: Net,
    /// The method's place in the main memory, and its words.
    pub method: Net,
    pub words: Net,
    pub ghost begins_width: { begins.width ≡ 1 },
    pub ghost few_places: { method.width ≤ 32 },
    pub ghost words_width: { words.width ≡ 16 },
}

/// What a look-up finds.
#[derive(Clone, Copy)]
pub(crate) struct Found {
    /// Whether the cache holds the method.
    pub is_hit: Net,
    /// The place of its first word in the ring, and its words; 0 where the cache doesn't hold it.
    pub base: Net,
    pub words: Net,
    pub ghost is_hit_width: { is_hit.width ≡ 1 },
    pub ghost words_width: { words.width ≡ 16 },
}

/// What a cycle does to the method cache.
#[derive(Clone, Copy)]
pub(crate) struct Switch {
    /// Whether it switches to a method, and whether it begins to load it.
    pub switches: Net,
    pub misses: Net,
    /// Whether it is the first stalled cycle of a load, which has the words of the code, and whether the second one, which has the
    /// entries of the exception table.
    pub has_words: Net,
    pub has_entries: Net,
    /// Whether it writes a word to the ring.
    pub writes: Net,
    pub ghost switches_width: { switches.width ≡ 1 },
    pub ghost writes_width: { writes.width ≡ 1 },
}

/// The registers behind the cycle that decide where memories are read.
#[derive(Clone, Copy)]
pub(crate) struct Next {
    pub word: Word,
    pub sp: Net,
    pub vp: Net,
    pub ar: Net,
    pub operand: Net,
    pub jpc: Net,
    pub ghost some_places: { 6 ≤ vp.width },
    pub ghost few_places: { vp.width ≤ 31 },
    pub ghost ar_width: { ar.width ≡ vp.width },
    pub ghost operand_width: { operand.width ≡ 32 },
    pub ghost jpc_width: { jpc.width ≡ 16 },
}
