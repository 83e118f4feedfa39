//! The method cache: which methods it holds, and where they lie in the ring of its blocks.
//!
//! A load takes the blocks from the pointer on, and a method is held until its first block is taken. So a tag stands for the
//! block alone in which a method begins.

ghost use Rattle.std.specs.Prelude.{◌≡◌, ◌*◌, ◌^◌, ◌<◌, ◌≤◌, ◌==◌, ◌&&◌, if◌then◌else◌, ℕ, Bool, Option};
ghost use Rattle.netlist.specs.Meaning.{bit_of, word_on};
ghost use Rattle.circuit_build.specs.Wiring.{Gives};
ghost use Rattle.circuit_cycles.specs.Tags.{BlockTag};
ghost use Rattle.circuit_cycles.specs.Core.{Core, tag_taken};
ghost use Rattle.circuit_core.specs.Standing.{HoldsMethod};
ghost use Rattle.machine_circuit.specs.Loading.{Finds, HasFound};
ghost use Rattle.machine_circuit.specs.Tags.{HoldsTag, HoldTags, IsOnlyOne, also_found, begins_with};
ghost use Rattle.machine_circuit.specs.Shapes.{shape_of};

use crate::nets::{Found, Tag};
use crate::start::Start;
use circuit_build::{Logic, Parts, constant, never};
use circuit_core::{Method, Shape};
use netlist::Net;

impl Tag {
    /// The tag of a block at the start, where the first ones hold boot's method.
    pub fn new(parts: &mut Parts, shape: &Shape, start: &Start<'_>, block: u32) -> Self {
        let is_first = block == 0;
        Tag {
            begins: parts.register(1, u64::from(is_first)),
            method: parts.register(
                shape.memory_bits,
                if is_first { u64::from(start.boot) } else { 0 },
            ),
            words: parts.register(16, if is_first { start.code.len() as u64 } else { 0 }),
        }
    }

    /// Whether the method whose place this word is begins in the block.
    fn holds(&self, logic: &mut Logic, place: Net) -> Net
        ensures width { result.width ≡ 1 }
        ensures gives { Gives logic.old logic.new
            (λ ws. (tag : BlockTag) → HoldsTag ws self.now tag → word_on ws result ≡ bit_of (begins_with (word_on ws place) tag)) }
    {
        let method = logic.fit(self.method, 32);
        let is_same = logic.equal(method, place);
        logic.and(self.begins, is_same)
    }

    /// The tag behind a cycle, where a word is written that is the first one of the block, and maybe the first one of the
    /// method.
    fn next(&self, logic: &mut Logic, m: &Method, takes: Net, is_first: Net) -> Tag
        requires { is_first.width ≡ 1 }
        ensures gives { Gives logic.old logic.new
            (λ ws. (core : Core) (tag : BlockTag) (taken : Bool) → HoldsMethod ws m.now core → HoldsTag ws self.now tag → word_on ws takes ≡ bit_of taken
            → word_on ws is_first ≡ bit_of (core.left == core.words) → HoldsTag ws result (if taken then tag_taken core else tag)) }
    {
        Tag {
            begins: logic.choose(takes, is_first, self.begins),
            method: logic.choose(takes, m.place, self.method),
            words: logic.choose(takes, m.words, self.words),
        }
    }

    /// Sets the tag so.
    fn set(&self, logic: &mut Logic, parts: &mut Parts, m: &Method, takes: Net, is_first: Net)
        requires { is_first.width ≡ 1 }
    {
        let next = self.next(logic, m, takes, is_first);
        parts.set_next(self.begins, next.begins);
        parts.set_next(self.method, next.method);
        parts.set_next(self.words, next.words);
    }
}

/// The number of a block times that of the words of each, in so many bits.
fn words_before(logic: &mut Logic, block: Net, block_words: u32, bits: u32) -> Net
    requires { 1 ≤ block_words }
    ensures width { result.width ≡ bits }
    ensures gives { Gives logic.old logic.new
        (λ ws. word_on ws block * block_words < 2 ^ bits → word_on ws result ≡ word_on ws block * block_words) }
{
    let block = logic.fit(block, bits);
    logic.mul(block, constant(bits, u64::from(block_words)))
}

/// The place of the first word of one of so many blocks of so many words, in so many bits. A single block begins at 0: its words
/// may be as many as the bits tell apart, which is a number of one bit more.
pub(crate) fn first_place(
    logic: &mut Logic,
    block: Net,
    blocks: u32,
    block_words: u32,
    bits: u32,
) -> Net
    requires { 1 ≤ block_words }
    ensures width { result.width ≡ bits }
    ensures gives { Gives logic.old logic.new
        (λ ws. word_on ws block < blocks → word_on ws block * block_words < 2 ^ bits → word_on ws result ≡ word_on ws block * block_words) }
{
    if blocks == 1 {
        constant(bits, 0)
    } else {
        words_before(logic, block, block_words, bits)
    }
}

/// What is found where the method may also begin in the block with this tag and number.
fn find_also(
    logic: &mut Logic,
    shape: &Shape,
    found: &Found,
    tag: &Tag,
    block: u64,
    place: Net,
) -> Found
    ensures base { result.base.width ≡ found.now.base.width }
    ensures gives { Gives logic.old logic.new
        (λ ws. (here : BlockTag) (before : Option (ℕ × ℕ)) → HoldsTag ws tag.now here → block * shape.now.block_words < 2 ^ 64
        → IsOnlyOne (word_on ws place) here before → HasFound (shape_of shape.now) ws found.now before
        → HasFound (shape_of shape.now) ws result (also_found block (word_on ws place) here before)) }
{
    let bits = shape.ring_bits;
    let first = block.wrapping_mul(u64::from(shape.block_words));
    let holds = tag.holds(logic, place);
    let base = logic.choose(holds, constant(bits, first), constant(bits, 0));
    let words = logic.choose(holds, tag.words, constant(16, 0));
    Found {
        is_hit: logic.or(found.is_hit, holds),
        base: logic.or(found.base, base),
        words: logic.or(found.words, words),
    }
}

/// Looks the method up whose place this word is.
pub(crate) fn look_up(logic: &mut Logic, shape: &Shape, tags: &[Tag], place: Net) -> Found
    ensures base { result.base.width ≡ shape.now.ring_bits }
    ensures gives { Gives logic.old logic.new
        (λ ws. (core : Core) → HoldTags (shape_of shape.now) ws tags.now core → word_on ws place ≡ core.a → Finds (shape_of shape.now) ws result core) }
{
    let mut found = Found {
        is_hit: never(),
        base: constant(shape.ring_bits, 0),
        words: constant(16, 0),
    };
    for (block, tag) in tags.iter().enumerate() {
        found = find_also(logic, shape, &found, tag, block as u64, place);
    }
    found
}

/// Whether a block is taken: its first word is written.
fn takes_block(logic: &mut Logic, m: &Method, writes: Net) -> Net
    ensures width { result.width ≡ writes.width }
    ensures gives { Gives logic.old logic.new
        (λ ws. (core : Core) (fills : Bool) → HoldsMethod ws m.now core → word_on ws writes ≡ bit_of fills
        → word_on ws result ≡ bit_of (fills && core.in_block == 0)) }
{
    let begins_block = logic.is(m.in_block, 0);
    logic.and(writes, begins_block)
}

/// Whether the word that is written is the first one of its method.
fn is_first(logic: &mut Logic, m: &Method) -> Net
    ensures width { result.width ≡ 1 }
    ensures gives { Gives logic.old logic.new
        (λ ws. (core : Core) → HoldsMethod ws m.now core → word_on ws result ≡ bit_of (core.left == core.words)) }
{
    logic.equal(m.left, m.words)
}

/// Sets all tags, where a word is written or isn't.
pub(crate) fn set_tags(
    logic: &mut Logic,
    parts: &mut Parts,
    m: &Method,
    tags: &[Tag],
    writes: Net,
) {
    let takes = takes_block(logic, m, writes);
    let is_first = is_first(logic, m);
    for (block, tag) in tags.iter().enumerate() {
        let is_next = logic.is(m.next_block, block as u64);
        let takes_this = logic.and(takes, is_next);
        tag.set(logic, parts, m, takes_this, is_first);
    }
}
