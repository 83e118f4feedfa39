//! The bytes of the current method, which are read from the ring of the method cache a cycle ahead.

ghost use Rattle.std.specs.Prelude.{◌≡◌, ◌+◌, ◌%◌, ◌^◌, ◌<◌, ◌≤◌, ℕ, Bool, if◌then◌else◌};
ghost use Rattle.base.specs.Packed.{byte_of};
ghost use Rattle.netlist.specs.Meaning.{bit_of, word_on};
ghost use Rattle.circuit_build.specs.Wiring.{Gives};
ghost use Rattle.circuit_cycles.specs.Words.{takes_at_a};
ghost use Rattle.circuit_cycles.specs.Core.{byte, ring_place};
ghost use Rattle.circuit_core.specs.Decoding.{Tells};
ghost use Rattle.circuit_core.specs.Standing.{Computes};

use circuit_build::{Logic, constant};
use circuit_core::{Cycle, Word};
use microcode::isa::Operation;
use netlist::Net;

/// Whether a word takes its byte at the place that it pops from A: `stjpc nxt`.
pub fn takes_at_a(logic: &mut Logic, word: &Word) -> Net
    ensures width { result.width ≡ 1 }
    ensures gives { Gives logic.old logic.new (Tells word.now result takes_at_a) }
{
    let sets = word.is(logic, Operation::Stjpc as u64);
    logic.and(sets, word.nxt)
}

/// The place of the byte that a word takes: jpc, or the low 16 bits of A.
pub fn byte_place(logic: &mut Logic, takes_at_a: Net, a: Net, jpc: Net) -> Net
    ensures width { result.width ≡ 16 }
    ensures gives { Gives logic.old logic.new
        (λ ws. (at_a : Bool) → word_on ws takes_at_a ≡ bit_of at_a
        → word_on ws result ≡ (if at_a then word_on ws a % 2 ^ 16 else word_on ws jpc)) }
{
    let place = logic.part(a, 0, 16);
    logic.choose(takes_at_a, place, jpc)
}

/// The byte of a word at a place, of which the two low bits count; the high one is first.
fn byte_of(logic: &mut Logic, word: Net, place: Net) -> Net
    ensures width { result.width ≡ 8 }
    ensures gives { Gives logic.old logic.new (λ ws. word_on ws result ≡ byte_of (word_on ws word) (word_on ws place % 4)) }
{
    let first = logic.part(word, 24, 8);
    let second = logic.part(word, 16, 8);
    let third = logic.part(word, 8, 8);
    let fourth = logic.part(word, 0, 8);
    let is_odd = logic.part(place, 0, 1);
    let is_late = logic.part(place, 1, 1);
    let early = logic.choose(is_odd, second, first);
    let late = logic.choose(is_odd, fourth, third);
    logic.choose(is_late, late, early)
}

/// The byte that the microinstruction takes; past the method's words it is 0.
pub fn byte(logic: &mut Logic, cycle: &Cycle) -> Net
    ensures width { result.width ≡ 8 }
    ensures gives { Gives logic.old logic.new (Computes cycle.now result (λ n core. byte core)) }
{
    let registers = cycle.registers;
    let at_a = takes_at_a(logic, &cycle.word);
    let place = byte_place(logic, at_a, registers.machine.a, registers.machine.jpc);
    let word = logic.part(place, 2, 14);
    let word = logic.fit(word, 16);
    let is_within = logic.less(word, registers.method.words);
    let read = byte_of(logic, registers.read_outs.ring, place);
    logic.choose(is_within, read, constant(8, 0))
}

/// The low bits of x: so many, with zeros above where x has fewer.
fn low(logic: &mut Logic, x: Net, width: u32) -> Net
    ensures width { result.width ≡ width }
    ensures gives { Gives logic.old logic.new (λ ws. word_on ws x < 2 ^ x.width → word_on ws result ≡ word_on ws x % 2 ^ width) }
{
    logic.fit(x, width)
}

/// The place in a ring of so many words, which takes so many bits, of the word with this byte of a method that begins at `base`.
pub fn ring_place(logic: &mut Logic, bits: u32, size: u32, base: Net, byte_place: Net) -> Net
    requires few { bits < 32 }
    requires size { size ≤ 2 ^ bits }
    requires base { base.width ≡ bits }
    ensures width { result.width ≡ bits }
    ensures gives { Gives logic.old logic.new
        (λ ws. word_on ws byte_place < 2 ^ 16 → word_on ws result ≡ ring_place bits size (word_on ws base) (word_on ws byte_place)) }
{
    let size = constant(bits + 1, u64::from(size));
    let word = logic.part(byte_place, 2, 14);
    let word = low(logic, word, bits + 1);
    let from = logic.fit(base, bits + 1);
    let straight = logic.add(from, word);
    let around = logic.sub(straight, size);
    let is_straight = logic.less(straight, size);
    let place = logic.choose(is_straight, straight, around);
    logic.part(place, 0, bits)
}
