//! The on-chip place that a microinstruction loads or stores.

ghost use Rattle.std.specs.Prelude.{◌≡◌, ◌<◌, ◌≤◌, ◌^◌, ℕ};
ghost use Rattle.netlist.specs.Meaning.{word_on};
ghost use Rattle.circuit_build.specs.Wiring.{Gives};
ghost use Rattle.circuit_core.specs.Choices.{offset};
ghost use Rattle.circuit_cycles.specs.Words.{operation_in, place_of, plain_place};
ghost use Rattle.circuit_core.specs.Decoding.{Decodes};

use crate::word::Word;
use circuit_build::{Logic, constant};
use microcode::isa::Operation;
use netlist::Net;

/// How far behind VP the local is that an operation loads or stores, in so many bits.
fn offset(logic: &mut Logic, word: &Word, operand: Net, bits: u32) -> Net
    requires some { 2 ≤ bits }
    requires few { bits < operand.width }
    ensures width { result.width ≡ bits }
    ensures gives { Gives logic.old logic.new
        (λ ws. (bits_of_word : ℕ) → Decodes ws word.now bits_of_word
        → word_on ws result ≡ offset (2 ^ bits) (word_on ws operand) bits_of_word) }
{
    let index = logic.fit(operand, bits);
    let number = word.choose(logic, &THIRD, constant(bits, 3), constant(bits, 0));
    let number = word.choose(logic, &SECOND, constant(bits, 2), number);
    let number = word.choose(logic, &FIRST, constant(bits, 1), number);
    word.choose(logic, &INDEXED, index, number)
}

/// The place that an operation loads or stores, where these are VP, AR and the operand.
fn plain_place(logic: &mut Logic, word: &Word, vp: Net, ar: Net, operand: Net) -> Net
    requires some { 2 ≤ vp.width }
    requires few { vp.width < operand.width }
    requires ar { ar.width ≡ vp.width }
    ensures width { result.width ≡ vp.width }
    ensures gives { Gives logic.old logic.new
        (λ ws. (bits : ℕ) → Decodes ws word.now bits → word_on ws vp < 2 ^ vp.width
        → word_on ws result ≡ plain_place (operation_in bits) (2 ^ vp.width) (word_on ws vp) (word_on ws ar) (word_on ws operand)) }
{
    let offset = offset(logic, word, operand, vp.width);
    let local = logic.add(vp, offset);
    word.choose(logic, &ADDRESSED, ar, local)
}

/// The place that a microinstruction loads or stores, where these are VP, AR and the operand.
pub fn place_of(logic: &mut Logic, word: &Word, vp: Net, ar: Net, operand: Net) -> Net
    requires some { 6 ≤ vp.width }
    requires few { vp.width < operand.width }
    requires ar { ar.width ≡ vp.width }
    ensures width { result.width ≡ vp.width }
    ensures gives { Gives logic.old logic.new
        (λ ws. (bits : ℕ) → Decodes ws word.now bits → word_on ws vp < 2 ^ vp.width
        → word_on ws result ≡ place_of (2 ^ vp.width) bits (word_on ws vp) (word_on ws ar) (word_on ws operand)) }
{
    let plain = plain_place(logic, word, vp, ar, operand);
    // `ldi` loads one of the constants, which lie behind the scratch words and the places.
    let fixed = logic.join(word.is_ldi, word.number);
    let fixed = logic.fit(fixed, vp.width);
    let is_number = logic.or(word.is_stm, word.is_ldm);
    let is_fixed = logic.or(word.is_ldi, is_number);
    logic.choose(is_fixed, fixed, plain)
}

/// The codes of the operations on locals, by their number, and of those on the place in AR.
const INDEXED: [u64; 2] = [Operation::Ldl as u64, Operation::Stl as u64];

const FIRST: [u64; 2] = [Operation::Ld1 as u64, Operation::St1 as u64];

const SECOND: [u64; 2] = [Operation::Ld2 as u64, Operation::St2 as u64];

const THIRD: [u64; 2] = [Operation::Ld3 as u64, Operation::St3 as u64];

const ADDRESSED: [u64; 2] = [Operation::Ldmi as u64, Operation::Stmi as u64];
