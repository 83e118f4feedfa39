//! The word that a microinstruction pushes.

ghost use Rattle.std.specs.Prelude.{◌≡◌, ℕ, Option};
ghost use Rattle.netlist.specs.Meaning.{word_on};
ghost use Rattle.circuit_build.specs.Wiring.{Gives};
ghost use Rattle.circuit_core.specs.Choices.{from_operand, from_outside, from_place};
ghost use Rattle.circuit_cycles.specs.Core.{Core, pushed};
ghost use Rattle.circuit_core.specs.Standing.{Computes, Stands, input_word};

use crate::arithmetic::{sign_extended_byte, sign_extended_half};
use crate::cycle::Cycle;
use circuit_build::Logic;
use microcode::isa::Operation;
use netlist::Net;

/// The operand, its low byte with its sign, or its low 16 bits with their sign.
fn from_operand(logic: &mut Logic, cycle: &Cycle) -> Net
    ensures width { result.width ≡ 32 }
    ensures gives { Gives logic.old logic.new (Computes cycle.now result (λ n core. from_operand core)) }
{
    let operand = cycle.registers.machine.operand;
    let byte = sign_extended_byte(logic, operand);
    let half = sign_extended_half(logic, operand);
    let wide = cycle
        .word
        .choose(logic, &[Operation::Ldo16 as u64], half, operand);
    cycle
        .word
        .choose(logic, &[Operation::Ldo8 as u64], byte, wide)
}

/// VP, SP or jpc, as a word.
fn from_place(logic: &mut Logic, cycle: &Cycle) -> Net
    ensures width { result.width ≡ 32 }
    ensures gives { Gives logic.old logic.new (Computes cycle.now result (λ n core. from_place core)) }
{
    let machine = cycle.registers.machine;
    let vp = logic.fit(machine.vp, 32);
    let sp = logic.fit(machine.sp, 32);
    let jpc = logic.fit(machine.jpc, 32);
    let other = cycle.word.choose(logic, &[Operation::Ldsp as u64], sp, jpc);
    cycle
        .word
        .choose(logic, &[Operation::Ldvp as u64], vp, other)
}

/// A, the word that was read from the main memory, or what `ldin` pushes.
fn from_outside(logic: &mut Logic, cycle: &Cycle, input: Net) -> Net
    ensures width { result.width ≡ 32 }
    ensures gives { Gives logic.old logic.new
        (λ ws. (n : ℕ) (core : Core) → Stands n ws cycle.now core → word_on ws result ≡ from_outside (word_on ws input) core) }
{
    let value = cycle.registers.port.value;
    let read = cycle
        .word
        .choose(logic, &[Operation::Ldmrd as u64], value, input);
    cycle.word.choose(
        logic,
        &[Operation::Dup as u64],
        cycle.registers.machine.a,
        read,
    )
}

/// The word that is pushed, if one is, where `ldin` would push this word.
pub(crate) fn pushed(logic: &mut Logic, cycle: &Cycle, input: Net) -> Net
    ensures width { result.width ≡ 32 }
    ensures gives { Gives logic.old logic.new
        (λ ws. (n : ℕ) (core : Core) (given : Option ℕ) → Stands n ws cycle.now core → word_on ws input ≡ input_word given
        → word_on ws result ≡ pushed given core) }
{
    let operand = from_operand(logic, cycle);
    let place = from_place(logic, cycle);
    let outside = from_outside(logic, cycle, input);
    let word = cycle.word;
    let pushed = word.choose(logic, &FROM_OUTSIDE, outside, cycle.loaded);
    let pushed = word.choose(logic, &FROM_PLACE, place, pushed);
    word.choose(logic, &FROM_OPERAND, operand, pushed)
}

/// The codes of the operations that push another word than an on-chip word, by groups.
const FROM_OPERAND: [u64; 3] = [
    Operation::Ldo as u64,
    Operation::Ldo8 as u64,
    Operation::Ldo16 as u64,
];

const FROM_PLACE: [u64; 3] = [
    Operation::Ldvp as u64,
    Operation::Ldsp as u64,
    Operation::Ldjpc as u64,
];

const FROM_OUTSIDE: [u64; 3] = [
    Operation::Dup as u64,
    Operation::Ldmrd as u64,
    Operation::Ldin as u64,
];
