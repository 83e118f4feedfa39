//! The second word of the stack, or what a binary operation makes of it and the first.

ghost use Rattle.std.specs.Prelude.{◌≡◌, ℕ};
ghost use Rattle.circuit_build.specs.Wiring.{Gives};
ghost use Rattle.circuit_core.specs.Choices.{bitwise, calculated, compared, shifted};
ghost use Rattle.circuit_cycles.specs.Core.{Core, top};
ghost use Rattle.circuit_core.specs.Standing.{Computes};

use crate::arithmetic::{
    compared_signed, compared_unsigned, shifted_left, shifted_right, shifted_right_unsigned,
};
use crate::cycle::Cycle;
use circuit_build::Logic;
use microcode::isa::Operation;
use netlist::Net;

/// B moved by A: up, down with its sign, or down.
fn shifted(logic: &mut Logic, cycle: &Cycle) -> Net
    ensures width { result.width ≡ 32 }
    ensures gives { Gives logic.old logic.new (Computes cycle.now result (λ n core. shifted core)) }
{
    let machine = cycle.registers.machine;
    let left = shifted_left(logic, machine.b, machine.a);
    let right = shifted_right(logic, machine.b, machine.a);
    let unsigned = shifted_right_unsigned(logic, machine.b, machine.a);
    let down = cycle
        .word
        .choose(logic, &[Operation::Shr as u64], right, unsigned);
    cycle
        .word
        .choose(logic, &[Operation::Shl as u64], left, down)
}

/// 1 where B is less than A, with signs or without.
fn compared(logic: &mut Logic, cycle: &Cycle) -> Net
    ensures width { result.width ≡ 32 }
    ensures gives { Gives logic.old logic.new (Computes cycle.now result (λ n core. compared core)) }
{
    let machine = cycle.registers.machine;
    let signed = compared_signed(logic, machine.b, machine.a);
    let unsigned = compared_unsigned(logic, machine.b, machine.a);
    cycle
        .word
        .choose(logic, &[Operation::Slt as u64], signed, unsigned)
}

/// B and A bit by bit: both, either, or one of the two.
fn bitwise(logic: &mut Logic, cycle: &Cycle) -> Net
    ensures width { result.width ≡ 32 }
    ensures gives { Gives logic.old logic.new (Computes cycle.now result (λ n core. bitwise core)) }
{
    let machine = cycle.registers.machine;
    let both = logic.and(machine.b, machine.a);
    let either = logic.or(machine.b, machine.a);
    let one = logic.xor(machine.b, machine.a);
    let unlike = cycle
        .word
        .choose(logic, &[Operation::Or as u64], either, one);
    cycle
        .word
        .choose(logic, &[Operation::And as u64], both, unlike)
}

/// The low bits of the sum of B and A, their difference, or their product.
fn calculated(logic: &mut Logic, cycle: &Cycle) -> Net
    ensures width { result.width ≡ 32 }
    ensures gives { Gives logic.old logic.new (Computes cycle.now result (λ n core. calculated core)) }
{
    let machine = cycle.registers.machine;
    let sum = logic.add(machine.b, machine.a);
    let difference = logic.sub(machine.b, machine.a);
    let product = logic.mul(machine.b, machine.a);
    let other = cycle
        .word
        .choose(logic, &[Operation::Sub as u64], difference, product);
    cycle
        .word
        .choose(logic, &[Operation::Add as u64], sum, other)
}

/// The result of the binary operation that the microinstruction is, or B where it is none.
pub(crate) fn top(logic: &mut Logic, cycle: &Cycle) -> Net
    ensures width { result.width ≡ 32 }
    ensures gives { Gives logic.old logic.new (Computes cycle.now result (λ n core. top core)) }
{
    let shifted = shifted(logic, cycle);
    let compared = compared(logic, cycle);
    let bitwise = bitwise(logic, cycle);
    let calculated = calculated(logic, cycle);
    let word = cycle.word;
    let top = word.choose(logic, &CALCULATIONS, calculated, cycle.registers.machine.b);
    let top = word.choose(logic, &BITWISE, bitwise, top);
    let top = word.choose(logic, &COMPARISONS, compared, top);
    word.choose(logic, &SHIFTS, shifted, top)
}

/// The codes of the binary operations, by groups.
const SHIFTS: [u64; 3] = [
    Operation::Shl as u64,
    Operation::Shr as u64,
    Operation::Ushr as u64,
];

const COMPARISONS: [u64; 2] = [Operation::Slt as u64, Operation::Sltu as u64];

const BITWISE: [u64; 3] = [
    Operation::And as u64,
    Operation::Or as u64,
    Operation::Xor as u64,
];

const CALCULATIONS: [u64; 3] = [
    Operation::Add as u64,
    Operation::Sub as u64,
    Operation::Mul as u64,
];
