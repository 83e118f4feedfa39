//! What the flags of a microinstruction do with its byte, and how the machine halts.

ghost use Rattle.std.specs.Prelude.{◌≡◌};
ghost use Rattle.circuit_build.specs.Wiring.{Gives};
ghost use Rattle.circuit_cycles.specs.Core.{next_halt, next_opcode, next_operand};
ghost use Rattle.circuit_core.specs.Standing.{Computes};
ghost use Rattle.circuit_code.specs.Taking.{Takes};

use circuit_build::{Logic, constant};
use circuit_core::Cycle;
use jop_core::places::STACK;
use microcode::isa::Operation;
use netlist::Net;

/// The operand register behind the cycle.
pub fn next_operand(logic: &mut Logic, cycle: &Cycle, byte: Net) -> Net
    requires { byte.width ≡ 8 }
    ensures width { result.width ≡ 32 }
    ensures gives { Gives logic.old logic.new (Takes cycle.now byte result (λ n core. next_operand core)) }
{
    let operand = cycle.registers.machine.operand;
    let low = logic.part(operand, 0, 24);
    let shifted = logic.join(low, byte);
    let shifts = logic.and(cycle.runs, cycle.word.opd);
    let taken = logic.choose(shifts, shifted, operand);
    let dispatches = cycle.dispatches(logic);
    logic.choose(dispatches, constant(32, 0), taken)
}

/// The opcode behind the cycle.
pub fn next_opcode(logic: &mut Logic, cycle: &Cycle, byte: Net) -> Net
    requires { byte.width ≡ 8 }
    ensures width { result.width ≡ 8 }
    ensures gives { Gives logic.old logic.new (Takes cycle.now byte result (λ n core. next_opcode core)) }
{
    let dispatches = cycle.dispatches(logic);
    logic.choose(dispatches, byte, cycle.registers.machine.opcode)
}

/// How the machine has halted behind the cycle: it halts where the top frame is boot's, whose locals are the first words of
/// the stack.
pub fn next_halt(logic: &mut Logic, cycle: &Cycle) -> Net
    ensures width { result.width ≡ 2 }
    ensures gives { Gives logic.old logic.new (Computes cycle.now result (λ n core. next_halt core)) }
{
    let machine = cycle.registers.machine;
    let is_boot = logic.is(machine.vp, u64::from(STACK));
    let ends = cycle.does(logic, Operation::Hltb as u64);
    let ends = logic.and(ends, is_boot);
    let is_uncaught = cycle.does(logic, Operation::Hltu as u64);
    let is_uncaught = logic.and(is_uncaught, is_boot);
    let ended = logic.choose(ends, constant(2, 1), machine.halt);
    logic.choose(is_uncaught, constant(2, 2), ended)
}
