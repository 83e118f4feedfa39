//! The branches of bytecodes: whether one goes to its target, and the place of the next byte of the method.

ghost use Rattle.std.specs.Prelude.{◌≡◌, ℕ, ◌/◌, ◌%◌, ◌^◌, Bool};
ghost use Rattle.base.specs.Signed.{holds};
ghost use Rattle.netlist.specs.Meaning.{bit_of, word_on};
ghost use Rattle.circuit_build.specs.Wiring.{Gives};
ghost use Rattle.circuit_cycles.specs.Core.{moved, next_jpc, target};
ghost use Rattle.circuit_core.specs.Standing.{Computes, Decides};
ghost use Rattle.circuit_code.specs.Taking.{branches, by_opcode, holds_on_a, holds_on_both};

use circuit_build::{Logic, never};
use circuit_core::{Cycle, signed_less};
use microcode::isa::Operation;
use netlist::Net;

/// x where the opcode is one of these, else y.
fn choose(logic: &mut Logic, opcode: Net, codes: &[u64], x: Net, y: Net) -> Net
    ensures width { result.width ≡ x.width }
    ensures gives { Gives logic.old logic.new
        (λ ws. word_on ws result ≡ by_opcode codes.now (word_on ws opcode) (word_on ws x) (word_on ws y)) }
{
    let is_any = logic.is_any(opcode, codes);
    logic.choose(is_any, x, y)
}

/// Whether the branch on A alone that the opcode is goes to its target; of another opcode `other` (JVM Specification SE 8,
/// 6.5.if_cond, ifnull, ifnonnull).
fn holds_on_a(logic: &mut Logic, cycle: &Cycle, other: Net) -> Net
    ensures width { result.width ≡ 1 }
    ensures gives { Gives logic.old logic.new
        (λ ws. (rest : Bool) → word_on ws other ≡ bit_of rest → Decides cycle.now result (λ core. holds_on_a core.opcode core.a rest) ws) }
{
    let a = cycle.registers.machine.a;
    let opcode = cycle.registers.machine.opcode;
    let zero = logic.is(a, 0);
    let negative = logic.part(a, 31, 1);
    let least = logic.or(zero, negative);
    let not_zero = logic.not(zero);
    let not_negative = logic.not(negative);
    let positive = logic.not(least);
    let holds = choose(logic, opcode, &[158], least, other);
    let holds = choose(logic, opcode, &[157], positive, holds);
    let holds = choose(logic, opcode, &[156], not_negative, holds);
    let holds = choose(logic, opcode, &[155], negative, holds);
    let holds = choose(logic, opcode, &[154, 199], not_zero, holds);
    choose(logic, opcode, &[153, 198], zero, holds)
}

/// Whether the branch on B and A that the opcode is goes to its target; no other opcode does (JVM Specification SE 8,
/// 6.5.if_icmp_cond, if_acmp_cond).
fn holds_on_both(logic: &mut Logic, cycle: &Cycle) -> Net
    ensures width { result.width ≡ 1 }
    ensures gives { Gives logic.old logic.new (Decides cycle.now result (λ core. holds_on_both core.opcode core.b core.a)) }
{
    let a = cycle.registers.machine.a;
    let b = cycle.registers.machine.b;
    let opcode = cycle.registers.machine.opcode;
    let equal = logic.equal(b, a);
    let less = signed_less(logic, b, a);
    let greater = signed_less(logic, a, b);
    let unlike = logic.not(equal);
    let at_least = logic.not(less);
    let at_most = logic.not(greater);
    let holds = choose(logic, opcode, &[164], at_most, never());
    let holds = choose(logic, opcode, &[163], greater, holds);
    let holds = choose(logic, opcode, &[162], at_least, holds);
    let holds = choose(logic, opcode, &[161], less, holds);
    let holds = choose(logic, opcode, &[160, 166], unlike, holds);
    choose(logic, opcode, &[159, 165], equal, holds)
}

/// Whether the conditional branch that the opcode is goes to its target.
fn holds(logic: &mut Logic, cycle: &Cycle) -> Net
    ensures width { result.width ≡ 1 }
    ensures gives { Gives logic.old logic.new (Decides cycle.now result (λ core. holds core.opcode core.b core.a)) }
{
    let on_both = holds_on_both(logic, cycle);
    holds_on_a(logic, cycle, on_both)
}

/// Where a branch of a bytecode goes, whose opcode and offset were read: the offset counts from the opcode's place.
fn target(logic: &mut Logic, cycle: &Cycle) -> Net
    ensures width { result.width ≡ 16 }
    ensures gives { Gives logic.old logic.new (Computes cycle.now result (λ n core. target core)) }
{
    let machine = cycle.registers.machine;
    let offset = logic.part(machine.operand, 0, 16);
    let opcode_place = logic.minus(machine.jpc, 3);
    logic.add(opcode_place, offset)
}

/// Whether a branch of a bytecode goes to its target.
fn branches(logic: &mut Logic, cycle: &Cycle) -> Net
    ensures width { result.width ≡ 1 }
    ensures gives { Gives logic.old logic.new (Decides cycle.now result branches) }
{
    let holds = holds(logic, cycle);
    let is_conditional = cycle.does(logic, Operation::Jbr as u64);
    let is_taken = logic.and(is_conditional, holds);
    let is_goto = cycle.does(logic, Operation::Jbg as u64);
    logic.or(is_goto, is_taken)
}

/// The place of the next byte behind the cycle, but for the byte that the cycle takes.
fn moved(logic: &mut Logic, cycle: &Cycle) -> Net
    ensures width { result.width ≡ 16 }
    ensures gives { Gives logic.old logic.new (Computes cycle.now result (λ n core. moved core)) }
{
    let machine = cycle.registers.machine;
    let branches = branches(logic, cycle);
    let target = target(logic, cycle);
    let sets = cycle.does(logic, Operation::Stjpc as u64);
    let place = logic.part(machine.a, 0, 16);
    let set = logic.choose(sets, place, machine.jpc);
    logic.choose(branches, target, set)
}

/// The place of the next byte behind the cycle.
pub fn next_jpc(logic: &mut Logic, cycle: &Cycle) -> Net
    ensures width { result.width ≡ 16 }
    ensures gives { Gives logic.old logic.new (Computes cycle.now result (λ n core. next_jpc core)) }
{
    let moved = moved(logic, cycle);
    let flagged = logic.or(cycle.word.opd, cycle.word.nxt);
    let takes = logic.and(cycle.runs, flagged);
    let behind = logic.plus(moved, 1);
    logic.choose(takes, behind, moved)
}
