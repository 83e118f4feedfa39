//! What the nodes of a method cost by themselves.

ghost use Rattle.std.specs.Prelude.{◌≡◌, ◌≤◌, ◌<◌, ◌*◌, ◌^◌, ℕ, All, IfOk, Ok, length};
ghost use Rattle.opcodes.specs.Instruction.{decoded};
ghost use Rattle.opcodes.specs.Start.{IsStart};
ghost use Rattle.bytecode_model.specs.Program.{Program};
ghost use Rattle.method_flow.specs.Costs.{params};
ghost use Rattle.method_flow.specs.Flow.{IsCodedOf, StaysInCode};
ghost use Rattle.micro_flow.specs.Walk.{IsCost, IsRaiseCost};
ghost use Rattle.node_costs.specs.Costs.{AreOwnCosts, AreCodeCosts, IsInstructionCost};

use base::NoMemory;
use method_flow::{FlowMethod, HandlerRange, Timing};
use micro_flow::laws::costs_are_small;
use micro_flow::{CostParams, cost, raise_cost};
use opcodes::laws::starts_follow_one_another;
use opcodes::{Instr, decode, starts};
use std::alloc::Global;

/// The whole instruction at a place.
fn instruction_at(code: &[u8], pc: u32) -> Instr
    requires start { IsStart code.now pc }
    requires whole { (p : ℕ) → IsStart code.now p → StaysInCode code.now p }
    requires short { length code.now < 65536 }
    requires inside { pc < length code.now }
    ensures { decoded code.now pc ≡ Ok result }
{
    match decode(code, pc) {
        Ok(instr) => instr,
        Err(_) => unreachable!(),
    }
}

/// The cycles that the microcode of an opcode takes at most, where its look-ups hit. A switch has so many pairs.
fn opcode_cost(op: u8, t: Timing, pairs: u32) -> u64
    requires read { t.read ≤ 63 }
    requires write { t.write ≤ 63 }
    ensures cost { IsCost op (params t pairs 0) result }
    ensures small { result < 2 ^ 61 }
{
    costs_are_small();
    cost(op, params_of(t, pairs, 0))
}

/// The cycles that the microcode of the instruction at a place takes at most, where its look-ups hit.
fn instruction_cost(code: &[u8], pc: u32, t: Timing) -> u64
    requires start { IsStart code.now pc }
    requires whole { (p : ℕ) → IsStart code.now p → StaysInCode code.now p }
    requires short { length code.now < 65536 }
    requires inside { pc < length code.now }
    requires read { t.read ≤ 63 }
    requires write { t.write ≤ 63 }
    ensures cost { IsInstructionCost code.now t pc result }
    ensures small { result < 2 ^ 61 }
{
    let instr = instruction_at(code, pc);
    opcode_cost(code[pc as usize], t, instr.count)
}

/// What a walk of the microcode depends on.
fn params_of(t: Timing, pairs: u32, entries: u32) -> CostParams
    ensures { result ≡ params t pairs entries }
{
    CostParams {
        r: t.read,
        w: t.write,
        pairs,
        entries,
    }
}

/// The cycles that a step of the raise routine takes at most over an exception table, where its look-ups hit.
fn raise_step_cost(ranges: &[HandlerRange], t: Timing) -> u64
    requires few { length ranges.now < 65536 }
    requires read { t.read ≤ 63 }
    requires write { t.write ≤ 63 }
    ensures cost { IsRaiseCost (params t 0 (length ranges.now)) result }
    ensures small { result < 2 ^ 61 }
{
    costs_are_small();
    raise_cost(params_of(t, 0, ranges.len() as u32))
}

/// The cycles that a raise step of a method takes at most, where its look-ups hit.
fn method_raise_cost(m: &FlowMethod, t: Timing) -> u64
    requires read { t.read ≤ 63 }
    requires write { t.write ≤ 63 }
    ensures cost { IsRaiseCost (params t 0 (length m.now.ranges)) result }
    ensures small { result < 2 ^ 61 }
{
    raise_step_cost(m.ranges(), t)
}

/// The costs of the nodes of a code where every raise step costs the same.
fn code_costs(alloc: Global, code: &[u8], raise: u64, t: Timing) -> Result<Vec<u64>, NoMemory>
    requires whole { (p : ℕ) → IsStart code.now p → StaysInCode code.now p }
    requires short { length code.now < 65536 }
    requires read { t.read ≤ 63 }
    requires write { t.write ≤ 63 }
    requires raise { raise < 2 ^ 61 }
    ensures costs { IfOk result (λ costs. AreCodeCosts code.now t raise costs.items) }
    ensures small { IfOk result (λ costs. All (λ c. c < 2 ^ 61) costs.items) }
{
    starts_follow_one_another();
    let places = starts(alloc, code)?;
    let mut costs = vec![in alloc; raise; 2 * code.len()]?;
    for pc in &places {
        costs[2 * *pc as usize] = instruction_cost(code, *pc, t);
    }
    Ok(costs)
}

/// The own costs of the nodes of a method by their numbers, in cycles: at each place at which an instruction begins, twice the
/// place has the instruction's, and the next number that of the raise step at it.
pub fn own_costs(alloc: Global, m: &FlowMethod, t: Timing) -> Result<Vec<u64>, NoMemory>
    requires read { t.read ≤ 63 }
    requires write { t.write ≤ 63 }
    ensures costs { IfOk result (λ costs. (P : Program) (n : ℕ) → IsCodedOf P n m.now → AreOwnCosts P t n m.now.code costs.items) }
    ensures long { IfOk result (λ costs. length costs.items ≡ 2 * length m.now.code) }
    ensures small { IfOk result (λ costs. All (λ c. c < 2 ^ 61) costs.items) }
{
    starts_follow_one_another();
    let raise = method_raise_cost(m, t);
    code_costs(alloc, m.code(), raise, t)
}
