//! The stack of operands: the two top words, SP, VP and AR.

ghost use Rattle.std.specs.Prelude.{◌≡◌, ◌<◌, ◌%◌, ◌^◌, ℕ, Option, if◌then◌else◌};
ghost use Rattle.netlist.specs.Meaning.{word_on};
ghost use Rattle.circuit_build.specs.Wiring.{Gives};
ghost use Rattle.circuit_cycles.specs.Core.{Core, does, next_a, next_ar, next_b, next_sp, next_vp};
ghost use Rattle.circuit_core.specs.Standing.{Computes, Stands, input_word};

use crate::combined::top;
use crate::cycle::Cycle;
use crate::pushed::pushed;
use circuit_build::Logic;
use microcode::isa::Operation;
use netlist::Net;

/// A behind the cycle, where `ldin` would push this word.
pub fn next_a(logic: &mut Logic, cycle: &Cycle, input: Net) -> Net
    requires { input.width ≡ 32 }
    ensures width { result.width ≡ 32 }
    ensures gives { Gives logic.old logic.new
        (λ ws. (n : ℕ) (core : Core) (given : Option ℕ) → Stands n ws cycle.now core → word_on ws input ≡ input_word given
        → word_on ws result ≡ next_a given core) }
{
    let pushed = pushed(logic, cycle, input);
    let top = top(logic, cycle);
    let popped = logic.choose(cycle.pops, top, cycle.registers.machine.a);
    logic.choose(cycle.pushes, pushed, popped)
}

/// B behind the cycle.
pub fn next_b(logic: &mut Logic, cycle: &Cycle) -> Net
    ensures width { result.width ≡ 32 }
    ensures gives { Gives logic.old logic.new (Computes cycle.now result (λ n core. next_b core)) }
{
    let popped = logic.choose(cycle.pops, cycle.below, cycle.registers.machine.b);
    logic.choose(cycle.pushes, cycle.registers.machine.a, popped)
}

/// A register behind the cycle that the operation with this code sets to the place that A is, where it would be `kept`
/// otherwise.
fn set_to_place(logic: &mut Logic, cycle: &Cycle, code: u64, kept: Net) -> Net
    requires code { code < 2 ^ 6 }
    requires width { kept.width < 32 }
    ensures width { result.width ≡ kept.width }
    ensures gives { Gives logic.old logic.new
        (λ ws. (n : ℕ) (core : Core) → Stands n ws cycle.now core
        → word_on ws result ≡ (if does code core then core.a % 2 ^ kept.width else word_on ws kept)) }
{
    let sets = cycle.does(logic, code);
    let place = logic.fit(cycle.registers.machine.a, kept.width);
    logic.choose(sets, place, kept)
}

/// SP behind the cycle.
pub fn next_sp(logic: &mut Logic, cycle: &Cycle) -> Net
    ensures width { result.width ≡ cycle.now.registers.machine.sp.width }
    ensures gives { Gives logic.old logic.new (Computes cycle.now result next_sp) }
{
    let sp = cycle.registers.machine.sp;
    let above = logic.plus(sp, 1);
    let beneath = logic.minus(sp, 1);
    let popped = logic.choose(cycle.pops, beneath, sp);
    let moved = logic.choose(cycle.pushes, above, popped);
    set_to_place(logic, cycle, Operation::Stsp as u64, moved)
}

/// VP behind the cycle.
pub fn next_vp(logic: &mut Logic, cycle: &Cycle) -> Net
    ensures width { result.width ≡ cycle.now.registers.machine.sp.width }
    ensures gives { Gives logic.old logic.new (Computes cycle.now result next_vp) }
{
    let vp = cycle.registers.machine.vp;
    set_to_place(logic, cycle, Operation::Stvp as u64, vp)
}

/// AR behind the cycle.
pub fn next_ar(logic: &mut Logic, cycle: &Cycle) -> Net
    ensures width { result.width ≡ cycle.now.registers.machine.sp.width }
    ensures gives { Gives logic.old logic.new (Computes cycle.now result next_ar) }
{
    let ar = cycle.registers.machine.ar;
    set_to_place(logic, cycle, Operation::Star as u64, ar)
}
