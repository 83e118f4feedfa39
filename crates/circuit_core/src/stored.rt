//! What is written to the on-chip words: B above SP where a word is pushed, and A where it is stored.

ghost use Rattle.std.specs.Prelude.{◌≡◌, ℕ};
ghost use Rattle.circuit_build.specs.Wiring.{Gives};
ghost use Rattle.circuit_cycles.specs.Core.{Core, write_place, writes, written};
ghost use Rattle.circuit_core.specs.Standing.{Computes, Decides};

use crate::cycle::Cycle;
use crate::places::place_of;
use circuit_build::Logic;
use microcode::isa::Operation;
use netlist::Net;

/// Whether an on-chip word is written.
pub fn writes(logic: &mut Logic, cycle: &Cycle) -> Net
    ensures width { result.width ≡ 1 }
    ensures gives { Gives logic.old logic.new (Decides cycle.now result writes) }
{
    let stores_plain = cycle.word.is_any(logic, &STORING);
    let stores = logic.or(stores_plain, cycle.word.is_stm);
    let stores = logic.and(cycle.runs, stores);
    logic.or(cycle.pushes, stores)
}

/// The place where one would be written.
pub fn write_place(logic: &mut Logic, cycle: &Cycle) -> Net
    ensures width { result.width ≡ cycle.now.registers.machine.sp.width }
    ensures gives { Gives logic.old logic.new (Computes cycle.now result write_place) }
{
    let machine = cycle.registers.machine;
    let above = logic.plus(machine.sp, 1);
    let place = place_of(logic, &cycle.word, machine.vp, machine.ar, machine.operand);
    logic.choose(cycle.pushes, above, place)
}

/// The word that would be written.
pub fn written(logic: &mut Logic, cycle: &Cycle) -> Net
    ensures width { result.width ≡ 32 }
    ensures gives { Gives logic.old logic.new (Computes cycle.now result (λ n core. written core)) }
{
    logic.choose(
        cycle.pushes,
        cycle.registers.machine.b,
        cycle.registers.machine.a,
    )
}

/// The codes of the operations that store A.
const STORING: [u64; 6] = [
    Operation::Stl as u64,
    Operation::St0 as u64,
    Operation::St1 as u64,
    Operation::St2 as u64,
    Operation::St3 as u64,
    Operation::Stmi as u64,
];
