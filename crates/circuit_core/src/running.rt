//! What a cycle is: whether a microinstruction runs, and what it does to the stack of operands.

ghost use Rattle.std.specs.Prelude.{◌≡◌, ◌<◌, ◌^◌, ℕ, if◌then◌else◌, ◌==◌};
ghost use Rattle.netlist.specs.Meaning.{bit_of, word_on};
ghost use Rattle.circuit_build.specs.Wiring.{Gives};
ghost use Rattle.circuit_cycles.specs.Core.{Core, dispatches, does, goes, is_stalled, runs, waits};
ghost use Rattle.circuit_core.specs.Decoding.{Decodes};
ghost use Rattle.circuit_core.specs.Standing.{Decides, Holds, Shows, Stands};

use crate::cycle::Cycle;
use crate::registers::Registers;
use crate::word::Word;
use circuit_build::{Logic, constant};
use microcode::isa::Operation;
use netlist::Net;

impl Cycle {
    /// What the cycle of these registers is.
    pub fn new(logic: &mut Logic, registers: Registers) -> Self
        ensures registers { result.registers ≡ registers }
        ensures gives { Gives logic.old logic.new
            (λ ws. (n : ℕ) (core : Core) → Holds n ws registers core → Stands n ws result core) }
    {
        let ahead = registers.ahead;
        let word = Word::new(logic, ahead.word);
        let goes = goes(logic, &registers);
        let runs = runs(logic, &registers, &word, goes);
        let pushes = word.pushes(logic);
        let pops = word.pops(logic);
        Cycle {
            registers,
            word,
            goes,
            runs,
            pushes: logic.and(runs, pushes),
            pops: logic.and(runs, pops),
            below: logic.choose(ahead.below_passed, ahead.passed, registers.read_outs.below),
            loaded: logic.choose(ahead.place_passed, ahead.passed, registers.read_outs.loaded),
        }
    }

    /// Whether the operation with this code runs.
    pub fn does(&self, logic: &mut Logic, code: u64) -> Net
        requires { code < 2 ^ 6 }
        ensures width { result.width ≡ 1 }
        ensures gives { Gives logic.old logic.new (Decides self.now result (λ core. does code core)) }
    {
        let is = self.word.is(logic, code);
        logic.and(self.runs, is)
    }

    /// Whether the next bytecode begins.
    pub fn dispatches(&self, logic: &mut Logic) -> Net
        ensures width { result.width ≡ 1 }
        ensures gives { Gives logic.old logic.new (Decides self.now result dispatches) }
    {
        logic.and(self.runs, self.word.nxt)
    }
}

/// Whether the machine goes: it has begun and hasn't halted.
fn goes(logic: &mut Logic, registers: &Registers) -> Net
    ensures width { result.width ≡ 1 }
    ensures gives { Gives logic.old logic.new (Shows registers.now result goes) }
{
    let is_running = logic.is(registers.machine.halt, 0);
    let has_begun = logic.not(registers.ahead.starting);
    logic.and(has_begun, is_running)
}

/// Whether the machine is stalled: behind a taken branch of the microcode, or in a load.
fn is_stalled(logic: &mut Logic, registers: &Registers) -> Net
    ensures width { result.width ≡ 1 }
    ensures gives { Gives logic.old logic.new (Shows registers.now result is_stalled) }
{
    let no_refill = logic.is(registers.ahead.refill, 0);
    let no_header = logic.is(registers.method.header, 0);
    let no_words = logic.is(registers.method.left, 0);
    let no_load = logic.and(no_header, no_words);
    let none = logic.and(no_refill, no_load);
    logic.not(none)
}

/// Whether a microinstruction is a wait at a port that isn't ready yet: that counts more than this cycle.
fn waits(logic: &mut Logic, registers: &Registers, word: &Word) -> Net
    ensures width { result.width ≡ 1 }
    ensures gives { Gives logic.old logic.new
        (λ ws. (n : ℕ) (core : Core) → Holds n ws registers.now core → Decodes ws word.now core.word → word_on ws result ≡ bit_of (waits core)) }
{
    let is_wait = word.is(logic, Operation::Wait as u64);
    let is_busy = logic.less(constant(7, 1), registers.port.count);
    logic.and(is_wait, is_busy)
}

/// Whether a microinstruction runs, where the machine goes.
fn runs(logic: &mut Logic, registers: &Registers, word: &Word, going: Net) -> Net
    ensures width { result.width ≡ going.width }
    ensures gives { Gives logic.old logic.new
        (λ ws. (n : ℕ) (core : Core) → Holds n ws registers.now core → Decodes ws word.now core.word → word_on ws going ≡ bit_of (goes core)
        → word_on ws result ≡ bit_of (runs core)) }
{
    let stalled = is_stalled(logic, registers);
    let waits = waits(logic, registers, word);
    let rests = logic.or(stalled, waits);
    let acts = logic.not(rests);
    logic.and(going, acts)
}
