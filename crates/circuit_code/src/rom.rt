//! The address of the microinstruction, and the ROM, which is read two words ahead.
//!
//! While a word runs, the ROM's output register has the word behind it. Where a bytecode begins, its row's first word and the
//! address behind it come from tables by the opcode; where a branch is taken, the two stalled cycles behind it read its target
//! and the word behind that.

ghost use Rattle.std.specs.Prelude.{◌≡◌, ◌+◌, ◌%◌, ◌^◌, ◌<◌, ℕ, slice_index, if◌then◌else◌};
ghost use Rattle.microcode.specs.declared.TheConstants.{ENTRIES, WORDS};
ghost use Rattle.netlist.specs.Meaning.{bit_of, word_on};
ghost use Rattle.circuit_build.specs.Wiring.{Gives};
ghost use Rattle.circuit_cycles.specs.Core.{Core, dispatches, entry_of, is_taken, next_a_taken, next_mpc, next_refill, next_word, rom_place};
ghost use Rattle.circuit_core.specs.Standing.{Computes, Decides, Stands};
ghost use Rattle.circuit_code.specs.Taking.{Takes};

use circuit_build::{Logic, constant};
use circuit_core::Cycle;
use microcode::{entry, rom};
use netlist::Net;

/// The stalled cycles behind a taken branch.
const REFILL: u64 = 2;

/// Where the row of the opcode begins that is this byte.
fn entry_row(byte: u64) -> u64
    ensures { byte < 2 ^ 8 → result ≡ entry_of byte }
{
    u64::from(entry((byte % 256) as u8))
}

/// The address behind that.
fn behind_entry_row(byte: u64) -> u64
    ensures { byte < 2 ^ 8 → result ≡ (entry_of byte + 1) % 2048 }
{
    u64::from((entry((byte % 256) as u8) + 1) % 2048)
}

/// The first word of that row.
fn first_word_row(byte: u64) -> u64
    ensures { byte < 2 ^ 8 → result ≡ slice_index WORDS (entry_of byte) }
{
    u64::from(rom(entry((byte % 256) as u8)))
}

/// Whether a branch of the microcode is taken.
pub fn is_taken(logic: &mut Logic, cycle: &Cycle) -> Net
    ensures width { result.width ≡ 1 }
    ensures gives { Gives logic.old logic.new (Decides cycle.now result is_taken) }
{
    let word = cycle.word;
    let is_zero = logic.is(cycle.registers.machine.a, 0);
    let is_other = logic.not(is_zero);
    let on_zero = logic.and(word.is_bz, is_zero);
    let on_other = logic.and(word.is_bnz, is_other);
    let either = logic.or(on_zero, on_other);
    let goes = logic.or(word.is_jmp, either);
    logic.and(cycle.runs, goes)
}

/// The address of the microinstruction behind the cycle.
pub fn next_mpc(logic: &mut Logic, cycle: &Cycle, byte: Net) -> Net
    requires { byte.width ≡ 8 }
    ensures width { result.width ≡ 11 }
    ensures gives { Gives logic.old logic.new (Takes cycle.now byte result (λ n core. next_mpc core)) }
{
    let mpc = cycle.registers.machine.mpc;
    let behind = logic.plus(mpc, 1);
    let advanced = logic.choose(cycle.runs, behind, mpc);
    let rows = logic.rows(256, entry_row);
    let entry = logic.table(byte, 11, rows);
    followed(logic, cycle, entry, advanced)
}

/// Where the ROM is read: at the address behind the next microinstruction, and at the target of a taken branch.
pub fn rom_place(logic: &mut Logic, cycle: &Cycle, byte: Net) -> Net
    requires { byte.width ≡ 8 }
    ensures width { result.width ≡ 11 }
    ensures gives { Gives logic.old logic.new (Takes cycle.now byte result (λ n core. rom_place core)) }
{
    let mpc = cycle.registers.machine.mpc;
    let one = logic.plus(mpc, 1);
    let two = logic.plus(mpc, 2);
    let advanced = logic.choose(cycle.runs, two, one);
    let rows = logic.rows(256, behind_entry_row);
    let entry = logic.table(byte, 11, rows);
    followed(logic, cycle, entry, advanced)
}

/// The target of a taken branch, `entry` where a bytecode begins, and else `advanced`.
fn followed(logic: &mut Logic, cycle: &Cycle, entry: Net, advanced: Net) -> Net
    ensures width { result.width ≡ 11 }
    ensures gives { Gives logic.old logic.new
        (λ ws. (n : ℕ) (core : Core) → Stands n ws cycle.now core → word_on ws result
        ≡ (if is_taken core then core.word % 2 ^ 11 else if dispatches core then word_on ws entry else word_on ws advanced)) }
{
    let taken = is_taken(logic, cycle);
    let dispatches = cycle.dispatches(logic);
    let followed = logic.choose(dispatches, entry, advanced);
    logic.choose(taken, cycle.word.target, followed)
}

/// The word of the ROM that stands ready behind the cycle. Behind a taken branch it is any until its target was read.
pub fn next_word(logic: &mut Logic, cycle: &Cycle, byte: Net) -> Net
    requires { byte.width ≡ 8 }
    ensures width { result.width ≡ 16 }
    ensures gives { Gives logic.old logic.new (Takes cycle.now byte result (λ n core. next_word core)) }
{
    let ahead = cycle.registers.ahead;
    let refills = logic.is(ahead.refill, REFILL);
    let moves = logic.or(cycle.runs, refills);
    let moved = logic.choose(moves, cycle.registers.read_outs.rom, ahead.word);
    let rows = logic.rows(256, first_word_row);
    let first = logic.table(byte, 16, rows);
    let dispatches = cycle.dispatches(logic);
    logic.choose(dispatches, first, moved)
}

/// The stalled cycles that are left behind a taken branch.
pub fn next_refill(logic: &mut Logic, cycle: &Cycle) -> Net
    ensures width { result.width ≡ 2 }
    ensures gives { Gives logic.old logic.new (Computes cycle.now result (λ n core. next_refill core)) }
{
    let refill = cycle.registers.ahead.refill;
    let taken = is_taken(logic, cycle);
    let is_none = logic.is(refill, 0);
    let fewer = logic.minus(refill, 1);
    let left = logic.choose(is_none, refill, fewer);
    logic.choose(taken, constant(2, REFILL), left)
}

/// A behind the cycle, where the next word takes its byte there: it stands behind an addition or a constant.
pub fn next_a_taken(logic: &mut Logic, cycle: &Cycle) -> Net
    ensures width { result.width ≡ 32 }
    ensures gives { Gives logic.old logic.new (Computes cycle.now result (λ n core. next_a_taken core)) }
{
    let machine = cycle.registers.machine;
    let sum = logic.add(machine.b, machine.a);
    logic.choose(cycle.word.is_ldi, cycle.loaded, sum)
}
