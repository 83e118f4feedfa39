//! The main memory and its port.
//!
//! A read is in the memory's output register a cycle after it began, and a cycle later in the register of the value: the ROM has
//! a wait behind each read.

ghost use Rattle.std.specs.Prelude.{◌≡◌, ◌≤◌, ℕ, nat_lt, if◌then◌else◌};
ghost use Rattle.netlist.specs.Meaning.{bit_of, word_on};
ghost use Rattle.circuit_build.specs.Wiring.{Gives};
ghost use Rattle.circuit_cycles.specs.Words.{stmra, stmwa, stmwd};
ghost use Rattle.circuit_cycles.specs.Core.{Core, does, main_place, main_writes, next_count, next_value};
ghost use Rattle.circuit_core.specs.Standing.{Computes, Stands};
ghost use Rattle.machine_circuit.specs.Loading.{HasShape, Moves};
ghost use Rattle.machine_circuit.specs.Shapes.{shape_of};

use crate::load::load_read_place;
use crate::nets::Switch;
use circuit_build::{Logic, Parts, always, constant};
use circuit_core::{Cycle, Shape};
use microcode::isa::Operation;
use netlist::{Net, ReadPort, WritePort};

/// Whether a word of 32 bits is a place of a memory of so many words.
fn is_within(logic: &mut Logic, place: Net, words: u32) -> Net
    ensures width { result.width ≡ 1 }
    ensures gives { Gives logic.old logic.new (λ ws. word_on ws result ≡ bit_of (nat_lt (word_on ws place) words)) }
{
    logic.less(place, constant(32, u64::from(words)))
}

/// The cycles until the port is ready, behind the cycle, where it begins a read or a write or neither.
fn next_count(logic: &mut Logic, cycle: &Cycle, shape: &Shape, reads: Net, writes: Net) -> Net
    ensures width { result.width ≡ 7 }
    ensures gives { Gives logic.old logic.new
        (λ ws. (n : ℕ) (core : Core) → Stands n ws cycle.now core → word_on ws reads ≡ bit_of (does stmra core)
        → word_on ws writes ≡ bit_of (does stmwd core) → word_on ws result ≡ next_count (shape_of shape.now) core) }
{
    let count = cycle.registers.port.count;
    let is_ready = logic.is(count, 0);
    let fewer = logic.minus(count, 1);
    let ticked = logic.choose(is_ready, count, fewer);
    let gone = logic.choose(cycle.goes, ticked, count);
    let of_write = constant(7, u64::from(shape.write_wait + 1));
    let of_read = constant(7, u64::from(shape.read_wait + 1));
    let written = logic.choose(writes, of_write, gone);
    logic.choose(reads, of_read, written)
}

/// The word that was read last, behind the cycle: past the end of the memory it is 0.
fn next_value(logic: &mut Logic, cycle: &Cycle) -> Net
    ensures width { result.width ≡ 32 }
    ensures gives { Gives logic.old logic.new (Computes cycle.now result (λ n core. next_value core)) }
{
    let port = cycle.registers.port;
    let main = cycle.registers.read_outs.main;
    let read = logic.choose(port.within, main, constant(32, 0));
    logic.choose(port.reading, read, port.value)
}

/// Where the next write goes, behind the cycle.
fn next_write_address(logic: &mut Logic, cycle: &Cycle) -> Net
    ensures width { result.width ≡ 32 }
    ensures gives { Gives logic.old logic.new
        (Computes cycle.now result (λ n core. if does stmwa core then core.a else core.write_address)) }
{
    let addresses = cycle.does(logic, Operation::Stmwa as u64);
    logic.choose(
        addresses,
        cycle.registers.machine.a,
        cycle.registers.port.write_address,
    )
}

/// Where the main memory is read: at A, at word 1 of the record of the method that A is, or where a load reads.
fn main_place(logic: &mut Logic, cycle: &Cycle, shape: &Shape, s: &Switch) -> Net
    requires { HasShape (shape_of shape.now) cycle.now.registers.method }
    ensures width { result.width ≡ shape.now.memory_bits }
    ensures gives { Gives logic.old logic.new (Moves (shape_of shape.now) cycle.now s.now result (main_place (shape_of shape.now))) }
{
    let place = logic.part(cycle.registers.machine.a, 0, shape.memory_bits);
    let first = logic.plus(place, 1);
    let loaded = load_read_place(logic, cycle, s);
    let asked = logic.choose(s.switches, first, place);
    logic.choose(cycle.runs, asked, loaded)
}

/// Whether a word is written to the main memory, where the cycle begins a write: past its end none is.
fn main_writes(logic: &mut Logic, cycle: &Cycle, shape: &Shape, writes: Net) -> Net
    ensures width { result.width ≡ writes.width }
    ensures gives { Gives logic.old logic.new
        (λ ws. (n : ℕ) (core : Core) → Stands n ws cycle.now core → word_on ws writes ≡ bit_of (does stmwd core)
        → word_on ws result ≡ bit_of (main_writes (shape_of shape.now) core)) }
{
    let is_within = is_within(
        logic,
        cycle.registers.port.write_address,
        shape.memory_words,
    );
    logic.and(writes, is_within)
}

/// Sets the registers of the port, where the cycle begins a read or a write or neither.
fn set_port(
    logic: &mut Logic,
    parts: &mut Parts,
    cycle: &Cycle,
    shape: &Shape,
    reads: Net,
    writes: Net,
) {
    let port = cycle.registers.port;
    let count = next_count(logic, cycle, shape, reads, writes);
    let value = next_value(logic, cycle);
    let within = is_within(logic, cycle.registers.machine.a, shape.memory_words);
    let address = next_write_address(logic, cycle);
    parts.set_next(port.count, count);
    parts.set_next(port.value, value);
    parts.set_next(port.reading, reads);
    parts.set_next(port.within, within);
    parts.set_next(port.write_address, address);
}

/// Sets the registers of the port and the main memory's ports.
pub(crate) fn set_main(
    logic: &mut Logic,
    parts: &mut Parts,
    cycle: &Cycle,
    shape: &Shape,
    s: &Switch,
)
    requires { HasShape (shape_of shape.now) cycle.now.registers.method }
{
    let reads = cycle.does(logic, Operation::Stmra as u64);
    let writes = cycle.does(logic, Operation::Stmwd as u64);
    set_port(logic, parts, cycle, shape, reads, writes);
    let write = WritePort {
        when: main_writes(logic, cycle, shape, writes),
        place: logic.part(cycle.registers.port.write_address, 0, shape.memory_bits),
        word: cycle.registers.machine.a,
    };
    let read = ReadPort {
        when: always(),
        place: main_place(logic, cycle, shape, s),
    };
    parts.set_ports(cycle.registers.read_outs.main, write, read);
}
