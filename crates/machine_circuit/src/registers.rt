//! The registers of the circuit and its block RAMs, at the start.

ghost use Rattle.std.specs.Prelude.{◌≡◌};
ghost use Rattle.machine_circuit.specs.Loading.{HasShape};
ghost use Rattle.machine_circuit.specs.Shapes.{shape_of};

use crate::start::{Start, first_on_chip, words};
use circuit_build::{Logic, Parts};
use circuit_core::{Ahead, Machine, Method, Port, ReadOuts, Registers, Shape};
use jop_core::places::STACK;
use microcode::{WORDS, entry, rom};

/// The registers of a machine at reset.
fn machine(parts: &mut Parts, shape: &Shape, start: &Start<'_>) -> Machine
    ensures { result.sp.width ≡ shape.now.on_chip_bits }
{
    let bits = shape.on_chip_bits;
    let opcode = start.opcode();
    let sp = (STACK + start.max_locals + 2) % shape.on_chip_words;
    Machine {
        a: parts.register(32, 0),
        b: parts.register(32, 0),
        sp: parts.register(bits, u64::from(sp)),
        vp: parts.register(bits, u64::from(STACK)),
        ar: parts.register(bits, 0),
        jpc: parts.register(16, 1),
        mpc: parts.register(11, u64::from(entry(opcode))),
        operand: parts.register(32, 0),
        opcode: parts.register(8, u64::from(opcode)),
        halt: parts.register(2, 0),
    }
}

/// What stands ready at the start.
fn ahead(parts: &mut Parts, start: &Start<'_>) -> Ahead {
    Ahead {
        word: parts.register(16, u64::from(rom(entry(start.opcode())))),
        refill: parts.register(2, 0),
        starting: parts.register(1, 1),
        below_passed: parts.register(1, 0),
        place_passed: parts.register(1, 0),
        passed: parts.register(32, 0),
    }
}

/// An idle port.
fn port(parts: &mut Parts) -> Port {
    Port {
        count: parts.register(7, 0),
        value: parts.register(32, 0),
        reading: parts.register(1, 0),
        within: parts.register(1, 0),
        write_address: parts.register(32, 0),
    }
}

/// Boot's method, which lies in the first blocks.
fn method(parts: &mut Parts, shape: &Shape, start: &Start<'_>) -> Method
    ensures { HasShape (shape_of shape.now) result }
{
    let words = start.code_words;
    let next_block = words.div_ceil(shape.block_words) % shape.blocks;
    Method {
        place: parts.register(shape.memory_bits, u64::from(start.boot)),
        base: parts.register(shape.ring_bits, 0),
        words: parts.register(16, u64::from(words)),
        header: parts.register(3, 0),
        left: parts.register(16, 0),
        turn: parts.register(7, 0),
        source: parts.register(shape.memory_bits, 0),
        target: parts.register(shape.ring_bits, 0),
        in_block: parts.register(shape.in_block_bits, 0),
        next_block: parts.register(shape.block_bits, u64::from(next_block)),
    }
}

/// The block RAMs with their first words: the ROM, the on-chip words twice, the ring, which has boot's words, and the main
/// memory, which has an image.
fn read_outs(logic: &mut Logic, parts: &mut Parts, shape: &Shape, start: &Start<'_>) -> ReadOuts {
    let rom = words(logic, &WORDS, |word: u16| u64::from(word));
    let below = first_on_chip(logic, start, shape);
    let loaded = first_on_chip(logic, start, shape);
    let ring = words(logic, start.code, |word: u32| u64::from(word));
    let main = words(logic, start.image, |word: u32| u64::from(word));
    ReadOuts {
        rom: parts.memory(2048, 16, rom),
        below: parts.memory(shape.on_chip_words as usize, 32, below),
        loaded: parts.memory(shape.on_chip_words as usize, 32, loaded),
        ring: parts.memory(shape.ring_words as usize, 32, ring),
        main: parts.memory(shape.memory_words as usize, 32, main),
    }
}

/// All of them but the tags.
pub(crate) fn registers(
    logic: &mut Logic,
    parts: &mut Parts,
    shape: &Shape,
    start: &Start<'_>,
) -> Registers
    ensures on_chip { result.machine.sp.width ≡ shape.now.on_chip_bits }
    ensures method { HasShape (shape_of shape.now) result.method }
{
    Registers {
        machine: machine(parts, shape, start),
        ahead: ahead(parts, start),
        port: port(parts),
        method: method(parts, shape, start),
        read_outs: read_outs(logic, parts, shape, start),
    }
}
