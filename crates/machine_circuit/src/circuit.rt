//! The circuit that is a machine with an image in it.

ghost use Rattle.std.specs.Prelude.{◌≡◌, ◌==◌, ◌&&◌, ◌≤◌, ◌<◌, ◌^◌, ℕ, Bool, IfOk};
ghost use Rattle.jop_core.specs.Reset.{CanStart, CanStartBare};
ghost use Rattle.machine_memory.specs.Stack.Size.{IsSize};
ghost use Rattle.netlist.specs.Meaning.{bit_of, word_on};
ghost use Rattle.netlist.specs.WellFormed.{IsNetlist};
ghost use Rattle.circuit_build.specs.Wiring.{Gives};
ghost use Rattle.circuit_cycles.specs.Core.{Core, byte_place, load_place, next_a_taken, next_jpc, next_word, ring_place};
ghost use Rattle.circuit_core.specs.Standing.{Stands};
ghost use Rattle.circuit_code.specs.Taking.{Takes};
ghost use Rattle.machine_circuit.specs.Circuits.{IsCircuitOf, IsBareCircuitOf};
ghost use Rattle.machine_circuit.specs.Loading.{HasShape};
ghost use Rattle.machine_circuit.specs.Next.{HoldsNext, MovesOn};
ghost use Rattle.machine_circuit.specs.Shapes.{shape_of};

use crate::cache::{look_up, set_tags};
use crate::load::{next_base, set_load, set_ring};
use crate::nets::{Next, Switch, Tag};
use crate::port::set_main;
use crate::registers::registers;
use crate::start::Start;
use base::laws::packed_has_words;
use base::pack;
use circuit_build::{BuildFault, Logic, Parts, always, constant, finish, never};
use circuit_code::{
    byte, byte_place, next_a_taken, next_halt, next_jpc, next_mpc, next_opcode, next_operand,
    next_refill, next_word, ring_place, rom_place, takes_at_a,
};
use circuit_core::{
    Cycle, Shape, Word, next_a, next_ar, next_b, next_sp, next_vp, place_of, write_place, writes,
    written,
};
use image_file::Bare;
use machine_memory::timing::Config;
use microcode::isa::Operation;
use netlist::{Net, Netlist, ReadPort, WritePort};
use std::alloc::Global;

/// Sets the ROM's place and the registers that go with it, and gives the word that stands ready behind the cycle.
fn set_rom(logic: &mut Logic, parts: &mut Parts, cycle: &Cycle, byte: Net) -> Net
    requires { byte.width ≡ 8 }
    ensures width { result.width ≡ 16 }
    ensures gives { Gives logic.old logic.new (Takes cycle.now byte result (λ n core. next_word core)) }
{
    let registers = cycle.registers;
    let mpc = next_mpc(logic, cycle, byte);
    let word = next_word(logic, cycle, byte);
    let refill = next_refill(logic, cycle);
    let place = rom_place(logic, cycle, byte);
    parts.set_next(registers.machine.mpc, mpc);
    parts.set_next(registers.ahead.word, word);
    parts.set_next(registers.ahead.refill, refill);
    let write = WritePort {
        when: never(),
        place: constant(11, 0),
        word: constant(16, 0),
    };
    let read = ReadPort {
        when: always(),
        place,
    };
    parts.set_ports(registers.read_outs.rom, write, read);
    word
}

/// Sets the places and the bytes of the machine, which decide where memories are read.
fn set_places(logic: &mut Logic, parts: &mut Parts, cycle: &Cycle, byte: Net) -> Next
    requires { byte.width ≡ 8 }
    ensures { Gives logic.old logic.new (MovesOn cycle.now byte result) }
{
    let machine = cycle.registers.machine;
    let word = set_rom(logic, parts, cycle, byte);
    let next = Next {
        word: Word::new(logic, word),
        sp: next_sp(logic, cycle),
        vp: next_vp(logic, cycle),
        ar: next_ar(logic, cycle),
        operand: next_operand(logic, cycle, byte),
        jpc: next_jpc(logic, cycle),
    };
    parts.set_next(machine.sp, next.sp);
    parts.set_next(machine.vp, next.vp);
    parts.set_next(machine.ar, next.ar);
    parts.set_next(machine.operand, next.operand);
    parts.set_next(machine.jpc, next.jpc);
    next
}

/// Sets the other registers of the machine.
fn set_machine(logic: &mut Logic, parts: &mut Parts, cycle: &Cycle, byte: Net, input: Net)
    requires byte { byte.width ≡ 8 }
    requires input { input.width ≡ 32 }
{
    let machine = cycle.registers.machine;
    let a = next_a(logic, cycle, input);
    let b = next_b(logic, cycle);
    let opcode = next_opcode(logic, cycle, byte);
    let halt = next_halt(logic, cycle);
    parts.set_next(machine.a, a);
    parts.set_next(machine.b, b);
    parts.set_next(machine.opcode, opcode);
    parts.set_next(machine.halt, halt);
    parts.set_next(cycle.registers.ahead.starting, never());
}

/// The place that the next microinstruction loads.
fn next_load_place(logic: &mut Logic, next: &Next) -> Net
    ensures width { result.width ≡ next.now.vp.width }
    ensures gives { Gives logic.old logic.new
        (λ ws. (n : ℕ) (core : Core) → HoldsNext n ws next.now core → word_on ws result ≡ load_place n core) }
{
    place_of(logic, &next.word, next.vp, next.ar, next.operand)
}

/// Whether the place that is read is written in the same cycle.
fn is_passed(logic: &mut Logic, write: &WritePort, place: Net) -> Net
    ensures width { result.width ≡ write.now.when.width }
    ensures gives { Gives logic.old logic.new
        (λ ws. (writes : Bool) → word_on ws write.now.when ≡ bit_of writes
        → word_on ws result ≡ bit_of (writes && word_on ws write.now.place == word_on ws place)) }
{
    let same = logic.equal(write.place, place);
    logic.and(write.when, same)
}

/// Sets both block RAMs of the on-chip words, which are read at the next SP and at the place that the next microinstruction
/// loads, and what is passed on to the next cycle.
fn set_on_chip(logic: &mut Logic, parts: &mut Parts, cycle: &Cycle, next: &Next) {
    let registers = cycle.registers;
    let write = WritePort {
        when: writes(logic, cycle),
        place: write_place(logic, cycle),
        word: written(logic, cycle),
    };
    let loaded = next_load_place(logic, next);
    let below_passed = is_passed(logic, &write, next.sp);
    let place_passed = is_passed(logic, &write, loaded);
    parts.set_next(registers.ahead.below_passed, below_passed);
    parts.set_next(registers.ahead.place_passed, place_passed);
    parts.set_next(registers.ahead.passed, write.word);
    let at_sp = ReadPort {
        when: always(),
        place: next.sp,
    };
    let at_place = ReadPort {
        when: always(),
        place: loaded,
    };
    parts.set_ports(registers.read_outs.below, write, at_sp);
    parts.set_ports(registers.read_outs.loaded, write, at_place);
}

/// The place in the ring of the word that has the next byte, of a method that begins at `base`.
fn next_ring_place(logic: &mut Logic, cycle: &Cycle, shape: &Shape, next: &Next, base: Net) -> Net
    requires { base.width ≡ shape.now.ring_bits }
    ensures width { result.width ≡ shape.now.ring_bits }
    ensures gives { Gives logic.old logic.new
        (λ ws. (n : ℕ) (core : Core) → Stands n ws cycle.now core → HoldsNext n ws next.now core → next_jpc core < 2 ^ 16
        → word_on ws result ≡ ring_place shape.now.ring_bits shape.now.ring_words (word_on ws base)
        (byte_place (next_word core) (next_a_taken core) (next_jpc core))) }
{
    let a = next_a_taken(logic, cycle);
    let at_a = takes_at_a(logic, &next.word);
    let place = byte_place(logic, at_a, a, next.jpc);
    ring_place(logic, shape.ring_bits, shape.ring_words, base, place)
}

/// Sets the method cache, its ring and the main memory.
fn set_memories(
    logic: &mut Logic,
    parts: &mut Parts,
    cycle: &Cycle,
    shape: &Shape,
    tags: &[Tag],
    next: &Next,
)
    requires { HasShape (shape_of shape.now) cycle.now.registers.method }
{
    let registers = cycle.registers;
    let found = look_up(logic, shape, tags, registers.machine.a);
    let s = Switch::new(logic, cycle, shape, &found);
    let base = next_base(logic, cycle, shape, &found, &s);
    parts.set_next(registers.method.base, base);
    set_load(logic, parts, cycle, shape, &found, &s);
    set_tags(logic, parts, &registers.method, tags, s.writes);
    let place = next_ring_place(logic, cycle, shape, next, base);
    set_ring(parts, cycle, &s, place);
    set_main(logic, parts, cycle, shape, &s);
}

/// The word that `ldin` pushes: the byte that is given, or all bits where there is none.
fn input_word(logic: &mut Logic, parts: &mut Parts) -> Net
    ensures { result.width ≡ 32 }
{
    let data = parts.input(b"in_data", 8);
    let is_valid = parts.input(b"in_valid", 1);
    let byte = logic.fit(data, 32);
    logic.choose(is_valid, byte, constant(32, u64::from(u32::MAX)))
}

/// Adds what is put out.
fn add_outputs(logic: &mut Logic, parts: &mut Parts, cycle: &Cycle) {
    let takes = cycle.does(logic, Operation::Ldin as u64);
    let puts = cycle.does(logic, Operation::Stout as u64);
    let byte = logic.part(cycle.registers.machine.a, 0, 8);
    parts.output(b"in_take", takes);
    parts.output(b"out_data", byte);
    parts.output(b"out_put", puts);
    parts.output(b"halted", cycle.registers.machine.halt);
}

/// The tags of all blocks, at the start.
fn tags(logic: &mut Logic, parts: &mut Parts, shape: &Shape, start: &Start<'_>) -> Vec<Tag> {
    let mut tags = logic.list();
    for block in 0..shape.blocks {
        let tag = Tag::new(parts, shape, start, block);
        logic.push(&mut tags, tag);
    }
    tags
}

/// The circuit of a machine of this shape that begins so.
fn circuit(alloc: Global, start: &Start<'_>, shape: &Shape) -> Result<Netlist, BuildFault>
    ensures { IfOk result IsNetlist }
{
    let mut logic = Logic::new(alloc);
    let mut parts = Parts::new(alloc);
    let registers = registers(&mut logic, &mut parts, shape, start);
    let tags = tags(&mut logic, &mut parts, shape, start);
    let input = input_word(&mut logic, &mut parts);
    let cycle = Cycle::new(&mut logic, registers);
    let byte = byte(&mut logic, &cycle);
    let next = set_places(&mut logic, &mut parts, &cycle, byte);
    set_machine(&mut logic, &mut parts, &cycle, byte, input);
    set_on_chip(&mut logic, &mut parts, &cycle, &next);
    set_memories(&mut logic, &mut parts, &cycle, shape, &tags, &next);
    add_outputs(&mut logic, &mut parts, &cycle);
    finish(alloc, b"jop", parts, logic)
}

/// The circuit that is a machine with so many on-chip words and these settings, and with the words of a linked image in it.
pub fn circuit_of(
    alloc: Global,
    image: &[u32],
    on_chip_words: u32,
    config: Config,
) -> Result<Netlist, BuildFault>
    requires size { IsSize on_chip_words }
    requires start { CanStart image.now config }
    ensures { IfOk result (λ n. IsCircuitOf image.now on_chip_words config n) }
{
    circuit(
        alloc,
        &Start::linked(image),
        &Shape::new(on_chip_words, config),
    )
}

/// The circuit that is a machine with so many on-chip words and these settings, and with a bare image in it.
pub fn bare_circuit_of(
    alloc: Global,
    bare: &Bare,
    on_chip_words: u32,
    config: Config,
) -> Result<Netlist, BuildFault>
    requires size { IsSize on_chip_words }
    requires blocks { CanStartBare bare.now config }
    ensures { IfOk result (λ n. IsBareCircuitOf bare.now on_chip_words config n) }
{
    // The law is for the proof.
    packed_has_words();
    let Ok(code) = pack(alloc, bare.code()) else {
        return Err(BuildFault::NoMemory);
    };
    circuit(
        alloc,
        &Start::bare(bare, &code),
        &Shape::new(on_chip_words, config),
    )
}
