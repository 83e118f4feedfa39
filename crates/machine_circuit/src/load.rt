//! The switch to a method, and its load into the cache.
//!
//! In the cycle of `stbc` the cache is looked up and word 1 of the method's record is read. Of the four stalled cycles that
//! follow, the first has that word, with the words of the code, and reads word 3, the second has that one, with the entries of
//! the exception table, and the fourth has read the first word of the code. Then each word has a turn of two cycles and the
//! wait of a read: it is written in the first one, so the last word is there when a byte of it is read.

ghost use Rattle.std.specs.Prelude.{◌≡◌, ◌+◌, ◌*◌, ◌%◌, ◌^◌, ◌<◌, ◌≤◌, ℕ, if◌then◌else◌};
ghost use Rattle.netlist.specs.Meaning.{bit_of, word_on};
ghost use Rattle.circuit_build.specs.Wiring.{Gives};
ghost use Rattle.circuit_cycles.specs.Tags.{behind};
ghost use Rattle.circuit_cycles.specs.Core.{Core, fills, has_words, next_base, next_header, next_in_block, next_left, next_next_block, next_source};
ghost use Rattle.circuit_cycles.specs.Core.{next_target, next_turn, next_words, switches};
ghost use Rattle.circuit_core.specs.Standing.{Decides, Stands};
ghost use Rattle.machine_circuit.specs.Loading.{Finds, HasShape, IsWithin, Loads, Moves};
ghost use Rattle.machine_circuit.specs.Shapes.{shape_of};

use crate::cache::first_place;
use crate::nets::{Found, Switch};
use circuit_build::{Logic, Parts, always, constant};
use circuit_core::{Cycle, Shape};
use microcode::isa::Operation;
use netlist::{Net, ReadPort, WritePort};

/// The stalled cycles of a load in which the method's record is read.
const HEADER: u64 = 4;

/// A place of a ring behind one: the first behind the last.
fn behind(logic: &mut Logic, place: Net, places: u32) -> Net
    requires { 1 ≤ places }
    ensures width { result.width ≡ place.width }
    ensures gives { Gives logic.old logic.new
        (λ ws. word_on ws place < places → places ≤ 2 ^ place.width → word_on ws result ≡ behind places (word_on ws place)) }
{
    let is_last = logic.is(place, u64::from(places.saturating_sub(1)));
    let next = logic.plus(place, 1);
    logic.choose(is_last, constant(place.width, 0), next)
}

impl Switch {
    /// What the cycle does, where the look-up of A found this.
    pub fn new(logic: &mut Logic, cycle: &Cycle, shape: &Shape, found: &Found) -> Self
        ensures { Gives logic.old logic.new
            (λ ws. (n : ℕ) (core : Core) → Stands n ws cycle.now core → Finds (shape_of shape.now) ws found.now core
            → Loads (shape_of shape.now) ws result core) }
    {
        let m = cycle.registers.method;
        let switches = cycle.does(logic, Operation::Stbc as u64);
        let is_miss = logic.not(found.is_hit);
        let is_turn = logic.is(m.turn, u64::from(shape.read_wait + 1));
        let fills = fills(logic, cycle);
        Switch {
            switches,
            misses: logic.and(switches, is_miss),
            has_words: logic.is(m.header, HEADER),
            has_entries: logic.is(m.header, HEADER - 1),
            writes: logic.and(fills, is_turn),
        }
    }
}

/// Whether the words are written: some are left, and the header is over.
fn fills(logic: &mut Logic, cycle: &Cycle) -> Net
    ensures width { result.width ≡ 1 }
    ensures gives { Gives logic.old logic.new (Decides cycle.now result fills) }
{
    let m = cycle.registers.method;
    let no_header = logic.is(m.header, 0);
    let no_words = logic.is(m.left, 0);
    let some_words = logic.not(no_words);
    logic.and(no_header, some_words)
}

/// The place in the ring of the current method's first word behind the cycle.
pub(crate) fn next_base(
    logic: &mut Logic,
    cycle: &Cycle,
    shape: &Shape,
    found: &Found,
    s: &Switch,
) -> Net
    requires { HasShape (shape_of shape.now) cycle.now.registers.method }
    ensures width { result.width ≡ found.now.base.width }
    ensures gives { Gives logic.old logic.new
        (λ ws. (n : ℕ) (core : Core) → Stands n ws cycle.now core → Loads (shape_of shape.now) ws s.now core → Finds (shape_of shape.now) ws found.now core
        → IsWithin (shape_of shape.now) core → word_on ws result ≡ next_base (shape_of shape.now) core) }
{
    let m = cycle.registers.method;
    let free = first_place(
        logic,
        m.next_block,
        shape.blocks,
        shape.block_words,
        shape.ring_bits,
    );
    let new = logic.choose(found.is_hit, found.base, free);
    logic.choose(s.switches, new, m.base)
}

/// The place of the current method behind the cycle.
fn next_place(logic: &mut Logic, cycle: &Cycle, shape: &Shape, s: &Switch) -> Net
    requires { HasShape (shape_of shape.now) cycle.now.registers.method }
    ensures width { result.width ≡ shape.now.memory_bits }
    ensures gives { Gives logic.old logic.new
        (Moves (shape_of shape.now) cycle.now s.now result (λ core. if switches core then core.a % 2 ^ shape.now.memory_bits else core.place)) }
{
    let place = logic.part(cycle.registers.machine.a, 0, shape.memory_bits);
    logic.choose(s.switches, place, cycle.registers.method.place)
}

/// Its words behind the cycle.
fn next_words(logic: &mut Logic, cycle: &Cycle, shape: &Shape, found: &Found, s: &Switch) -> Net
    ensures width { result.width ≡ 16 }
    ensures gives { Gives logic.old logic.new
        (λ ws. (n : ℕ) (core : Core) → Stands n ws cycle.now core → Loads (shape_of shape.now) ws s.now core → Finds (shape_of shape.now) ws found.now core
        → word_on ws result ≡ next_words core) }
{
    let read = logic.part(cycle.registers.read_outs.main, 0, 16);
    let kept = logic.choose(s.has_words, read, cycle.registers.method.words);
    logic.choose(s.switches, found.words, kept)
}

/// The cycles behind the cycle that are left of a load's header.
fn next_header(logic: &mut Logic, cycle: &Cycle, shape: &Shape, s: &Switch) -> Net
    ensures width { result.width ≡ 3 }
    ensures gives { Gives logic.old logic.new (Moves (shape_of shape.now) cycle.now s.now result next_header) }
{
    let m = cycle.registers.method;
    let no_header = logic.is(m.header, 0);
    let fewer = logic.minus(m.header, 1);
    let header = logic.choose(no_header, m.header, fewer);
    logic.choose(s.misses, constant(3, HEADER), header)
}

/// The words behind the cycle that are still to be written.
fn next_left(logic: &mut Logic, cycle: &Cycle, shape: &Shape, s: &Switch) -> Net
    ensures width { result.width ≡ 16 }
    ensures gives { Gives logic.old logic.new (Moves (shape_of shape.now) cycle.now s.now result next_left) }
{
    let m = cycle.registers.method;
    let fills = fills(logic, cycle);
    let ends_turn = logic.is(m.turn, 0);
    let ends = logic.and(fills, ends_turn);
    let one_less = logic.minus(m.left, 1);
    let left = logic.choose(ends, one_less, m.left);
    let read = logic.part(cycle.registers.read_outs.main, 0, 16);
    logic.choose(s.has_words, read, left)
}

/// The cycles behind the cycle that are left of a word's turn, whose first one has as many behind it as a read waits and one.
fn next_turn(logic: &mut Logic, cycle: &Cycle, shape: &Shape) -> Net
    ensures width { result.width ≡ 7 }
    ensures gives { Gives logic.old logic.new
        (λ ws. (n : ℕ) (core : Core) → Stands n ws cycle.now core → word_on ws result ≡ next_turn (shape_of shape.now) core) }
{
    let m = cycle.registers.method;
    let fills = fills(logic, cycle);
    let ends_turn = logic.is(m.turn, 0);
    let goes_on = logic.not(ends_turn);
    let is_within = logic.and(fills, goes_on);
    let less = logic.minus(m.turn, 1);
    logic.choose(is_within, less, constant(7, u64::from(shape.read_wait + 1)))
}

/// Where the first word of the code lies in the main memory, of whose method this is the number of exception table entries.
fn code_place(logic: &mut Logic, place: Net, entries: Net) -> Net
    requires { entries.width ≡ place.width }
    ensures width { result.width ≡ place.width }
    ensures gives { Gives logic.old logic.new
        (λ ws. word_on ws result ≡ (word_on ws place + 4 + 3 * word_on ws entries) % 2 ^ place.width) }
{
    let twice = logic.add(entries, entries);
    let table = logic.add(entries, twice);
    let record = logic.plus(place, 4);
    logic.add(record, table)
}

/// Where the main memory has the word that a load reads, behind the cycle.
fn next_source(logic: &mut Logic, cycle: &Cycle, shape: &Shape, s: &Switch) -> Net
    requires { HasShape (shape_of shape.now) cycle.now.registers.method }
    ensures width { result.width ≡ shape.now.memory_bits }
    ensures gives { Gives logic.old logic.new (Moves (shape_of shape.now) cycle.now s.now result (next_source (shape_of shape.now))) }
{
    let m = cycle.registers.method;
    let entries = logic.part(cycle.registers.read_outs.main, 0, shape.memory_bits);
    let first = code_place(logic, m.place, entries);
    let next = logic.plus(m.source, 1);
    let source = logic.choose(s.writes, next, m.source);
    logic.choose(s.has_entries, first, source)
}

/// Where the ring takes the next word, behind the cycle.
fn next_target(logic: &mut Logic, cycle: &Cycle, shape: &Shape, s: &Switch) -> Net
    requires { HasShape (shape_of shape.now) cycle.now.registers.method }
    ensures width { result.width ≡ shape.now.ring_bits }
    ensures gives { Gives logic.old logic.new
        (λ ws. (n : ℕ) (core : Core) → Stands n ws cycle.now core → Loads (shape_of shape.now) ws s.now core → IsWithin (shape_of shape.now) core
        → word_on ws result ≡ next_target (shape_of shape.now) core) }
{
    let m = cycle.registers.method;
    let next = behind(logic, m.target, shape.ring_words);
    let target = logic.choose(s.writes, next, m.target);
    let free = first_place(
        logic,
        m.next_block,
        shape.blocks,
        shape.block_words,
        shape.ring_bits,
    );
    logic.choose(s.misses, free, target)
}

/// How many words of the block are written, behind the cycle.
fn next_in_block(logic: &mut Logic, cycle: &Cycle, shape: &Shape, s: &Switch) -> Net
    requires { HasShape (shape_of shape.now) cycle.now.registers.method }
    ensures width { result.width ≡ shape.now.in_block_bits }
    ensures gives { Gives logic.old logic.new
        (λ ws. (n : ℕ) (core : Core) → Stands n ws cycle.now core → Loads (shape_of shape.now) ws s.now core → IsWithin (shape_of shape.now) core
        → word_on ws result ≡ next_in_block (shape_of shape.now) core) }
{
    let m = cycle.registers.method;
    let next = behind(logic, m.in_block, shape.block_words);
    let in_block = logic.choose(s.writes, next, m.in_block);
    logic.choose(s.misses, constant(shape.in_block_bits, 0), in_block)
}

/// The block that is taken next, behind the cycle.
fn next_next_block(logic: &mut Logic, cycle: &Cycle, shape: &Shape, s: &Switch) -> Net
    requires { HasShape (shape_of shape.now) cycle.now.registers.method }
    ensures width { result.width ≡ shape.now.block_bits }
    ensures gives { Gives logic.old logic.new
        (λ ws. (n : ℕ) (core : Core) → Stands n ws cycle.now core → Loads (shape_of shape.now) ws s.now core → IsWithin (shape_of shape.now) core
        → word_on ws result ≡ next_next_block (shape_of shape.now) core) }
{
    let m = cycle.registers.method;
    let is_new = logic.is(m.in_block, 0);
    let takes = logic.and(s.writes, is_new);
    let next = behind(logic, m.next_block, shape.blocks);
    logic.choose(takes, next, m.next_block)
}

/// Sets the registers of the current method and of the load.
pub(crate) fn set_load(
    logic: &mut Logic,
    parts: &mut Parts,
    cycle: &Cycle,
    shape: &Shape,
    found: &Found,
    s: &Switch,
)
    requires { HasShape (shape_of shape.now) cycle.now.registers.method }
{
    let m = cycle.registers.method;
    let place = next_place(logic, cycle, shape, s);
    let words = next_words(logic, cycle, shape, found, s);
    let header = next_header(logic, cycle, shape, s);
    let left = next_left(logic, cycle, shape, s);
    let turn = next_turn(logic, cycle, shape);
    let source = next_source(logic, cycle, shape, s);
    let target = next_target(logic, cycle, shape, s);
    let in_block = next_in_block(logic, cycle, shape, s);
    let next_block = next_next_block(logic, cycle, shape, s);
    parts.set_next(m.place, place);
    parts.set_next(m.words, words);
    parts.set_next(m.header, header);
    parts.set_next(m.left, left);
    parts.set_next(m.turn, turn);
    parts.set_next(m.source, source);
    parts.set_next(m.target, target);
    parts.set_next(m.in_block, in_block);
    parts.set_next(m.next_block, next_block);
}

/// Sets the ring's ports: a load writes it, and it is read at this place.
pub(crate) fn set_ring(parts: &mut Parts, cycle: &Cycle, s: &Switch, place: Net) {
    let write = WritePort {
        when: s.writes,
        place: cycle.registers.method.target,
        word: cycle.registers.read_outs.main,
    };
    let read = ReadPort {
        when: always(),
        place,
    };
    parts.set_ports(cycle.registers.read_outs.ring, write, read);
}

/// Where a load reads the main memory: word 3 of the record, and then the code.
pub(crate) fn load_read_place(logic: &mut Logic, cycle: &Cycle, s: &Switch) -> Net
    ensures width { result.width ≡ cycle.now.registers.method.place.width }
    ensures gives { Gives logic.old logic.new
        (λ ws. (n : ℕ) (core : Core) → Stands n ws cycle.now core → word_on ws s.now.has_words ≡ bit_of (has_words core)
        → word_on ws result ≡ (if has_words core then (core.place + 3) % 2 ^ cycle.now.registers.method.place.width else core.source)) }
{
    let m = cycle.registers.method;
    let third = logic.plus(m.place, 3);
    logic.choose(s.has_words, third, m.source)
}
