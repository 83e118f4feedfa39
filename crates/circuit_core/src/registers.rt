//! The nets of the registers of the circuit, and of the output registers of its block RAMs.

ghost use Rattle.std.specs.Prelude.{◌≡◌, ◌≤◌};

use netlist::Net;

/// The registers of the machine itself.
#[derive(Clone, Copy)]
pub struct Machine {
    /// The two top words of the stack.
    pub a: Net,
    pub b: Net,
    /// The on-chip places of the word below B, of the locals, and the one that is addressed.
    pub sp: Net,
    pub vp: Net,
    pub ar: Net,
    /// The place of the next byte of the method.
    pub jpc: Net,
    /// The address of the microinstruction.
    pub mpc: Net,
    /// The bytes behind the opcode, and the opcode.
    pub operand: Net,
    pub opcode: Net,
    /// 0 while it runs, 1 once it has ended, 2 where an object wasn't caught.
    pub halt: Net,
    pub ghost a_width: { a.width ≡ 32 },
    pub ghost b_width: { b.width ≡ 32 },
    pub ghost some_places: { 6 ≤ sp.width },
    pub ghost few_places: { sp.width ≤ 31 },
    pub ghost vp_width: { vp.width ≡ sp.width },
    pub ghost ar_width: { ar.width ≡ sp.width },
    pub ghost jpc_width: { jpc.width ≡ 16 },
    pub ghost mpc_width: { mpc.width ≡ 11 },
    pub ghost operand_width: { operand.width ≡ 32 },
    pub ghost opcode_width: { opcode.width ≡ 8 },
    pub ghost halt_width: { halt.width ≡ 2 },
}

/// What stands ready for the next cycle.
#[derive(Clone, Copy)]
pub struct Ahead {
    /// The word of the ROM at the address of the microinstruction.
    pub word: Net,
    /// The stalled cycles that are left behind a taken branch of the microcode.
    pub refill: Net,
    /// 1 until the block RAMs were read for the first time.
    pub starting: Net,
    /// Whether the word at SP, and that at the place that the microinstruction loads, was written as it was read.
    pub below_passed: Net,
    pub place_passed: Net,
    /// The on-chip word that was written.
    pub passed: Net,
    pub ghost word_width: { word.width ≡ 16 },
    pub ghost refill_width: { refill.width ≡ 2 },
    pub ghost starting_width: { starting.width ≡ 1 },
    pub ghost passed_width: { passed.width ≡ 32 },
}

/// The port of the main memory.
#[derive(Clone, Copy)]
pub struct Port {
    /// The cycles until it is ready.
    pub count: Net,
    /// The word that was read last, but where it is still in the memory's output register.
    pub value: Net,
    /// Whether a read has begun in the cycle before, and whether its place is one of the memory's.
    pub reading: Net,
    pub within: Net,
    /// Where the next write goes.
    pub write_address: Net,
    pub ghost count_width: { count.width ≡ 7 },
    pub ghost value_width: { value.width ≡ 32 },
    pub ghost write_address_width: { write_address.width ≡ 32 },
}

/// The current method, and the load of one.
#[derive(Clone, Copy)]
pub struct Method {
    /// Its place in the main memory.
    pub place: Net,
    /// The place of its first word in the ring, and how many words it has.
    pub base: Net,
    pub words: Net,
    /// The cycles that are left of those in which a load reads the method's record.
    pub header: Net,
    /// The words that are still to be written, and the cycles that are left of a word's turn behind this one.
    pub left: Net,
    pub turn: Net,
    /// The place in the main memory of the word that is read, and that in the ring of the word that is written.
    pub source: Net,
    pub target: Net,
    /// How many words of the block that is filled are written, and the block with which the next block begins.
    pub in_block: Net,
    pub next_block: Net,
    pub ghost few_places: { place.width ≤ 32 },
    pub ghost few_ring: { base.width ≤ 31 },
    pub ghost words_width: { words.width ≡ 16 },
    pub ghost header_width: { header.width ≡ 3 },
    pub ghost left_width: { left.width ≡ 16 },
    pub ghost turn_width: { turn.width ≡ 7 },
    pub ghost source_width: { source.width ≡ place.width },
    pub ghost target_width: { target.width ≡ base.width },
}

/// The output registers of the block RAMs: the ROM's, those of the on-chip words at SP and at the place that is loaded, that of
/// the method cache's ring, and the main memory's.
#[derive(Clone, Copy)]
pub struct ReadOuts {
    pub rom: Net,
    pub below: Net,
    pub loaded: Net,
    pub ring: Net,
    pub main: Net,
    pub ghost rom_width: { rom.width ≡ 16 },
    pub ghost below_width: { below.width ≡ 32 },
    pub ghost loaded_width: { loaded.width ≡ 32 },
    pub ghost ring_width: { ring.width ≡ 32 },
    pub ghost main_width: { main.width ≡ 32 },
}

/// All registers but the tags.
#[derive(Clone, Copy)]
pub struct Registers {
    pub machine: Machine,
    pub ahead: Ahead,
    pub port: Port,
    pub method: Method,
    pub read_outs: ReadOuts,
}
