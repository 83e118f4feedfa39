//! The parts of a netlist.

use crate::net::{Expression, Net};
use base::Items;

/// An input of the circuit.
#[derive(Drop)]
pub struct InputPort {
    /// Its name: lower-case letters and underscores.
    pub name: Items<u8>,
    /// How many bits it has.
    pub width: u32,
}

/// An output of the circuit.
#[derive(Drop)]
pub struct OutputPort {
    /// Its name: lower-case letters and underscores.
    pub name: Items<u8>,
    /// The net that it puts out.
    pub net: Net,
}

/// A register. It has the width of its next word.
#[derive(Drop)]
pub struct Register {
    /// Its word at the start.
    pub first: u64,
    /// Its word after a clock's edge.
    pub next: Net,
}

/// What a block RAM writes at a clock's edge.
#[derive(Clone, Copy)]
pub struct WritePort {
    /// One bit: whether it writes.
    pub when: Net,
    /// At which place.
    pub place: Net,
    /// Which word.
    pub word: Net,
}

/// What a block RAM reads at a clock's edge.
#[derive(Clone, Copy)]
pub struct ReadPort {
    /// One bit: whether it reads.
    pub when: Net,
    /// At which place.
    pub place: Net,
}

/// A block RAM. Its words have the width of the word that is written.
#[derive(Drop)]
pub struct BlockRam {
    /// How many words it has.
    pub words: usize,
    /// Its first words at the start; those behind are 0.
    pub first: Items<u64>,
    /// What it writes.
    pub write: WritePort,
    /// What it reads.
    pub read: ReadPort,
}

/// A circuit.
#[derive(Drop)]
pub struct Netlist {
    /// The name of its module: lower-case letters and underscores.
    pub name: Items<u8>,
    /// What comes in beside the clock.
    pub inputs: Items<InputPort>,
    /// The wires, each behind those that it stands on.
    pub wires: Items<Expression>,
    /// The registers.
    pub registers: Items<Register>,
    /// The block RAMs.
    pub memories: Items<BlockRam>,
    /// What it puts out.
    pub outputs: Items<OutputPort>,
}
