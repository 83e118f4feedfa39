//! The machine as a circuit of one clock: a netlist that is the core with an image in it. One clock of the circuit is one cycle of
//! the machine, for every number of on-chip words and of words of memory, every shape of the method cache, and every wait of a
//! memory on the chip.
//!
//! A block RAM gives a word a clock after its place. So what a cycle reads is read in the cycle before, at the place that it
//! will be: the ROM two words ahead, the on-chip words at the next SP and at the place that the next word loads, the byte of the
//! method at the next jpc. What is written at a place as it is read is passed on.
#![tactic(auto)]

mod cache;
mod circuit;
mod load;
mod nets;
mod port;
mod registers;
mod start;

pub use circuit::{bare_circuit_of, circuit_of};
