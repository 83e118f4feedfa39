//! Netlists of one clock: registers, block RAMs and the logic between them; what a netlist means, which ones are well formed, and
//! what one does at a clock.
//!
//! A net has a width of 1 to 64 bits, and at each clock a word below 2 to the power of its width. A wire is one expression over nets
//! that stand before it, so there are no loops of wires by form. A block RAM is written and read at the clock's edge, a word each;
//! the word that is read stands in its output register until it reads again. What a RAM gives at a place that is written at the
//! same edge, and beyond its words, is any word: a circuit that relies on neither is right on each kind of block RAM.
#![tactic(auto)]

mod arithmetic;
mod checks;
mod circuit;
/// Laws of netlists, and worked examples.
pub mod laws;
mod net;
mod parts;
mod ram;
mod words;

pub use checks::{are_input_words, are_ram_words, is_netlist, is_width};
pub use circuit::Circuit;
pub use net::{BinaryOperator, Driver, Expression, Net};
pub use parts::{BlockRam, InputPort, Netlist, OutputPort, ReadPort, Register, WritePort};
