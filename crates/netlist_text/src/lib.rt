//! The text of a netlist in Verilog-2005 (IEEE 1364-2005): one module, a line for each assignment.
#![tactic(auto)]

/// A text that was written by hand.
pub mod laws;
mod lines;
mod pieces;
mod rams;
mod text;
mod wires;

pub use text::write_netlist;
