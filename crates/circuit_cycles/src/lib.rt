//! Clocks of the circuit are cycles of the machine.
#![tactic(auto)]

pub mod laws;
