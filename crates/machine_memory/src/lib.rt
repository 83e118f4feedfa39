//! The on-chip words, main memory behind its port, and the settings of a machine.
#![tactic(auto)]

pub mod stack;
pub mod timing;
