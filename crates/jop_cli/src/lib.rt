//! The program: what it does with the words of its command line.
#![tactic(auto)]

pub mod host;
pub mod laws;
mod task;
mod top;

pub use top::jop;
