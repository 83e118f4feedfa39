//! Graphs of methods (JVM Specification SE 8, 2.6, 2.10 and 6.5): where control goes from each instruction and from each raise
//! step, which methods an invoke may run, which methods can end, and what a step does to the frames of a state. The
//! definitions stand in `specs/`.
#![tactic(auto)]

mod flow;
pub mod laws;
mod timing;

pub use flow::{Call, FlowMethod, FlowProgram, HandlerRange};
pub use timing::Timing;
