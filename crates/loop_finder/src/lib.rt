//! The loops of a program that count: how often each goes round at most, found in its code and in the graphs of its methods.
#![tactic(auto)]

mod beginning;
mod body;
mod counting;
mod finding;
mod headers;
pub mod laws;
mod setting;

pub use finding::{ProgramLoops, find, find_all, find_further};
pub use headers::LoopHeaders;
