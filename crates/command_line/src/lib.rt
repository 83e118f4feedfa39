//! The commands that the words of a command line give.
#![tactic(auto)]

mod command;
mod given;
pub mod laws;
mod table;
mod words;

pub use command::{Command, Settings};
pub use words::read_words;
