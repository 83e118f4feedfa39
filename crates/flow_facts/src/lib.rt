//! Facts of how often places of methods are visited, and of what invokes run, as a text gives them.
//!
//! A line is empty, begins with `#`, or is one of these, with single spaces:
//!
//! - `NAME PC total<=N`: in an activation of the method NAME the instruction at PC is visited at most N times; with
//!   `r` behind PC it is the raise step there,
//! - `NAME PC total<=N per PC2`: so often from each entry of the loop with its header at PC2 to the next,
//! - `NAME PC total<=N in ROOT`: so often in an activation of the method ROOT, with all that runs while it does,
//! - `NAME PC only NAME2 NAME3 ..`: the invoke at PC runs one of these methods, of which no two are the same.
//!
//! A name has a byte at least, and no space. Numbers are decimal, without leading zeros, and at most 4,294,967,295. A
//! place stands once in each scope, and an invoke once. Each line of this grammar is read; which of them a command
//! takes is said by the command.
#![tactic(auto)]

mod facts;
mod laws;
mod line;
mod line_reader;
mod name;
mod reading;
mod words;

pub use facts::{CountFact, Facts, Scope, TargetFact};
pub use laws::{gives_one, read_is_not_refused};
pub use line::{FactLine, NodeName, NumberedFact, OnlyLine, SaidScope, TotalLine};
pub use name::{Name, Names};
pub use reading::{FactsFault, read_facts};
