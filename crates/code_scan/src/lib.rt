//! What the code of a method tells (JVM Specification SE 8, 4.7.3 and 6.5): which of its places instructions and handlers name,
//! what stands directly before a place, and what its instructions do with ints in local variables.
#![tactic(auto)]

pub mod laws;
mod lines;
mod naming;
mod rows;
mod scan;

pub use lines::{IntLine, int_line, int_lines};
pub use rows::{Comparison, IntRow, int_row};
pub use scan::{CodeScan, PushedInt};
