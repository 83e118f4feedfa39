//! Ints and arrays that are known where they are pushed (JVM Specification SE 8, 6.5), read off the code of a method: constants,
//! local variables into which only one int is stored, lengths of arrays, those that fields hold among them, and what is computed of such.
#![tactic(auto)]

mod answers;
mod arithmetic;
mod code;
mod knowing;
pub mod laws;
mod lines;
mod parts;
mod rounds;
mod rows;
mod tables;

pub use rounds::known_ints;
pub use tables::{known_by_constants, known_tables};
