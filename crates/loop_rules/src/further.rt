//! Ints that are known where they are pushed (JVM Specification SE 8, 4.7.2 and 6.5): constants, local variables into which only one
//! int is stored, lengths of arrays that are made in the method or held in fields, and what is computed of such. Definitions and
//! laws stand in `specs/`; the code finds the instructions that may have written a local variable last.

pub mod laws;
mod search;
mod table;
mod writes;

pub use search::{Stops, backs};
pub use table::{KnownInt, KnownTable, known_at};
pub use writes::{LastWrites, last_writes, nearest};
