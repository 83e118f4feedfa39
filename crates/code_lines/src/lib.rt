//! Lines of code (JVM Specification SE 8, 4.7.3, 4.9 and 6.5): the instructions of a method with their rows, which places
//! branches, switches and handlers name, what stands directly before a place, and which local variables an instruction writes.
//! Definitions and laws alone: they stand in `specs/`.
#![tactic(auto)]

pub mod laws;
