//! What needs of memory promise (JVM Specification SE 8, 2.5.2 and 2.5.3), along runs of the bytecode, ended or not: with the words
//! of the stack need no invoke raises a StackOverflowError, and with those of the heap need no instruction raises an
//! OutOfMemoryError as long as loops keep their bounds and arrays their lengths. Definitions and laws alone: they stand in `specs/`.
#![tactic(auto)]

pub mod laws;
