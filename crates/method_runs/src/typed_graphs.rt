//! Graphs of the methods of typed programs (JVM Specification SE 8, 4.10.1.6): control stays at instructions of a method's code, and
//! each method with code has a graph and a live graph. Definitions and laws alone: they stand in `specs/`.

pub mod laws;
