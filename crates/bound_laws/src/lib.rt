//! Laws of bounds of execution time: numbers of methods exist where a bound isn't forbidden but for its size, and one cause at most
//! forbids a bound. Definitions and laws alone: they stand in `specs/`.
#![tactic(auto)]

pub mod laws;
pub mod soundness;
